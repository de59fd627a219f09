ghost use Rattle.std.specs.Prelude.{◌≡◌, length, IfOk, IfErr};
ghost use Rattle.wasm_below.specs.Source.{SomePrefix, rest};
ghost use Rattle.wasm_imm.specs.HandlerTables.{EncodesTryTable, EncodesTryTableCount, EncodesResumeTable, EncodesHandlerCount};
ghost use Rattle.wasm_imm.specs.ListFaults.{TryTableFault, ResumeTableFault};
ghost use Rattle.wasm_imm.specs.OutOfMemory.{IsOutOfMemoryAt};

use crate::block_type::BlockType;
use crate::handlers::{Catch, Handle};
use crate::lists::{read_list, refuse_from};
use crate::members::{Catches, Handles};
use std::alloc::Global;
use wasm_below::{BinaryReader, FromReader, May, MemoryUse, Result, SizeName, UsesMemory};

const MAX_CATCHES: usize = 10000;

const MAX_HANDLERS: usize = 10000;

#[derive(Debug, PartialEq, Eq, Drop)]
pub struct TryTable {
    pub ty: BlockType,
    /// The first catch that matches is taken.
    pub catches: Catches,
}

impl TryTable {
    pub fn clone(&self, alloc: Global) -> Result<TryTable>
        ensures ok { IfOk result (λ copy. copy ≡ self.now) }
        ensures err { IfErr result (λ e. IsOutOfMemoryAt 0 e) }
    {
        match self.catches.clone(alloc) {
            Ok(catches) => Ok(TryTable {
                ty: self.ty,
                catches,
            }),
            Err(e) => Err(e),
        }
    }
}

impl UsesMemory for TryTable {
    type Memory = May;
}

impl<'a> FromReader<'a> for TryTable {
    ghost encodes = { λ features text t. EncodesTryTable text t };

    ghost fault = { λ m r offset. TryTableFault m r offset };

    ghost allocates = { λ r. SomePrefix EncodesTryTableCount (rest r) };

    /// Reads a block type and catches. Specification: Control Instructions.
    ///
    /// Fails like `BlockType::read`, then like `read_size` with the limit 10000, then like
    /// `Catch::read`. Allocates only after a count within the limit.
    fn from_reader(alloc: Global, reader: &mut BinaryReader<'a>) -> Result<TryTable> {
        let start = reader.current_position();
        let ty = match BlockType::read(reader) {
            Ok(ty) => ty,
            Err(e) => return Err(e),
        };
        match read_list::<Catch>(alloc, reader, MAX_CATCHES, SizeName::Catches) {
            Ok(catches) => Ok(TryTable { ty, catches }),
            Err(e) => Err(refuse_from(reader, start, e)),
        }
    }

    fn is_prefix_code() {}

    fn determines_refusal() {}
}

/// What `resume` handles while a continuation runs. Proposal stack switching.
#[derive(Debug, PartialEq, Eq, Drop)]
pub struct ResumeTable {
    /// The first clause that matches is taken.
    pub handlers: Handles,
}

impl ResumeTable {
    pub fn len(&self) -> usize
        ensures { result ≡ length self.now.handlers }
    {
        self.handlers.len()
    }

    pub fn clone(&self, alloc: Global) -> Result<ResumeTable>
        ensures ok { IfOk result (λ copy. copy ≡ self.now) }
        ensures err { IfErr result (λ e. IsOutOfMemoryAt 0 e) }
    {
        match self.handlers.clone(alloc) {
            Ok(handlers) => Ok(ResumeTable { handlers }),
            Err(e) => Err(e),
        }
    }
}

impl UsesMemory for ResumeTable {
    type Memory = May;
}

impl<'a> FromReader<'a> for ResumeTable {
    ghost encodes = { λ features text t. EncodesResumeTable text t };

    ghost fault = { λ m r offset. ResumeTableFault m r offset };

    ghost allocates = { λ r. SomePrefix EncodesHandlerCount (rest r) };

    /// Reads clauses. Fails like `read_size` with the limit 10000, then like `Handle::read`.
    /// Allocates only after a count within the limit.
    fn from_reader(alloc: Global, reader: &mut BinaryReader<'a>) -> Result<ResumeTable> {
        match read_list::<Handle>(alloc, reader, MAX_HANDLERS, SizeName::ResumeTable) {
            Ok(handlers) => Ok(ResumeTable { handlers }),
            Err(e) => Err(e),
        }
    }

    fn is_prefix_code() {}

    fn determines_refusal() {}
}
