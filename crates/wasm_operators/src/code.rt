ghost use Rattle.std.specs.Prelude.{◌≡◌, ⊤, [], IfOk};
ghost use Rattle.wasm_below.specs.declared.features.WasmFeatures.{WasmFeatures};
ghost use Rattle.wasm_below.specs.Fault.{DeterminesRefusal};
ghost use Rattle.wasm_below.specs.FromReader.{ReadsValue, EncodesReader, ReaderFault, SameReader};
ghost use Rattle.wasm_below.specs.Sequence.{PrefixCodeUpTo};
ghost use Rattle.wasm_below.specs.Source.{Reads, rest, offset_of, end_of};
ghost use Rattle.wasm_operators.specs.MainTheorem.{ReadSoFar};
ghost use Rattle.wasm_operators.specs.Body.{OpensBody};
ghost use Rattle.wasm_operators.specs.Locals.{OpensLocals, ReadsPastLocals};

use crate::OperatorsReader;
use crate::declarations::read_declaration;
use crate::locals::LocalsReader;
use std::alloc::{AllocError, Global};
use std::marker::Model;
use std::ops::Range;
use wasm_below::{BinaryReader, FromReader, MemoryUse, Never, Result, UsesMemory};

/// A body of a function: a reader of its bytes.
#[derive(Debug, Drop)]
pub struct FunctionBody<'a> {
    reader: BinaryReader<'a>,
}

impl<'a> Model for FunctionBody<'a> {
    ghost use Rattle.wasm_below.specs.Source.{Reader};

    ghost Value = { Reader };

    ghost view = { λ body. body.reader };
}

impl<'a> Clone for FunctionBody<'a> {
    ghost use Rattle.std.specs.Prelude.{◌≡◌, ⊤};

    ghost is_clone = { λ source copy. copy ≡ source };

    ghost is_infallible = { λ _. ⊤ };

    fn clone(&self) -> std::result::Result<FunctionBody<'a>, AllocError> {
        Ok(FunctionBody::clone(self))
    }
}

impl<'a> FunctionBody<'a> {
    /// Creates a body from the reader's position.
    pub fn new(reader: BinaryReader<'a>) -> FunctionBody<'a>
        ensures { result ≡ reader.entry }
    {
        FunctionBody { reader }
    }

    /// Reads a u32 and a body of that length. Specification: Code Section. Fails as `read_reader`
    /// does.
    pub fn read(reader: &mut BinaryReader<'a>) -> Result<FunctionBody<'a>>
        ensures reads { Reads (EncodesReader reader.old.features) ReaderFault result reader.old reader.new }
        ensures placed { IfOk result (λ body. end_of body ≡ offset_of reader.new) }
    {
        match reader.read_reader() {
            Ok(part) => Ok(FunctionBody::new(part)),
            Err(e) => Err(e),
        }
    }

    pub fn clone(&self) -> FunctionBody<'a>
        ensures { result ≡ self.now }
    {
        FunctionBody {
            reader: self.reader.clone(),
        }
    }

    /// Returns a reader at the start of the body.
    pub fn get_binary_reader(&self) -> BinaryReader<'a>
        ensures { result ≡ self.now }
    {
        self.reader.clone()
    }

    /// Returns a reader of the locals. Fails as `read_var_u32` does.
    pub fn get_locals_reader(&self) -> Result<LocalsReader<'a>>
        ensures { OpensLocals result self.now }
    {
        LocalsReader::new(self.reader.clone())
    }

    /// Returns a reader of the bytes after the locals, whose total is not checked. Fails as
    /// `read_var_u32` or `ValType::read` does.
    pub fn get_binary_reader_for_operators(&self) -> Result<BinaryReader<'a>>
        ensures { ReadsPastLocals result self.now }
    {
        let mut reader = self.reader.clone();
        let count = match reader.read_var_u32() {
            Ok(count) => count,
            Err(e) => return Err(e),
        };
        for _declaration in 0..count {
            match read_declaration(&mut reader) {
                Ok(_) => {}
                Err(e) => return Err(e),
            }
        }
        Ok(reader)
    }

    /// Returns a reader of the operators after the locals. Fails as
    /// `get_binary_reader_for_operators` does.
    ///
    /// # Examples
    ///
    /// ```
    /// let body = FunctionBody::new(BinaryReader::new_features(bytes, 0, features));
    /// body.get_operators_reader(alloc)?.visit_all_simd(&mut found)?;
    /// ```
    pub fn get_operators_reader(&self, alloc: Global) -> Result<OperatorsReader<'a>>
        ensures opens { OpensBody result self.now }
        ensures read_so_far { IfOk result (λ operators. ReadSoFar [] operators) }
        ensures room { IfOk result (λ operators. operators.room ≡ 0) }
    {
        match self.get_binary_reader_for_operators() {
            Ok(reader) => Ok(OperatorsReader::new(alloc, reader)),
            Err(e) => Err(e),
        }
    }

    /// Returns the offsets of all data of the body's reader. They may start before the body.
    pub fn range(&self) -> Range<u64>
        ensures start { result.start ≡ self.now.start }
        ensures end { result.end ≡ end_of self.now }
    {
        self.reader.range()
    }

    /// Returns the bytes of the body, its locals first.
    pub fn as_bytes(&self) -> &'a [u8]
        ensures { result.now ≡ rest self.now }
    {
        self.reader.remaining_buffer()
    }
}

impl<'a> UsesMemory for FunctionBody<'a> {
    type Memory = Never;
}

impl<'a> FromReader<'a> for FunctionBody<'a> {
    ghost encodes = { λ features text body. EncodesReader features text body };

    ghost fault = { λ m r offset. ReaderFault m r offset };

    ghost same = { λ body other. SameReader body other };

    ghost placed = { λ old body new. end_of body ≡ offset_of new };

    fn from_reader(_alloc: Global, reader: &mut BinaryReader<'a>) -> Result<FunctionBody<'a>>
        ensures reads { ReadsValue (EncodesReader reader.old.features) ReaderFault (λ old. ⊥) result reader.old reader.new }
        ensures placed { IfOk result (λ body. end_of body ≡ offset_of reader.new) }
    {
        FunctionBody::read(reader)
    }

    fn is_prefix_code()
        ensures { (features : WasmFeatures) → PrefixCodeUpTo SameReader (EncodesReader features) }
    {}

    fn determines_refusal()
        ensures { DeterminesRefusal ReaderFault }
    {}
}
