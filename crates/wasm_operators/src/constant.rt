ghost use Rattle.std.specs.Prelude.{◌≡◌, [], IfOk};
ghost use Rattle.wasm_below.specs.FromReader.{ReadsValue, SameReader};
ghost use Rattle.wasm_below.specs.declared.features.WasmFeatures.{WasmFeatures};
ghost use Rattle.wasm_below.specs.Sequence.{PrefixCodeUpTo};
ghost use Rattle.wasm_below.specs.Fault.{DeterminesRefusal};
ghost use Rattle.wasm_below.specs.Source.{offset_of};
ghost use Rattle.wasm_operators.specs.Reading.{IsFresh};
ghost use Rattle.wasm_operators.specs.MainTheorem.{ReadSoFar};
ghost use Rattle.wasm_operators.specs.Constant.{EncodesConstantReader};
ghost use Rattle.wasm_operators.specs.ConstantFaults.{ConstantFault, ConstantMayAllocate};

use crate::OperatorsReader;
use crate::passing::pass_constant;
use std::alloc::{AllocError, Global};
use std::marker::Model;
use wasm_below::{BinaryReader, FromReader, May, MemoryUse, Message, Result, UsesMemory};

/// A constant expression: a reader of its bytes. Two are equal if the bytes that are left are.
#[derive(Debug, Drop)]
pub struct ConstExpr<'a> {
    reader: BinaryReader<'a>,
}

impl<'a> Model for ConstExpr<'a> {
    ghost use Rattle.wasm_below.specs.Source.{Reader};

    ghost Value = { Reader };

    ghost view = { λ c. c.reader };
}

impl<'a> ConstExpr<'a> {
    /// Creates a constant expression from the reader's position, without reading it.
    pub fn new(reader: BinaryReader<'a>) -> ConstExpr<'a>
        ensures { result ≡ reader.entry }
    {
        ConstExpr { reader }
    }

    /// Reads the operators up to the first `end`, which has to close the expression. Specification:
    /// Binary Format, Expressions.
    ///
    /// Fails with `FramesRemainConst` after that `end` if a frame is open, otherwise as the first
    /// operator in error does; with `OutOfMemory` at the start.
    ///
    /// # Examples
    ///
    /// ```
    /// let constant = ConstExpr::read(alloc, &mut reader)?;
    /// let mut list = Vec::new(alloc);
    /// constant.get_operators_reader(alloc).read_all(&mut list)?;
    /// ```
    pub fn read(alloc: Global, reader: &mut BinaryReader<'a>) -> Result<ConstExpr<'a>>
        ensures reads { ReadsValue (EncodesConstantReader reader.old.features) ConstantFault ConstantMayAllocate result reader.old reader.new }
        ensures placed { IfOk result (λ c. c.start ≡ offset_of reader.old) }
    {
        let mut operators = OperatorsReader::new(alloc, reader.clone());
        match pass_constant(&mut operators) {
            Ok(()) => {
                let after = operators.get_binary_reader();
                let size = after.current_position() - reader.current_position();
                let text = &reader.remaining_buffer()[..size];
                let constant = reader.part(text, reader.original_position());
                *reader = after;
                Ok(ConstExpr { reader: constant })
            }
            Err(e) => Err(e),
        }
    }

    pub fn get_binary_reader(&self) -> BinaryReader<'a>
        ensures { result ≡ self.now }
    {
        self.reader.clone()
    }

    pub fn get_operators_reader(&self, alloc: Global) -> OperatorsReader<'a>
        ensures reader { result.reader ≡ self.now }
        ensures fresh { IsFresh result }
        ensures read_so_far { ReadSoFar [] result }
        ensures room { result.room ≡ 0 }
    {
        OperatorsReader::new(alloc, self.reader.clone())
    }
}

impl<'a> Clone for ConstExpr<'a> {
    ghost use Rattle.std.specs.Prelude.{◌≡◌, ⊤};

    ghost is_clone = { λ source copy. copy ≡ source };

    ghost is_infallible = { λ _. ⊤ };

    fn clone(&self) -> std::result::Result<ConstExpr<'a>, AllocError> {
        Ok(ConstExpr {
            reader: self.reader.clone(),
        })
    }
}

impl<'a> PartialEq for ConstExpr<'a> {
    ghost use Rattle.wasm_operators.specs.Equality.{same_bytes, same_bytes_partial};

    ghost eq = { same_bytes };

    ghost laws = { same_bytes_partial };

    fn eq(&self, other: &ConstExpr<'a>) -> bool {
        self.reader.remaining_buffer() == other.reader.remaining_buffer()
    }
}

impl<'a> Eq for ConstExpr<'a> {
    ghost use Rattle.wasm_operators.specs.Equality.{same_bytes_equiv};

    ghost laws = { same_bytes_equiv };
}

impl<'a> UsesMemory for ConstExpr<'a> {
    type Memory = May;
}

impl<'a> FromReader<'a> for ConstExpr<'a> {
    ghost encodes = { λ features text c. EncodesConstantReader features text c };

    ghost fault = { λ m r offset. ConstantFault m r offset };

    ghost same = { λ c d. SameReader c d };

    ghost placed = { λ old c new. c.start ≡ offset_of old };

    ghost allocates = { λ old. ConstantMayAllocate old };

    fn from_reader(alloc: Global, reader: &mut BinaryReader<'a>) -> Result<ConstExpr<'a>>
        ensures reads { ReadsValue (EncodesConstantReader reader.old.features) ConstantFault ConstantMayAllocate result reader.old reader.new }
        ensures placed { IfOk result (λ c. c.start ≡ offset_of reader.old) }
    {
        ConstExpr::read(alloc, reader)
    }

    fn is_prefix_code()
        ensures { (features : WasmFeatures) → PrefixCodeUpTo SameReader (EncodesConstantReader features) }
    {}

    fn determines_refusal()
        ensures { DeterminesRefusal ConstantFault }
    {}
}
