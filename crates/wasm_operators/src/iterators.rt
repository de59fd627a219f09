ghost use Rattle.std.specs.Prelude.{◌≡◌};
ghost use Rattle.wasm_operators.specs.Next.{ReadsNext};
ghost use Rattle.wasm_operators.specs.Stack.{frame_memory};
ghost use Rattle.wasm_operators.specs.Iterating.{ReadsNextPlaced, StepsBy, items_to_come, iterating_over};

use crate::OperatorsReaderAllocations;
use crate::operators::OperatorsReader;
use std::marker::Model;
use wasm_below::Result;
use wasm_instr::Operator;

impl<'a> OperatorsReader<'a> {
    /// Reads the next operator as `read` does, and returns it with the offset of its first byte.
    #[inline(always)]
    pub fn read_with_offset(&mut self) -> Result<(Operator<'a>, u64)>
        ensures { ReadsNextPlaced result self.old self.new }
    {
        let offset = self.original_position();
        match self.read() {
            Ok(operator) => Ok((operator, offset)),
            Err(e) => Err(e),
        }
    }

    /// Converts the reader into an iterator over operators with their offsets.
    pub fn into_iter_with_offsets(self) -> OperatorsIteratorWithOffsets<'a>
        ensures { result ≡ iterating_over self.entry }
    {
        OperatorsIteratorWithOffsets {
            reader: self,
            refused: false,
        }
    }
}

impl<'a> IntoIterator for OperatorsReader<'a> {
    type Item = Result<Operator<'a>>;

    type IntoIter = OperatorsIterator<'a>;

    ghost into_iter_gives = { λ reader items. items ≡ iterating_over reader };

    fn into_iter(self) -> OperatorsIterator<'a> {
        OperatorsIterator {
            reader: self,
            refused: false,
        }
    }
}

/// An iterator, each item of which is one `read`. It ends at the end of the data and after an
/// `Err`, and does not check for open frames.
#[derive(Drop)]
pub struct OperatorsIterator<'a> {
    reader: OperatorsReader<'a>,
    refused: bool,
}

impl<'a> Model for OperatorsIterator<'a> {
    ghost use Rattle.wasm_operators.specs.Iterating.{Iterating};

    ghost Value = { Iterating };

    ghost view = { λ i. record { reader = i.reader; refused = i.refused } };
}

impl<'a> OperatorsIterator<'a> {
    /// Returns the memory of the frames, for another reader.
    pub fn into_allocations(self) -> OperatorsReaderAllocations
        ensures { result ≡ frame_memory self.entry.reader.frames self.entry.reader.room }
    {
        let OperatorsIterator { reader, .. } = self;
        reader.into_allocations()
    }
}

impl<'a> Iterator for OperatorsIterator<'a> {
    type Item = Result<Operator<'a>>;

    ghost next_gives = { StepsBy ReadsNext };

    ghost remaining = { items_to_come };

    #[inline(always)]
    fn next(&mut self) -> Option<Result<Operator<'a>>> {
        if self.refused || self.reader.eof() {
            return None;
        }
        let item = self.reader.read();
        self.refused = item.is_err();
        Some(item)
    }
}

/// Like `OperatorsIterator`, with each operator's offset.
#[derive(Drop)]
pub struct OperatorsIteratorWithOffsets<'a> {
    reader: OperatorsReader<'a>,
    refused: bool,
}

impl<'a> Model for OperatorsIteratorWithOffsets<'a> {
    ghost use Rattle.wasm_operators.specs.Iterating.{Iterating};

    ghost Value = { Iterating };

    ghost view = { λ i. record { reader = i.reader; refused = i.refused } };
}

impl<'a> OperatorsIteratorWithOffsets<'a> {
    /// Returns the memory of the frames, for another reader.
    pub fn into_allocations(self) -> OperatorsReaderAllocations
        ensures { result ≡ frame_memory self.entry.reader.frames self.entry.reader.room }
    {
        let OperatorsIteratorWithOffsets { reader, .. } = self;
        reader.into_allocations()
    }
}

impl<'a> Iterator for OperatorsIteratorWithOffsets<'a> {
    type Item = Result<(Operator<'a>, u64)>;

    ghost next_gives = { StepsBy ReadsNextPlaced };

    ghost remaining = { items_to_come };

    #[inline(always)]
    fn next(&mut self) -> Option<Result<(Operator<'a>, u64)>> {
        if self.refused || self.reader.eof() {
            return None;
        }
        let placed = self.reader.read_with_offset();
        self.refused = placed.is_err();
        Some(placed)
    }
}
