ghost use Rattle.std.specs.Prelude.{◌≡◌, ℕ, ⊤, List, IfOk, IfErr, IfSome};
ghost use Rattle.wasm_below.specs.declared.features.WasmFeatures.{WasmFeatures};
ghost use Rattle.wasm_below.specs.declared.message.Message.{Message};
ghost use Rattle.wasm_below.specs.Fault.{DeterminesRefusal};
ghost use Rattle.wasm_below.specs.Items.{items_left, items_reader, items_name};
ghost use Rattle.wasm_below.specs.FromReader.{AllocatesIf, ReadsValue, EncodesReader, ReaderFault, StepsItems, ReadsOn};
ghost use Rattle.wasm_below.specs.Source.{Reader, IsRefusal, U32Fault, CountFault, HasRead, Reads, end_of, offset_of};
ghost use Rattle.std.specs.Iterator.{at_most, UpTo};
ghost use Rattle.std.specs.Iterator.SizeHint.{IsWithinCount};
ghost use Rattle.wasm_below.specs.Number.{EncodesUnsigned, EncodesSize};
ghost use Rattle.wasm_below.specs.Sequence.{PrefixCodeUpTo};

use crate::binary_reader::BinaryReader;
use crate::error::Result;
use crate::memory_use::{MemoryUse, Never, UsesMemory};
use crate::message::SizeName;
use std::alloc::Global;
use std::marker::PhantomData;

/// A type that `BinaryReader::read` reads.
pub trait FromReader<'a>: UsesMemory + Drop + Sized {
    // With these features the bytes encode the value.
    ghost encodes: { WasmFeatures → List ℕ → Self → Type 0 };

    // The error of a read, unless allocation fails.
    ghost fault: { Message → Reader → ℕ → Type 0 };

    // Equality, except for the offset of a reader in the values.
    ghost same: { Self → Self → Type 0 } = { λ a b. a ≡ b };

    // The value's offsets agree with the readers before and after the read.
    ghost placed: { Reader → Self → Reader → Type 0 } = { λ old value new. ⊤ };

    // A read that starts at this reader may allocate.
    ghost allocates: { Reader → Type 0 } = { λ old. ⊤ };

    /// Reads the value that a prefix of the rest encodes.
    fn from_reader(alloc: Global, reader: &mut BinaryReader<'a>) -> Result<Self>
        ensures reads { ReadsValue (encodes reader.old.features) fault (AllocatesIf Self.Memory.TAKES allocates) result reader.old reader.new }
        ensures placed { IfOk result (λ value. placed reader.old value reader.new) };

    fn is_prefix_code()
        ensures { (features : WasmFeatures) → PrefixCodeUpTo same (encodes features) };

    fn determines_refusal()
        ensures { DeterminesRefusal fault };
}

impl UsesMemory for u32 {
    type Memory = Never;
}

impl<'a> FromReader<'a> for u32 {
    ghost encodes = { λ features text n. EncodesUnsigned 32 text n };

    ghost fault = { λ m r offset. U32Fault m r offset };

    fn from_reader(_alloc: Global, reader: &mut BinaryReader<'a>) -> Result<u32> {
        reader.read_var_u32()
    }

    fn is_prefix_code() {}

    fn determines_refusal() {}
}

impl<'a> BinaryReader<'a> {
    #[inline(always)]
    pub fn read<T: FromReader<'a>>(&mut self, alloc: Global) -> Result<T>
        ensures reads { ReadsValue (T.encodes self.old.features) T.fault (AllocatesIf T.Memory.TAKES T.allocates) result self.old self.new }
        ensures placed { IfOk result (λ value. T.placed self.old value self.new) }
    {
        T::from_reader(alloc, self)
    }

    /// Reads a u32 and that many bytes, and returns these as a reader with the same features and
    /// offsets.
    ///
    /// Fails like `read_var_u32`, or with `EndOfData` at the offset after the number.
    pub fn read_reader(&mut self) -> Result<BinaryReader<'a>>
        ensures reads { Reads (EncodesReader self.old.features) ReaderFault result self.old self.new }
        ensures placed { IfOk result (λ r. end_of r ≡ offset_of self.new) }
    {
        let mut ahead = self.clone();
        let size = ahead.read_var_u32()? as usize;
        let offset = ahead.original_position();
        let bytes = ahead.read_bytes(size)?;
        *self = ahead;
        Ok(self.part(bytes, offset))
    }

    /// Reads a count like `read_size`, and returns an iterator over that many items.
    pub fn read_iter<'r, T: FromReader<'a>>(
        &'r mut self,
        alloc: Global,
        limit: usize,
        desc: SizeName,
    ) -> Result<BinaryReaderIter<'a, 'r, T>>
        ensures same_reference { IfOk result (λ items. items_name items ≡ self.entry.ghost_name) }
        ensures count { IfOk result
            (λ items. HasRead (EncodesSize limit) (items_left items) self.old (items_reader items)) }
        ensures refused { IfErr result (λ e. IsRefusal (EncodesSize limit) e self.old) }
        ensures fault { IfErr result (λ e. CountFault desc limit e.message self.old e.offset) }
    {
        let remaining = self.read_size(limit, desc)?;
        Ok(BinaryReaderIter::new(alloc, self, remaining))
    }
}

/// An iterator over the items of a list. Dropping it reads the items left, up to the first error.
pub struct BinaryReaderIter<'a, 'r, T: FromReader<'a>> {
    remaining: usize,
    reader: &'r mut BinaryReader<'a>,
    alloc: Global,
    item: PhantomData<T>,
}

impl<'a, 'r, T: FromReader<'a>> BinaryReaderIter<'a, 'r, T> {
    /// Creates an iterator over the next `remaining` items.
    pub fn new(
        alloc: Global,
        reader: &'r mut BinaryReader<'a>,
        remaining: usize,
    ) -> BinaryReaderIter<'a, 'r, T>
        ensures same_reference { items_name result ≡ reader.entry.ghost_name }
        ensures reader { items_reader result ≡ reader.old }
        ensures left { items_left result ≡ remaining }
    {
        BinaryReaderIter {
            remaining,
            reader,
            alloc,
            item: PhantomData,
        }
    }
}

impl<'a, 'r, T: FromReader<'a>> Iterator for BinaryReaderIter<'a, 'r, T> {
    type Item = Result<T>;

    ghost next_gives = { λ s item t. (items_name t ≡ items_name s)
        × StepsItems (T.encodes (items_reader s).features) T.fault (AllocatesIf T.Memory.TAKES T.allocates) T.placed
        (items_left s) (items_left t) item (items_reader s) (items_reader t) };

    ghost remaining = { λ s. at_most (items_left s) };

    fn next(&mut self) -> Option<Result<T>> {
        if self.remaining == 0 {
            return None;
        }
        match self.reader.read(self.alloc) {
            Ok(item) => {
                self.remaining -= 1;
                Some(Ok(item))
            }
            Err(e) => {
                self.remaining = 0;
                Some(Err(e))
            }
        }
    }

    fn size_hint(&self) -> (usize, Option<usize>)
        ensures exact { result ≡ ((items_left self.now), Some (items_left self.now)) }
        ensures lower { IsWithinCount result.0 (at_most (items_left self.now)) }
        ensures upper { IfSome result.1 (UpTo (at_most (items_left self.now))) }
    {
        (self.remaining, Some(self.remaining))
    }
}

impl<'a, 'r, T: FromReader<'a>> Drop for BinaryReaderIter<'a, 'r, T> {
    fn drop(self)
        ensures { ReadsOn (T.encodes (items_reader self.entry).features) T.fault (AllocatesIf T.Memory.TAKES T.allocates)
            (items_left self.entry) (items_reader self.entry) self.exit.1.0.now }
    {
        let BinaryReaderIter {
            remaining,
            reader,
            alloc,
            item: _,
        } = self;
        read_on::<T>(alloc, reader, remaining);
    }
}

fn read_on<'a, T: FromReader<'a>>(alloc: Global, reader: &mut BinaryReader<'a>, count: usize)
    ensures { ReadsOn (T.encodes reader.old.features) T.fault (AllocatesIf T.Memory.TAKES T.allocates) count reader.old reader.new }
{
    for _ in 0..count {
        if reader.read::<T>(alloc).is_err() {
            return;
        }
    }
}
