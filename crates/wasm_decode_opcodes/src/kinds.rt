//! Types for the immediates after an opcode: `u32` for an unsigned number, `(u32, u32)` for two,
//! `()` for none.
ghost use Rattle.std.specs.Prelude.{◌≡◌, ◌≤◌, ℕ, List, [], ◌∷◌, ◌++◌};
ghost use Rattle.wasm_imm.specs.declared.memory_argument.MemArgKind.{MemArgKind};
ghost use Rattle.wasm_imm.specs.Immediate.{Immediate, Kind, unsigned_32, signed_32, signed_64, float_32, float_64, vector, one_lane, sixteen_lanes, memory_argument, memory_index, table_index_32, order, fence_order, heap_type, cast, block_type, is_unsigned_32, is_signed_32, is_signed_64, is_float_32, is_float_64, is_vector, is_one_lane, is_sixteen_lanes, is_memory_argument, is_memory_index, is_table_index, is_order, is_fence_order, is_heap_type, is_cast, is_block_type};
ghost use Rattle.wasm_decode_opcodes.specs.Decoding.{ReadsKinds, StaysAhead};

use wasm_below::{BinaryReader, HeapType, Result};
use wasm_imm::{
    BlockType, Cast, Ieee32, Ieee64, MemArg, MemArgKind, Ordering, ReadImmediates, V128, read_lane,
    read_lanes, read_memory_index, read_table_index,
};

/// The immediates of an operator, as a type.
pub trait Immediates: Drop {
    // For the natural alignment as an exponent, also in `listed`.
    ghost kinds: { ℕ → List Kind };

    ghost listed: { ℕ → Self → List Immediate };

    // What is known of the opcode.
    ghost known: { ℕ → Type 0 } = { λ code. Unit {0} };

    /// Reads the immediates of an operator that began at the position `start`. `bound` is its
    /// natural alignment as an exponent, or 0 without a memory argument.
    ///
    /// Fails like the first immediate that cannot be read. The reader does not go back then.
    fn read(reader: &mut BinaryReader<'_>, start: usize, bound: u8) -> Result<Self>
        requires { start ≤ reader.old.position }
        ensures { ReadsKinds (kinds bound) (listed bound) (λ r. ⊥) StaysAhead start result reader.old reader.new };
}

impl Immediates for () {
    ghost kinds = { λ bound. [] };

    ghost listed = { λ bound it. [] };

    #[inline(always)]
    fn read(_reader: &mut BinaryReader<'_>, _start: usize, _bound: u8) -> Result<()> {
        Ok(())
    }
}

impl<A: Immediates, B: Immediates> Immediates for (A, B) {
    ghost kinds = { λ bound. A.kinds bound ++ B.kinds bound };

    ghost listed = { λ bound it. A.listed bound it.0 ++ B.listed bound it.1 };

    #[inline(always)]
    fn read(reader: &mut BinaryReader<'_>, start: usize, bound: u8) -> Result<(A, B)> {
        match A::read(reader, start, bound) {
            Ok(first) => match B::read(reader, start, bound) {
                Ok(second) => Ok((first, second)),
                Err(e) => Err(e),
            },
            Err(e) => Err(e),
        }
    }
}

/// The immediates of the opcode `CODE`, which has a separate arm.
#[derive(Drop)]
pub struct Only<const CODE: u32, I>(pub I);

impl<const CODE: u32, I: Immediates> Immediates for Only<CODE, I> {
    ghost kinds = { λ bound. I.kinds bound };

    ghost listed = { λ bound it. I.listed bound it.0 };

    ghost known = { λ code. (code ≡ CODE) × I.known code };

    #[inline(always)]
    fn read(reader: &mut BinaryReader<'_>, start: usize, bound: u8) -> Result<Only<CODE, I>> {
        match I::read(reader, start, bound) {
            Ok(it) => Ok(Only(it)),
            Err(e) => Err(e),
        }
    }
}

impl Immediates for u32 {
    ghost kinds = { λ bound. is_unsigned_32 ∷ [] };

    ghost listed = { λ bound it. unsigned_32 it ∷ [] };

    #[inline(always)]
    fn read(reader: &mut BinaryReader<'_>, _start: usize, _bound: u8) -> Result<u32> {
        reader.read_var_u32()
    }
}

impl Immediates for i32 {
    ghost kinds = { λ bound. is_signed_32 ∷ [] };

    ghost listed = { λ bound it. signed_32 it ∷ [] };

    #[inline(always)]
    fn read(reader: &mut BinaryReader<'_>, _start: usize, _bound: u8) -> Result<i32> {
        reader.read_var_i32()
    }
}

impl Immediates for i64 {
    ghost kinds = { λ bound. is_signed_64 ∷ [] };

    ghost listed = { λ bound it. signed_64 it ∷ [] };

    #[inline(always)]
    fn read(reader: &mut BinaryReader<'_>, _start: usize, _bound: u8) -> Result<i64> {
        reader.read_var_i64()
    }
}

impl Immediates for Ieee32 {
    ghost kinds = { λ bound. is_float_32 ∷ [] };

    ghost listed = { λ bound it. float_32 it ∷ [] };

    #[inline(always)]
    fn read(reader: &mut BinaryReader<'_>, _start: usize, _bound: u8) -> Result<Ieee32> {
        reader.read_f32()
    }
}

impl Immediates for Ieee64 {
    ghost kinds = { λ bound. is_float_64 ∷ [] };

    ghost listed = { λ bound it. float_64 it ∷ [] };

    #[inline(always)]
    fn read(reader: &mut BinaryReader<'_>, _start: usize, _bound: u8) -> Result<Ieee64> {
        reader.read_f64()
    }
}

impl Immediates for V128 {
    ghost kinds = { λ bound. is_vector ∷ [] };

    ghost listed = { λ bound it. vector it ∷ [] };

    #[inline(always)]
    fn read(reader: &mut BinaryReader<'_>, _start: usize, _bound: u8) -> Result<V128> {
        match V128::read(reader) {
            Ok(read) => Ok(read),
            Err(e) => Err(e),
        }
    }
}

impl Immediates for u8 {
    ghost kinds = { λ bound. is_one_lane ∷ [] };

    ghost listed = { λ bound it. one_lane it ∷ [] };

    #[inline(always)]
    fn read(reader: &mut BinaryReader<'_>, _start: usize, _bound: u8) -> Result<u8> {
        match read_lane(reader) {
            Ok(read) => Ok(read),
            Err(e) => Err(e),
        }
    }
}

impl Immediates for [u8; 16] {
    ghost kinds = { λ bound. is_sixteen_lanes ∷ [] };

    ghost listed = { λ bound it. sixteen_lanes it ∷ [] };

    #[inline(always)]
    fn read(reader: &mut BinaryReader<'_>, _start: usize, _bound: u8) -> Result<[u8; 16]> {
        match read_lanes(reader) {
            Ok(read) => Ok(read),
            Err(e) => Err(e),
        }
    }
}

impl Immediates for HeapType {
    ghost kinds = { λ bound. is_heap_type ∷ [] };

    ghost listed = { λ bound it. heap_type it ∷ [] };

    #[inline(always)]
    fn read(reader: &mut BinaryReader<'_>, _start: usize, _bound: u8) -> Result<HeapType> {
        match HeapType::read(reader) {
            Ok(read) => Ok(read),
            Err(e) => Err(e),
        }
    }
}

impl Immediates for Cast {
    ghost kinds = { λ bound. is_cast ∷ [] };

    ghost listed = { λ bound it. cast it ∷ [] };

    #[inline(always)]
    fn read(reader: &mut BinaryReader<'_>, _start: usize, _bound: u8) -> Result<Cast> {
        match Cast::read(reader) {
            Ok(read) => Ok(read),
            Err(e) => Err(e),
        }
    }
}

impl Immediates for BlockType {
    ghost kinds = { λ bound. is_block_type ∷ [] };

    ghost listed = { λ bound it. block_type it ∷ [] };

    #[inline(always)]
    fn read(reader: &mut BinaryReader<'_>, _start: usize, _bound: u8) -> Result<BlockType> {
        BlockType::read(reader)
    }
}

impl Immediates for Ordering {
    ghost kinds = { λ bound. is_order ∷ [] };

    ghost listed = { λ bound it. order it ∷ [] };

    #[inline(always)]
    fn read(reader: &mut BinaryReader<'_>, _start: usize, _bound: u8) -> Result<Ordering> {
        match Ordering::read(reader) {
            Ok(read) => Ok(read),
            Err(e) => Err(e),
        }
    }
}

/// A memory index.
#[derive(Drop)]
pub struct MemoryIndex(pub u32);

impl Immediates for MemoryIndex {
    ghost kinds = { λ bound. is_memory_index ∷ [] };

    ghost listed = { λ bound it. memory_index it.0 ∷ [] };

    #[inline(always)]
    fn read(reader: &mut BinaryReader<'_>, _start: usize, _bound: u8) -> Result<MemoryIndex> {
        match read_memory_index(reader) {
            Ok(read) => Ok(MemoryIndex(read)),
            Err(e) => Err(e),
        }
    }
}

/// A table index.
#[derive(Drop)]
pub struct TableIndex(pub u32);

impl Immediates for TableIndex {
    ghost kinds = { λ bound. is_table_index ∷ [] };

    ghost listed = { λ bound it. table_index_32 it.0 ∷ [] };

    #[inline(always)]
    fn read(reader: &mut BinaryReader<'_>, _start: usize, _bound: u8) -> Result<TableIndex> {
        match read_table_index(reader) {
            Ok(read) => Ok(TableIndex(read)),
            Err(e) => Err(e),
        }
    }
}

/// A memory argument without an ordering.
#[derive(Drop)]
pub struct PlainMemArg(pub MemArg);

impl Immediates for PlainMemArg {
    ghost kinds = { λ bound. is_memory_argument MemArgKind.Plain bound ∷ [] };

    ghost listed = { λ bound it. memory_argument MemArgKind.Plain bound it.0 ∷ [] };

    #[inline(always)]
    fn read(reader: &mut BinaryReader<'_>, _start: usize, bound: u8) -> Result<PlainMemArg> {
        match MemArg::read(reader, bound, MemArgKind::Plain) {
            Ok(read) => Ok(PlainMemArg(read)),
            Err(e) => Err(e),
        }
    }
}

/// The memory argument of an atomic load or store.
#[derive(Drop)]
pub struct OpMemArg(pub MemArg);

impl Immediates for OpMemArg {
    ghost kinds = { λ bound. is_memory_argument MemArgKind.Op bound ∷ [] };

    ghost listed = { λ bound it. memory_argument MemArgKind.Op bound it.0 ∷ [] };

    #[inline(always)]
    fn read(reader: &mut BinaryReader<'_>, _start: usize, bound: u8) -> Result<OpMemArg> {
        match MemArg::read(reader, bound, MemArgKind::Op) {
            Ok(read) => Ok(OpMemArg(read)),
            Err(e) => Err(e),
        }
    }
}

/// The memory argument of an atomic read-modify-write.
#[derive(Drop)]
pub struct RmwMemArg(pub MemArg);

impl Immediates for RmwMemArg {
    ghost kinds = { λ bound. is_memory_argument MemArgKind.Rmw bound ∷ [] };

    ghost listed = { λ bound it. memory_argument MemArgKind.Rmw bound it.0 ∷ [] };

    #[inline(always)]
    fn read(reader: &mut BinaryReader<'_>, _start: usize, bound: u8) -> Result<RmwMemArg> {
        match MemArg::read(reader, bound, MemArgKind::Rmw) {
            Ok(read) => Ok(RmwMemArg(read)),
            Err(e) => Err(e),
        }
    }
}

/// The byte after `atomic.fence`.
#[derive(Drop)]
pub struct FenceOrdering(pub Ordering);

impl Immediates for FenceOrdering {
    ghost kinds = { λ bound. is_fence_order ∷ [] };

    ghost listed = { λ bound it. fence_order it.0 ∷ [] };

    #[inline(always)]
    fn read(reader: &mut BinaryReader<'_>, start: usize, _bound: u8) -> Result<FenceOrdering> {
        let taken = reader.current_position() - start;
        let begun = reader.original_position() - taken as u64;
        match Ordering::read_fence(reader, begun) {
            Ok(read) => Ok(FenceOrdering(read)),
            Err(e) => Err(e),
        }
    }
}
