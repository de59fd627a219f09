ghost use Rattle.std.specs.Prelude.{◌≡◌, ◌≢◌, ◌≤◌, ◌++◌, ℕ, ℤ, List, length, Ok, IfOk, IfErr};
ghost use Rattle.std.specs.Int.{w64};
ghost use Rattle.wasm_operators.specs.below.declared.message.Message.{Message};
ghost use Rattle.wasm_operators.specs.below.Number.{EncodesUnsigned, EncodesSigned, EncodesSize, EncodesFixed};
ghost use Rattle.wasm_operators.specs.below.Source.{rest, offset_of, Takes, U32Fault};
ghost use Rattle.wasm_operators.specs.imm.declared.block_type.BlockType.{BlockType};
ghost use Rattle.wasm_operators.specs.imm.BlockTypes.{EncodesBlockType};
ghost use Rattle.wasm_operators.specs.imm.BlockTypeFaults.{BlockTypeFault};
ghost use Rattle.wasm_operators.specs.imm.BranchTables.{BranchTable, EncodesBranchTable};
ghost use Rattle.wasm_operators.specs.imm.BranchTableFaults.{BranchTableFault};
ghost use Rattle.wasm_operators.specs.imm.declared.cast.Cast.{Cast};
ghost use Rattle.wasm_operators.specs.imm.Casts.{EncodesCast};
ghost use Rattle.wasm_operators.specs.imm.CastFaults.{CastFault};
ghost use Rattle.wasm_operators.specs.imm.declared.select.Select.{Select};
ghost use Rattle.wasm_operators.specs.imm.HandlerTables.{EncodesSelect};
ghost use Rattle.wasm_operators.specs.imm.ListFaults.{SelectFault};
ghost use Rattle.wasm_operators.specs.imm.declared.memory_argument.MemArg.{MemArg};
ghost use Rattle.wasm_operators.specs.imm.MemoryArgument.{EncodesMemArg};
ghost use Rattle.wasm_operators.specs.imm.MemoryArgumentFaults.{MemArgFault};
ghost use Rattle.wasm_operators.specs.imm.declared.ordering.Ordering.{Ordering};
ghost use Rattle.wasm_operators.specs.imm.Orderings.{EncodesOrderingByte, OrderingByteFault, EncodesFence, FenceFault};
ghost use Rattle.wasm_operators.specs.imm.Immediate.{Immediate, EncodesImmediates};
ghost use Rattle.uses.specs.Immediates.{access, AreAccess};

use std::alloc::Global;
use wasm_operators::{
    BinaryReader, BlockType, BrTable, Cast, FromReader, Ieee64, MemArg, MemArgKind, Message,
    Ordering, ReadImmediates, Result, Select, SizeName, byte_laws, control_laws, immediate_laws,
    memory_laws,
};

/// Returns the u32 at the reader's position, without consuming it.
///
/// No other number is encoded there (law `unsigned_numbers`), and the bytes determine the error
/// (`number_refusals`).
pub fn peek_index(reader: &BinaryReader<'_>) -> Result<u32>
    ensures reads { (n : ℕ) (text more : List ℕ) → rest reader.now ≡ text ++ more → EncodesUnsigned 32 text n
        → result ≡ Ok n }
    ensures found { IfOk result (λ n. (text more : List ℕ) × (rest reader.now ≡ text ++ more) × EncodesUnsigned 32 text n) }
    ensures refused { (m : Message) (offset : ℕ) → U32Fault m reader.now offset
        → IfErr result (λ e. (e.message ≡ m) × (e.offset ≡ offset)) }
{
    byte_laws::unsigned_numbers();
    byte_laws::number_refusals();
    reader.clone().read_var_u32()
}

/// Returns the constant of an `i32.const` at the reader's position (law `signed_numbers`).
pub fn peek_i32(reader: &BinaryReader<'_>) -> Result<i32>
    ensures { (n : ℤ) (text more : List ℕ) → rest reader.now ≡ text ++ more → EncodesSigned 32 text n → result ≡ Ok n }
{
    byte_laws::signed_numbers();
    reader.clone().read_var_i32()
}

/// Returns the count of a list at the reader's position (law `counts`).
pub fn peek_count(reader: &BinaryReader<'_>, limit: usize, list: SizeName) -> Result<usize>
    ensures { (n : ℕ) (text more : List ℕ) → rest reader.now ≡ text ++ more → EncodesSize limit text n → result ≡ Ok n }
{
    byte_laws::counts();
    reader.clone().read_size(limit, list)
}

/// Reads two u32, such as the limits of a memory. On `Err` the reader is unchanged.
pub fn read_limits(reader: &mut BinaryReader<'_>) -> Result<(u32, u32)>
    ensures taken { IfOk result (λ limits. (first second : List ℕ) × Takes reader.old reader.new (first ++ second)
        × EncodesUnsigned 32 first limits.0 × EncodesUnsigned 32 second limits.1) }
    ensures nothing { IfErr result (λ e. reader.new ≡ reader.old) }
{
    let mut ahead = reader.clone();
    let least = ahead.read_var_u32()?;
    let most = ahead.read_var_u32()?;
    *reader = ahead;
    Ok((least, most))
}

/// Returns the length in bytes of the `T` at the reader's position. By the laws of `T`, no other
/// prefix encodes a value.
pub fn value_size<'a, T: FromReader<'a>>(alloc: Global, reader: &BinaryReader<'a>) -> Result<usize>
    ensures size { (value : T) (text more : List ℕ) → rest reader.now ≡ text ++ more
        → T.encodes reader.now.features text value → IfOk result (λ size. size ≡ length text) }
    ensures refused { (m : Message) (offset : ℕ) → T.fault m reader.now offset
        → IfErr result (λ e. e.message ≢ Message.OutOfMemory → (e.message ≡ m) × (e.offset ≡ offset)) }
{
    T::is_prefix_code();
    T::determines_refusal();
    let mut ahead = reader.clone();
    let _value: T = ahead.read(alloc)?;
    Ok(ahead.current_position() - reader.current_position())
}

/// Returns the block type at the reader's position (laws `block_types` and `control_refusals`).
pub fn peek_block_type(reader: &BinaryReader<'_>) -> Result<BlockType>
    ensures reads { (ty : BlockType) (text more : List ℕ) → rest reader.now ≡ text ++ more → EncodesBlockType text ty
        → result ≡ Ok ty }
    ensures found { IfOk result (λ ty. (text more : List ℕ) × (rest reader.now ≡ text ++ more) × EncodesBlockType text ty) }
    ensures refused { (m : Message) (offset : ℕ) → BlockTypeFault m reader.now offset
        → IfErr result (λ e. (e.message ≡ m) × (e.offset ≡ offset)) }
{
    control_laws::block_types();
    control_laws::control_refusals();
    BlockType::read(&mut reader.clone())
}

/// Returns the cast at the reader's position (laws `casts` and `control_refusals`).
pub fn peek_cast(reader: &BinaryReader<'_>) -> Result<Cast>
    ensures reads { (value : Cast) (text more : List ℕ) → rest reader.now ≡ text ++ more → EncodesCast text value
        → result ≡ Ok value }
    ensures refused { (m : Message) (offset : ℕ) → CastFault m reader.now offset
        → IfErr result (λ e. (e.message ≡ m) × (e.offset ≡ offset)) }
{
    control_laws::casts();
    control_laws::control_refusals();
    Cast::read(&mut reader.clone())
}

/// Returns the branch table at the reader's position (laws `branch_tables` and `control_refusals`).
pub fn peek_branch_table<'a>(reader: &BinaryReader<'a>) -> Result<BrTable<'a>>
    ensures reads { (table : BranchTable) (text more : List ℕ) → rest reader.now ≡ text ++ more
        → EncodesBranchTable text table → result ≡ Ok table }
    ensures refused { (m : Message) (offset : ℕ) → BranchTableFault m reader.now offset
        → IfErr result (λ e. (e.message ≡ m) × (e.offset ≡ offset)) }
{
    control_laws::branch_tables();
    control_laws::control_refusals();
    BrTable::read(&mut reader.clone())
}

/// Returns the types of the `select` at the reader's position (laws `select_types` and
/// `control_refusals`).
pub fn peek_select(alloc: Global, reader: &BinaryReader<'_>) -> Result<Select>
    ensures reads { (value : Select) (text more : List ℕ) → rest reader.now ≡ text ++ more → EncodesSelect text value
        → IfOk result (λ types. types ≡ value) }
    ensures refused { (m : Message) (offset : ℕ) → SelectFault m reader.now offset
        → IfErr result (λ e. e.message ≢ Message.OutOfMemory → (e.message ≡ m) × (e.offset ≡ offset)) }
{
    control_laws::select_types();
    control_laws::control_refusals();
    Select::read(alloc, &mut reader.clone())
}

/// Returns the ordering at the reader's position (laws `orderings` and `short_refusals`).
pub fn peek_ordering(reader: &BinaryReader<'_>) -> Result<Ordering>
    ensures reads { (value : Ordering) (text more : List ℕ) → rest reader.now ≡ text ++ more
        → EncodesOrderingByte text value → result ≡ Ok value }
    ensures refused { (m : Message) (offset : ℕ) → OrderingByteFault m reader.now offset
        → IfErr result (λ e. (e.message ≡ m) × (e.offset ≡ offset)) }
{
    memory_laws::orderings(reader.features());
    memory_laws::short_refusals(reader.features());
    Ordering::read(&mut reader.clone())
}

/// Returns the ordering of the `atomic.fence` at the offset `start`, whose last byte is at the
/// reader's position (laws `orderings` and `short_refusals`).
pub fn peek_fence(reader: &BinaryReader<'_>, start: u64) -> Result<Ordering>
    requires { start ≤ offset_of reader.now }
    ensures reads { (value : Ordering) (text more : List ℕ) → rest reader.now ≡ text ++ more
        → EncodesFence reader.now.features text value → result ≡ Ok value }
    ensures refused { (m : Message) (offset : ℕ) → FenceFault reader.now.features start m reader.now offset
        → IfErr result (λ e. (e.message ≡ m) × (e.offset ≡ offset)) }
{
    memory_laws::orderings(reader.features());
    memory_laws::short_refusals(reader.features());
    Ordering::read_fence(&mut reader.clone(), start)
}

/// Returns the immediates of the `array.atomic.get` whose ordering is at the reader's position. No
/// others are encoded there (law `immediates`).
pub fn peek_array_access(reader: &BinaryReader<'_>) -> Result<(Ordering, u32)>
    ensures { (immediates : List Immediate) (text more : List ℕ) → rest reader.now ≡ text ++ more
        → AreAccess immediates → EncodesImmediates reader.now.features text immediates
        → IfOk result (λ read. immediates ≡ access read.0 read.1) }
{
    immediate_laws::immediates(reader.features());
    let mut ahead = reader.clone();
    let ordering = Ordering::read(&mut ahead)?;
    let array_type = ahead.read_var_u32()?;
    Ok((ordering, array_type))
}

/// Returns the memory argument of a plain access at the reader's position (laws
/// `memory_arguments` and `memory_argument_refusals`).
pub fn peek_memory_argument(reader: &BinaryReader<'_>, max_align: u8) -> Result<MemArg>
    ensures reads { (argument : MemArg) (text more : List ℕ) → rest reader.now ≡ text ++ more
        → EncodesMemArg reader.now.features MemArgKind.Plain max_align text argument → result ≡ Ok argument }
    ensures found { IfOk result (λ argument. (text more : List ℕ) × (rest reader.now ≡ text ++ more)
        × EncodesMemArg reader.now.features MemArgKind.Plain max_align text argument) }
    ensures refused { (m : Message) (offset : ℕ) → MemArgFault reader.now.features MemArgKind.Plain m reader.now offset
        → IfErr result (λ e. (e.message ≡ m) × (e.offset ≡ offset)) }
{
    memory_laws::memory_arguments(reader.features(), MemArgKind::Plain, max_align);
    memory_laws::memory_argument_refusals(reader.features(), MemArgKind::Plain);
    MemArg::read(&mut reader.clone(), max_align, MemArgKind::Plain)
}

/// Returns the constant of an `f64.const` at the reader's position (law `fixed_numbers`).
pub fn peek_f64(reader: &BinaryReader<'_>) -> Result<Ieee64>
    ensures reads { (bits : Ieee64) (text more : List ℕ) → rest reader.now ≡ text ++ more → EncodesFixed w64 text bits
        → result ≡ Ok bits }
    ensures found { IfOk result (λ bits. (text more : List ℕ) × (rest reader.now ≡ text ++ more) × EncodesFixed w64 text bits) }
{
    byte_laws::fixed_numbers();
    reader.clone().read_f64()
}
