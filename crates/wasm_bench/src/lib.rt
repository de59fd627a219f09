//! Readers of single numbers and immediates, which `tools/bench` measures. Each function reads its
//! bytes to the end, or to an error, with all features. It returns a sum of the values, so that the
//! compiler can't remove a read.
#![tactic(auto)]

ghost use Rattle.std.specs.Prelude.{◌≡◌};
ghost use Rattle.std.specs.Int.{w32, w64, cast_unsigned};
ghost use Rattle.wasm_operators.specs.below.Features.{all_features};
ghost use Rattle.wasm_operators.specs.below.Number.{EncodesUnsigned, EncodesSigned};
ghost use Rattle.wasm_operators.specs.below.Source.{IsByte};
ghost use Rattle.wasm_operators.specs.imm.BlockTypes.{EncodesBlockType};
ghost use Rattle.wasm_operators.specs.imm.BranchTables.{EncodesBranchTable};
ghost use Rattle.wasm_operators.specs.imm.MemoryArgument.{EncodesMemArg};
ghost use Rattle.wasm_bench.specs.Sums.{IsSumOf, itself, argument_counts, block_counts, table_counts};

mod operators;
mod visitors;

use std::alloc::Global;
use wasm_operators::{BinaryReader, BlockType, BrTable, MemArg, MemArgKind};

#[unsafe(no_mangle)]
pub extern "C" fn wasm_bench_u8(_alloc: Global, bytes: &[u8]) -> u64
    ensures { IsSumOf IsByte itself bytes.now result }
{
    let mut reader = BinaryReader::new(bytes, 0);
    let mut sum: u64 = 0;
    while !reader.eof() {
        match reader.read_u8() {
            Ok(byte) => sum = sum.wrapping_add(u64::from(byte)),
            Err(_) => return sum,
        }
    }
    sum
}

#[unsafe(no_mangle)]
pub extern "C" fn wasm_bench_u32(_alloc: Global, bytes: &[u8]) -> u64
    ensures { IsSumOf (EncodesUnsigned 32) itself bytes.now result }
{
    let mut reader = BinaryReader::new(bytes, 0);
    let mut sum: u64 = 0;
    while !reader.eof() {
        match reader.read_var_u32() {
            Ok(number) => sum = sum.wrapping_add(u64::from(number)),
            Err(_) => return sum,
        }
    }
    sum
}

/// Returns the sum of signed 32-bit LEB128 numbers, each reinterpreted as unsigned.
#[unsafe(no_mangle)]
pub extern "C" fn wasm_bench_i32(_alloc: Global, bytes: &[u8]) -> u64
    ensures { IsSumOf (EncodesSigned 32) (cast_unsigned w32) bytes.now result }
{
    let mut reader = BinaryReader::new(bytes, 0);
    let mut sum: u64 = 0;
    while !reader.eof() {
        match reader.read_var_i32() {
            Ok(number) => sum = sum.wrapping_add(u64::from(number.cast_unsigned())),
            Err(_) => return sum,
        }
    }
    sum
}

/// Returns the sum of signed 64-bit LEB128 numbers, each reinterpreted as unsigned.
#[unsafe(no_mangle)]
pub extern "C" fn wasm_bench_i64(_alloc: Global, bytes: &[u8]) -> u64
    ensures { IsSumOf (EncodesSigned 64) (cast_unsigned w64) bytes.now result }
{
    let mut reader = BinaryReader::new(bytes, 0);
    let mut sum: u64 = 0;
    while !reader.eof() {
        match reader.read_var_i64() {
            Ok(number) => sum = sum.wrapping_add(number.cast_unsigned()),
            Err(_) => return sum,
        }
    }
    sum
}

/// Returns the sum of offsets and alignment exponents of memory arguments.
#[unsafe(no_mangle)]
pub extern "C" fn wasm_bench_memarg(_alloc: Global, bytes: &[u8]) -> u64
    ensures { IsSumOf (EncodesMemArg all_features MemArgKind.Plain 2) argument_counts bytes.now result }
{
    let mut reader = BinaryReader::new(bytes, 0);
    let mut sum: u64 = 0;
    while !reader.eof() {
        match MemArg::read(&mut reader, 2, MemArgKind::Plain) {
            Ok(argument) => {
                let counts = argument.offset.wrapping_add(u64::from(argument.align));
                sum = sum.wrapping_add(counts);
            }
            Err(_) => return sum,
        }
    }
    sum
}

/// Returns the sum over block types: 1 for an empty one, 2 for a value type, else the type index.
#[unsafe(no_mangle)]
pub extern "C" fn wasm_bench_block(_alloc: Global, bytes: &[u8]) -> u64
    ensures { IsSumOf EncodesBlockType block_counts bytes.now result }
{
    let mut reader = BinaryReader::new(bytes, 0);
    let mut sum: u64 = 0;
    while !reader.eof() {
        match BlockType::read(&mut reader) {
            Ok(ty) => sum = sum.wrapping_add(block_number(ty)),
            Err(_) => return sum,
        }
    }
    sum
}

/// Returns the sum of the counts and default targets of branch tables.
#[unsafe(no_mangle)]
pub extern "C" fn wasm_bench_br_table(_alloc: Global, bytes: &[u8]) -> u64
    ensures { IsSumOf EncodesBranchTable table_counts bytes.now result }
{
    let mut reader = BinaryReader::new(bytes, 0);
    let mut sum: u64 = 0;
    while !reader.eof() {
        match BrTable::read(&mut reader) {
            Ok(table) => {
                let counts = u64::from(table.len()) + u64::from(table.default());
                sum = sum.wrapping_add(counts);
            }
            Err(_) => return sum,
        }
    }
    sum
}

#[inline(always)]
fn block_number(ty: BlockType) -> u64
    ensures { result ≡ block_counts ty }
{
    match ty {
        BlockType::Empty => 1,
        BlockType::Value(_) => 2,
        BlockType::FuncType(index) => u64::from(index),
    }
}
