use crate::visitors::{CountAny, CountSome};
use std::alloc::Global;
use wasm_operators::{BinaryReader, Operator, OperatorsReader, ValType};

/// Creates a reader after `body`'s locals; `None` if reading these fails.
fn operators_of(alloc: Global, body: &[u8]) -> Option<OperatorsReader<'_>> {
    let mut reader = BinaryReader::new(body, 0);
    let count = reader.read_var_u32().ok()?;
    for _ in 0..count {
        let _ = reader.read_var_u32().ok()?;
        let _ = ValType::read(&mut reader).ok()?;
    }
    Some(OperatorsReader::new(alloc, reader))
}

/// Returns the number of operators before any error, by a visitor that overrides no visit.
#[unsafe(no_mangle)]
pub extern "C" fn wasm_bench_count_any(alloc: Global, body: &[u8]) -> u64 {
    let mut count = CountAny { operators: 0 };
    if let Some(mut operators) = operators_of(alloc, body) {
        let _ = operators.visit_all_simd(&mut count);
    }
    count.operators
}

/// Returns the number of operators before any error. The visitor overrides four visits to add up
/// immediates; the sum is not returned.
#[unsafe(no_mangle)]
pub extern "C" fn wasm_bench_count_some(alloc: Global, body: &[u8]) -> u64 {
    let mut count = CountSome {
        operators: 0,
        sum: 0,
    };
    if let Some(mut operators) = operators_of(alloc, body) {
        let _ = operators.visit_all_simd(&mut count);
    }
    if count.sum == u64::MAX {
        return 0;
    }
    count.operators
}

/// Returns a sum over the operators before any error: an immediate for four kinds, otherwise 1.
#[unsafe(no_mangle)]
pub extern "C" fn wasm_bench_read(alloc: Global, body: &[u8]) -> u64 {
    let Some(mut operators) = operators_of(alloc, body) else {
        return 0;
    };
    let mut sum: u64 = 0;
    while !operators.eof() {
        match operators.read() {
            Ok(op) => sum = sum.wrapping_add(number_of(&op)),
            Err(_) => return sum,
        }
    }
    sum
}

#[unsafe(no_mangle)]
pub extern "C" fn wasm_bench_read_vec(alloc: Global, body: &[u8]) -> u64 {
    let mut out = Vec::new(alloc);
    if let Some(mut operators) = operators_of(alloc, body) {
        let _ = operators.read_all(&mut out);
    }
    out.len() as u64
}

#[inline(always)]
fn number_of(op: &Operator<'_>) -> u64 {
    match op {
        Operator::LocalGet { local_index } => u64::from(*local_index),
        Operator::I32Const { value } => u64::from(value.cast_unsigned()),
        Operator::I32Load { memarg } => memarg.offset,
        Operator::Call { function_index } => u64::from(*function_index),
        _ => 1,
    }
}
