use crate::reason::{Around, Reason, reason_of};
use std::alloc::Global;
use wasm_below::BinaryReader;
use wasm_check::{Mismatch, ModuleContext};
use wasm_operators::{FunctionBody, Operator, OperatorsReader};
use wasm_validation::FaultyBody;

/// Returns the number of locals that a body declares, and a reader of the operators after them.
fn parts_of<'a>(alloc: Global, body: BinaryReader<'a>) -> Option<(u64, OperatorsReader<'a>)> {
    let body = FunctionBody::new(body);
    let mut reader = body.get_locals_reader().ok()?;
    let mut declared: u64 = 0;
    for _ in 0..reader.get_count() {
        let (count, _) = reader.read().ok()?;
        declared = declared.saturating_add(count as u64);
    }
    Some((
        declared,
        OperatorsReader::new(alloc, reader.get_binary_reader()),
    ))
}

/// Returns the operator at an offset, and the number of labels around it.
fn operator_at<'a>(mut reader: OperatorsReader<'a>, offset: u64) -> Option<(Operator<'a>, u32)> {
    let mut labels: u32 = 1;
    for _ in 0..u64::MAX {
        if reader.original_position() >= offset {
            break;
        }
        match reader.read().ok()? {
            Operator::Block { .. }
            | Operator::Loop { .. }
            | Operator::If { .. }
            | Operator::TryTable { .. } => labels = labels.saturating_add(1),
            Operator::End => labels = labels.saturating_sub(1),
            _ => {}
        }
    }
    let op = reader.read().ok()?;
    Some((op, labels))
}

/// Returns why the operator at an offset of a body has no type.
pub fn reason_in(
    alloc: Global,
    faulty: &FaultyBody<'_>,
    offset: u64,
    mismatch: Option<Mismatch>,
) -> Option<Reason> {
    let (declared, reader) = parts_of(alloc, faulty.body.clone())?;
    let (op, labels) = operator_at(reader, offset)?;
    let ty = faulty.context.function_type(faulty.function)?;
    let around = Around {
        locals: declared.saturating_add(ty.params.len() as u64),
        labels,
    };
    Some(reason_of(&faulty.context, &op, around, mismatch))
}
