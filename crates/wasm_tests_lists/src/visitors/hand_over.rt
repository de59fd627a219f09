use wasm_below::BinaryReader;
use wasm_imm::BrTable;
use wasm_instr::Operator;
use wasm_instr_ops::{GcOperator, MiscOperator, NumericOperator};
use wasm_instr_simd::SimdOperator;
use wasm_visit::{VisitOperator, visit_owned_simd};

/// The target 1 and the default target 0.
static TABLE: [u8; 3] = [1, 1, 0];

pub fn table() -> Option<BrTable<'static>> {
    BrTable::read(&mut BinaryReader::new(&TABLE, 0)).ok()
}

/// Visits eight operators of six groups and returns the results. The last operator is the branch
/// table, or `unreachable` if there is none.
pub fn hand_over<'a, V>(v: &mut V, table: Option<BrTable<'a>>) -> [V::Output; 8]
where
    V: VisitOperator<'a>,
{
    let branch = match table {
        Some(targets) => Operator::BrTable { targets },
        None => Operator::Unreachable,
    };
    [
        visit_owned_simd(v, Operator::LocalGet { local_index: 3 }),
        visit_owned_simd(v, Operator::Nop),
        visit_owned_simd(v, Operator::from(NumericOperator::I32Add)),
        visit_owned_simd(v, Operator::from(SimdOperator::I8x16Splat)),
        visit_owned_simd(v, Operator::from(SimdOperator::I32x4Add)),
        visit_owned_simd(
            v,
            Operator::from(GcOperator::StructNew {
                struct_type_index: 5,
            }),
        ),
        visit_owned_simd(v, Operator::from(MiscOperator::DataDrop { data_index: 7 })),
        visit_owned_simd(v, branch),
    ]
}
