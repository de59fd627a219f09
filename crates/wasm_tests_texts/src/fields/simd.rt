//! Written by tools/lists.py from tools/operators.tsv.
use crate::fields::shapes;
use crate::values::{self, Written};
use wasm_instr_simd::SimdOperator;

pub fn simd(out: &mut String, op: &SimdOperator) -> Written {
    match op {
        SimdOperator::V128Load { memarg }
        | SimdOperator::V128Load8x8S { memarg }
        | SimdOperator::V128Load8x8U { memarg }
        | SimdOperator::V128Load16x4S { memarg }
        | SimdOperator::V128Load16x4U { memarg }
        | SimdOperator::V128Load32x2S { memarg }
        | SimdOperator::V128Load32x2U { memarg }
        | SimdOperator::V128Load8Splat { memarg }
        | SimdOperator::V128Load16Splat { memarg }
        | SimdOperator::V128Load32Splat { memarg }
        | SimdOperator::V128Load64Splat { memarg }
        | SimdOperator::V128Load32Zero { memarg }
        | SimdOperator::V128Load64Zero { memarg }
        | SimdOperator::V128Store { memarg } => values::memory_argument(out, "memarg", memarg),
        SimdOperator::V128Load8Lane { memarg, lane }
        | SimdOperator::V128Load16Lane { memarg, lane }
        | SimdOperator::V128Load32Lane { memarg, lane }
        | SimdOperator::V128Load64Lane { memarg, lane }
        | SimdOperator::V128Store8Lane { memarg, lane }
        | SimdOperator::V128Store16Lane { memarg, lane }
        | SimdOperator::V128Store32Lane { memarg, lane }
        | SimdOperator::V128Store64Lane { memarg, lane } => shapes::write_memarg_and_lane(
            out, memarg, lane,
        ),
        SimdOperator::V128Const { value } => values::vector(out, "value", value),
        SimdOperator::I8x16Shuffle { lanes } => values::lanes(out, "lanes", lanes),
        SimdOperator::I8x16ExtractLaneS { lane }
        | SimdOperator::I8x16ExtractLaneU { lane }
        | SimdOperator::I8x16ReplaceLane { lane }
        | SimdOperator::I16x8ExtractLaneS { lane }
        | SimdOperator::I16x8ExtractLaneU { lane }
        | SimdOperator::I16x8ReplaceLane { lane }
        | SimdOperator::I32x4ExtractLane { lane }
        | SimdOperator::I32x4ReplaceLane { lane }
        | SimdOperator::I64x2ExtractLane { lane }
        | SimdOperator::I64x2ReplaceLane { lane }
        | SimdOperator::F32x4ExtractLane { lane }
        | SimdOperator::F32x4ReplaceLane { lane }
        | SimdOperator::F64x2ExtractLane { lane }
        | SimdOperator::F64x2ReplaceLane { lane } => values::lane(out, "lane", lane),
        _ => Ok(()),
    }
}
