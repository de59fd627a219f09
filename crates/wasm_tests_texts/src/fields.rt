pub mod atomic;
pub mod gc;
pub mod misc;
pub mod own;
mod shapes;
pub mod simd;

use crate::values::Written;
use wasm_instr::Operator;

pub fn write_operator(out: &mut String, op: &Operator<'_>) -> Written {
    out.push_str(op.info().name)?;
    own::own(out, op)
}
