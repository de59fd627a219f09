use std::io::{self, Print};
use wasm_instr::Operator;
use wasm_signatures::{Typing, lane_index, memory_argument, operator_typing};

/// Prints the types of operands and results, or why the operator does not fix them. Then prints the
/// memory argument, and the lane index with the number of lanes.
pub fn print_typing<R: Print>(rt: &R, op: &Operator<'_>) -> io::Result<()> {
    match operator_typing(op) {
        Typing::Fixed(signature) => {
            println!(rt; "  {:?} -> {:?}", signature.takes, signature.leaves)?;
        }
        Typing::ByRule(_) => println!(rt; "  by rule")?,
        Typing::Unsupported(proposal) => println!(rt; "  unsupported: {proposal}")?,
    }
    if let Some(memarg) = memory_argument(op) {
        println!(rt; "  {memarg:?}")?;
    }
    if let Operator::Simd(op) = op {
        if let Some((lane, count)) = lane_index(op) {
            println!(rt; "  lane {lane} of {count}")?;
        }
    }
    Ok(())
}
