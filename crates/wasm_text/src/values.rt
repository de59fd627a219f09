//! Writes numbers, orderings and memory arguments, each after a space.
ghost use Rattle.std.specs.Prelude.{◌≡◌, ◌++◌, OnOk, string_bytes};
ghost use Rattle.wasm_text.specs.Values.{number_text, signed_text, order_text, fence_text, target_text, announced_text, memory_argument_text};

use std::alloc::AllocError;
use wasm_imm::{MemArg, MemArgOrdering, MemArgTarget, Ordering};

/// The result of writing into a `String`.
pub type Written = Result<(), AllocError>;

pub fn write_number(out: &mut String, value: u32) -> Written
    ensures { OnOk result (string_bytes out.new ≡ string_bytes out.old ++ number_text value) }
{
    write!(out, " {value}")
}

fn write_long(out: &mut String, value: u64) -> Written
    ensures { OnOk result (string_bytes out.new ≡ string_bytes out.old ++ number_text value) }
{
    write!(out, " {value}")
}

pub fn write_signed(out: &mut String, value: i64) -> Written
    ensures { OnOk result (string_bytes out.new ≡ string_bytes out.old ++ signed_text value) }
{
    write!(out, " {value}")
}

pub fn write_order(out: &mut String, value: Ordering) -> Written
    ensures { OnOk result (string_bytes out.new ≡ string_bytes out.old ++ order_text value) }
{
    match value {
        Ordering::SeqCst => out.push_str(" seq_cst"),
        Ordering::AcqRel => out.push_str(" acq_rel"),
    }
}

pub fn write_fence(out: &mut String, value: Ordering) -> Written
    ensures { OnOk result (string_bytes out.new ≡ string_bytes out.old ++ fence_text value) }
{
    match value {
        Ordering::SeqCst => out.push_str(" 0"),
        Ordering::AcqRel => out.push_str(" acq_rel"),
    }
}

fn write_target(out: &mut String, target: MemArgTarget) -> Written
    ensures { OnOk result (string_bytes out.new ≡ string_bytes out.old ++ target_text target) }
{
    match target {
        MemArgTarget::Memory(index) => {
            if index == 0 {
                Ok(())
            } else {
                write_number(out, index)
            }
        }
        MemArgTarget::Array(index) => write!(out, " (type {index})"),
    }
}

fn write_announced(out: &mut String, ordering: Option<MemArgOrdering>) -> Written
    ensures { OnOk result (string_bytes out.new ≡ string_bytes out.old ++ announced_text ordering) }
{
    match ordering {
        None => Ok(()),
        Some(MemArgOrdering::Op(order)) => write_order(out, order),
        Some(MemArgOrdering::Rmw(order)) => write_order(out, order),
    }
}

pub fn write_memory_argument(out: &mut String, value: &MemArg) -> Written
    ensures { OnOk result (string_bytes out.new ≡ string_bytes out.old ++ memory_argument_text value.now) }
{
    write_number(out, u32::from(value.align))?;
    write_target(out, value.target)?;
    write_long(out, value.offset)?;
    write_announced(out, value.ordering)
}
