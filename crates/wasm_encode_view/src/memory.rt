//! Memory arguments and orderings, from the numbers in the C struct.
ghost use Rattle.std.specs.Prelude.{◌≡◌, ◌+◌, ◌≤◌, ◌++◌, length};
ghost use Rattle.wasm_encode_view.specs.Bytes.{order_byte, target_flag, target_bytes, ordering_flag, ordering_bytes, memory_bytes};

use crate::buffer::Buffer;
use crate::numbers::write_unsigned;
use wasm_view::WasmOperator;

/// Returns the byte of an ordering.
pub fn order_byte(ordering: u16) -> u8
    ensures { result ≡ order_byte ordering }
{
    if ordering == 2 {
        0x01
    } else {
        if ordering == 4 { 0x11 } else { 0x00 }
    }
}

/// Returns the flag of an array, or of a memory other than 0.
fn target_flag(target: u16, index: u32) -> u8
    ensures value { result ≡ target_flag target index }
    ensures small { result ≤ 64 }
{
    if target == 1 {
        32
    } else {
        if index == 0 { 0 } else { 64 }
    }
}

/// Appends the index if a flag announces one.
fn write_target(out: &mut Buffer, target: u16, index: u32)
    requires { length out.old.items + 10 ≤ 64 }
    ensures bytes { out.new.items ≡ out.old.items ++ target_bytes target index }
    ensures len { length out.new.items ≤ length out.old.items + 10 }
{
    if target == 1 {
        write_unsigned(out, index as u64);
        return;
    }
    if index == 0 {
        return;
    }
    write_unsigned(out, index as u64);
}

/// Returns the flag of an ordering.
fn ordering_flag(ordering: u16) -> u8
    ensures value { result ≡ ordering_flag ordering }
    ensures small { result ≤ 16 }
{
    if ordering == 0 { 0 } else { 16 }
}

/// Appends the byte of the ordering if a flag announces one.
fn write_ordering(out: &mut Buffer, ordering: u16)
    requires { length out.old.items + 1 ≤ 64 }
    ensures bytes { out.new.items ≡ out.old.items ++ ordering_bytes ordering }
    ensures len { length out.new.items ≤ length out.old.items + 1 }
{
    if ordering == 0 {
        return;
    }
    out.push(order_byte(ordering));
}

/// Appends the memory argument.
pub fn write_memory(out: &mut Buffer, view: &WasmOperator)
    requires { length out.old.items + 22 ≤ 64 }
    ensures bytes { out.new.items ≡ out.old.items ++ memory_bytes view.now }
    ensures len { length out.new.items ≤ length out.old.items + 22 }
{
    let flags = ordering_flag(view.ordering) + target_flag(view.target, view.first);
    out.push(view.align % 16 + flags);
    write_target(out, view.target, view.first);
    write_ordering(out, view.ordering);
    write_unsigned(out, view.wide);
}
