//! Types, from the numbers in the C struct.
ghost use Rattle.std.specs.Prelude.{◌≡◌, ◌+◌, ◌≤◌, ◌++◌, length};
ghost use Rattle.wasm_encode_view.specs.Bytes.{heap_bytes, null_bytes, reference_bytes, value_bytes, block_bytes, null_flag, cast_bytes};

use crate::buffer::Buffer;
use crate::numbers::{write_index, write_unsigned};

/// Appends a heap type.
pub fn write_heap(out: &mut Buffer, kind: u32, index: u32)
    requires { length out.old.items + 11 ≤ 64 }
    ensures bytes { out.new.items ≡ out.old.items ++ heap_bytes kind index }
    ensures len { length out.new.items ≤ length out.old.items + 11 }
{
    if kind == 1 {
        write_index(out, index);
        return;
    }
    if kind == 2 {
        out.push(0x62);
        write_unsigned(out, index as u64);
        return;
    }
    if kind < 256 {
        out.push(kind as u8);
        return;
    }
    out.push(0x65);
    out.push((kind % 256) as u8);
}

/// Appends a reference type that includes null.
fn write_null(out: &mut Buffer, kind: u32, index: u32)
    requires { length out.old.items + 12 ≤ 64 }
    ensures bytes { out.new.items ≡ out.old.items ++ null_bytes kind index }
    ensures len { length out.new.items ≤ length out.old.items + 12 }
{
    if kind < 3 {
        out.push(0x63);
        write_heap(out, kind, index);
        return;
    }
    write_heap(out, kind, index);
}

fn write_reference(out: &mut Buffer, kind: u32, index: u32)
    requires { length out.old.items + 12 ≤ 64 }
    ensures bytes { out.new.items ≡ out.old.items ++ reference_bytes kind index }
    ensures len { length out.new.items ≤ length out.old.items + 12 }
{
    if kind < 512 {
        out.push(0x64);
        write_heap(out, kind, index);
        return;
    }
    write_null(out, kind - 512, index);
}

/// Appends a value type.
pub fn write_value(out: &mut Buffer, kind: u32, index: u32)
    requires { length out.old.items + 12 ≤ 64 }
    ensures bytes { out.new.items ≡ out.old.items ++ value_bytes kind index }
    ensures len { length out.new.items ≤ length out.old.items + 12 }
{
    if kind < 1024 {
        out.push((kind % 256) as u8);
        return;
    }
    write_reference(out, kind - 1024, index);
}

/// Appends a block type.
pub fn write_block(out: &mut Buffer, kind: u32, index: u32)
    requires { length out.old.items + 12 ≤ 64 }
    ensures bytes { out.new.items ≡ out.old.items ++ block_bytes kind index }
    ensures len { length out.new.items ≤ length out.old.items + 12 }
{
    if kind == 0 {
        write_index(out, index);
        return;
    }
    write_value(out, kind, index);
}

/// Returns 1 if the reference type includes null, else 0.
fn null_flag(kind: u32) -> u8
    ensures value { result ≡ null_flag kind }
    ensures small { result ≤ 1 }
{
    if kind < 512 { 0 } else { 1 }
}

/// Appends the flags, the label and both heap types of a cast.
pub fn write_cast(out: &mut Buffer, label: u32, from: u32, from_index: u32, to: u32, to_index: u32)
    requires { length out.old.items + 33 ≤ 64 }
    ensures bytes { out.new.items ≡ out.old.items ++ cast_bytes label from from_index to to_index }
    ensures len { length out.new.items ≤ length out.old.items + 33 }
{
    out.push(null_flag(from) + 2 * null_flag(to));
    write_unsigned(out, label as u64);
    write_heap(out, from % 512, from_index);
    write_heap(out, to % 512, to_index);
}
