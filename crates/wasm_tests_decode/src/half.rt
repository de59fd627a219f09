//! Visits a SIMD operator by the call for its half of the subopcodes: below 0x80, or from 0x80 on.
//! A visit from bytes makes that call only for operators with immediates.
ghost use Rattle.std.specs.Prelude.{◌≡◌, Some, IfSome};
ghost use Rattle.wasm_decode_opcodes.specs.Decoding.{IsAfterCode};

use crate::runs::{Reported, reader_at};
use crate::task::Task;
use crate::teller::Teller;
use wasm_below::{BinaryReader, Result};
use wasm_visit::{GroupSimdHigh, GroupSimdLow};
use wasm_visit_groups::Visitor;

/// Returns the decoding call's result and the position; `None` without the byte 0xfd and a
/// subopcode.
fn run_half<V: GroupSimdLow + GroupSimdHigh>(
    v: &mut V,
    task: Task,
    bytes: &[u8],
) -> Option<(Result<V::Output>, usize)> {
    let mut reader = reader_at(task, bytes);
    let start = reader.current_position();
    let code = read_simd_subopcode(&mut reader, start)?;
    let outcome = if code < 0x80 {
        v.decode_simd_low(&mut reader, start, code)
    } else {
        v.decode_simd_high(&mut reader, start, code)
    };
    Some((outcome, reader.current_position()))
}

fn read_simd_subopcode(reader: &mut BinaryReader<'_>, start: usize) -> Option<u32>
    requires { start ≡ reader.old.position }
    ensures { IfSome result (λ code. IsAfterCode start (Some 0xfd) code reader.new) }
{
    match reader.read_u8() {
        Ok(0xfd) => match reader.read_var_u32() {
            Ok(code) => Some(code),
            Err(_) => None,
        },
        _ => None,
    }
}

pub fn run_own(teller: &mut Teller, task: Task, bytes: &[u8]) -> Option<(Reported, usize)> {
    run_half(teller, task, bytes)
}

pub fn run_borrowed(teller: &mut Teller, task: Task, bytes: &[u8]) -> Option<(Reported, usize)> {
    let mut borrowed = teller;
    run_half(&mut borrowed, task, bytes)
}

pub fn run_boxed(boxed: &mut Box<Teller>, task: Task, bytes: &[u8]) -> Option<(Reported, usize)> {
    run_half(boxed, task, bytes)
}

pub fn run_both(boxed: &mut Box<Teller>, task: Task, bytes: &[u8]) -> Option<(Reported, usize)> {
    let mut borrowed = boxed;
    run_half(&mut borrowed, task, bytes)
}
