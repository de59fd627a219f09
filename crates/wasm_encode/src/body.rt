ghost use Rattle.std.specs.Prelude.{◌≡◌, ◌+◌, ◌<◌, ◌≤◌, ◌^◌, length, IfErr, vec_len, vec_capacity};
ghost use Rattle.wasm_operators.specs.Expression.{operators};
ghost use Rattle.wasm_operators.specs.Locals.{EncodesDeclaration};
ghost use Rattle.wasm_encode_numbers.specs.Appended.{Appends};
ghost use Rattle.wasm_encode.specs.Writing.{WritesBody, WritesLocals};

use crate::operators::write_operators;
use wasm_encode_immediates::{Unwritable, write_value_type};
use wasm_encode_numbers::write_u32;
use wasm_operators::{Operator, ValType, WasmFeatures};

/// Appends the declarations of locals, each a number of locals and their type, and the operators of
/// a body. The size of the body, which precedes it in a code section, is not written.
///
/// Fails with `TooMany` for 2^32 declarations or more, with `OutOfMemory`, or like
/// `write_operators`. The sum of the numbers of locals is not checked.
pub fn write_body(
    out: &mut Vec<u8>,
    features: WasmFeatures,
    declarations: &[(u32, ValType)],
    ops: &[(Operator<'_>, u64)],
) -> Result<(), Unwritable>
    ensures written { WritesBody features declarations.now (operators ops.now) result out.old.items out.new.items }
    ensures kept { vec_capacity out.old ≤ vec_capacity out.new }
{
    let start = out.len();
    match write_locals(out, declarations) {
        Ok(()) => match write_operators(out, features, ops) {
            Ok(()) => Ok(()),
            Err(e) => {
                out.truncate(start);
                Err(e)
            }
        },
        Err(e) => Err(e),
    }
}

/// Appends the number of declarations and each of them, after reserving capacity for all. Fails
/// with `TooMany` for 2^32 declarations or more, or with `OutOfMemory`.
pub(crate) fn write_locals(
    out: &mut Vec<u8>,
    declarations: &[(u32, ValType)],
) -> Result<(), Unwritable>
    ensures written { WritesLocals declarations.now result out.old.items out.new.items }
    ensures kept { vec_capacity out.old ≤ vec_capacity out.new }
{
    let count = declarations.len();
    if count > 0xffff_ffff {
        return Err(Unwritable::TooMany);
    }
    match out.reserve(10 + 22 * count) {
        Ok(()) => {
            write_u32(out, count as u32);
            for (number, ty) in declarations {
                write_declaration(out, *number, *ty);
            }
            Ok(())
        }
        Err(_) => Err(Unwritable::OutOfMemory),
    }
}

/// Appends a number of locals and their type: at most 22 bytes.
fn write_declaration(out: &mut Vec<u8>, number: u32, ty: ValType)
    requires { vec_len out.old + 22 ≤ vec_capacity out.old }
    ensures written { Appends EncodesDeclaration (number, ty) out.old.items out.new.items }
    ensures len { vec_len out.new ≤ vec_len out.old + 22 }
    ensures capacity { vec_capacity out.old ≤ vec_capacity out.new }
{
    write_u32(out, number);
    write_value_type(out, ty);
}
