ghost use Rattle.std.specs.Prelude.{◌≡◌, IfOk, IfErr};
ghost use Rattle.wasm_operators.specs.Expression.{operators};
ghost use Rattle.uses.specs.Constants.{i32_of, TakesOffset};

use std::alloc::Global;
use wasm_operators::{BinaryReader, ConstExpr, Operator, Result};

fn i32_of(list: &[(Operator<'_>, u64)]) -> Option<i32>
    ensures { result ≡ i32_of (operators list.now) }
{
    if list.len() != 2 {
        return None;
    }
    match &list[0].0 {
        Operator::I32Const { value } => Some(*value),
        _ => None,
    }
}

/// Reads a constant expression. Returns its constant if it is one `i32.const`, otherwise `None`.
///
/// The clause `tree` of `read_all` says that the bytes encode the list.
pub fn read_offset(alloc: Global, reader: &mut BinaryReader<'_>) -> Result<Option<i32>>
    ensures takes { IfOk result (λ offset. TakesOffset offset reader.old reader.new) }
    ensures nothing { IfErr result (λ e. reader.new ≡ reader.old) }
{
    let mut ahead = reader.clone();
    let constant = ConstExpr::read(alloc, &mut ahead)?;
    let mut list = Vec::new(alloc);
    constant.get_operators_reader(alloc).read_all(&mut list)?;
    *reader = ahead;
    Ok(i32_of(list.as_slice()))
}
