ghost use Rattle.std.specs.Prelude.{◌≡◌, ◌++◌, OnOk, IfOk, string_bytes};
ghost use Rattle.wasm_listing.specs.Dump.{line_of, lines};

use std::alloc::{AllocError, Global};
use wasm_operators::Operator;

fn push_line(text: &mut String, operator: &Operator, offset: u64) -> Result<(), AllocError>
    ensures { OnOk result (string_bytes text.new ≡ string_bytes text.old ++ line_of (operator.now, offset)) }
{
    let name = operator.info().name;
    writeln!(text, "{offset} {name}")
}

pub fn lines_of(alloc: Global, operators: &[(Operator, u64)]) -> Result<String, AllocError>
    ensures { IfOk result (λ text. string_bytes text ≡ lines operators.now) }
{
    let mut text = String::new(alloc);
    for (operator, offset) in operators {
        push_line(&mut text, operator, *offset)?;
    }
    Ok(text)
}
