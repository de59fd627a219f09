ghost use Rattle.wasm_below.specs.Source.{Reads};
ghost use Rattle.wasm_operators.specs.Locals.{EncodesDeclaration, DeclarationFault};

use wasm_below::{BinaryReader, Result, ValType};

/// Reads the number of locals and their type. Fails as `read_var_u32` or `ValType::read` does.
#[inline(always)]
pub fn read_declaration(reader: &mut BinaryReader<'_>) -> Result<(u32, ValType)>
    ensures { Reads EncodesDeclaration DeclarationFault result reader.old reader.new }
{
    let mut ahead = reader.clone();
    let number = ahead.read_var_u32()?;
    let ty = ValType::read(&mut ahead)?;
    *reader = ahead;
    Ok((number, ty))
}
