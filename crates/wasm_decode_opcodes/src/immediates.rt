ghost use Rattle.std.specs.Prelude.{◌≤◌, [], ◌∷◌};
ghost use Rattle.wasm_imm.specs.Immediate.{branch_table, is_branch_table};
ghost use Rattle.wasm_decode_opcodes.specs.Decoding.{ReadsKinds, GoesBack};

use wasm_below::{BinaryReader, Result};
use wasm_imm::BrTable;

/// Reads the targets of `br_table`, the only immediate that borrows. On an error the reader goes
/// back to the position `start`.
#[inline(always)]
pub fn branch_table<'a>(reader: &mut BinaryReader<'a>, start: usize) -> Result<BrTable<'a>>
    requires { start ≤ reader.old.position }
    ensures { ReadsKinds (is_branch_table ∷ []) (λ t. branch_table t ∷ []) (λ r. ⊥) GoesBack start result reader.old reader.new }
{
    match BrTable::read(reader) {
        Ok(read) => Ok(read),
        Err(e) => {
            reader.rewind(start);
            Err(e)
        }
    }
}
