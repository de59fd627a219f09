ghost use Rattle.std.specs.Prelude.{◌≡◌, ℕ, List, IfOk, IfErr};
ghost use Rattle.wasm_operators.specs.below.Number.{EncodesUnsigned};
ghost use Rattle.wasm_operators.specs.below.Sequence.{Then};
ghost use Rattle.wasm_operators.specs.below.Source.{rest};
ghost use Rattle.wasm_operators.specs.imm.Lists.{EncodesMany};

use std::alloc::Global;
use wasm_operators::{BinaryReader, Error, Message, Result, SectionLimited, byte_laws};

/// Reads the list of indices of a section, such as the function section. At such a list, only
/// allocation can fail (law `unsigned_numbers`).
pub fn read_indices(alloc: Global, reader: BinaryReader<'_>) -> Result<Vec<u32>>
    ensures found { IfOk result (λ indices. Then (EncodesUnsigned 32) (EncodesMany (EncodesUnsigned 32)) (rest reader.entry) indices.items) }
    ensures only { (indices : List ℕ) → Then (EncodesUnsigned 32) (EncodesMany (EncodesUnsigned 32)) (rest reader.entry) indices
        → IfErr result (λ e. e.message ≡ Message.OutOfMemory) }
{
    byte_laws::unsigned_numbers();
    let section: SectionLimited<'_, u32> = SectionLimited::new(alloc, reader)?;
    let mut items = section.into_iter();
    let mut indices = Vec::new(alloc);
    'items: while let Some(item) = items.next() {
        let index = item?;
        if indices.push(index).is_err() {
            return Err(Error::new(Message::OutOfMemory, 0));
        }
    }
    Ok(indices)
}
