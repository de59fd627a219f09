ghost use Rattle.std.specs.Prelude.{◌≡◌};
ghost use Rattle.wasm_rows.specs.Writing.{WritesText};

use crate::fault::Fault;
use std::io::{ErrorKind, Write};

/// Writes a text. Fails with `Writing`, after a part of the text.
pub fn write_text<W: Write>(writer: &mut W, text: &str) -> Result<(), Fault>
    ensures { WritesText text.now result (W.contents writer.old) (W.contents writer.new) }
{
    let mut left = text.as_bytes();
    for _try in 0..u64::MAX {
        if left.is_empty() {
            return Ok(());
        }
        match writer.write(left) {
            Ok(0) => return Err(Fault::Writing),
            Ok(written) => left = &left[written..],
            Err(e) => {
                if e.kind() != ErrorKind::Interrupted {
                    return Err(Fault::Writing);
                }
            }
        }
    }
    Err(Fault::Writing)
}
