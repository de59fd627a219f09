ghost use Rattle.std.specs.Prelude.{◌≡◌, IfErr, OnOk};
ghost use Rattle.std.specs.Io.KnownBytes.{Appends};

use std::io::Write;

/// Writes a text. Fails with `failed` if the writer fails.
pub fn write_text<W: Write, F: Copy>(writer: &mut W, text: &str, failed: F) -> Result<(), F>
    ensures ok { OnOk result (Appends (W.contents writer.old) (W.contents writer.new) text.now) }
    ensures err { IfErr result (λ fault. fault ≡ failed) }
{
    if writer.write_all(text.as_bytes()).is_err() {
        return Err(failed);
    }
    Ok(())
}
