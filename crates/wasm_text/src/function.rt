ghost use Rattle.std.specs.Prelude.{◌≡◌, ◌++◌, ◌+◌, ◌^◌, ◌<◌, OnOk, string_bytes};
ghost use Rattle.wasm_text.specs.Lines.{shown_name, header_of, shown_indices};

use crate::Written;
use crate::rows::write_offset;

/// Writes a name in angle brackets; nothing if the name is empty.
pub fn write_name(out: &mut String, name: &str) -> Written
    ensures { OnOk result (string_bytes out.new ≡ string_bytes out.old ++ shown_name name.now) }
{
    if name.is_empty() {
        return Ok(());
    }
    write!(out, " <{name}>")
}

/// Writes the header of a function: the offset of its body, its index and its name.
pub fn write_header(out: &mut String, offset: u64, index: u32, name: &str) -> Written
    ensures { OnOk result (string_bytes out.new ≡ string_bytes out.old ++ header_of offset index name.now) }
{
    write_offset(out, offset)?;
    write!(out, " func[{index}]")?;
    write_name(out, name)?;
    out.push_str(":\n")
}

/// Writes the indices of `number` locals: the first, and the last unless `number` is 1.
pub fn write_indices(out: &mut String, first: u64, number: u32) -> Written
    requires { first + number < 2 ^ 64 }
    ensures { OnOk result (string_bytes out.new ≡ string_bytes out.old ++ shown_indices first number) }
{
    if number == 1 {
        return write!(out, "local[{first}] type=");
    }
    let last = (first + u64::from(number)).saturating_sub(1);
    write!(out, "local[{first}..{last}] type=")
}
