//! The lines before the listings of a module.
ghost use Rattle.std.specs.Prelude.{◌≡◌, ◌++◌, OnOk, option_map, string_bytes};
ghost use Rattle.wasm_rows.specs.Titles.{name_line, file_line, title_of};
ghost use Rattle.wasm_rows.specs.Writing.{WritesText};

use crate::fault::Fault;
use crate::writing::write_text;
use std::alloc::{AllocError, Global};
use std::io::Write;
use wasm_escapes::write_escaped;

/// Appends the line with a module's name, if it has one.
fn push_module_name(alloc: Global, out: &mut String, name: &[u8]) -> Result<(), AllocError>
    ensures { OnOk result (string_bytes out.new ≡ string_bytes out.old ++ name_line name.now) }
{
    if name.is_empty() {
        return Ok(());
    }
    out.push_str("module name: <")?;
    write_escaped(alloc, out, name)?;
    out.push_str(">\n")
}

/// Appends the line with the name of a file.
fn push_file(alloc: Global, out: &mut String, file: &str) -> Result<(), AllocError>
    ensures { OnOk result (string_bytes out.new ≡ string_bytes out.old ++ file_line file.now) }
{
    out.push_str("\n")?;
    write_escaped(alloc, out, file.as_bytes())?;
    out.push_str(":\tfile format wasm 0x1\n")
}

/// Appends the names of the file and the module, unless `file` is `None`.
pub fn push_title(
    alloc: Global,
    out: &mut String,
    file: Option<&str>,
    name: &[u8],
) -> Result<(), AllocError>
    ensures { OnOk result (string_bytes out.new ≡ string_bytes out.old ++ title_of (option_map (λ text. text.now) file.entry) name.now) }
{
    match file {
        Some(file) => {
            push_file(alloc, out, file)?;
            push_module_name(alloc, out, name)
        }
        None => Ok(()),
    }
}

/// Writes the names of the file and the module, unless `file` is `None`.
pub fn write_title<W: Write>(
    alloc: Global,
    file: Option<&str>,
    name: &[u8],
    writer: &mut W,
) -> Result<(), Fault>
    ensures { WritesText (title_of (option_map (λ text. text.now) file.entry) name.now) result (W.contents writer.old) (W.contents writer.new) }
{
    let mut title = String::new(alloc);
    if push_title(alloc, &mut title, file, name).is_err() {
        return Err(Fault::Memory);
    }
    write_text(writer, title.as_str())
}
