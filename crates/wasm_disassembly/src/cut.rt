//! The part of a module before its first section in error.
ghost use Rattle.std.specs.Prelude.{◌≡◌, ◌≤◌, IfSome, length};
ghost use Rattle.wasm_operators.specs.below.Source.{reader_of};
ghost use Rattle.wasm_disassembly.specs.Cut.{IsFirstCut, before_cut, fault_after, after_cut};

use crate::listing_fault::Fault;
use wasm_module::{function_laws, open_sections, read_section};
use wasm_operators::{Error, WasmFeatures};

/// Returns how many bytes precede a module's first section in error, and the error; `None` if no
/// section is, or the preamble is.
pub fn find_cut(features: WasmFeatures, bytes: &[u8]) -> Option<(usize, Error)>
    ensures cut { IsFirstCut (reader_of features 0 bytes.now) result }
    ensures within { IfSome result (λ cut. cut.0 ≤ length bytes.now) }
{
    function_laws::refusals();
    function_laws::next_section();
    let mut reader = match open_sections(features, bytes) {
        Ok(reader) => reader,
        Err(_) => return None,
    };
    'sections: while !reader.eof() {
        let left = reader.bytes_remaining();
        let _section = match read_section(&mut reader) {
            Ok(section) => section,
            Err(e) => return Some((bytes.len().saturating_sub(left), e)),
        };
    }
    None
}

/// Returns the bytes before a cut, or all.
pub fn before_cut<'a>(cut: Option<(usize, Error)>, bytes: &'a [u8]) -> &'a [u8]
    requires { IfSome cut (λ cut. cut.0 ≤ length bytes.now) }
    ensures { result.now ≡ before_cut cut bytes.now }
{
    match cut {
        None => bytes,
        Some((count, _)) => &bytes[..count],
    }
}

/// Returns the module's fault, from the fault of the bytes before a cut and the cut's error.
fn fault_after(fault: Fault, error: Error) -> Fault
    ensures { result ≡ fault_after fault error }
{
    match fault {
        Fault::NoFunction(_) => Fault::Section(error),
        _ => fault,
    }
}

/// Returns the module's result, from the result of the bytes before a cut.
pub fn after_cut(cut: Option<(usize, Error)>, listed: Result<bool, Fault>) -> Result<bool, Fault>
    ensures { result ≡ after_cut cut listed }
{
    match cut {
        None => listed,
        Some((_, error)) => match listed {
            Ok(_) => Err(Fault::Section(error)),
            Err(fault) => Err(fault_after(fault, error)),
        },
    }
}
