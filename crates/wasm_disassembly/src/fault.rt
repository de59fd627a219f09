ghost use Rattle.std.specs.Prelude.{◌≡◌};
ghost use Rattle.wasm_disassembly.specs.Faults.{fault_at};

use wasm_operators::{Error, Message};

/// Why the text of a function stops before the end of its body.
#[derive(Clone, Copy, Debug, PartialEq, Eq)]
pub enum DisassemblyFault {
    /// The bytes are not a body; the error of what follows the lines.
    Refused(Error),
    /// Allocation failed.
    Memory,
    /// The writer failed.
    Writing,
}

/// Returns `Memory` for `OutOfMemory`, otherwise `Refused`.
pub fn fault_of(error: Error) -> DisassemblyFault
    ensures { result ≡ fault_at error.message error }
{
    match error.message() {
        Message::OutOfMemory => DisassemblyFault::Memory,
        _ => DisassemblyFault::Refused(error),
    }
}
