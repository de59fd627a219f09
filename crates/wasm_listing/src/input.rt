ghost use Rattle.std.specs.Prelude.{◌≡◌, IfOk, IfErr, IfSome};
ghost use Rattle.wasm_listing.specs.Dump.{WritesNothing};

use crate::fault::DumpFault;
use std::alloc::Global;
use std::io::{ErrorKind, Read};

/// Reads until no bytes are returned. Fails with `Reading` if a read fails.
pub fn read_input<R: Read>(alloc: Global, reader: &mut R) -> Result<Vec<u8>, DumpFault>
    ensures bytes { IfOk result (λ input. IfSome (R.remaining reader.old) (λ bytes. input.items ≡ bytes)) }
    ensures fault { IfErr result (λ fault. WritesNothing fault) }
{
    let mut input = Vec::new(alloc);
    match reader.read_to_end(&mut input) {
        Ok(_) => Ok(input),
        Err(error) => match error.kind() {
            ErrorKind::OutOfMemory => Err(DumpFault::Memory),
            _ => Err(DumpFault::Reading),
        },
    }
}
