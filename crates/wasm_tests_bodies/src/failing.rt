use crate::listing::write_run;
use crate::row::Given;
use std::alloc::{AllocError, Global};
use std::io::{self, Read, Write};
use wasm_listing::{DumpFault, FlushedWrite, run};
use wasm_operators::WasmFeatures;
use wasm_tests_texts::Written;

/// Gives one byte a call, and fails at one call.
#[derive(Drop)]
struct OneByte<'a> {
    bytes: &'a [u8],
    calls: u32,
    fails_at: u32,
}

impl<'a> Read for OneByte<'a> {
    fn read(&mut self, buf: &mut [u8]) -> io::Result<usize> {
        if self.calls == self.fails_at {
            return Err(io::Error::from(io::ErrorKind::Other));
        }
        self.calls = self.calls.wrapping_add(1);
        let Some((first, others)) = self.bytes.split_first() else {
            return Ok(0);
        };
        if buf.is_empty() {
            return Ok(0);
        }
        buf[0] = *first;
        self.bytes = others;
        Ok(1)
    }
}

/// Takes one byte a call, and fails at one call of `write` or `flush`.
#[derive(Drop)]
struct OneTaken {
    taken: Vec<u8>,
    calls: u32,
    fails_at: u32,
}

impl Write for OneTaken {
    fn write(&mut self, buf: &[u8]) -> io::Result<usize> {
        if self.calls == self.fails_at {
            return Err(io::Error::from(io::ErrorKind::Other));
        }
        self.calls = self.calls.wrapping_add(1);
        let Some(first) = buf.first() else {
            return Ok(0);
        };
        if self.taken.push(*first).is_err() {
            return Err(io::Error::from(io::ErrorKind::OutOfMemory));
        }
        Ok(1)
    }

    fn flush(&mut self) -> io::Result<()> {
        if self.calls == self.fails_at {
            return Err(io::Error::from(io::ErrorKind::Other));
        }
        self.calls = self.calls.wrapping_add(1);
        Ok(())
    }
}

// Without a buffer.
impl FlushedWrite for OneTaken {
    ghost is_flushed = { λ writer. Unit {0} };

    fn flush_all(&mut self) -> io::Result<()> {
        self.flush()
    }
}

/// Lists a body from a reader that fails after `given.number()` calls.
pub fn write_failing_read(alloc: Global, given: Given<'_>, out: &mut String) -> Written {
    let mut reader = OneByte {
        bytes: given.bytes,
        calls: 0,
        fails_at: given.number(),
    };
    let mut written = Vec::new(alloc);
    let end = run(alloc, WasmFeatures::all(), &mut reader, &mut written);
    if matches!(end, Err(DumpFault::Writing)) {
        // A `Vec` fails only if it cannot grow.
        return Err(AllocError);
    }
    write_run(end, written.as_slice(), out)
}

/// Lists a body to a writer that fails after `given.number()` calls.
pub fn write_failing_write(alloc: Global, given: Given<'_>, out: &mut String) -> Written {
    let mut reader = given.bytes;
    let mut writer = OneTaken {
        taken: Vec::with_capacity(alloc, 64)?,
        calls: 0,
        fails_at: given.number(),
    };
    let end = run(alloc, WasmFeatures::all(), &mut reader, &mut writer);
    write_run(end, writer.taken.as_slice(), out)
}
