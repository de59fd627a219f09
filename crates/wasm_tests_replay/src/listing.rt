use crate::outcomes::fingerprint;
use std::alloc::Global;
use std::io::{self, Write};
use wasm_listing::{DumpFault, FlushedWrite, run};
use wasm_operators::{Error, WasmFeatures};
use wasm_tests_texts::Written;

/// A writer whose bytes arrive when it is flushed.
#[derive(Drop)]
struct Flushed {
    text: Vec<u8>,
    arrived: usize,
}

impl Write for Flushed {
    fn write(&mut self, buf: &[u8]) -> io::Result<usize> {
        match self.text.extend_from_slice(buf) {
            Ok(()) => Ok(buf.len()),
            Err(_) => Err(io::Error::from(io::ErrorKind::OutOfMemory)),
        }
    }

    fn flush(&mut self) -> io::Result<()> {
        self.arrived = self.text.len();
        Ok(())
    }
}

impl FlushedWrite for Flushed {
    ghost is_flushed = { λ writer. Unit {0} };

    fn flush_all(&mut self) -> io::Result<()> {
        self.flush()
    }
}

#[derive(Drop)]
pub struct Listing {
    pub text: Vec<u8>,
    pub end: Result<(), DumpFault>,
}

impl Listing {
    pub fn of(alloc: Global, features: WasmFeatures, body: &[u8]) -> Listing {
        let mut reader = body;
        let mut writer = Flushed {
            text: Vec::new(alloc),
            arrived: 0,
        };
        let end = run(alloc, features, &mut reader, &mut writer);
        let Flushed { mut text, arrived } = writer;
        text.truncate(arrived);
        Listing { text, end }
    }

    /// Returns the lines of the listing, or an empty text if the listing is not UTF-8.
    pub fn lines(&self) -> &str {
        str::from_utf8(self.text.as_slice()).unwrap_or("")
    }

    pub fn refusal(&self) -> Option<Error> {
        match self.end {
            Err(DumpFault::Refused(e)) => Some(e),
            _ => None,
        }
    }

    pub fn write_status(&self, out: &mut String) -> Written {
        match self.end {
            Ok(()) => out.push_str("0"),
            Err(fault) => {
                let status = fault.status();
                write!(out, "{status}")
            }
        }
    }

    pub fn write_number(&self, out: &mut String) -> Written {
        let number = match self.refusal() {
            None => 0,
            Some(e) => e.message().number(),
        };
        write!(out, "{number}")
    }

    pub fn write_offset(&self, out: &mut String) -> Written {
        match self.refusal() {
            None => Ok(()),
            Some(e) => {
                let offset = e.offset();
                write!(out, "{offset}")
            }
        }
    }

    pub fn write_text(&self, out: &mut String) -> Written {
        match self.refusal() {
            None => Ok(()),
            Some(e) => {
                let message = e.message();
                write!(out, "{message}")
            }
        }
    }

    pub fn write_count(&self, out: &mut String) -> Written {
        let count = self.lines().lines().count();
        write!(out, "{count}")
    }

    pub fn write_print(&self, out: &mut String) -> Written {
        let print = fingerprint(self.text.as_slice());
        write!(out, "{print:016x}")
    }

    /// Writes the lines with semicolons between them, or `*` for more than six.
    pub fn write_lines(&self, out: &mut String) -> Written {
        if self.lines().lines().count() > 6 {
            return out.push_str("*");
        }
        let mut is_first = true;
        for line in self.lines().lines() {
            if !is_first {
                out.push_str(";")?;
            }
            is_first = false;
            out.push_str(line)?;
        }
        Ok(())
    }
}
