use std::io;
use std::io::Write;
use wasm_listing::FlushedWrite;

/// A writer that keeps the last error of another writer.
#[derive(Drop)]
pub struct Watched<W: Write + Drop> {
    inner: W,
    failure: Option<io::Error>,
}

impl<W: Write + Drop> Watched<W> {
    /// Watches a writer.
    pub fn new(inner: W) -> Watched<W> {
        Watched {
            inner,
            failure: None,
        }
    }

    /// Returns the last error, if a call failed.
    pub fn failure(&self) -> Option<io::Error> {
        self.failure
    }
}

/// Keeps the error of a call.
fn keep_error<T>(failure: &mut Option<io::Error>, outcome: &io::Result<T>) {
    if let Err(error) = outcome {
        *failure = Some(*error);
    }
}

impl<W: Write + Drop> Write for Watched<W> {
    ghost contents = { λ s. W.contents s.inner };

    fn write(&mut self, buf: &[u8]) -> io::Result<usize> {
        let outcome = self.inner.write(buf);
        keep_error(&mut self.failure, &outcome);
        outcome
    }

    fn flush(&mut self) -> io::Result<()> {
        let outcome = self.inner.flush();
        keep_error(&mut self.failure, &outcome);
        outcome
    }

    fn write_all(&mut self, buf: &[u8]) -> io::Result<()> {
        let outcome = self.inner.write_all(buf);
        keep_error(&mut self.failure, &outcome);
        outcome
    }
}

impl<W: FlushedWrite + Drop> FlushedWrite for Watched<W> {
    ghost is_flushed = { λ s. W.is_flushed s.inner };

    fn flush_all(&mut self) -> io::Result<()> {
        let outcome = self.inner.flush_all();
        keep_error(&mut self.failure, &outcome);
        outcome
    }
}
