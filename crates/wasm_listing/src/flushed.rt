ghost use Rattle.std.specs.Prelude.{◌≡◌, [], OnOk};
ghost use Rattle.std.specs.Io.KnownBytes.{Keeps};

use std::alloc::Allocator;
use std::io::{self, BufWriter, Print, Printer, Write};

/// A writer whose buffer, if it has one, is empty once it is flushed.
pub trait FlushedWrite: Write {
    // No byte is left in a buffer.
    ghost is_flushed: { Self → Type 0 };

    /// Flushes the writer.
    fn flush_all(&mut self) -> io::Result<()>
        ensures keeps { Keeps (Self.contents self.old) (Self.contents self.new) }
        ensures flushed { OnOk result (is_flushed self.new) };
}

impl<W: Write + Drop, A: Allocator> FlushedWrite for BufWriter<W, A> {
    ghost use Rattle.std.specs.Io.Buffered.{writer_buffer};

    ghost is_flushed = { λ writer. writer_buffer writer ≡ [] };

    fn flush_all(&mut self) -> io::Result<()> {
        self.flush()
    }
}

// Without a buffer.
impl<A: Allocator> FlushedWrite for Vec<u8, A> {
    ghost is_flushed = { λ writer. Unit {0} };

    fn flush_all(&mut self) -> io::Result<()> {
        self.flush()
    }
}

// Without a buffer.
impl<P: Print> FlushedWrite for Printer<'_, P> {
    ghost is_flushed = { λ writer. Unit {0} };

    fn flush_all(&mut self) -> io::Result<()> {
        self.flush()
    }
}
