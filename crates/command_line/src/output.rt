//! Standard output, which knows why a write failed.
ghost use Rattle.std.specs.Prelude.{◌≡◌, ◌⊎◌, IsSome, true};

use std::alloc::Allocator;
use std::io;
use std::io::{ErrorKind, Write};
use trace_io::sink::{Sink, TrackedSink};
use word_parts::held::Held;

/// Where output goes.
pub trait Output: Sink {
    /// Why a write or a flush failed, where one did.
    fn cause(&self) -> Option<ErrorKind>
        ensures { IsSome result → Self.failed self.now ≡ true };
}

/// A writer that notes why a write or a flush failed.
#[derive(Drop)]
pub struct Noted<W> {
    writer: W,
    cause: Option<ErrorKind>,
}

impl<W> Noted<W> {
    /// The writer, before its first write.
    pub fn new(writer: W) -> Noted<W>
        ensures { result.writer ≡ writer }
    {
        Noted {
            writer,
            cause: None,
        }
    }

    /// The writer.
    pub fn into_inner(self) -> W
        ensures { result ≡ self.writer }
    {
        self.writer
    }
}

impl<W: Write> Write for Noted<W> {
    ghost contents = { λ n. W.contents n.writer };

    fn write(&mut self, bytes: &[u8]) -> io::Result<usize> {
        match self.writer.write(bytes) {
            Ok(count) => Ok(count),
            Err(error) => {
                self.cause = Some(error.kind());
                Err(error)
            }
        }
    }

    fn flush(&mut self) -> io::Result<()> {
        match self.writer.flush() {
            Ok(()) => Ok(()),
            Err(error) => {
                self.cause = Some(error.kind());
                Err(error)
            }
        }
    }
}

impl<W: Write + Drop, A: Allocator> Output for TrackedSink<Noted<W>, A> {
    fn cause(&self) -> Option<ErrorKind> {
        if self.failed {
            return self.writer.get_ref().cause;
        }
        None
    }
}

impl Output for Held {
    fn cause(&self) -> Option<ErrorKind> {
        if self.failed {
            return Some(ErrorKind::OutOfMemory);
        }
        None
    }
}

/// The status that is seen of a program which ends with this one: 141 where the reader of the output has gone, as a
/// shell tells of SIGPIPE, of which such a program says nothing.
pub(crate) fn status_seen<W: Output>(status: u8, out: &W) -> u8
    ensures seen { (result ≡ status) ⊎ ((result ≡ 141) × (status ≡ 3) × (W.failed out.now ≡ true)) }
    ensures failed { status ≡ 3 → (result ≡ 3) ⊎ (result ≡ 141) }
{
    match out.cause() {
        Some(ErrorKind::BrokenPipe) if status == 3 => 141,
        _ => status,
    }
}
