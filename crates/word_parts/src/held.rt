//! A writer that holds all that is written.
use trace_io::sink::{Sink, WriteFailed};

/// What was written, in memory. A write fails where there is none.
#[derive(Drop)]
pub struct Held {
    /// What was written.
    pub bytes: Vec<u8>,
    /// Whether memory was refused to a write.
    pub failed: bool,
    is_flushed: bool,
}

impl Held {
    ghost use Rattle.std.specs.Prelude.{◌≡◌, false};

    /// The writer, before its first write.
    pub fn new(bytes: Vec<u8>) -> Held
        ensures bytes { result.bytes ≡ bytes }
        ensures failed { result.failed ≡ false }
    {
        Held {
            bytes,
            failed: false,
            is_flushed: true,
        }
    }
}

impl Sink for Held {
    ghost use Rattle.std.specs.Prelude.{Some};

    ghost contents = { λ s. Some s.bytes.items };

    ghost failed = { λ s. s.failed };

    ghost is_flushed = { λ s. s.is_flushed };

    fn write(&mut self, bytes: &[u8]) -> Result<usize, WriteFailed> {
        self.is_flushed = false;
        match self.bytes.extend_from_slice(bytes) {
            Ok(()) => Ok(bytes.len()),
            Err(_) => {
                self.failed = true;
                Err(WriteFailed)
            }
        }
    }

    fn flush(&mut self) -> Result<(), WriteFailed> {
        self.is_flushed = true;
        Ok(())
    }
}
