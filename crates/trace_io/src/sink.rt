//! What is written to: a writer that tells what it took, whether all of it has gone out, and
//! whether a write has failed.
ghost use Rattle.std.specs.Prelude.{◌≡◌, ◌<◌, ◌++◌, ◌==◌, ◌&&◌, ℕ, List, [], Bool, true, false, Option};
ghost use Rattle.std.specs.Prelude.{None, Some, length, IfOk, OnOk, OnErr};
ghost use Rattle.std.specs.Io.Buffered.{writer_buffer, writer_contents, writer_inner};
ghost use Rattle.std.specs.Io.{WritesAtMost};
ghost use Rattle.std.specs.Io.KnownBytes.{Keeps, Appends, WriteAppends};
ghost use Rattle.trace_io.specs.Sink.{AppendsFront};

use ghost_list::GhostList;
use std::alloc::Allocator;
use std::io::{BufWriter, Write};
use std::snapshot::Snapshot;

/// A write or a flush failed, or a write took no byte.
#[derive(Clone, Copy, PartialEq, Eq)]
pub struct WriteFailed;

/// A writer that tells what it took, whether all of it has gone out, and whether a write or a
/// flush has failed or a write has taken no byte.
pub trait Sink {
    // The bytes that the writer took, where they are known; `TrackedSink` knows them of any writer.
    ghost contents: { Self → Option (List ℕ) };
    // Whether a write or a flush has failed, or a write taken no byte of some.
    ghost failed: { Self → Bool };
    // Whether a flush came after the last write, and none of what was written lies in a buffer.
    ghost is_flushed: { Self → Bool };

    /// Writes a front of the bytes, at least one, and answers how many (POSIX.1-2017, write). At an
    /// `Err` the write has failed, or took no byte; what the writer holds is unchanged. A flush is
    /// due then, in each case.
    fn write(&mut self, bytes: &[u8]) -> Result<usize, WriteFailed>
        requires { 0 < length bytes.now }
        ensures bound { WritesAtMost result bytes.now }
        ensures some { IfOk result (λ n. 0 < n) }
        ensures bytes { WriteAppends (contents self.old) (contents self.new) result bytes.now }
        ensures ok { OnOk result (failed self.new ≡ failed self.old) }
        ensures err { OnErr result (failed self.new ≡ true) }
        ensures held { is_flushed self.new ≡ false };

    /// Hands on what lies in a buffer; after an `Ok` all that was written has gone out. What the
    /// writer holds is unchanged, at an `Err` too.
    fn flush(&mut self) -> Result<(), WriteFailed>
        ensures bytes { Keeps (contents self.old) (contents self.new) }
        ensures out { OnOk result (is_flushed self.new ≡ true) }
        ensures ok { OnOk result (failed self.new ≡ failed self.old) }
        ensures err { OnErr result (failed self.new ≡ true) };
}

/// Any writer behind a buffer, with the bytes that it took as a ghost list, its failures noted,
/// and whether it was flushed after its last write.
#[derive(Drop)]
pub struct TrackedSink<W: Write + Drop, A: Allocator> {
    pub writer: BufWriter<W, A>,
    /// All bytes that were taken.
    pub taken: GhostList<u8>,
    pub failed: bool,
    pub flushed: bool,
    // What the writer held at first.
    first: Snapshot<BufWriter<W, A>>,
    // Where it tells what it holds, that is what it held at first, and then the bytes that were taken.
    ghost handed: { (xs : List ℕ) → writer_contents W.contents first.value ≡ Some xs
        → writer_contents W.contents writer ≡ Some (xs ++ taken.items) },
}

impl<W: Write + Drop, A: Allocator> TrackedSink<W, A> {
    /// The writer, before its first write.
    pub fn new(writer: BufWriter<W, A>) -> TrackedSink<W, A>
        ensures writer { result.writer ≡ writer }
        ensures taken { result.taken.items ≡ [] }
        ensures failed { result.failed ≡ false }
        ensures flushed { result.flushed ≡ true }
    {
        let first = Snapshot::of(&writer);
        TrackedSink {
            writer,
            taken: GhostList::new(),
            failed: false,
            flushed: true,
            first,
        }
    }

    /// A writer to which each write goes out at once, before its first write. It takes no memory.
    pub fn unbuffered(alloc: A, writer: W) -> TrackedSink<W, A>
        ensures writer { writer_inner result.writer ≡ writer }
        ensures taken { result.taken.items ≡ [] }
        ensures failed { result.failed ≡ false }
        ensures flushed { result.flushed ≡ true }
    {
        let Ok(buffer) = BufWriter::with_capacity(alloc, 0, writer) else {
            unreachable!()
        };
        TrackedSink::new(buffer)
    }
}

impl<W: Write + Drop, A: Allocator> Sink for TrackedSink<W, A> {
    ghost contents = { λ s. Some s.taken.items };

    ghost failed = { λ s. s.failed };

    ghost is_flushed = { λ s. s.flushed && (length (writer_buffer s.writer) == 0) };

    fn write(&mut self, bytes: &[u8]) -> Result<usize, WriteFailed> {
        self.flushed = false;
        match self.writer.write(bytes) {
            Ok(n) if n > 0 => {
                self.taken = self.taken.and_all(&bytes[..n]);
                Ok(n)
            }
            _ => {
                self.failed = true;
                Err(WriteFailed)
            }
        }
    }

    fn flush(&mut self) -> Result<(), WriteFailed> {
        if let Err(_) = self.writer.flush() {
            self.failed = true;
            return Err(WriteFailed);
        }
        self.flushed = true;
        Ok(())
    }
}

/// A writer that takes all bytes and holds none, for what nobody reads. Its flush does nothing.
#[derive(Drop)]
pub struct Nowhere {
    is_flushed: bool,
}

impl Nowhere {
    /// The writer, before its first write.
    pub fn new() -> Nowhere {
        Nowhere { is_flushed: true }
    }
}

impl Sink for Nowhere {
    ghost contents = { λ s. None };

    ghost failed = { λ s. false };

    ghost is_flushed = { λ s. s.is_flushed };

    fn write(&mut self, bytes: &[u8]) -> Result<usize, WriteFailed> {
        self.is_flushed = false;
        Ok(bytes.len())
    }

    fn flush(&mut self) -> Result<(), WriteFailed> {
        self.is_flushed = true;
        Ok(())
    }
}

/// Writes all of the bytes. At an `Err` a front of them was written.
pub fn write_all<W: Sink>(writer: &mut W, bytes: &[u8]) -> Result<(), WriteFailed>
    ensures ok { OnOk result (Appends (W.contents writer.old) (W.contents writer.new) bytes.now) }
    ensures kept { OnOk result (W.failed writer.new ≡ W.failed writer.old) }
    ensures front { OnErr result
        (AppendsFront (W.contents writer.old) (W.contents writer.new) bytes.now) }
    ensures err { OnErr result (W.failed writer.new ≡ true) }
{
    let mut done = 0;
    while done < bytes.len() {
        done += writer.write(&bytes[done..])?;
    }
    Ok(())
}

/// Writes all of the bytes, which have gone out then. At an `Err` a front of them was written.
pub fn write_out<W: Sink>(writer: &mut W, bytes: &[u8]) -> Result<(), WriteFailed>
    ensures ok { OnOk result (Appends (W.contents writer.old) (W.contents writer.new) bytes.now) }
    ensures out { OnOk result (W.is_flushed writer.new ≡ true) }
    ensures kept { OnOk result (W.failed writer.new ≡ W.failed writer.old) }
    ensures front { OnErr result
        (AppendsFront (W.contents writer.old) (W.contents writer.new) bytes.now) }
    ensures err { OnErr result (W.failed writer.new ≡ true) }
{
    if let Err(_) = write_all(writer, bytes) {
        return Err(WriteFailed);
    }
    if let Err(_) = writer.flush() {
        return Err(WriteFailed);
    }
    Ok(())
}
