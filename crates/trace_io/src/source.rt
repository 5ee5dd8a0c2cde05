//! What is read from: a reader that tells its bytes, how often it was read, and whether a read has
//! failed.
ghost use Rattle.std.specs.Prelude.{◌≡◌, ◌≢◌, ◌+◌, ◌^◌, ◌<◌, ℕ, [], Bool, false, length, IfOk, OnOk, OnErr};
ghost use Rattle.std.specs.Prelude.{if◌then◌else◌, ◌≤◌, Some, Err, drop};
ghost use Rattle.std.specs.Io.{ReadsAtMost};
ghost use Rattle.trace_io.specs.Source.{Stream, Gives, HasEnded, HasStopped, Reads, read_bytes};

use crate::fault::IoFault;
use ghost_list::GhostList;
use std::alloc::{AllocError, Allocator};
use std::io::Read;

/// How many bytes are read at once where all are read.
const CHUNK: usize = 65_536;

/// How many reads one input may take: 2^32.
pub const READ_LIMIT: u64 = 4_294_967_296;

/// A read failed, or one more than `READ_LIMIT` was asked for. The bytes to come are unchanged.
#[derive(Clone, Copy, PartialEq, Eq)]
pub struct ReadFailed;

/// A reader that tells what it has given, how often it was read, and whether a read has failed.
pub trait Source {
    // The bytes that it has given, and those to come, where they are known.
    ghost stream: { Self → Stream };
    // How many reads gave an answer.
    ghost reads: { Self → ℕ };
    // Whether a read has failed.
    ghost failed: { Self → Bool };

    /// Reads into the front of the buffer, and answers how many bytes: 0 only at the end, or for a
    /// buffer without room (POSIX.1-2017, read). After the end it gives no byte. At an `Err` a read
    /// has failed, an interrupted one too, or `READ_LIMIT` reads gave an answer before; no byte is
    /// lost.
    fn read(&mut self, buffer: &mut [u8]) -> Result<usize, ReadFailed>
        ensures bound { ReadsAtMost result buffer.new }
        ensures bytes { Gives (stream self.old) (stream self.new) (read_bytes result buffer.new) }
        ensures end { IfOk result (λ n. n ≡ 0 → 0 < length buffer.new → HasEnded (stream self.new)) }
        ensures count { OnOk result (reads self.new ≡ reads self.old + 1) }
        ensures limit { OnOk result (reads self.old < 2 ^ 32) }
        ensures ok { OnOk result (failed self.new ≡ failed self.old) }
        ensures err { OnErr result (HasStopped (failed self.new) (reads self.new)) };
}

/// Any reader, with the bytes that it gave as a ghost list, its reads counted and a failure noted.
#[derive(Drop)]
pub struct Counted<R> {
    pub reader: R,
    pub reads: u64,
    pub failed: bool,
    /// A read has met the end, and no other is made.
    pub ended: bool,
    /// All bytes that were given.
    pub given: GhostList<u8>,
}

impl<R> Counted<R> {
    /// The reader, before its first read.
    pub fn new(reader: R) -> Counted<R>
        ensures reader { result.reader ≡ reader }
        ensures reads { result.reads ≡ 0 }
        ensures failed { result.failed ≡ false }
        ensures ended { result.ended ≡ false }
        ensures given { result.given.items ≡ [] }
    {
        Counted {
            reader,
            reads: 0,
            failed: false,
            ended: false,
            given: GhostList::new(),
        }
    }
}

impl<R: Read> Source for Counted<R> {
    ghost stream = { λ s. record {
      given = s.given.items;
      coming = if s.ended then Some [] else R.remaining s.reader;
    } };

    ghost reads = { λ s. s.reads };

    ghost failed = { λ s. s.failed };

    fn read(&mut self, buffer: &mut [u8]) -> Result<usize, ReadFailed> {
        if self.reads >= READ_LIMIT {
            return Err(ReadFailed);
        }
        if self.ended {
            self.reads += 1;
            return Ok(0);
        }
        match self.reader.read(buffer) {
            Ok(n) => {
                self.reads += 1;
                self.ended = n == 0 && !buffer.is_empty();
                self.given = self.given.and_all(&buffer[..n]);
                Ok(n)
            }
            Err(_) => {
                self.failed = true;
                Err(ReadFailed)
            }
        }
    }
}

/// Room for what one read gives.
pub fn new_chunk<A: Allocator>(alloc: A) -> Result<Vec<u8, A>, AllocError>
    ensures { IfOk result (λ chunk. length chunk.items ≡ 65536) }
{
    let chunk = vec![in alloc; 0u8; CHUNK]?;
    Ok(chunk)
}

/// Reads into the chunk.
pub fn read_chunk<A: Allocator, S: Source>(
    chunk: &mut Vec<u8, A>,
    reader: &mut S,
) -> Result<usize, ReadFailed>
    requires { 0 < length chunk.old.items }
    ensures same { length chunk.new.items ≡ length chunk.old.items }
    ensures room { IfOk result (λ n. n ≤ length chunk.new.items) }
    ensures bytes { Gives (S.stream reader.old) (S.stream reader.new)
        (read_bytes result (drop 0 chunk.new.items)) }
    ensures end { IfOk result (λ n. n ≡ 0 → HasEnded (S.stream reader.new)) }
    ensures count { OnOk result (S.reads reader.new ≡ S.reads reader.old + 1) }
    ensures limit { OnOk result (S.reads reader.old < 2 ^ 32) }
    ensures stopped { OnErr result (HasStopped (S.failed reader.new) (S.reads reader.new)) }
{
    reader.read(&mut chunk[0..])
}

/// Reads until the input ends. Where a read fails, or there is no memory, some of it was read.
pub fn read_all<A: Allocator + Clone, S: Source>(
    alloc: A,
    reader: &mut S,
) -> Result<Vec<u8, A>, IoFault>
    ensures text { IfOk result (λ text.
        Reads (S.stream reader.old) (S.stream reader.new) (λ input unread. input ≡ text.items)) }
    ensures kept { OnErr result
        (Reads (S.stream reader.old) (S.stream reader.new) (λ input unread. input ≡ input)) }
    ensures read { result ≡ Err IoFault.ReadFailed →
        HasStopped (S.failed reader.new) (S.reads reader.new) }
    ensures write { result ≢ Err IoFault.WriteFailed }
{
    let Ok(for_text) = alloc.clone() else {
        return Err(IoFault::NoMemory);
    };
    let Ok(mut chunk) = new_chunk(alloc) else {
        return Err(IoFault::NoMemory);
    };
    let mut text: Vec<u8, A> = Vec::new(for_text);
    'reads: loop {
        let count = match read_chunk(&mut chunk, reader) {
            Ok(count) => count,
            Err(_) => return Err(IoFault::ReadFailed),
        };
        if count == 0 {
            return Ok(text);
        }
        if let Err(_) = text.extend_from_slice(&chunk[..count]) {
            return Err(IoFault::NoMemory);
        }
    }
}
