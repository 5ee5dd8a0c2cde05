//! What the text of a call says.
ghost use Rattle.std.specs.Prelude.{◌≡◌, ◌≤◌, ◌<◌, None, codes, option_map};
ghost use Rattle.import_forms.specs.Tokens.{begins_by, occurs, split_at_last};
ghost use Rattle.import_forms.specs.Said.{advice_of, advice_said, attach_said, clears_pages, comment_end, detach_said, done_said, drops_bytes, drops_in, file_named, file_said, flags_named, from_sign};
ghost use Rattle.import_forms.specs.Said.{has_flag, is_for_growing, is_known, known_said, lost_by, lost_in, lost_mmap, mapping_said, memory_named, mmap_said, mmap_words, mprotect_said};
ghost use Rattle.import_forms.specs.Said.{mremap_said, munmap_said, only_thread, outcome_else, outcome_of, outcome_said, past_comment, prot_attached, prot_named, said_else};
ghost use Rattle.import_forms.specs.Said.{said_named, said_of, size_said, strace_named};

use crate::calls::{
    Call, Outcome, asked, call_named, clears, drops, flags_of, has_bit, is_plain, keyed, lost_of,
    lost_or_unread, rights_of,
};
use crate::making::read_making;
use crate::stamps::front_thread;
use crate::tokens::{begins, has, next_count, next_token, read_only, split_last, without_gaps};
use trace_text::number::read_number;
use vm_base::{Flags, Prot, Request};

/// What changes an address space in a way that no trace has.
#[derive(Clone, Copy)]
pub enum Lost {
    /// `shmat`: shared memory of a size that the log doesn't say is attached.
    Attach,
    /// `shmdt`: such memory is detached.
    Detach,
    /// `madvise` with `MADV_FREE` or `MADV_REMOVE`: bytes of pages are dropped.
    Drops,
    /// `remap_file_pages`: a mapping's pages are another part of its file.
    Remaps,
    /// `mmap` with `MAP_GROWSDOWN`: the mapping grows by itself.
    Grows,
    /// `mmap` with `MAP_HUGETLB`: the pages are of another size.
    Huge,
    /// `userfaultfd`: the program answers faults of pages itself.
    Faults,
    /// `io_setup`, `io_destroy` and `map_shadow_stack`: the kernel maps or unmaps pages of its own choice.
    Others,
}

/// What the text of a call says.
#[derive(Clone, Copy)]
pub enum Said {
    /// `mmap`, `munmap` or `mprotect`, as it stands: a mapping where the kernel placed it, and of file 0.
    Asks(Request),
    /// `brk`: the heap ends at this address from now on.
    Breaks(u64),
    /// `mremap`: from an address and its length in bytes, to another.
    Moves {
        /// Where the mapping was.
        from: u64,
        /// How many bytes it had.
        old: u64,
        /// Where it is.
        to: u64,
        /// How many bytes it has.
        new: u64,
        /// Whether its old place stays mapped, without its pages (`MREMAP_DONTUNMAP`).
        stays: bool,
    },
    /// `madvise` with `MADV_DONTNEED`: the pages of a range go, and it stays mapped.
    Clears {
        /// Where the range begins.
        addr: u64,
        /// How many bytes it has.
        len: u64,
    },
    /// `clone`, `clone3`, `fork` or `vfork`: a thread was made.
    Makes {
        /// Its number.
        thread: u64,
        /// Whether it is of the same process (`CLONE_THREAD`).
        shares: bool,
        /// Whether it is of another one that has its maker's address space until it begins a program (`CLONE_VM`,
        /// `vfork`).
        joins: bool,
    },
    /// `execve`: a program begins, with a new address space.
    Begins,
    /// `pkey_mprotect`, as `mprotect`.
    Keyed(Request),
    /// `shmget`: the shared memory of this number has so many bytes.
    Sizes {
        /// Its number.
        number: u64,
        /// How many bytes it has.
        len: u64,
    },
    /// `shmat`: the shared memory of this number is mapped.
    Attaches {
        /// Its number.
        number: u64,
        /// Where it is mapped.
        addr: u64,
        /// The mapping's rights.
        prot: Prot,
    },
    /// `shmdt`: the shared memory that was mapped here is unmapped.
    Detaches(u64),
    /// A call that changes the address space in a way that no trace has.
    Loses(Lost),
    /// A thread ended.
    Ends,
    /// One of these calls failed.
    Fails,
    /// One of these calls in a form that isn't read.
    Unread,
    /// Any other call, an event, or nothing.
    Other,
}

// The call of this name, of those that strace alone writes so.
fn strace_named(name: &[u8]) -> Option<Call>
    ensures { result ≡ strace_named name.now }
{
    if name == b"mmap2".as_slice() {
        Some(Call::Mmap)
    } else if name == b"clone".as_slice() || name == b"clone3".as_slice() {
        Some(Call::Make)
    } else if name == b"fork".as_slice() {
        Some(Call::Make)
    } else if name == b"vfork".as_slice() {
        Some(Call::MakeGuest)
    } else if name == b"execve".as_slice() || name == b"execveat".as_slice() {
        Some(Call::Begin)
    } else {
        memory_named(name)
    }
}

// The call of this name, of those that change the space otherwise.
fn memory_named(name: &[u8]) -> Option<Call>
    ensures { result ≡ memory_named name.now }
{
    if name == b"process_madvise".as_slice() {
        Some(Call::Advise)
    } else if name == b"shmget".as_slice() {
        Some(Call::Size)
    } else if name == b"shmat".as_slice() {
        Some(Call::Attach)
    } else if name == b"shmdt".as_slice() {
        Some(Call::Detach)
    } else if name == b"map_shadow_stack".as_slice() {
        Some(Call::Lost(Lost::Others))
    } else {
        None
    }
}

/// The call of this name.
pub(crate) fn said_named(name: &[u8]) -> Option<Call>
    ensures { result ≡ said_named name.now }
{
    match call_named(name) {
        Some(call) => Some(call),
        None => strace_named(name),
    }
}

// The number of the thread that is all that stands here, `NUMBER<NAME>`.
#[tactic(auto, unfolding(crate::specs::Said::only_thread))]
fn only_thread(after: &[u8]) -> Option<u64>
    ensures { result ≡ only_thread after.now }
{
    let (number, rest) = front_thread(after)?;
    let left = without_gaps(rest);
    if !left.is_empty() {
        return None;
    }
    Some(number)
}

// What a call gave that isn't a bare number: the number of a thread with its name, or -1 and why it failed.
fn read_other(after: &[u8]) -> Outcome
    ensures { result ≡ outcome_else after.now (only_thread after.now) }
{
    match only_thread(after) {
        Some(number) => Outcome::Gives(number),
        None => {
            if begins(without_gaps(after), b"-1".as_slice()) {
                Outcome::Fails
            } else {
                Outcome::Unclear
            }
        }
    }
}

// What a call gave: one number, or -1 and why it failed.
fn read_outcome(after: &[u8]) -> Outcome
    ensures { result ≡ outcome_of after.now }
{
    match read_only(after) {
        Some(number) => Outcome::Gives(number),
        None => read_other(after),
    }
}

/// Tells whether a token has this flag: its bit, where the token is a number, and else its name.
pub(crate) fn has_flag(token: &[u8], name: &[u8], bit: u64) -> bool
    requires { 0 < bit }
    ensures { result ≡ has_flag name.now bit token.now }
{
    match read_number(token) {
        Some(bits) => has_bit(bits, bit),
        None => has(token, name),
    }
}

/// The rights that a token names.
pub(crate) fn prot_named(token: &[u8]) -> Prot
    ensures { result ≡ prot_named token.now }
{
    match read_number(token) {
        Some(bits) => rights_of(bits),
        None => Prot {
            read: has(token, b"PROT_READ".as_slice()),
            write: has(token, b"PROT_WRITE".as_slice()),
            exec: has(token, b"PROT_EXEC".as_slice()),
        },
    }
}

/// The flags that a token names. The kernel has placed the mapping, so it is fixed.
pub(crate) fn flags_named(token: &[u8]) -> Flags
    ensures { result ≡ flags_named token.now }
{
    match read_number(token) {
        Some(bits) => flags_of(bits),
        None => Flags {
            private: has(token, b"MAP_PRIVATE".as_slice()),
            shared: has(token, b"MAP_SHARED".as_slice()),
            fixed: true,
            anon: has(token, b"MAP_ANONYMOUS".as_slice()),
        },
    }
}

// What a mapping is that no trace has, if its flags have such names.
fn names_lost(token: &[u8]) -> Option<Lost>
    ensures { result ≡ lost_in token.now None }
{
    if has(token, b"MAP_HUGETLB".as_slice()) {
        Some(Lost::Huge)
    } else if has(token, b"MAP_GROWSDOWN".as_slice()) {
        Some(Lost::Grows)
    } else {
        None
    }
}

/// What a mapping with the flags that a token names is that no trace has.
pub(crate) fn lost_by(token: &[u8]) -> Option<Lost>
    ensures { result ≡ lost_by token.now }
{
    match read_number(token) {
        Some(bits) => lost_of(bits),
        None => names_lost(token),
    }
}

// What stands after a comment, `/* NAMES */`, if one stands first.
#[tactic(auto, unfolding(crate::specs::Said::comment_end))]
fn comment_end(bytes: &[u8]) -> Option<&[u8]>
    ensures { option_map (λ f. f.now) result ≡ comment_end bytes.now }
{
    let (sign, rest) = next_token(bytes)?;
    let (_, rest) = next_token(rest)?;
    let (close, rest) = next_token(rest)?;
    if sign == b"/*".as_slice() && close == b"*/".as_slice() {
        Some(rest)
    } else {
        None
    }
}

/// The bytes without the comment that stands first, if one does.
pub(crate) fn past_comment(bytes: &[u8]) -> &[u8]
    ensures { result.now ≡ past_comment bytes.now }
{
    match comment_end(bytes) {
        Some(rest) => rest,
        None => bytes,
    }
}

/// Tells whether rights are also for what grows by itself.
pub(crate) fn is_for_growing(token: &[u8]) -> bool
    ensures { result ≡ is_for_growing token.now }
{
    match read_number(token) {
        Some(number) => number >= 16_777_216,
        None => has(token, b"PROT_GROWS".as_slice()),
    }
}

/// What `HINT, LEN, PROT, FLAGS, ..` has: length, rights, flags, and what stands after them.
#[tactic(auto, unfolding(crate::specs::Said::mmap_words))]
pub(crate) fn mmap_words(args: &[u8]) -> Option<(&[u8], &[u8], &[u8], &[u8])>
    ensures { option_map (λ f. (f.0.now, f.1.now, f.2.now, f.3.now)) result ≡ mmap_words args.now }
{
    let (_, rest) = next_token(args)?;
    let (len, rest) = next_token(rest)?;
    let (prot, rest) = next_token(rest)?;
    let (flags, rest) = next_token(past_comment(rest))?;
    Some((len, prot, flags, rest))
}

// `HINT, LEN, PROT, FLAGS, DESCRIPTOR, OFF`, placed at this address.
#[tactic(auto, unfolding(crate::specs::Said::mmap_said))]
fn read_mmap(before: &[u8], addr: u64) -> Option<Request>
    ensures { result ≡ mmap_said before.now addr }
{
    let (front, back) = split_last(before, b',')?;
    let off = read_only(back)?;
    let (len, prot, names, _) = mmap_words(front)?;
    let len = read_number(len)?;
    let flags = flags_named(names);
    if !is_plain(flags, lost_by(names)) {
        return None;
    }
    Some(Request::Mmap {
        addr,
        len,
        prot: prot_named(prot),
        flags,
        file: 0,
        off,
    })
}

// What a mapping of `HINT, LEN, PROT, FLAGS, ..` is that no trace has.
#[tactic(auto, unfolding(crate::specs::Said::lost_mmap))]
fn lost_mmap(before: &[u8]) -> Option<Lost>
    ensures { result ≡ lost_mmap before.now }
{
    let (_, _, flags, _) = mmap_words(before)?;
    lost_by(flags)
}

// What an `mmap` says that gave this address.
fn read_mapping(before: &[u8], addr: u64) -> Said
    ensures { result ≡ mapping_said before.now (mmap_said before.now addr) }
{
    match read_mmap(before, addr) {
        Some(request) => Said::Asks(request),
        None => lost_or_unread(lost_mmap(before)),
    }
}

// Tells whether this advice takes the pages of a range away at once.
fn clears_pages(token: &[u8]) -> bool
    ensures { result ≡ clears_pages token.now }
{
    match read_number(token) {
        Some(advice) => clears(advice),
        None => begins(token, b"MADV_DONTNEED".as_slice()),
    }
}

// Tells whether the advice of this name drops the bytes of pages.
fn drops_named(token: &[u8]) -> bool
    ensures { result ≡ drops_in token.now None }
{
    token == b"MADV_FREE".as_slice() || token == b"MADV_REMOVE".as_slice()
}

// Tells whether this advice drops the bytes of pages.
fn drops_bytes(token: &[u8]) -> bool
    ensures { result ≡ drops_bytes token.now }
{
    match read_number(token) {
        Some(advice) => drops(advice),
        None => drops_named(token),
    }
}

// What this advice changes of a range.
fn advice_of(addr: u64, len: u64, advice: &[u8]) -> Said
    ensures { result ≡ advice_of addr len advice.now }
{
    if clears_pages(advice) {
        Said::Clears { addr, len }
    } else if drops_bytes(advice) {
        Said::Loses(Lost::Drops)
    } else {
        Said::Other
    }
}

// `ADDR, LEN, ADVICE`: what the advice changes.
#[tactic(auto, unfolding(crate::specs::Said::advice_said))]
fn read_advice(before: &[u8]) -> Option<Said>
    ensures { result ≡ advice_said before.now }
{
    let (addr, rest) = next_count(before)?;
    let (len, rest) = next_count(rest)?;
    let (advice, _) = next_token(rest)?;
    Some(advice_of(addr, len, advice))
}

// `KEY, LEN, FLAGS`, which gave the number of shared memory; of a length of 0 it has one already.
#[tactic(auto, unfolding(crate::specs::Said::size_said))]
fn read_size(before: &[u8], number: u64) -> Option<Said>
    ensures { result ≡ size_said before.now number }
{
    let (_, rest) = next_token(before)?;
    let (len, _) = next_count(past_comment(rest))?;
    if len == 0 {
        return Some(Said::Other);
    }
    Some(Said::Sizes { number, len })
}

// The rights of shared memory that is attached with these flags.
fn prot_attached(flags: &[u8]) -> Prot
    ensures { result ≡ prot_attached flags.now }
{
    Prot {
        read: true,
        write: !has_flag(flags, b"SHM_RDONLY".as_slice(), 4096),
        exec: has_flag(flags, b"SHM_EXEC".as_slice(), 32768),
    }
}

// `NUMBER, HINT, FLAGS`, attached at this address.
#[tactic(auto, unfolding(crate::specs::Said::attach_said))]
fn read_attach(before: &[u8], addr: u64) -> Option<Said>
    ensures { result ≡ attach_said before.now addr }
{
    let (number, rest) = next_count(before)?;
    let (_, rest) = next_token(rest)?;
    let (flags, _) = next_token(rest)?;
    Some(Said::Attaches {
        number,
        addr,
        prot: prot_attached(flags),
    })
}

// `ADDR`, which gave 0.
#[tactic(auto, unfolding(crate::specs::Said::detach_said))]
fn read_detach(before: &[u8]) -> Option<Said>
    ensures { result ≡ detach_said before.now }
{
    let addr = read_only(before)?;
    Some(Said::Detaches(addr))
}

/// `ADDR, LEN`, which gave 0.
#[tactic(auto, unfolding(crate::specs::Said::munmap_said))]
pub(crate) fn read_munmap(before: &[u8], gave: u64) -> Option<Request>
    ensures { result ≡ munmap_said before.now gave }
{
    let (addr, rest) = next_count(before)?;
    let len = read_only(rest)?;
    if gave != 0 {
        return None;
    }
    Some(Request::Munmap { addr, len })
}

/// `ADDR, LEN, PROT`, which gave 0.
#[tactic(auto, unfolding(crate::specs::Said::mprotect_said))]
pub(crate) fn read_mprotect(before: &[u8], gave: u64) -> Option<Request>
    ensures { result ≡ mprotect_said before.now gave }
{
    let (addr, rest) = next_count(before)?;
    let (len, rest) = next_count(rest)?;
    let (prot, _) = next_token(rest)?;
    if gave != 0 {
        return None;
    }
    if is_for_growing(prot) {
        return None;
    }
    Some(Request::Mprotect {
        addr,
        len,
        prot: prot_named(prot),
    })
}

// Tells whether a mapping that is moved stays where it was too.
fn is_left(token: &[u8]) -> bool
    ensures { result ≡ has_flag (codes "MREMAP_DONTUNMAP") 4 token.now }
{
    has_flag(token, b"MREMAP_DONTUNMAP".as_slice(), 4)
}

// `FROM, OLD, NEW, FLAGS`, moved to this address.
#[tactic(auto, unfolding(crate::specs::Said::mremap_said))]
fn read_mremap(before: &[u8], to: u64) -> Option<Said>
    ensures { result ≡ mremap_said before.now to }
{
    let (from, rest) = next_count(before)?;
    let (old, rest) = next_count(rest)?;
    let (new, rest) = next_count(rest)?;
    let (flags, _) = next_token(rest)?;
    if old == 0 {
        return None;
    }
    Some(Said::Moves {
        from,
        old,
        to,
        new,
        stays: is_left(flags),
    })
}

// What is said by a call that gave this number, from what stands before it.
fn read_done(call: Call, before: &[u8], gave: u64) -> Said
    ensures { result ≡ done_said call before.now gave }
{
    match call {
        Call::Mmap => read_mapping(before, gave),
        Call::Munmap => asked(read_munmap(before, gave)),
        Call::Mprotect => asked(read_mprotect(before, gave)),
        Call::Brk => Said::Breaks(gave),
        Call::Mremap => match read_mremap(before, gave) {
            Some(moves) => moves,
            None => Said::Unread,
        },
        Call::Make => read_making(before, gave),
        Call::MakeGuest => Said::Makes {
            thread: gave,
            shares: false,
            joins: true,
        },
        Call::Begin => Said::Begins,
        Call::Keyed => keyed(read_mprotect(before, gave)),
        Call::Advise => match read_advice(before) {
            Some(said) => said,
            None => Said::Unread,
        },
        Call::Size => match read_size(before, gave) {
            Some(said) => said,
            None => Said::Unread,
        },
        Call::Attach => match read_attach(before, gave) {
            Some(said) => said,
            None => Said::Unread,
        },
        Call::Detach => match read_detach(before) {
            Some(said) => said,
            None => Said::Unread,
        },
        Call::Lost(lost) => Said::Loses(lost),
    }
}

// What is said by one of these calls, from its arguments on.
fn read_args(call: Call, args: &[u8]) -> Said
    ensures { result ≡ outcome_said call (split_at_last 61 args.now) }
{
    let Some((before, after)) = split_last(args, b'=') else {
        return Said::Unread;
    };
    match read_outcome(after) {
        Outcome::Gives(gave) => read_done(call, before, gave),
        Outcome::Fails => Said::Fails,
        Outcome::Unclear => Said::Unread,
    }
}

// What one of these calls says.
#[tactic(auto, unfolding(crate::specs::Said::known_said))]
fn read_known(text: &[u8]) -> Option<Said>
    ensures { result ≡ known_said text.now }
{
    let (name, args) = next_token(text)?;
    let call = said_named(name)?;
    Some(read_args(call, args))
}

/// Tells whether the text is of one of the calls that are looked at, or of a part of one.
pub fn is_known(text: &[u8]) -> bool
    ensures { result ≡ is_known text.now }
{
    match read_known(text) {
        Some(_) => true,
        None => false,
    }
}

// What a text says that is of none of these calls: that its thread ended, or nothing.
fn said_else(text: &[u8]) -> Said
    ensures { result ≡ said_else text.now }
{
    if begins(without_gaps(text), b"+++ ".as_slice()) {
        Said::Ends
    } else {
        Said::Other
    }
}

/// What the text of a call says.
pub fn read_call(text: &[u8]) -> Said
    ensures { result ≡ said_of text.now }
{
    match read_known(text) {
        Some(said) => said,
        None => said_else(text),
    }
}

// The bytes from the first `<` on, where there is one, else all.
fn from_sign(bytes: &[u8]) -> &[u8]
    ensures { result.now ≡ from_sign bytes.now bytes.now }
{
    let mut at = 0;
    'bytes: while at < bytes.len() {
        if bytes[at] == b'<' {
            let (_, named) = bytes.split_at(at);
            return named;
        }
        at += 1;
    }
    bytes
}

// The file that `mmap` names: what stands between its flags and its offset.
#[tactic(auto, unfolding(crate::specs::Said::file_said))]
fn read_file(text: &[u8]) -> Option<&[u8]>
    ensures { option_map (λ f. f.now) result ≡ file_said text.now }
{
    let (front, _) = split_last(text, b'=')?;
    let (front, _) = split_last(front, b',')?;
    let (_, args) = next_token(front)?;
    let (_, _, _, rest) = mmap_words(args)?;
    Some(without_gaps(past_comment(rest)))
}

/// The file that the text of an `mmap` names: its path, `<PATH>`, where strace shows it, else its descriptor.
pub fn read_file_name(text: &[u8]) -> &[u8]
    ensures { result.now ≡ file_named text.now }
{
    match read_file(text) {
        Some(descriptor) => from_sign(descriptor),
        None => text,
    }
}
