//! What a line of lackey says: an access, or a call of the system.
ghost use Rattle.std.specs.Prelude.{◌≡◌, option_map};
ghost use Rattle.import_lackey.specs.Heard.{access_named, advice_heard, begun_heard, call_heard, descriptor_heard, done_heard, heard_named};
ghost use Rattle.import_lackey.specs.Heard.{heard_of, known_heard, lost_mmap, mapping_heard, mmap_counts, mmap_heard, mprotect_heard, mremap_heard};
ghost use Rattle.import_lackey.specs.Heard.{munmap_heard, named_behind, outcome_heard, outcome_of, touch_heard};

use import_forms::calls::{
    Call, Outcome, asked, call_named, clears, drops, flags_of, has_bit, is_plain, keyed, lost_of,
    lost_or_unread, rights_of,
};
use import_forms::said::{Lost, Said};
use import_forms::tokens::{
    next_count, next_token, read_hexadecimal, read_only, split_last, strip,
};
use trace_text::number::read_number;
use vm_base::Request;

/// How memory is accessed.
#[derive(Clone, Copy)]
pub enum LackeyAccess {
    /// An instruction is read.
    Fetch,
    /// Bytes are read.
    Load,
    /// Bytes are written.
    Store,
    /// Bytes are read, and then written.
    Modify,
}

/// An access of some bytes.
#[derive(Clone, Copy)]
pub struct LackeyTouch {
    /// How they are accessed.
    pub access: LackeyAccess,
    /// The first byte's address.
    pub addr: u64,
    /// How many bytes there are.
    pub size: u64,
}

/// What a line says.
#[derive(Clone, Copy)]
pub enum Heard {
    /// An access.
    Touches(LackeyTouch),
    /// What a call says; the file of an `mmap` is its descriptor.
    Calls(Said),
}

// The access of this letter.
fn access_named(name: &[u8]) -> Option<LackeyAccess>
    ensures { result ≡ access_named name.now }
{
    if name == b"I".as_slice() {
        Some(LackeyAccess::Fetch)
    } else if name == b"L".as_slice() {
        Some(LackeyAccess::Load)
    } else if name == b"S".as_slice() {
        Some(LackeyAccess::Store)
    } else if name == b"M".as_slice() {
        Some(LackeyAccess::Modify)
    } else {
        None
    }
}

// `ACCESS ADDR,SIZE`: the address in hexadecimal digits.
#[tactic(auto, unfolding(crate::specs::Heard::touch_heard))]
fn read_touch(line: &[u8]) -> Option<LackeyTouch>
    ensures { result ≡ touch_heard line.now }
{
    let (name, rest) = next_token(line)?;
    let access = access_named(name)?;
    let (digits, rest) = next_token(rest)?;
    let addr = read_hexadecimal(digits)?;
    let size = read_only(rest)?;
    Some(LackeyTouch { access, addr, size })
}

// The call whose name stands behind `sys_`. How much memory `shmat` and `shmdt` are of isn't known.
fn named_behind(name: &[u8]) -> Option<Call>
    ensures { result ≡ named_behind name.now }
{
    if name == b"shmat".as_slice() {
        Some(Call::Lost(Lost::Attach))
    } else if name == b"shmdt".as_slice() {
        Some(Call::Lost(Lost::Detach))
    } else {
        call_named(name)
    }
}

// The call of this name.
#[tactic(auto, unfolding(crate::specs::Heard::heard_named))]
fn heard_named(name: &[u8]) -> Option<Call>
    ensures { result ≡ heard_named name.now }
{
    let bare = strip(name, b"sys_".as_slice())?;
    named_behind(bare)
}

// How a call ended that answers with this word and number.
fn outcome_heard(word: &[u8], number: u64) -> Outcome
    ensures { result ≡ outcome_heard word.now number }
{
    if word == b"Success".as_slice() {
        Outcome::Gives(number)
    } else if word == b"Failure".as_slice() {
        Outcome::Fails
    } else {
        Outcome::Unclear
    }
}

// How a call ended: `.. Success(NUMBER)` or `.. Failure(NUMBER)`.
#[tactic(auto, unfolding(crate::specs::Heard::outcome_of))]
fn read_outcome(args: &[u8]) -> Option<Outcome>
    ensures { result ≡ outcome_of args.now }
{
    let (front, back) = split_last(args, b'(')?;
    let number = read_only(back)?;
    let (_, word) = split_last(front, b' ')?;
    Some(outcome_heard(word, number))
}

// The descriptor that a token spells. Where there is no file it says nothing: some libraries pass -1 in 64 bits.
fn read_descriptor(token: &[u8], anon: bool) -> Option<u64>
    ensures { result ≡ descriptor_heard anon token.now }
{
    if anon {
        return Some(0);
    }
    read_number(token)
}

// What `HINT, LEN, PROT, FLAGS, ..` has: length, rights, flags, and what stands after them.
#[tactic(auto, unfolding(crate::specs::Heard::mmap_counts))]
fn mmap_counts(args: &[u8]) -> Option<(u64, u64, u64, &[u8])>
    ensures { option_map (λ f. (f.0, f.1, f.2, f.3.now)) result ≡ mmap_counts args.now }
{
    let (_, rest) = next_count(args)?;
    let (len, rest) = next_count(rest)?;
    let (prot, rest) = next_count(rest)?;
    let (bits, rest) = next_count(rest)?;
    Some((len, prot, bits, rest))
}

// `HINT, LEN, PROT, FLAGS, DESCRIPTOR, OFF`, placed at this address; `MAP_SHARED_VALIDATE`, 3, isn't read.
#[tactic(auto, unfolding(crate::specs::Heard::mmap_heard))]
fn read_mmap(args: &[u8], addr: u64) -> Option<Request>
    ensures { result ≡ mmap_heard args.now addr }
{
    let (len, prot, bits, rest) = mmap_counts(args)?;
    let (token, rest) = next_token(rest)?;
    let flags = flags_of(bits);
    let file = read_descriptor(token, flags.anon)?;
    let (off, _) = next_count(rest)?;
    if bits % 4 == 3 {
        return None;
    }
    if !is_plain(flags, lost_of(bits)) {
        return None;
    }
    Some(Request::Mmap {
        addr,
        len,
        prot: rights_of(prot),
        flags,
        file,
        off,
    })
}

// What a mapping of `HINT, LEN, PROT, FLAGS, ..` is that no trace has.
#[tactic(auto, unfolding(crate::specs::Heard::lost_mmap))]
fn lost_mmap(args: &[u8]) -> Option<Lost>
    ensures { result ≡ lost_mmap args.now }
{
    let (_, _, bits, _) = mmap_counts(args)?;
    lost_of(bits)
}

// What an `mmap` says that gave this address.
fn read_mapping(args: &[u8], addr: u64) -> Said
    ensures { result ≡ mapping_heard args.now (mmap_heard args.now addr) }
{
    match read_mmap(args, addr) {
        Some(request) => Said::Asks(request),
        None => lost_or_unread(lost_mmap(args)),
    }
}

// `ADDR, LEN`.
#[tactic(auto, unfolding(crate::specs::Heard::munmap_heard))]
fn read_munmap(args: &[u8]) -> Option<Request>
    ensures { result ≡ munmap_heard args.now }
{
    let (addr, rest) = next_count(args)?;
    let (len, _) = next_count(rest)?;
    Some(Request::Munmap { addr, len })
}

// `ADDR, LEN, PROT`.
#[tactic(auto, unfolding(crate::specs::Heard::mprotect_heard))]
fn read_mprotect(args: &[u8]) -> Option<Request>
    ensures { result ≡ mprotect_heard args.now }
{
    let (addr, rest) = next_count(args)?;
    let (len, rest) = next_count(rest)?;
    let (bits, _) = next_count(rest)?;
    if bits > 7 {
        return None;
    }
    Some(Request::Mprotect {
        addr,
        len,
        prot: rights_of(bits),
    })
}

// `FROM, OLD, NEW, FLAGS`, moved to this address. With 4 among the flags it stays where it was too, without its pages.
#[tactic(auto, unfolding(crate::specs::Heard::mremap_heard))]
fn read_mremap(args: &[u8], to: u64) -> Option<Said>
    ensures { result ≡ mremap_heard args.now to }
{
    let (from, rest) = next_count(args)?;
    let (old, rest) = next_count(rest)?;
    let (new, rest) = next_count(rest)?;
    let (bits, _) = next_count(rest)?;
    if old == 0 {
        return None;
    }
    if bits > 7 {
        return None;
    }
    Some(Said::Moves {
        from,
        old,
        to,
        new,
        stays: has_bit(bits, 4),
    })
}

// `ADDR, LEN, ADVICE`: what the advice changes.
#[tactic(auto, unfolding(crate::specs::Heard::advice_heard))]
fn read_advice(args: &[u8]) -> Option<Said>
    ensures { result ≡ advice_heard args.now }
{
    let (addr, rest) = next_count(args)?;
    let (len, rest) = next_count(rest)?;
    let (advice, _) = next_count(rest)?;
    if clears(advice) {
        Some(Said::Clears { addr, len })
    } else if drops(advice) {
        Some(Said::Loses(Lost::Drops))
    } else {
        Some(Said::Other)
    }
}

// What is said by a call that changes the address space as no trace has, or whose end stands in another line.
fn read_begun(call: Call, args: &[u8]) -> Said
    ensures { result ≡ begun_heard call args.now }
{
    match call {
        Call::Advise => match read_advice(args) {
            Some(said) => said,
            None => Said::Unread,
        },
        Call::Lost(lost) => Said::Loses(lost),
        _ => Said::Unread,
    }
}

// What is said by a call that gave this number, from its arguments on.
fn read_done(call: Call, args: &[u8], gave: u64) -> Said
    ensures { result ≡ done_heard call args.now gave }
{
    match call {
        Call::Mmap => read_mapping(args, gave),
        Call::Munmap => asked(read_munmap(args)),
        Call::Mprotect => asked(read_mprotect(args)),
        Call::Brk => Said::Breaks(gave),
        Call::Mremap => match read_mremap(args, gave) {
            Some(moves) => moves,
            None => Said::Unread,
        },
        Call::Keyed => keyed(read_mprotect(args)),
        _ => read_begun(call, args),
    }
}

// What is said by one of these calls, from its arguments on.
fn read_args(call: Call, args: &[u8]) -> Said
    ensures { result ≡ call_heard call args.now (outcome_of args.now) }
{
    match read_outcome(args) {
        Some(Outcome::Gives(gave)) => read_done(call, args, gave),
        Some(Outcome::Fails) => Said::Fails,
        Some(Outcome::Unclear) => Said::Unread,
        None => read_begun(call, args),
    }
}

// What one of these calls says: `SYSCALL[PROCESS,THREAD](NUMBER) NAME ( ARGS )` and how it ended.
#[tactic(auto, unfolding(crate::specs::Heard::known_heard))]
fn read_known(line: &[u8]) -> Option<Said>
    ensures { result ≡ known_heard line.now }
{
    let (first, rest) = next_token(line)?;
    let (_, rest) = next_token(rest)?;
    let (_, rest) = next_token(rest)?;
    let (_, rest) = next_token(rest)?;
    let (name, args) = next_token(rest)?;
    let call = heard_named(name)?;
    if first != b"SYSCALL".as_slice() {
        return None;
    }
    Some(read_args(call, args))
}

/// What a line says.
pub fn read_heard(line: &[u8]) -> Heard
    ensures { result ≡ heard_of line.now }
{
    match read_touch(line) {
        Some(touch) => Heard::Touches(touch),
        None => match read_known(line) {
            Some(said) => Heard::Calls(said),
            None => Heard::Calls(Said::Other),
        },
    }
}
