//! The lines of a log, kept small: of most a few numbers alone.
ghost use Rattle.std.specs.Prelude.{◌≡◌, [], ℕ, IfOk, IfSome, List, length, true};
ghost use Rattle.import_forms.specs.Speech.{Spoken};
ghost use Rattle.import_forms.specs.declared.said.Said.TheVariants as Says;
ghost use Rattle.import_lines.specs.Lines.{AreKept, IsEntry, IsOther, IsPlace, Kept, entry_kept, is_within, kept_by, kept_of, kept_said};
ghost use Rattle.import_lines.specs.declared.lines.Entry.{Entry};

use crate::line::Line;
use crate::rares::Rares;
use ghost_list::GhostList;
use import_forms::said::Said;
use import_forms::speech::Speech;
use std::alloc::{AllocError, Global};
use std::collections::HashMap;
use std::marker::Model;
use vm_base::{Flags, Prot, Request};

/// What a line says, and so what is kept of it.
#[derive(Clone, Copy)]
pub(crate) enum Kind {
    /// `mmap` of no file: address, length, rights and flags.
    Pages,
    /// `munmap`: address and length.
    Unmap,
    /// `mprotect`: address, length and rights.
    Protect,
    /// `brk`: the address.
    Breaks,
    /// `madvise` that takes pages away: address and length.
    Clears,
    /// Nothing.
    Ends,
    /// Nothing.
    Fails,
    /// Nothing.
    Unread,
    /// Nothing.
    Other,
    /// Where it stands among what few lines say.
    Rare,
}

/// What is kept of a line.
#[derive(Clone, Copy)]
pub(crate) struct Entry {
    thread: u64,
    first: u64,
    second: u64,
    kind: Kind,
    prot: Prot,
    flags: Flags,
}

/// What a line said, which only proofs read.
#[derive(Drop)]
pub(crate) struct Saying {
    thread: u64,
    text: GhostList<u8>,
}

/// The lines of a log. A clause sees them as what they say.
#[derive(Drop)]
pub struct KeptLines {
    entries: Vec<Entry>,
    rares: Rares,
    // Which entry is each line's.
    order: Vec<u32>,
    // Where the entry stands of a thread's lines that say nothing of memory.
    others: HashMap<u64, u32>,
    said: GhostList<Saying>,
}

impl Model for KeptLines {
    ghost use Rattle.std.specs.Prelude.{◌≡◌, List, map};
    ghost use Rattle.import_forms.specs.Speech.{Spoken};
    ghost use Rattle.import_lines.specs.Lines.{AreKept, said_by};

    ghost Value = { List Spoken };

    ghost view = { λ s. map said_by s.said.items };

    ghost invariant = { λ s. AreKept (map said_by s.said.items) s.rares s.entries.items s.order.items };
}

// How many entries there may be: 2^32. One more is refused as if it found no memory.
const ENTRIES: u64 = 4_294_967_296;

const NO_RIGHTS: Prot = Prot {
    read: false,
    write: false,
    exec: false,
};

const NO_FLAGS: Flags = Flags {
    private: false,
    shared: false,
    fixed: false,
    anon: false,
};

// An entry of this kind without numbers.
fn bare(thread: u64, kind: Kind) -> Entry
    ensures thread { result.thread ≡ thread }
    ensures kind { result.kind ≡ kind }
{
    Entry {
        thread,
        first: 0,
        second: 0,
        kind,
        prot: NO_RIGHTS,
        flags: NO_FLAGS,
    }
}

// An entry of this kind with two numbers.
fn numbered(thread: u64, kind: Kind, first: u64, second: u64) -> Entry
    ensures thread { result.thread ≡ thread }
    ensures kind { result.kind ≡ kind }
    ensures first { result.first ≡ first }
    ensures second { result.second ≡ second }
{
    Entry {
        first,
        second,
        ..bare(thread, kind)
    }
}

// The entry of a request without a name, if it fits.
fn short_request(thread: u64, request: Request) -> Option<Entry>
    ensures { IfSome result (λ e. (rares : List Kept) → IsEntry thread (kept_said (Says.Asks request) []) rares e) }
{
    match request {
        Request::Mmap {
            addr,
            len,
            prot,
            flags,
            file,
            off,
        } => {
            if file != 0 || off != 0 {
                return None;
            }
            Some(Entry {
                prot,
                flags,
                ..numbered(thread, Kind::Pages, addr, len)
            })
        }
        Request::Munmap { addr, len } => Some(numbered(thread, Kind::Unmap, addr, len)),
        Request::Mprotect { addr, len, prot } => Some(Entry {
            prot,
            ..numbered(thread, Kind::Protect, addr, len)
        }),
        Request::Load { .. } | Request::Store { .. } | Request::Fetch { .. } => None,
    }
}

// The entry of what a call says that shows no name, if it fits.
fn short_said(thread: u64, said: Said) -> Option<Entry>
    ensures { IfSome result (λ e. (rares : List Kept) → IsEntry thread (kept_said said []) rares e) }
{
    match said {
        Said::Asks(request) => short_request(thread, request),
        Said::Breaks(to) => Some(numbered(thread, Kind::Breaks, to, 0)),
        Said::Fails => Some(bare(thread, Kind::Fails)),
        Said::Unread => Some(bare(thread, Kind::Unread)),
        Said::Other => Some(bare(thread, Kind::Other)),
        Said::Moves { .. }
        | Said::Makes { .. }
        | Said::Begins
        | Said::Keyed(_)
        | Said::Sizes { .. }
        | Said::Attaches { .. }
        | Said::Detaches(_)
        | Said::Loses(_) => None,
        Said::Clears { addr, len } => Some(numbered(thread, Kind::Clears, addr, len)),
        Said::Ends => Some(bare(thread, Kind::Ends)),
    }
}

// The entry of a line, if it fits.
fn short_entry<'a>(thread: u64, line: Line<'a>) -> Option<Entry>
    ensures { IfSome result (λ e. (rares : List Kept) → IsEntry thread (kept_of line.entry) rares e) }
{
    if line.half || !line.name.is_empty() {
        return None;
    }
    short_said(thread, line.said)
}

// Adds a line to those of which few are, and gives its entry.
fn rare_entry<'a>(rares: &mut Rares, thread: u64, line: Line<'a>) -> Result<Entry, AllocError>
    ensures entry { IfOk result (λ e. IsEntry thread (kept_of line.entry) rares.new e) }
    ensures others { (said : List Spoken) (entries : List Entry) (order : List ℕ)
        → AreKept said rares.old entries order → AreKept said rares.new entries order }
{
    let place = rares.len();
    rares.push(line)?;
    Ok(numbered(thread, Kind::Rare, place as u64, 0))
}

// Gives a line's entry.
fn entry_of<'a>(rares: &mut Rares, thread: u64, line: Line<'a>) -> Result<Entry, AllocError>
    ensures entry { IfOk result (λ e. IsEntry thread (kept_of line.entry) rares.new e) }
    ensures others { (said : List Spoken) (entries : List Entry) (order : List ℕ)
        → AreKept said rares.old entries order → AreKept said rares.new entries order }
{
    match short_entry(thread, line) {
        Some(entry) => Ok(entry),
        None => rare_entry(rares, thread, line),
    }
}

// Tells whether a line says nothing of memory, and shows no name.
fn says_other<'a>(line: Line<'a>) -> bool
    ensures { result ≡ true → kept_of line.entry ≡ kept_said Says.Other [] }
{
    if line.half || !line.name.is_empty() {
        return false;
    }
    match line.said {
        Said::Other => true,
        Said::Asks(_)
        | Said::Breaks(_)
        | Said::Moves { .. }
        | Said::Makes { .. }
        | Said::Begins
        | Said::Keyed(_)
        | Said::Sizes { .. }
        | Said::Attaches { .. }
        | Said::Detaches(_)
        | Said::Clears { .. }
        | Said::Loses(_)
        | Said::Ends
        | Said::Fails
        | Said::Unread => false,
    }
}

// Tells whether this is the entry of a thread's lines that say nothing of memory.
fn is_other(entry: Entry, thread: u64) -> bool
    ensures { result ≡ true → (rares : List Kept) → entry_kept rares entry ≡ (thread, kept_said Says.Other []) }
{
    match entry.kind {
        Kind::Other => entry.thread == thread,
        Kind::Pages
        | Kind::Unmap
        | Kind::Protect
        | Kind::Breaks
        | Kind::Clears
        | Kind::Ends
        | Kind::Fails
        | Kind::Unread
        | Kind::Rare => false,
    }
}

// Where the entry stands of a thread's lines that say nothing of memory, if it is there.
fn known_other(others: &HashMap<u64, u32>, entries: &[Entry], thread: u64) -> Option<u32>
    ensures { IfSome result (λ k. IsOther thread entries.now k) }
{
    match others.get(&thread) {
        Some(place) => {
            let place = *place;
            if place as usize >= entries.len() || !is_other(entries[place as usize], thread) {
                return None;
            }
            Some(place)
        }
        None => None,
    }
}

// How many entries there are.
fn how_many(entries: &[Entry]) -> usize
    ensures { result ≡ length entries.now }
{
    entries.len()
}

// Adds the entry of a line, and answers where it stands.
fn add_entry<'a>(
    entries: &mut Vec<Entry>,
    rares: &mut Rares,
    thread: u64,
    line: Line<'a>,
) -> Result<u32, AllocError>
    ensures place { IfOk result (λ k. IsPlace thread (kept_of line.entry) rares.new entries.new.items k) }
    ensures others { (said : List Spoken) (order : List ℕ)
        → AreKept said rares.old entries.old.items order → AreKept said rares.new entries.new.items order }
{
    let place = how_many(entries.as_slice());
    if place as u64 >= ENTRIES {
        return Err(AllocError);
    }
    let entry = entry_of(rares, thread, line)?;
    entries.push(entry)?;
    Ok(place as u32)
}

// Answers where the entry of a line stands, after adding it if there is none.
fn place_of<'a>(
    entries: &mut Vec<Entry>,
    rares: &mut Rares,
    others: &mut HashMap<u64, u32>,
    thread: u64,
    line: Line<'a>,
) -> Result<u32, AllocError>
    ensures place { IfOk result (λ k. IsPlace thread (kept_of line.entry) rares.new entries.new.items k) }
    ensures others { (said : List Spoken) (order : List ℕ)
        → AreKept said rares.old entries.old.items order → AreKept said rares.new entries.new.items order }
{
    if !says_other(line) {
        return add_entry(entries, rares, thread, line);
    }
    if let Some(place) = known_other(others, entries.as_slice(), thread) {
        return Ok(place);
    }
    let place = add_entry(entries, rares, thread, line)?;
    others.insert(thread, place)?;
    Ok(place)
}

// What is kept of a line with this entry.
fn line_of(rares: &Rares, entry: Entry) -> Line<'_>
    requires { is_within (length rares.now) entry.kind entry.first }
    ensures { kept_of result ≡ kept_by entry.kind entry.first entry.second entry.prot entry.flags rares.now }
{
    let said = match entry.kind {
        Kind::Pages => Said::Asks(Request::Mmap {
            addr: entry.first,
            len: entry.second,
            prot: entry.prot,
            flags: entry.flags,
            file: 0,
            off: 0,
        }),
        Kind::Unmap => Said::Asks(Request::Munmap {
            addr: entry.first,
            len: entry.second,
        }),
        Kind::Protect => Said::Asks(Request::Mprotect {
            addr: entry.first,
            len: entry.second,
            prot: entry.prot,
        }),
        Kind::Breaks => Said::Breaks(entry.first),
        Kind::Clears => Said::Clears {
            addr: entry.first,
            len: entry.second,
        },
        Kind::Ends => Said::Ends,
        Kind::Fails => Said::Fails,
        Kind::Unread => Said::Unread,
        Kind::Other => Said::Other,
        Kind::Rare => return rares.line(entry.first as usize),
    };
    Line {
        half: false,
        said,
        name: b"".as_slice(),
    }
}

impl KeptLines {
    ghost use Rattle.std.specs.Prelude.{◌≡◌, ◌<◌, ◌++◌, ◌∷◌, [], OnErr, OnOk, length};
    ghost use Rattle.import_forms.specs.Speech.{spoken};
    ghost use Rattle.import_lines.specs.Joining.{speech_at};
    ghost use Rattle.import_lines.specs.Lines.{kept_of, kept_text};

    /// No line.
    pub(crate) fn new(alloc: Global) -> KeptLines
        ensures { result ≡ [] }
    {
        KeptLines {
            entries: Vec::new(alloc),
            rares: Rares::new(alloc),
            order: Vec::new(alloc),
            others: HashMap::new(alloc),
            said: GhostList::new(),
        }
    }

    /// Adds a line of which this is kept. Where there is no memory they stay as they are.
    pub(crate) fn push<'a>(&mut self, speech: Speech<'a>, line: Line<'a>) -> Result<(), AllocError>
        requires { kept_of line ≡ kept_text speech.text.now }
        ensures ok { OnOk result (self.new ≡ self.old ++ spoken speech.entry ∷ []) }
        ensures err { OnErr result (self.new ≡ self.old) }
    {
        let place = place_of(
            &mut self.entries,
            &mut self.rares,
            &mut self.others,
            speech.thread,
            line,
        )?;
        self.order.push(place)?;
        let text = GhostList::new().and_all(speech.text);
        self.said = self.said.and(&Saying {
            thread: speech.thread,
            text,
        });
        Ok(())
    }

    /// How many there are.
    #[tactic(auto, using(crate::proofs::LineLemmas::lines_long))]
    pub fn len(&self) -> usize
        ensures { result ≡ length self.now }
    {
        self.order.len()
    }

    /// Whose this one is.
    pub fn thread(&self, place: usize) -> u64
        requires { place < length self.now }
        ensures { result ≡ (speech_at self.now place).0 }
    {
        self.entries[self.order[place] as usize].thread
    }

    /// What is kept of this one.
    pub(crate) fn line(&self, place: usize) -> Line<'_>
        requires { place < length self.now }
        ensures { kept_of result ≡ kept_text (speech_at self.now place).1 }
    {
        line_of(&self.rares, self.entries[self.order[place] as usize])
    }
}
