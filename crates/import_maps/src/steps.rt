//! The requests of a trace, kept small: of each a head, and its numbers after those of the others.
ghost use Rattle.std.specs.Prelude.{◌≡◌, ◌≤◌, ◌<◌, ◌∷◌, IfOk, length, slice_index_or};
ghost use Rattle.import_maps.specs.Ranges.{changed_all};
ghost use Rattle.import_maps.specs.Steps.{bit, flag_bits, flags_of, is_name, kind_of_map, kind_width, name_kept, prot_bits, prot_of, request_kept, shape_of, shape_width, six_of, steps_kept, widths};

use crate::names::{NO_NAME, Name};
use crate::ranges::{MappedRange, changed, parts_of};
use std::alloc::{AllocError, Global};
use std::marker::Model;
use vm_base::{CoreId, Flags, Prot, Request};

/// A request of a trace, and the core whose it is.
#[derive(Clone, Copy)]
pub struct TraceRequest {
    /// The core that makes it.
    pub core: CoreId,
    /// The name of the file whose pages a mapping of anonymous pages is for, where one is.
    pub name: Name,
    /// What it asks for.
    pub request: Request,
}

/// What a request asks for, and so which numbers are kept of it.
#[derive(Clone, Copy)]
pub enum Kind {
    /// `mmap` of file 0 from its start, or of no file: address and length.
    Pages,
    /// `mmap`: address, length, file and offset.
    Map,
    /// `munmap`: address and length.
    Unmap,
    /// `mprotect`: address and length.
    Protect,
    /// The address alone.
    Load,
    /// The address alone.
    Store,
    /// The address alone.
    Fetch,
}

/// What is kept of a request, but its core and its numbers.
#[derive(Clone, Copy)]
pub struct Shape {
    kind: Kind,
    // Whether it has a name. All numbers are kept then.
    named: bool,
    // Rights and flags, a bit each.
    prot: u8,
    flags: u8,
    byte: u8,
}

/// A request without its numbers.
#[derive(Clone, Copy)]
pub struct Head {
    core: CoreId,
    shape: Shape,
}

/// Requests, in order. A clause sees them as a list.
#[derive(Drop)]
pub struct TraceRequests {
    heads: Vec<Head>,
    numbers: Vec<u64>,
    // What is mapped after the first of them: after so many heads, and so many numbers.
    ranges: Vec<MappedRange>,
    seen: usize,
    behind: usize,
}

impl Model for TraceRequests {
    ghost use Rattle.std.specs.Prelude.{List};
    ghost use Rattle.import_maps.specs.Kept.{AreKept};
    ghost use Rattle.import_maps.specs.Steps.{steps_kept};
    ghost use Rattle.import_maps.specs.declared.steps.TraceRequest.{TraceRequest};

    ghost Value = { List TraceRequest };

    ghost view = { λ s. steps_kept s.heads.items s.numbers.items };

    ghost invariant = { λ s. AreKept s.heads.items s.numbers.items s.seen s.behind s.ranges.items };
}

// The bit at this place, where it is set.
fn bit(is_set: bool, place: u8) -> u8
    ensures value { result ≡ bit is_set place }
    ensures low { result ≤ place }
{
    if is_set { place } else { 0 }
}

/// Rights as bits.
pub fn prot_bits(prot: Prot) -> u8
    ensures { result ≡ prot_bits prot }
{
    bit(prot.read, 1) + bit(prot.write, 2) + bit(prot.exec, 4)
}

// The rights with these bits.
fn prot_of(bits: u8) -> Prot
    ensures { result ≡ prot_of bits }
{
    Prot {
        read: bits % 2 == 1,
        write: bits / 2 % 2 == 1,
        exec: bits / 4 % 2 == 1,
    }
}

/// Flags as bits.
pub fn flag_bits(flags: Flags) -> u8
    ensures { result ≡ flag_bits flags }
{
    bit(flags.private, 1) + bit(flags.shared, 2) + bit(flags.fixed, 4) + bit(flags.anon, 8)
}

// The flags with these bits.
fn flags_of(bits: u8) -> Flags
    ensures { result ≡ flags_of bits }
{
    Flags {
        private: bits % 2 == 1,
        shared: bits / 2 % 2 == 1,
        fixed: bits / 4 % 2 == 1,
        anon: bits / 8 % 2 == 1,
    }
}

// Tells whether there is a name.
fn is_name(name: Name) -> bool
    ensures { result ≡ is_name name }
{
    !(name.from == 0 && name.len == 0)
}

// How a mapping is kept.
fn kind_of_map(named: bool, file: u64, off: u64) -> Kind
    ensures { result ≡ kind_of_map named file off }
{
    if !named && file == 0 && off == 0 {
        Kind::Pages
    } else {
        Kind::Map
    }
}

// What is kept of the request, but its numbers.
fn shape_of(named: bool, request: Request) -> Shape
    ensures { result ≡ shape_of named request }
{
    let bare = Shape {
        kind: Kind::Fetch,
        named,
        prot: 0,
        flags: 0,
        byte: 0,
    };
    match request {
        Request::Mmap {
            prot,
            flags,
            file,
            off,
            ..
        } => Shape {
            kind: kind_of_map(named, file, off),
            prot: prot_bits(prot),
            flags: flag_bits(flags),
            ..bare
        },
        Request::Munmap { .. } => Shape {
            kind: Kind::Unmap,
            ..bare
        },
        Request::Mprotect { prot, .. } => Shape {
            kind: Kind::Protect,
            prot: prot_bits(prot),
            ..bare
        },
        Request::Load { .. } => Shape {
            kind: Kind::Load,
            ..bare
        },
        Request::Store { byte, .. } => Shape {
            kind: Kind::Store,
            byte,
            ..bare
        },
        Request::Fetch { .. } => bare,
    }
}

// All numbers that a request may have, and where its name stands.
fn six_of(request: Request, name: Name) -> [u64; 6]
    ensures { result ≡ six_of request name }
{
    let from = name.from as u64;
    let size = name.len as u64;
    match request {
        Request::Mmap {
            addr,
            len,
            file,
            off,
            ..
        } => [addr, len, file, off, from, size],
        Request::Munmap { addr, len } => [addr, len, 0, 0, from, size],
        Request::Mprotect { addr, len, .. } => [addr, len, 0, 0, from, size],
        Request::Load { addr } => [addr, 0, 0, 0, from, size],
        Request::Store { addr, .. } => [addr, 0, 0, 0, from, size],
        Request::Fetch { addr } => [addr, 0, 0, 0, from, size],
    }
}

// How many numbers are kept of a request of this kind.
fn kind_width(kind: Kind) -> usize
    ensures value { result ≡ kind_width kind }
    ensures few { result ≤ 4 }
{
    match kind {
        Kind::Pages => 2,
        Kind::Map => 4,
        Kind::Unmap => 2,
        Kind::Protect => 2,
        Kind::Load => 1,
        Kind::Store => 1,
        Kind::Fetch => 1,
    }
}

// How many are kept of a request of this shape.
fn shape_width(shape: Shape) -> usize
    ensures value { result ≡ shape_width shape }
    ensures few { result ≤ 6 }
{
    if shape.named {
        6
    } else {
        kind_width(shape.kind)
    }
}

// The number at a place, 0 where there is none.
fn number_at(numbers: &[u64], at: usize) -> u64
    ensures { result ≡ slice_index_or numbers.now at 0 }
{
    match numbers.get(at) {
        Some(number) => *number,
        None => 0,
    }
}

// The name of a request with these numbers.
fn name_of(named: bool, numbers: &[u64]) -> Name
    ensures { result ≡ name_kept named numbers.now }
{
    if named {
        Name {
            from: number_at(numbers, 4) as usize,
            len: number_at(numbers, 5) as usize,
        }
    } else {
        NO_NAME
    }
}

// The request of this shape with these numbers.
fn request_of(shape: Shape, numbers: &[u64]) -> Request
    ensures { result ≡ request_kept shape.kind (prot_of shape.prot) (flags_of shape.flags) shape.byte numbers.now }
{
    let addr = number_at(numbers, 0);
    let len = number_at(numbers, 1);
    let prot = prot_of(shape.prot);
    let flags = flags_of(shape.flags);
    match shape.kind {
        Kind::Pages => Request::Mmap {
            addr,
            len,
            prot,
            flags,
            file: 0,
            off: 0,
        },
        Kind::Map => Request::Mmap {
            addr,
            len,
            prot,
            flags,
            file: number_at(numbers, 2),
            off: number_at(numbers, 3),
        },
        Kind::Unmap => Request::Munmap { addr, len },
        Kind::Protect => Request::Mprotect { addr, len, prot },
        Kind::Load => Request::Load { addr },
        Kind::Store => Request::Store {
            addr,
            byte: shape.byte,
        },
        Kind::Fetch => Request::Fetch { addr },
    }
}

/// The first of some requests, and what the others have.
#[tactic(auto, using(crate::proofs::StepLemmas::steps_front, crate::proofs::StepLemmas::widths_front))]
pub fn front_step<'a>(
    heads: &'a [Head],
    numbers: &'a [u64],
) -> (TraceRequest, &'a [Head], &'a [u64])
    requires some { 0 < length heads.now }
    requires whole { widths heads.now ≤ length numbers.now }
    ensures step { steps_kept heads.now numbers.now ≡ result.0 ∷ steps_kept result.1.now result.2.now }
    ensures whole { widths result.1.now ≤ length result.2.now }
    ensures less { length result.1.now < length heads.now }
{
    let core = heads[0].core;
    let shape = heads[0].shape;
    let name = name_of(shape.named, numbers);
    let request = request_of(shape, numbers);
    let (_, later) = heads.split_at(1);
    let (_, behind) = numbers.split_at(shape_width(shape));
    let step = TraceRequest {
        core,
        name,
        request,
    };
    (step, later, behind)
}

// What is mapped after these requests, where these ranges were before.
fn changed_by_all(
    alloc: Global,
    ranges: &[MappedRange],
    heads: &[Head],
    numbers: &[u64],
) -> Result<Vec<MappedRange>, AllocError>
    requires whole { widths heads.now ≤ length numbers.now }
    ensures { IfOk result (λ all. all.items ≡ changed_all ranges.now (steps_kept heads.now numbers.now)) }
{
    let mut all = Vec::from_slice(alloc, ranges)?;
    let mut heads = heads;
    let mut numbers = numbers;
    'steps: while !heads.is_empty() {
        let (step, later, behind) = front_step(heads, numbers);
        all = changed(alloc, all, step)?;
        heads = later;
        numbers = behind;
    }
    Ok(all)
}

impl TraceRequests {
    ghost use Rattle.std.specs.Prelude.{◌≡◌, ◌≤◌, ◌∷◌, ◌++◌, [], IfOk, OnErr, OnOk, length};
    ghost use Rattle.import_maps.specs.Ranges.{parts_of, ranges_of};
    ghost use Rattle.import_maps.specs.Steps.{steps_kept, widths};

    /// No request.
    pub fn new(alloc: Global) -> TraceRequests
        ensures { result ≡ [] }
    {
        TraceRequests {
            heads: Vec::new(alloc),
            numbers: Vec::new(alloc),
            ranges: Vec::new(alloc),
            seen: 0,
            behind: 0,
        }
    }

    /// Adds a request. Where there is no memory they stay as they are.
    #[tactic(auto, using(crate::proofs::StepLemmas::steps_push))]
    pub fn push(&mut self, step: TraceRequest) -> Result<(), AllocError>
        ensures ok { OnOk result (self.new ≡ self.old ++ step ∷ []) }
        ensures err { OnErr result (self.new ≡ self.old) }
    {
        let TraceRequest {
            core,
            name,
            request,
        } = step;
        let shape = shape_of(is_name(name), request);
        let all = six_of(request, name);
        let before = self.numbers.len();
        self.numbers.extend_from_slice(&all[..shape_width(shape)])?;
        match self.heads.push(Head { core, shape }) {
            Ok(()) => Ok(()),
            Err(_) => {
                self.numbers.truncate(before);
                Err(AllocError)
            }
        }
    }

    /// How many there are.
    #[tactic(auto, using(crate::proofs::StepLemmas::steps_size))]
    pub fn len(&self) -> usize
        ensures { result ≡ length self.now }
    {
        self.heads.len()
    }

    /// The heads and the numbers.
    pub fn parts(&self) -> (&[Head], &[u64])
        ensures steps { self.now ≡ steps_kept result.0.now result.1.now }
        ensures whole { widths result.0.now ≤ length result.1.now }
    {
        (self.heads.as_slice(), self.numbers.as_slice())
    }

    /// They, one by one.
    pub fn list(&self, alloc: Global) -> Result<Vec<TraceRequest>, AllocError>
        ensures { IfOk result (λ all. all.items ≡ self.now) }
    {
        let mut all: Vec<TraceRequest> = Vec::new(alloc);
        let (mut heads, mut numbers) = self.parts();
        'steps: while !heads.is_empty() {
            let (step, later, behind) = front_step(heads, numbers);
            all.push(step)?;
            heads = later;
            numbers = behind;
        }
        Ok(all)
    }

    /// The same once more.
    pub fn copy(&self, alloc: Global) -> Result<TraceRequests, AllocError>
        ensures { IfOk result (λ copy. copy ≡ self.now) }
    {
        let heads = Vec::from_slice(alloc, self.heads.as_slice())?;
        let numbers = Vec::from_slice(alloc, self.numbers.as_slice())?;
        Ok(TraceRequests {
            heads,
            numbers,
            ranges: Vec::new(alloc),
            seen: 0,
            behind: 0,
        })
    }

    /// What they map of the addresses from one on, up to another.
    #[tactic(auto, using(crate::proofs::KeptLemmas::kept_whole, crate::proofs::KeptLemmas::kept_rest))]
    pub fn parts_mapped(
        &mut self,
        alloc: Global,
        from: u64,
        end: u64,
    ) -> Result<Vec<MappedRange>, AllocError>
        ensures same { self.new ≡ self.old }
        ensures value { IfOk result (λ all. all.items ≡ parts_of from end (ranges_of self.old)) }
    {
        let (_, heads) = self.heads.as_slice().split_at(self.seen);
        let (_, numbers) = self.numbers.as_slice().split_at(self.behind);
        let ranges = changed_by_all(alloc, self.ranges.as_slice(), heads, numbers)?;
        let parts = parts_of(alloc, ranges.as_slice(), from, end);
        self.ranges = ranges;
        self.seen = self.heads.len();
        self.behind = self.numbers.len();
        parts
    }
}
