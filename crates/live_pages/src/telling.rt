//! Cores that are told to drop their translations of a range, and their takes.
ghost use Rattle.std.specs.Prelude.{◌≡◌, ◌+◌, ◌*◌, ◌≤◌, [], ◌∷◌, ◌++◌, ℕ, cond, false, map, true, All, Some};
ghost use Rattle.std.specs.Prelude.{◌⊎◌, IfSome, IsSome, IsTrue, is_some, length};
ghost use Rattle.vm_base.specs.Cores.{members, with_member};
ghost use Rattle.vm_base.specs.Functions.{put};
ghost use Rattle.vm_base.specs.Pages.{are_pages};
ghost use Rattle.machine_model.specs.Translating.{after_shot};
ghost use Rattle.machine_model.specs.declared.event.Event.TheVariants.{Take};
ghost use Rattle.machine_model.specs.declared.event.Outcome.TheVariants.{Stepped};
ghost use Rattle.mmu.specs.Messages.{asked, message_of, oldest_of};
ghost use Rattle.live_pages.specs.OneCore.{after_on, after_take, one_core};
ghost use Rattle.live_pages.specs.Acking.{AcksIn, HaveAcked};
ghost use Rattle.live_pages.specs.Posting.{AreLocked, CanBeTold, IsTold, LocksCore, core_of, inbox_of, number_of, told};
ghost use Rattle.live_pages.specs.Targets.{count_below};
ghost use Rattle.live_pages.specs.Steps.{StepsOnce};
ghost use Rattle.seats.specs.Growing.{Grew, Steps};
ghost use Rattle.seats.specs.Notes.{CanNote, noted, with_note};

use crate::pieces::{CoreState, lock_core};
use crossbeam_utils::CachePadded;
use live_levels::level::Stepper;
use machine_model::{Event, Outcome};
use mmu::{Cpu, Hardware, Inbox, Took};
use seats::Seat;
use smallvec::SmallVec;
use std::alloc::Allocator;
use std::marker::Model;
use std::sync::{Mutex, MutexGuard, Wait};
use vm_base::{CoreId, CoreSet, PageRange};

/// How many takes of a core may come before it has acknowledged a message: two of each message of
/// its inbox.
pub const TAKES: usize = 126;

/// Cores are numbered below this.
const CORES: u8 = 64;

// A locked core, with its number.
#[derive(Drop)]
pub(crate) struct LockedCore<'a, A: Allocator + Clone> {
    number: CoreId,
    state: MutexGuard<'a, CoreState<A>>,
}

// The cores that one step holds, ascending. Each is there.
type Places<'a, A> = SmallVec<Option<LockedCore<'a, A>>, 8, &'a A>;

/// The cores of a set, which are locked to be told by one of them to drop their translations of a
/// range. Just those are locked, each under its own number, and none has a message of that one, so
/// that all of them can be told.
#[derive(Drop)]
pub struct ShootdownTargets<'a, A: Allocator + Clone> {
    places: Places<'a, A>,
    core: CoreId,
    set: CoreSet,
    range: PageRange,
}

impl<'a, A: Allocator + Clone> Model for ShootdownTargets<'a, A> {
    ghost use Rattle.std.specs.Prelude.{◌≡◌, true};
    ghost use Rattle.vm_base.specs.Pages.{are_pages};
    ghost use Rattle.live_pages.specs.Posting.{AreLocked, TellingView};

    ghost Value = { TellingView };

    ghost view = { λ t. record { core = t.core; set = t.set; range = t.range } };

    ghost invariant = { λ t. AreLocked t.core t.set 64 t.places.items × (are_pages t.range ≡ true) };
}

impl<'a, A: Allocator + Clone> ShootdownTargets<'a, A> {
    ghost use Rattle.vm_base.specs.Cores.{with_member};

    /// Locks the core and each other one of the set. None where one isn't there or can't be told,
    /// or there is no memory; then no core gets a message.
    pub fn of<R: Wait>(
        rt: &R,
        alloc: &'a A,
        cores: &'a [CachePadded<Mutex<CoreState<A>>>],
        core: CoreId,
        set: CoreSet,
        range: PageRange,
    ) -> Option<ShootdownTargets<'a, A>>
        ensures { IfSome result (λ telling. telling
            ≡ record { core = core; set = with_member set core; range = range }) }
    {
        if !range.is_valid() {
            return None;
        }
        let set = set.with(core);
        let mut places: Places<'a, A> = SmallVec::new(alloc);
        if !lock_set(rt, cores, &mut places, core, set) {
            return None;
        }
        Some(ShootdownTargets {
            places,
            core,
            set,
            range,
        })
    }

    /// The core drops its own translations of the range, and each other one is told to drop its
    /// own: one step, under the locks of all of them.
    pub fn post(self, seat: &mut Seat<A>) -> Posted
        requires { CanNote seat.old }
        ensures step { StepsOnce seat.old seat.new }
        ensures posted { result ≡ record { core = self.entry.core; set = self.entry.set; range = self.entry.range } }
    {
        let ShootdownTargets {
            mut places,
            core,
            set,
            range,
        } = self;
        let _ticket = post_to(&mut places, seat, core, range);
        Posted { core, set, range }
    }
}

/// A post that was made: by which core, to which cores, itself among them, and of which range. It may
/// not be dropped: it ends by `take_all`.
pub struct Posted {
    core: CoreId,
    set: CoreSet,
    range: PageRange,
}

/// A core that made its takes. Only `take_each` makes one.
#[derive(Clone, Copy)]
pub struct Told {
    core: CoreId,
}

/// The cores that made their takes after a post of a range. Only `take_all` makes one.
#[derive(Clone, Copy)]
pub struct Acked {
    set: CoreSet,
    range: PageRange,
}

impl Acked {
    // One core more.
    fn with(self, told: Told) -> Acked
        ensures set { members result.set ≡ put (members self.set) told.core true }
        ensures range { result.range ≡ self.range }
    {
        Acked {
            set: self.set.with(told.core),
            range: self.range,
        }
    }
}

// Locks the cores of the set, ascending. False where one of them isn't there or can't be told by
// the core, or memory is refused.
fn lock_set<'a, R: Wait, A: Allocator + Clone>(
    rt: &R,
    cores: &'a [CachePadded<Mutex<CoreState<A>>>],
    places: &mut Places<'a, A>,
    core: CoreId,
    set: CoreSet,
) -> bool
    requires { places.old.items ≡ [] }
    ensures { result ≡ true → AreLocked core set 64 places.new.items }
{
    'cores: for index in 0..CORES {
        if !lock_member(rt, cores, places, core, set, CoreId::new(index)) {
            return false;
        }
    }
    true
}

// Locks the core of that number, where it is in the set.
fn lock_member<'a, R: Wait, A: Allocator + Clone>(
    rt: &R,
    cores: &'a [CachePadded<Mutex<CoreState<A>>>],
    places: &mut Places<'a, A>,
    core: CoreId,
    set: CoreSet,
    number: CoreId,
) -> bool
    ensures member { result ≡ true → members set number ≡ true
        → LocksCore core number places.old.items places.new.items }
    ensures other { members set number ≡ false → places.new ≡ places.old }
{
    if !set.contains(number) {
        return true;
    }
    lock_target(rt, cores, places, core, number)
}

// Locks the core of that number. False where it isn't there or can't be told by the other one, or
// memory is refused.
fn lock_target<'a, R: Wait, A: Allocator + Clone>(
    rt: &R,
    cores: &'a [CachePadded<Mutex<CoreState<A>>>],
    places: &mut Places<'a, A>,
    core: CoreId,
    number: CoreId,
) -> bool
    ensures { result ≡ true → LocksCore core number places.old.items places.new.items }
{
    let Some(state) = lock_core(rt, cores, number) else {
        return false;
    };
    if !can_be_told(&state.inbox, core, number) {
        return false;
    }
    push(places, number, state)
}

// One locked core more. False where memory is refused.
fn push<'a, A: Allocator + Clone>(
    places: &mut Places<'a, A>,
    number: CoreId,
    state: MutexGuard<'a, CoreState<A>>,
) -> bool
    ensures { result ≡ true → places.new.items
        ≡ places.old.items ++ Some (record { number = number; state = state.entry }) ∷ [] }
{
    places.push(Some(LockedCore { number, state })).is_ok()
}

// Tells whether the inbox, which is that of the core of that number, has no message of the core.
fn can_be_told(inbox: &Inbox, core: CoreId, _number: CoreId) -> bool
    requires { inbox.now.core ≡ _number }
    ensures { result ≡ true → CanBeTold core (record { number = _number; inbox = inbox.now }) }
{
    !inbox.has_of(core)
}

// The step of a post: it is noted, and each locked core drops its translations of the range or is
// told to.
fn post_to<'a, A: Allocator + Clone>(
    places: &mut Places<'a, A>,
    seat: &mut Seat<A>,
    core: CoreId,
    range: PageRange,
) -> u64
    requires step { CanNote seat.old }
    requires some { All IsSome places.old.items }
    requires ready { All (λ p. CanBeTold core (inbox_of p)) places.old.items }
    requires pages { are_pages range ≡ true }
    ensures step { Steps seat.old result seat.new }
    ensures told { (set : ℕ) → All (λ p. members set (number_of p) ≡ true) places.old.items
        → map (core_of ⟦<Cpu<A> as Hardware>⟧.table ⟦<Cpu<A> as Hardware>⟧.tlb) places.new.items
        ≡ map (told core set range)
        (map (core_of ⟦<Cpu<A> as Hardware>⟧.table ⟦<Cpu<A> as Hardware>⟧.tlb) places.old.items) }
{
    let ticket = seat.step();
    'places: for place in places.as_mut_slice().iter_mut() {
        tell(place, core, range);
    }
    ticket
}

// The locked core, which is there, drops its translations of the range or gets a message to do so.
fn tell<A: Allocator + Clone>(place: &mut Option<LockedCore<'_, A>>, core: CoreId, range: PageRange)
    requires some { IsSome place.old }
    requires ready { CanBeTold core (inbox_of place.old) }
    requires pages { are_pages range ≡ true }
    ensures some { IsSome place.new }
    ensures told { (set : ℕ) → members set (number_of place.old) ≡ true
        → core_of ⟦<Cpu<A> as Hardware>⟧.table ⟦<Cpu<A> as Hardware>⟧.tlb place.new
        ≡ told core set range (core_of ⟦<Cpu<A> as Hardware>⟧.table ⟦<Cpu<A> as Hardware>⟧.tlb place.old) }
{
    match place {
        Some(place) => {
            let number = place.number;
            tell_one(&mut place.state, number, core, range);
        }
        None => unreachable!(),
    }
}

// The same of a core by itself, which has this number.
fn tell_one<A: Allocator + Clone>(
    state: &mut CoreState<A>,
    number: CoreId,
    core: CoreId,
    range: PageRange,
)
    requires ready { CanBeTold core (record { number = number; inbox = state.old.inbox }) }
    requires pages { are_pages range ≡ true }
    ensures told { (set : ℕ) → members set number ≡ true
        → one_core (⟦<Cpu<A> as Hardware>⟧.table state.new.cpu)
        (⟦<Cpu<A> as Hardware>⟧.tlb state.new.cpu) state.new.inbox
        ≡ after_on number (λ h. after_shot h core set range)
        (one_core (⟦<Cpu<A> as Hardware>⟧.table state.old.cpu)
        (⟦<Cpu<A> as Hardware>⟧.tlb state.old.cpu) state.old.inbox) }
    ensures counts { state.new.counts ≡ state.old.counts }
{
    tell_core(&mut state.cpu, &mut state.inbox, number, core, range);
}

// The core that posts drops its translations of the range; another one gets its message.
fn tell_core<H: Hardware>(
    cpu: &mut H,
    inbox: &mut Inbox,
    number: CoreId,
    core: CoreId,
    range: PageRange,
)
    requires ready { CanBeTold core (record { number = number; inbox = inbox.old }) }
    requires pages { are_pages range ≡ true }
    ensures { (set : ℕ) → members set number ≡ true → one_core (H.table cpu.new) (H.tlb cpu.new) inbox.new
        ≡ after_on number (λ h. after_shot h core set range)
        (one_core (H.table cpu.old) (H.tlb cpu.old) inbox.old) }
{
    if number.index() == core.index() {
        cpu.clear_tables(range);
        cpu.invalidate(range);
    } else {
        inbox.post(core, range);
    }
}

/// How many cores are in the set.
pub fn count_of(set: CoreSet) -> usize
    ensures { result ≡ count_below set 64 }
{
    let mut count = 0;
    'cores: for index in 0..CORES {
        if set.contains(CoreId::new(index)) {
            count += 1;
        }
    }
    count
}

/// The takes of each core of the set, ascending, until it has acknowledged the core's message: of all
/// others that the post told. None where one isn't there, which never comes.
pub fn take_all<R: Wait, A: Allocator + Clone>(
    rt: &R,
    cores: &[CachePadded<Mutex<CoreState<A>>>],
    seat: &mut Seat<A>,
    posted: Posted,
    set: CoreSet,
) -> Option<Acked>
    requires told { posted.set ≡ with_member set posted.core }
    requires own { posted.core ≡ seat.old.core }
    requires room { 126 * count_below set 64 ≤ seat.old.room }
    ensures grew { Grew seat.old seat.new }
    ensures room { seat.old.room ≤ seat.new.room + 126 * count_below set 64 }
    ensures acked { IfSome result (HaveAcked set posted.range) }
{
    let Posted {
        core: _,
        set: _,
        range,
    } = posted;
    let mut acked = Acked {
        set: CoreSet::empty(),
        range,
    };
    'cores: for index in 0..CORES {
        let Some(more) = take_of(rt, cores, seat, acked, set, CoreId::new(index)) else {
            return None;
        };
        acked = more;
    }
    Some(acked)
}

// The takes of one core, where it is in the set. None where it isn't there.
fn take_of<R: Wait, A: Allocator + Clone>(
    rt: &R,
    cores: &[CachePadded<Mutex<CoreState<A>>>],
    seat: &mut Seat<A>,
    acked: Acked,
    set: CoreSet,
    target: CoreId,
) -> Option<Acked>
    requires room { 126 * cond (members set target) 1 0 ≤ seat.old.room }
    ensures grew { Grew seat.old seat.new }
    ensures room { seat.old.room ≤ seat.new.room + 126 * cond (members set target) 1 0 }
    ensures acked { IfSome result (AcksIn set target acked) }
{
    if !set.contains(target) {
        return Some(acked);
    }
    let told = take_until_told(rt, cores, seat, target)?;
    Some(acked.with(told))
}

// The takes of a target, under its lock, until it has acknowledged the core's message. Each is a step
// of its own. None where it isn't there.
fn take_until_told<R: Wait, A: Allocator + Clone>(
    rt: &R,
    cores: &[CachePadded<Mutex<CoreState<A>>>],
    seat: &mut Seat<A>,
    target: CoreId,
) -> Option<Told>
    requires room { 126 ≤ seat.old.room }
    ensures grew { Grew seat.old seat.new }
    ensures room { seat.old.room ≤ seat.new.room + 126 }
    ensures told { IfSome result (λ told. told.core ≡ target) }
{
    let mut state = lock_core(rt, cores, target)?;
    Some(take_each(&mut state, seat, target))
}

// The takes of a target, which is locked: until it has acknowledged the core's message, or the most
// that there may be.
fn take_each<A: Allocator + Clone>(
    state: &mut CoreState<A>,
    seat: &mut Seat<A>,
    target: CoreId,
) -> Told
    requires own { state.old.inbox.core ≡ target }
    requires room { 126 ≤ seat.old.room }
    ensures target { result.core ≡ target }
    ensures grew { Grew seat.old seat.new }
    ensures room { seat.old.room ≤ seat.new.room + 126 }
    ensures told { IsTold seat.old.core state.new.inbox.messages
        ⊎ (length seat.new.notes ≡ length seat.old.notes + 126) }
{
    let core = seat.core();
    'takes: for _turn in 0..TAKES {
        if !is_awaited(&state.inbox, core) {
            return Told { core: target };
        }
        take_one(state, seat, target);
    }
    Told { core: target }
}

// Tells whether a message of the core is there, and the oldest one is of pages.
fn is_awaited(inbox: &Inbox, core: CoreId) -> bool
    ensures awaited { IsTrue result → is_some (message_of inbox.now.messages core) ≡ true }
    ensures oldest { IsTrue result → IfSome (oldest_of inbox.now.messages) (λ m. are_pages m.range ≡ true) }
    ensures told { ¬ IsTrue result → IsTold core inbox.now.messages }
{
    match inbox.oldest() {
        Some(message) => inbox.has_of(core) && message.range.is_valid(),
        None => false,
    }
}

// One take of the target: it is noted, and the target acts on its oldest message.
fn take_one<A: Allocator + Clone>(state: &mut CoreState<A>, seat: &mut Seat<A>, target: CoreId)
    requires step { CanNote seat.old }
    requires oldest { IfSome (oldest_of state.old.inbox.messages) (λ m. are_pages m.range ≡ true) }
    ensures noted { (ticket : ℕ) × (seat.new ≡ with_note seat.old (noted ticket (Take target) Stepped)) }
    ensures took { one_core (⟦<Cpu<A> as Hardware>⟧.table state.new.cpu)
        (⟦<Cpu<A> as Hardware>⟧.tlb state.new.cpu) state.new.inbox ≡ after_on target (after_take target (asked state.old.inbox.messages))
        (one_core (⟦<Cpu<A> as Hardware>⟧.table state.old.cpu)
        (⟦<Cpu<A> as Hardware>⟧.tlb state.old.cpu) state.old.inbox) }
    ensures counts { state.new.counts ≡ state.old.counts }
{
    let _ticket = seat.note(Event::Take(target), Outcome::Stepped);
    act_on_oldest(&mut state.cpu, &mut state.inbox);
}

// The core acts on its oldest message, if there is one: first its tables are cleared, then its TLB
// is invalidated.
fn act_on_oldest<H: Hardware>(cpu: &mut H, inbox: &mut Inbox)
    requires { IfSome (oldest_of inbox.old.messages) (λ m. are_pages m.range ≡ true) }
    ensures { (c : ℕ) → one_core (H.table cpu.new) (H.tlb cpu.new) inbox.new
        ≡ after_on c (after_take c (asked inbox.old.messages))
        (one_core (H.table cpu.old) (H.tlb cpu.old) inbox.old) }
{
    match inbox.take() {
        Took::Clear(range) => cpu.clear_tables(range),
        Took::Invalidate(range) => cpu.invalidate(range),
        Took::Idle => {}
    }
}
