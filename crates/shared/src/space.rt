//! The space that threads share, and a core, with which one thread calls.
ghost use Rattle.std.specs.Prelude.{◌≡◌, ◌≢◌, ◌-◌, ◌<◌, ◌≤◌, ◌==◌, true, List, [], ◌∷◌, ◌++◌, IfOk, IfErr, IfSome, IfNone, length, map};
ghost use Rattle.shared.specs.declared.history.Replied.{Replied as RepliedOf};
ghost use Rattle.shared.specs.Histories.{event_of, Ends, StepsAside};
ghost use Rattle.shared.specs.Serial.{AreTold, EndsSeries};
ghost use Rattle.shared.specs.Cores.{Answers, AnswersAll, Agrees, IsBeside, IsKept, Passes, new_core, split_core, told_of};
ghost use Rattle.machine_model.specs.Alone.{IsCalm};
ghost use Rattle.core_steps.specs.Machine.{IsLegal};
ghost use Rattle.shared.specs.Rules.{CanGive, Makes, Took, after, answer_of, word_after, word_of};

use crate::asides::Aside;
use crate::history::{JoinedCore, Replied, Turn};
use crate::series::{Ask, Series, SeriesEnd, Tell, call_each};
use crate::whole::{CallEnd, Whole};
use atomic_table::{Join, Play, Refused, Seat, Split, Table, TableRule};
use ghost_list::GhostList;
use machine_model::Outcome;
use std::alloc::Global;
use std::collections::LinkedList;
use std::marker::Model;
use vm_base::{CoreId, Reply, Request};

/// The word's place in a row of words. With 64 bytes on each side that nobody uses nothing else lies in
/// its cache line.
const MIDDLE: usize = 8;

/// How many words the row has.
const ROW: usize = 17;

/// The word where the machine is at home, and a call can begin.
const HOME: u64 = 1;

/// The word where a core has the machine.
const OUT: u64 = 0;

/// The word where the machine is at home, and no call can begin any more.
const SPENT: u64 = 2;

/// What a core knows. No value of it is made.
pub struct Known<S> {
    pub core: u64,
    pub spare: u64,
    pub first: LinkedList<S>,
    pub turns: LinkedList<Turn<S>>,
    pub mine: LinkedList<Replied>,
    pub holds: bool,
    pub live: bool,
    pub others: LinkedList<JoinedCore<S>>,
}

/// What a call is answered.
#[derive(Clone, Copy, PartialEq, Eq)]
pub enum Answer {
    /// It was made, and has this reply.
    Reply(Reply),
    /// Another core is in a call. Nothing was done.
    Busy,
    /// A limit of the machine is reached: that of calls, or that of events.
    Full,
}

/// The outcome of an aside.
#[derive(Clone, Copy, PartialEq, Eq)]
pub enum Passed {
    /// The machine's outcome: it was made (Stepped), there was nothing to do (Idle), or the limit of
    /// events is reached (Full).
    Came(Outcome),
    /// Another core is in a call. Nothing was done.
    Busy,
}

/// The result of a series of calls.
#[derive(Clone, Copy, PartialEq, Eq)]
pub enum Calls {
    /// This many were made.
    Made(Series),
    /// Another core is in a call. Nothing was done.
    Busy,
}

/// The rule, which holds between any two steps: there is one history, of which each core has seen a
/// beginning, and in which each core's calls are those that it made.
pub struct OneLog;

impl<S: Whole> TableRule<S, Known<S>, GhostList<S>> for OneLog {
    ghost use Rattle.shared.specs.Rules.{Kept, first_known};

    ghost holds = { λ key. Kept S.state key.items };

    ghost first = { λ key. first_known S.state key.items };
}

/// The step that takes the machine.
pub struct Take;

impl<S: Whole> Play<S, Known<S>> for Take {
    ghost use Rattle.shared.specs.Rules.{Takes};

    ghost then = { Takes S.state };
}

/// The step that gives it back.
pub struct Give;

impl<S: Whole> Play<S, Known<S>> for Give {
    ghost use Rattle.shared.specs.Rules.{Gives};

    ghost then = { Gives S.state };
}

/// The step that splits a core off.
pub struct SplitOff;

impl<S: Whole> Split<Known<S>> for SplitOff {
    ghost use Rattle.std.specs.Prelude.{◌-◌};
    ghost use Rattle.shared.specs.Rules.{split_known};

    ghost left = { λ v. record v { spare = v.spare - 1 } };

    ghost right = { split_known S.state };
}

/// The step that takes a core in, with what it knew.
pub struct TakeIn;

impl<S> Join<Known<S>> for TakeIn {
    ghost use Rattle.shared.specs.Rules.{with_other, spent_core};

    ghost both = { with_other };

    ghost spent = { spent_core };
}

/// The right to call as one core.
#[derive(Drop)]
pub struct CoreSeat<S> {
    number: CoreId,
    left: u8,
    seat: Seat<S, Known<S>>,
}

impl<S> Model for CoreSeat<S> {
    ghost use Rattle.std.specs.Prelude.{◌≡◌, ◌<◌, true, false, []};
    ghost use Rattle.shared.specs.Cores.{CoreView};
    ghost use Rattle.shared.specs.Rules.{view_of};

    ghost Value = { CoreView S };

    ghost view = { λ c. view_of c.seat.table_id c.seat.me.0 };

    ghost invariant = { λ c. (c.seat.me.1 ≡ []) × (c.seat.me.0.holds ≡ false)
        × (c.seat.me.0.live ≡ true) × (c.number ≡ c.seat.me.0.core) × (c.left ≡ c.seat.me.0.spare)
        × (c.left < 64) };
}

/// What all threads share: the machine, behind a word. It has no lock that waits.
#[derive(Drop)]
pub struct SharedMachine<S: Whole> {
    table: Table<S, Known<S>, GhostList<S>, OneLog, Global>,
    ghost one: { (table.shared.table_id.words ≡ 17) × (table.shared.table_id.slots ≡ 1) },
}

/// Why a machine can't be shared.
#[derive(Clone, Copy)]
pub enum ShareFault {
    /// There was no memory.
    NoMemory,
    /// A core has a call, or there is no core.
    NotCalm,
}

/// A machine that wasn't shared, as it was.
#[derive(Drop)]
pub struct Unshared<S> {
    pub machine: S,
    pub why: ShareFault,
}

impl<S: Whole + Drop> SharedMachine<S> {
    /// A space, and core 0, which may split off the machine's other cores. A machine that a core has a call of isn't shared.
    pub fn new(alloc: Global, machine: S) -> Result<(SharedMachine<S>, CoreSeat<S>), Unshared<S>>
        ensures ok { IfOk result (λ r. (r.1.first ≡ machine ∷ [])
            × (r.1 ≡ new_core S.state r.0.table.shared.table_id 0 ((S.state machine).made.cores - 1) (machine ∷ []))) }
        ensures err { IfErr result (λ r. (r.machine ≡ machine) × IsKept r.why (S.state machine)) }
    {
        let cores = machine.core_count();
        if cores == 0 || !machine.is_calm() {
            return Err(Unshared {
                machine,
                why: ShareFault::NotCalm,
            });
        }
        let left = (cores - 1) as u8;
        let Ok(mut slots) = Vec::with_capacity(alloc, 1) else {
            return Err(Unshared {
                machine,
                why: ShareFault::NoMemory,
            });
        };
        let first = GhostList::new().and(&machine);
        slots.push_reserved(machine);
        match Table::new(alloc, &[HOME; ROW], slots, &first) {
            Ok((table, seat)) => Ok((
                SharedMachine { table },
                CoreSeat {
                    number: CoreId::new(0),
                    left,
                    seat,
                },
            )),
            Err(Refused { slots }) => Err(Unshared {
                machine: only(slots),
                why: ShareFault::NoMemory,
            }),
        }
    }

    // The word as it was found; where that is 1, the seat has the machine now.
    fn take(&self, seat: &mut Seat<S, Known<S>>) -> u64
        requires here { seat.old.table_id ≡ self.now.table.shared.table_id }
        requires live { seat.old.me.0.live ≡ true }
        ensures same { (seat.new.table_id ≡ seat.old.table_id) × (seat.new.id ≡ seat.old.id) }
        ensures took { Took S.state result seat.old.me seat.new.me }
    {
        self.table
            .shared
            .compare_exchange::<Take>(seat, MIDDLE, HOME, OUT)
    }

    // A whole call of the machine that the seat has.
    fn make(&self, seat: &mut Seat<S, Known<S>>, core: CoreId, request: Request) -> CallEnd
        requires here { seat.old.table_id ≡ self.now.table.shared.table_id }
        requires has { (d : S) × (seat.old.me.1 ≡ (0, d) ∷ []) × (core < (S.state d).made.cores)
            × IsCalm (S.state d) }
        ensures same { (seat.new.table_id ≡ seat.old.table_id) × (seat.new.me.0 ≡ seat.old.me.0) }
        ensures made { (d : S) → seat.old.me.1 ≡ (0, d) ∷ []
            → Makes S.state d (λ x y. Ends x core request result y) seat.new.me.1 }
    {
        seat.slot_mut(&self.table.shared, 0)
            .call_whole(core, request)
    }

    // Whole calls of the machine that the seat has.
    fn make_each<Q: Ask, T: Tell>(
        &self,
        seat: &mut Seat<S, Known<S>>,
        core: CoreId,
        asks: &[Q],
        told: &mut [T],
    ) -> Series
        requires here { seat.old.table_id ≡ self.now.table.shared.table_id }
        requires has { (d : S) × (seat.old.me.1 ≡ (0, d) ∷ []) × (core < (S.state d).made.cores)
            × IsCalm (S.state d) × IsLegal (S.state d) }
        requires room { length asks.now ≤ length told.old }
        ensures same { (seat.new.table_id ≡ seat.old.table_id) × (seat.new.me.0 ≡ seat.old.me.0) }
        ensures made { (d : S) → seat.old.me.1 ≡ (0, d) ∷ []
            → Makes S.state d (λ x y. (added : List RepliedOf) × AreTold T.told added told.old told.new
            × (result.made ≡ length added) × EndsSeries x core (map Q.request asks.now) added result.stop y) seat.new.me.1 }
    {
        call_each(seat.slot_mut(&self.table.shared, 0), core, asks, told)
    }

    // An aside of the machine that the seat has.
    fn pass(&self, seat: &mut Seat<S, Known<S>>, core: CoreId, aside: Aside) -> Outcome
        requires here { seat.old.table_id ≡ self.now.table.shared.table_id }
        requires has { (d : S) × (seat.old.me.1 ≡ (0, d) ∷ []) × IsCalm (S.state d) }
        ensures same { (seat.new.table_id ≡ seat.old.table_id) × (seat.new.me.0 ≡ seat.old.me.0) }
        ensures made { (d : S) → seat.old.me.1 ≡ (0, d) ∷ []
            → Makes S.state d (λ x y. StepsAside x (event_of core aside) result y × IsCalm y) seat.new.me.1 }
    {
        seat.slot_mut(&self.table.shared, 0).step_aside(core, aside)
    }

    // Gives the machine back.
    fn give(&self, seat: &mut Seat<S, Known<S>>, word: u64)
        requires here { seat.old.table_id ≡ self.now.table.shared.table_id }
        requires can { (d : S) × (seat.old.me.1 ≡ (0, d) ∷ []) × CanGive S.state seat.old.me.0 d word }
        ensures same { seat.new.table_id ≡ seat.old.table_id }
        ensures gave { (d : S) → seat.old.me.1 ≡ (0, d) ∷ []
            → seat.new.me ≡ (after S.state seat.old.me.0 d, []) }
    {
        self.table.shared.store::<Give>(seat, MIDDLE, word);
    }

    /// A whole call of this core. Where another core is in one, nothing is done: that comes only where another core has a
    /// seat that this one didn't take in. Below the machine's
    /// limits of calls and of events it has a reply: only at a limit is the answer that it is full. What the core has
    /// seen of the machine's history is a beginning of it, whose log is that of a plain page map
    /// (POSIX.1-2017, mmap, munmap and mprotect), and in which this core's calls are just those that
    /// it made, in order, each with the reply that it got.
    pub fn call(&self, core: &mut CoreSeat<S>, request: Request) -> Answer
        requires here { core.old.space ≡ self.now.table.shared.table_id }
        ensures answers { Answers S.state core.old request result core.new }
        ensures here { core.new.space ≡ core.old.space }
    {
        let found = self.take(&mut core.seat);
        if found == OUT {
            return Answer::Busy;
        }
        if found != HOME {
            return Answer::Full;
        }
        let ended = self.make(&mut core.seat, core.number, request);
        self.give(&mut core.seat, word_of(ended));
        answer_of(ended)
    }

    /// Whole calls of this core, one after another, with nothing of another core between them. Each reply is written in its place, as
    /// far as calls were made, and the other places stay as they were: up to what is no call, to a call to which memory is refused,
    /// or to a limit of the machine. Of each that was made the same is so as of `call`. Where another core is in a call, nothing
    /// is done.
    pub fn call_all<Q: Ask, T: Tell>(
        &self,
        core: &mut CoreSeat<S>,
        asks: &[Q],
        told: &mut [T],
    ) -> Calls
        requires here { core.old.space ≡ self.now.table.shared.table_id }
        requires room { length asks.now ≤ length told.old }
        ensures answers { AnswersAll S.state core.old (map Q.request asks.now) T.told told.old result told.new core.new }
        ensures here { core.new.space ≡ core.old.space }
    {
        let found = self.take(&mut core.seat);
        if found == OUT {
            return Calls::Busy;
        }
        if found != HOME {
            return Calls::Made(Series {
                made: 0,
                stop: SeriesEnd::Refused,
            });
        }
        let series = self.make_each(&mut core.seat, core.number, asks, told);
        self.give(&mut core.seat, word_after(series.stop));
        Calls::Made(series)
    }

    /// An aside of this core: the machine's own step, which adds nothing to the history. This core's
    /// calls stay as they are. Where another core is in a call, nothing is done. It takes no memory.
    pub fn aside(&self, core: &mut CoreSeat<S>, aside: Aside) -> Passed
        requires here { core.old.space ≡ self.now.table.shared.table_id }
        ensures passes { Passes S.state core.old aside result core.new }
        ensures here { core.new.space ≡ core.old.space }
    {
        let found = self.take(&mut core.seat);
        if found == OUT {
            return Passed::Busy;
        }
        if found != HOME {
            return Passed::Came(Outcome::Full);
        }
        let outcome = self.pass(&mut core.seat, core.number, aside);
        self.give(&mut core.seat, HOME);
        Passed::Came(outcome)
    }

    /// Splits off a core that has made no call since the machine was shared.
    pub fn split(&self, core: &mut CoreSeat<S>) -> Option<CoreSeat<S>>
        requires here { core.old.space ≡ self.now.table.shared.table_id }
        ensures some { IfSome result (λ c. (0 < core.old.spare)
            × (core.new ≡ record core.old { spare = core.old.spare - 1 })
            × (c ≡ split_core S.state core.old)) }
        ensures none { IfNone result ((core.old.spare ≡ 0) × (core.new ≡ core.old)) }
    {
        if core.left == 0 {
            return None;
        }
        let number = CoreId::new(core.left);
        let seat = self.table.shared.split_seat::<SplitOff>(&mut core.seat);
        core.left -= 1;
        Some(CoreSeat {
            number,
            left: 0,
            seat,
        })
    }

    /// Takes a core in: from now on this core knows what the other one knew.
    pub fn take_in(&self, core: &mut CoreSeat<S>, other: CoreSeat<S>)
        requires here { (core.old.space ≡ self.now.table.shared.table_id)
            × (other.space ≡ self.now.table.shared.table_id) }
        ensures { core.new ≡ record core.old { others = core.old.others ++ told_of other ∷ other.others } }
    {
        self.table
            .shared
            .join_seat::<TakeIn>(&mut core.seat, other.seat);
    }

    /// Ends the space, and hands out the machine. Its log agrees with all that this core knows, of
    /// itself and of those that it took in. `None`: a core had it that was let go amid a call, and so is none of these.
    pub fn close(self, core: CoreSeat<S>) -> Option<S>
        requires here { core.space ≡ self.table.shared.table_id }
        ensures back { IfSome result (λ machine. Agrees S.state machine core) }
        ensures lost { IfNone result (IsBeside S.state core) }
    {
        let SharedMachine { table } = self;
        let mut closed = table.close_with(core.seat);
        let word = closed.word(MIDDLE);
        let machine = closed.take(0);
        closed.free();
        if word == OUT { None } else { Some(machine) }
    }
}

// The only one of these.
fn only<S>(mut slots: Vec<S, Global>) -> S
    requires { (s : S) × (slots.items ≡ s ∷ []) }
    ensures { slots.items ≡ result ∷ [] }
{
    let Some(one) = slots.pop() else {
        unreachable!()
    };
    slots.destroy_empty();
    one
}

// The word with which the machine is given back.
fn word_of(ended: CallEnd) -> u64
    ensures { result ≡ word_of ended }
{
    match ended {
        CallEnd::Reply(_) | CallEnd::Refused => HOME,
        CallEnd::Spent => SPENT,
    }
}

// The word with which the machine is given back after a series of calls.
fn word_after(stop: SeriesEnd) -> u64
    ensures { result ≡ word_after stop }
{
    if stop == SeriesEnd::Spent {
        SPENT
    } else {
        HOME
    }
}

// What the caller gets.
fn answer_of(ended: CallEnd) -> Answer
    ensures { result ≡ answer_of ended }
{
    match ended {
        CallEnd::Reply(reply) => Answer::Reply(reply),
        CallEnd::Refused | CallEnd::Spent => Answer::Full,
    }
}
