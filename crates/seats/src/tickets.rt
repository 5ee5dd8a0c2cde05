//! Tickets: the numbers from 0 on, of which each is drawn once, by threads that share one word.
ghost use Rattle.std.specs.Prelude.{◌≡◌, ℕ, ◌+◌, ◌-◌, ◌^◌, ◌<◌, ◌≤◌, [], ◌∷◌, ◌++◌, length, All, IfOk};
ghost use Rattle.seats.specs.Tickets.{TicketerView, AreDealt, IsNew};

use atomic_table::{Join, Play, Seat, Split, Table, TableRule};
use std::alloc::{AllocError, Allocator};
use std::collections::LinkedList;
use std::marker::Model;

/// The word's place in a row of words. With 64 bytes on each side that nobody uses nothing else lies in
/// its cache line.
const MIDDLE: usize = 8;

/// How many words the row has.
const ROW: usize = 17;

/// What a ticketer knows, or several that were joined: the tickets that each drew, in order, and how
/// many others they may still split off. No value of it is made.
pub struct Drawn {
    pub lists: LinkedList<LinkedList<u64>>,
    pub spare: u64,
}

/// The rule of the word, which holds between any two steps: each number below the word was drawn by
/// exactly one ticketer, once, and no other number was.
pub struct Once;

impl TableRule<(), Drawn, ()> for Once {
    ghost use Rattle.std.specs.Prelude.{[], ◌∷◌};
    ghost use Rattle.seats.specs.Tickets.{Dealt, drawn};

    ghost holds = { λ _. Dealt };

    ghost first = { λ _. drawn ([] ∷ []) 63 };
}

/// The step that draws.
pub struct Draw;

impl Play<(), Drawn> for Draw {
    ghost use Rattle.seats.specs.Tickets.{Draws};

    ghost then = { Draws };
}

/// The step that splits a ticketer off.
pub struct SplitOff;

impl Split<Drawn> for SplitOff {
    ghost use Rattle.std.specs.Prelude.{[], ◌∷◌, ◌-◌};
    ghost use Rattle.seats.specs.Tickets.{drawn};

    ghost left = { λ v. drawn v.lists (v.spare - 1) };

    ghost right = { λ _. drawn ([] ∷ []) 0 };
}

/// The step that joins ticketers.
pub struct JoinUp;

impl Join<Drawn> for JoinUp {
    ghost use Rattle.std.specs.Prelude.{[], ◌+◌, ◌++◌};
    ghost use Rattle.seats.specs.Tickets.{drawn};

    ghost both = { λ v w. drawn (v.lists ++ w.lists) (v.spare + w.spare) };

    ghost spent = { drawn [] 0 };
}

/// The step that counts all tickets.
pub struct Count;

impl Play<(), Drawn> for Count {
    ghost use Rattle.seats.specs.Tickets.{Counts};

    ghost then = { Counts };
}

/// The right to draw tickets from one word. It has no bytes. A clause sees the word, the tickets
/// drawn so far in order, and how many ticketers it may still split off.
#[derive(Drop)]
pub struct Ticketer {
    seat: Seat<(), Drawn>,
}

impl Model for Ticketer {
    ghost use Rattle.std.specs.Prelude.{◌≡◌, [], ◌∷◌};
    ghost use Rattle.seats.specs.Tickets.{TicketerView, own};

    ghost Value = { TicketerView };

    ghost view = { λ t. record {
      word = t.seat.table_id;
      tickets = own t.seat.me.0;
      spare = t.seat.me.0.spare;
    } };

    ghost invariant = { λ t. (t.seat.me.1 ≡ []) × (t.seat.me.0.lists ≡ own t.seat.me.0 ∷ []) };
}

/// Several ticketers of one word, which draw no more. It has no bytes. A clause sees the word, the
/// tickets that each drew, and how many ticketers they may still split off.
#[derive(Drop)]
pub struct Joined {
    seat: Seat<(), Drawn>,
}

impl Model for Joined {
    ghost use Rattle.std.specs.Prelude.{◌≡◌, []};
    ghost use Rattle.seats.specs.Tickets.{JoinedView};

    ghost Value = { JoinedView };

    ghost view = { λ j. record {
      word = j.seat.table_id;
      lists = j.seat.me.0.lists;
      spare = j.seat.me.0.spare;
    } };

    ghost invariant = { λ j. j.seat.me.1 ≡ [] };
}

impl Ticketer {
    /// The ticketer, to which others are joined.
    pub fn into_joined(self) -> Joined
        ensures { result ≡ record { word = self.word; lists = self.tickets ∷ []; spare = self.spare } }
    {
        let Ticketer { seat } = self;
        Joined { seat }
    }
}

/// The word from which all tickets of a space are drawn, in a cache line of its own. It is no lock: a
/// draw is one atomic addition. A clause sees which word it is, and no number, since other threads draw at any time.
#[derive(Drop)]
pub struct Tickets<A: Allocator> {
    table: Table<(), Drawn, (), Once, A>,
}

impl<A: Allocator> Model for Tickets<A> {
    ghost use Rattle.std.specs.Prelude.{◌≡◌};
    ghost use Rattle.atomic_table.specs.Seated.{TableId, table_id_coded};
    ghost use Rattle.seats.specs.Tickets.{row_length};

    ghost Value = { TableId };

    ghost coded = { table_id_coded };

    ghost view = { λ t. t.table.shared.table_id };

    ghost invariant = { λ t. (t.table.shared.table_id.words ≡ row_length)
        × (t.table.shared.table_id.slots ≡ 0) };
}

impl<A: Allocator> Tickets<A> {
    /// The word at 0, and a ticketer that may split off 63 others.
    pub fn new(alloc: A) -> Result<(Tickets<A>, Ticketer), AllocError>
        ensures { IfOk result (λ t. IsNew t.0 63 t.1) }
    {
        let (table, seat) = Table::of_words(alloc, &[0; ROW], &())?;
        Ok((Tickets { table }, Ticketer { seat }))
    }

    /// Draws the next ticket. No other draw of any thread gives the same one, and it is above all
    /// that this ticketer drew before. It stays below 2^39, since there are at most 64 ticketers,
    /// each with at most 2^32 tickets.
    pub fn draw(&self, ticketer: &mut Ticketer) -> u64
        requires here { ticketer.old.word ≡ self.now }
        requires room { length ticketer.old.tickets < 2 ^ 32 }
        ensures drawn { ticketer.new
            ≡ record ticketer.old { tickets = ticketer.old.tickets ++ result ∷ [] } }
        ensures later { All (λ t. t < result) ticketer.old.tickets }
        ensures small { result < 2 ^ 39 }
    {
        self.table
            .shared
            .fetch_add::<Draw>(&mut ticketer.seat, MIDDLE, 1)
    }

    /// Splits off a ticketer that has drawn nothing yet, and may split off none.
    pub fn split(&self, ticketer: &mut Ticketer) -> Ticketer
        requires here { ticketer.old.word ≡ self.now }
        requires spare { 0 < ticketer.old.spare }
        ensures old { ticketer.new ≡ record ticketer.old { spare = ticketer.old.spare - 1 } }
        ensures new { IsNew self.now 0 result }
    {
        let seat = self.table.shared.split_seat::<SplitOff>(&mut ticketer.seat);
        Ticketer { seat }
    }

    /// Joins a ticketer to others.
    pub fn join(&self, joined: &mut Joined, ticketer: Ticketer)
        requires here { joined.old.word ≡ self.now }
        requires own { ticketer.word ≡ self.now }
        ensures { joined.new ≡ record joined.old {
          lists = joined.old.lists ++ ticketer.tickets ∷ [];
          spare = joined.old.spare + ticketer.spare;
        } }
    {
        let Ticketer { seat } = ticketer;
        self.table
            .shared
            .join_seat::<JoinUp>(&mut joined.seat, seat);
    }

    /// How many tickets were drawn in all, where all ticketers of the word are joined: there are 64, with those that
    /// they may still split off. Their tickets are the numbers below, each once.
    pub fn count(&self, joined: &mut Joined) -> u64
        requires here { joined.old.word ≡ self.now }
        requires all { joined.old.spare + length joined.old.lists ≡ 64 }
        ensures dealt { AreDealt result joined.old.lists }
        ensures same { joined.new ≡ joined.old }
    {
        self.table.shared.load::<Count>(&mut joined.seat, MIDDLE)
    }
}

/// As many ticketers of one word as are asked for, 1 to 64, of which none has drawn anything.
pub fn ticketers<A: Allocator>(
    alloc: A,
    tickets: &Tickets<A>,
    mut first: Ticketer,
    count: u8,
) -> Result<Vec<Ticketer, A>, AllocError>
    requires new { IsNew tickets.now 63 first }
    requires count { (1 ≤ count) × (count ≤ 64) }
    ensures count { IfOk result (λ v. length v.items ≡ count) }
    ensures new { IfOk result (λ v. All (λ t. (t.word ≡ tickets.now) × (t.tickets ≡ [])) v.items) }
{
    let mut all = Vec::with_capacity(alloc, usize::from(count))?;
    'others: for _ in 1..count {
        all.push_reserved(tickets.split(&mut first));
    }
    all.push_reserved(first);
    Ok(all)
}
