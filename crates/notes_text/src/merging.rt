//! Which of several lists of notes begins with the least ticket, and whether their tickets don't fall.
ghost use Rattle.std.specs.Prelude.{◌≡◌, All, List, length, map, true};
ghost use Rattle.std.specs.List.Sorted.{IsNonDecreasingBy};
ghost use Rattle.seats.specs.Notes.{ticket_of};
ghost use Rattle.seats.specs.declared.noted.Noted.{Noted};
ghost use Rattle.seats.specs.Packing.{shown};
ghost use Rattle.notes_text.specs.Merged.{IsBest, is_before};

use seats::Notes;

/// A list among others, and the ticket with which it begins.
#[derive(Clone, Copy)]
pub(crate) struct Head {
    pub(crate) at: usize,
    pub(crate) ticket: u64,
}

// Tells whether the ticket is below that of the head, or there is none.
fn is_before(best: Option<Head>, ticket: u64) -> bool
    ensures { result ≡ is_before best ticket }
{
    match best {
        Some(head) => ticket < head.ticket,
        None => true,
    }
}

/// The list that begins with the least ticket, the first of those that do; none where all lists are empty.
pub(crate) fn least(lists: &[Notes<'_>]) -> Option<Head>
    ensures { IsBest (length lists.now) (map shown lists.now) result }
{
    let mut best = None;
    'lists: for at in 0..lists.len() {
        let list = lists[at];
        if !list.is_empty() {
            let ticket = list.ticket(0);
            if is_before(best, ticket) {
                best = Some(Head { at, ticket });
            }
        }
    }
    best
}

// Tells whether the tickets of the notes don't fall.
fn climbs(notes: &Notes<'_>) -> bool
    ensures { result ≡ true → IsNonDecreasingBy ticket_of (shown notes.now) }
{
    'notes: for at in 1..notes.len() {
        let ticket = notes.ticket(at);
        let before = notes.ticket(at - 1);
        if ticket < before {
            return false;
        }
    }
    true
}

/// Tells whether the tickets of each list don't fall.
pub(crate) fn all_climb(lists: &[Notes<'_>]) -> bool
    ensures { result ≡ true → All (IsNonDecreasingBy ticket_of) (map shown lists.now) }
{
    'lists: for at in 0..lists.len() {
        let list = lists[at];
        if !climbs(&list) {
            return false;
        }
    }
    true
}
