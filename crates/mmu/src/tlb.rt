//! The TLB: the at most 64 translations that a core holds, the oldest filled first.
ghost use Rattle.std.specs.Prelude.{◌≡◌, ◌==◌, ◌+◌, ◌<◌, ◌≤◌, [], ◌∷◌, ◌++◌, true, None, IfSome};
ghost use Rattle.std.specs.Prelude.{length, drop, slice_index, slice_set, if◌then◌else◌, ℕ};
ghost use Rattle.vm_base.specs.Functions.{has};
ghost use Rattle.vm_base.specs.Cores.{members};
ghost use Rattle.mmu.specs.Tlb.{tlb_at, tlb_without, tlb_filled, are_distinct, page_hash, is_at};
ghost use Rattle.mmu.specs.Fills.{entries_of, page_at, count_below, IsHeld, NoneBefore, IsMovedUp};
ghost use Rattle.mmu.specs.Fills.{AreOrdered, AreSets};

use crate::entry::Translation;
use crate::place_sets;
use arrayvec::ArrayVec;
use vm_base::PageRange;

/// How many translations a TLB holds at most.
const PLACES: usize = 64;

/// How many translations are filled before the order begins anew with the held ones.
const FILLS: usize = 192;

/// Stands in the order for a translation that was dropped.
const DROPPED: u8 = 64;

/// A range of at most so many pages is dropped page by page, and a longer one fill by fill.
const FEW_PAGES: u64 = 16;

/// A cached translation of a page.
#[derive(Clone, Copy, Default)]
pub struct TlbEntry {
    pub page: u64,
    pub translation: Translation,
}

/// At most 64 translations, of distinct pages.
#[derive(Drop)]
pub struct Tlb {
    /// The translations, each at a place that it keeps until it goes.
    places: [TlbEntry; PLACES],
    /// The places of the translations in the order of their fills, the oldest first; where one was
    /// dropped no place.
    fills: ArrayVec<u8, FILLS>,
    /// Where in the order each place that is held stands.
    at: [u8; PLACES],
    /// For each hash the places of the translations whose page has it.
    sets: [u64; PLACES],
    /// The places that no translation has.
    free: u64,
    /// The order has no place before this.
    first: usize,
    ghost few: { length (entries_of places fills.items) ≤ 64 },
    ghost counted: { length (entries_of places fills.items) + count_below (members free) 64 ≡ 64 },
    ghost distinct: { are_distinct (entries_of places fills.items) ≡ true },
    ghost begun: { first ≤ length fills.items },
    ghost gone: { NoneBefore first fills.items },
    ghost ordered: { AreOrdered fills.items at free },
    ghost filed: { AreSets sets places free },
}

impl Tlb {
    /// No translations.
    pub fn new() -> Tlb
        ensures { result.fills.items ≡ [] }
    {
        Tlb {
            places: [TlbEntry::default(); PLACES],
            fills: ArrayVec::new(),
            at: [0; PLACES],
            sets: [0; PLACES],
            free: u64::MAX,
            first: 0,
        }
    }

    /// The translation of the page.
    pub fn find(&self, page: u64) -> Option<Translation>
        ensures { result ≡ tlb_at (entries_of self.now.places self.now.fills.items) page }
    {
        match self.place_of(page) {
            None => None,
            Some(place) => Some(self.places[place].translation),
        }
    }

    /// The place of the page's translation, if there is one: one of the set of its hash.
    fn place_of(&self, page: u64) -> Option<usize>
        ensures held { IfSome result (λ place. IsHeld self.now.free place) }
        ensures found { IfSome result (λ place. page_at self.now.places place ≡ page) }
        ensures missing { result ≡ None
            → tlb_at (entries_of self.now.places self.now.fills.items) page ≡ None }
    {
        let mut rest = self.sets[hash(page)];
        'set: while rest != 0 {
            let place = place_sets::first(rest);
            if self.places[place].page == page {
                return Some(place);
            }
            rest = place_sets::without(rest, place);
        }
        None
    }

    /// Takes in the translation of a page that has none. Where there is no room, the oldest filled
    /// goes.
    #[inline(always)]
    pub fn fill(&mut self, page: u64, translation: Translation)
        requires { tlb_at (entries_of self.old.places self.old.fills.items) page ≡ None }
        ensures { entries_of self.new.places self.new.fills.items
            ≡ tlb_filled page translation (entries_of self.old.places self.old.fills.items) }
    {
        self.make_room();
        if self.free == 0 {
            self.replace_oldest(page, translation);
        } else {
            self.push(page, translation);
        }
    }

    /// Lets the order begin anew where it is full.
    fn make_room(&mut self)
        ensures entries { entries_of self.new.places self.new.fills.items
            ≡ entries_of self.old.places self.old.fills.items }
        ensures room { length self.new.fills.items < 192 }
    {
        if self.fills.is_full() {
            self.move_up();
        }
    }

    /// Takes in the translation of a page that has none, in the place of the oldest filled.
    fn replace_oldest(&mut self, page: u64, translation: Translation)
        requires full { length (entries_of self.old.places self.old.fills.items) ≡ 64 }
        requires room { length self.old.fills.items < 192 }
        requires absent { tlb_at (entries_of self.old.places self.old.fills.items) page ≡ None }
        ensures { entries_of self.new.places self.new.fills.items
            ≡ drop 1 (entries_of self.old.places self.old.fills.items)
            ++ record { page = page; translation = translation } ∷ [] }
    {
        self.drop_oldest();
        self.push(page, translation);
    }

    /// Drops the oldest filled.
    fn drop_oldest(&mut self)
        requires { 0 < length (entries_of self.old.places self.old.fills.items) }
        ensures entries { entries_of self.new.places self.new.fills.items
            ≡ drop 1 (entries_of self.old.places self.old.fills.items) }
        ensures len { length self.new.fills.items ≡ length self.old.fills.items }
    {
        let first = self.oldest();
        let oldest = usize::from(self.fills[first]);
        self.let_go(oldest);
        self.first = first + 1;
    }

    /// Where the order has its first place, or its length where it has none.
    fn oldest(&self) -> usize
        ensures within { result ≤ length self.now.fills.items }
        ensures bounded { result ≤ 192 }
        ensures place { result < length self.now.fills.items
            → slice_index self.now.fills.items result < 64 }
        ensures gone { NoneBefore result self.now.fills.items }
    {
        let end = self.fills.len();
        'gone: for i in self.first..end {
            if usize::from(self.fills[i]) < PLACES {
                return i;
            }
        }
        end
    }

    /// Lets the order begin anew with the translations that are held.
    #[inline(never)]
    fn move_up(&mut self)
        ensures entries { entries_of self.new.places self.new.fills.items
            ≡ entries_of self.old.places self.old.fills.items }
        ensures short { length self.new.fills.items
            ≡ length (entries_of self.old.places self.old.fills.items) }
    {
        self.fills = moved_up(&self.fills, self.first, &mut self.at);
        self.first = 0;
    }

    /// Takes in the translation of a page that has none, behind the others.
    fn push(&mut self, page: u64, translation: Translation)
        requires few { length (entries_of self.old.places self.old.fills.items) < 64 }
        requires room { length self.old.fills.items < 192 }
        requires absent { tlb_at (entries_of self.old.places self.old.fills.items) page ≡ None }
        ensures { entries_of self.new.places self.new.fills.items
            ≡ entries_of self.old.places self.old.fills.items
            ++ record { page = page; translation = translation } ∷ [] }
    {
        let place = place_sets::first(self.free);
        let set = hash(page);
        self.places[place] = TlbEntry { page, translation };
        self.at[place] = self.fills.len() as u8;
        self.sets[set] = place_sets::with(self.sets[set], place);
        self.free = place_sets::without(self.free, place);
        self.fills.push(place as u8);
    }

    /// Drops the translations of the pages of the range.
    pub fn invalidate(&mut self, range: PageRange)
        ensures { entries_of self.new.places self.new.fills.items
            ≡ tlb_without (has range) (entries_of self.old.places self.old.fills.items) }
    {
        if range.end.saturating_sub(range.first) <= FEW_PAGES {
            self.drop_each(range);
        } else {
            self.drop_within(range);
        }
    }

    /// Drops the translations of the pages of the range, each of which is looked for.
    fn drop_each(&mut self, range: PageRange)
        ensures { entries_of self.new.places self.new.fills.items
            ≡ tlb_without (has range) (entries_of self.old.places self.old.fills.items) }
    {
        'pages: for page in range.first..range.end {
            self.drop_page(page);
        }
    }

    /// Drops the translations of the pages of the range, which are looked for in the whole order.
    /// The next walk begins where it has its first place.
    fn drop_within(&mut self, range: PageRange)
        ensures { entries_of self.new.places self.new.fills.items
            ≡ tlb_without (has range) (entries_of self.old.places self.old.fills.items) }
    {
        'fills: for i in self.first..self.fills.len() {
            let place = usize::from(self.fills[i]);
            if place < PLACES && range.contains(self.places[place].page) {
                self.let_go(place);
            }
        }
        self.first = self.oldest();
    }

    /// Drops the translation of the page.
    pub(crate) fn drop_page(&mut self, page: u64)
        ensures { entries_of self.new.places self.new.fills.items
            ≡ tlb_without (is_at page) (entries_of self.old.places self.old.fills.items) }
    {
        if let Some(place) = self.place_of(page) {
            self.let_go(place);
        }
    }

    /// Drops the translation at a place that is held.
    fn let_go(&mut self, place: usize)
        requires { IsHeld self.old.free place }
        ensures fills { self.new.fills.items
            ≡ slice_set self.old.fills.items (slice_index self.old.at place) 64 }
        ensures places { self.new.places ≡ self.old.places }
    {
        let set = hash(self.places[place].page);
        self.sets[set] = place_sets::without(self.sets[set], place);
        self.free = place_sets::with(self.free, place);
        let at = usize::from(self.at[place]);
        self.fills[at] = DROPPED;
    }
}

/// Four times six bits of the page's number, the lowest ones, in one by xor. It tells 64 pages of
/// any stride of a power of 2 up to 2^18 apart.
#[tactic(auto, unfolding(crate::specs::Tlb::page_hash))]
fn hash(page: u64) -> usize
    ensures value { result ≡ page_hash page }
    ensures below { result < 64 }
{
    let folded = page ^ (page >> 12);
    ((folded ^ (folded >> 6)) % 64) as usize
}

/// The places of an order without those before the first and where one was dropped; where each
/// stands now.
fn moved_up(fills: &[u8], first: usize, at: &mut [u8; PLACES]) -> ArrayVec<u8, FILLS>
    requires few { length fills.now ≤ 192 }
    requires begun { first ≤ length fills.now }
    requires even { length at.old ≡ 64 }
    requires gone { NoneBefore first fills.now }
    requires there { (i : ℕ) → i < length fills.now → slice_index fills.now i < 64
        → slice_index at.old (slice_index fills.now i) ≡ i }
    ensures { IsMovedUp fills.now at.old (length fills.now) result.items at.new }
{
    let mut moved = ArrayVec::new();
    'order: for i in first..fills.len() {
        let place = fills[i];
        if usize::from(place) < PLACES {
            at[usize::from(place)] = moved.len() as u8;
            moved.push(place);
        }
    }
    moved
}
