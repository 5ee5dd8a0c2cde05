//! What the calls under way lead to from configurations.

use crate::arena::{Arena, Spot, mixed};
use crate::configs::Config;
use crate::seen::Seen;
use crate::trail::{Mark, Trail};
use crate::under::Under;
use frames::Objects;
use std::alloc::Allocator;
use std::mem::swap;
use vm_base::{NoMemory, PageRange, Reply};

/// How many configurations may come into question at one end of a call.
pub const LIMIT: usize = 300_000;

/// What the end of a call comes to.
#[derive(Clone, Copy)]
pub(crate) enum Reach {
    Reached,
    Stuck,
    Full,
}

/// The calls under way, and the bit of the one that ends.
#[derive(Clone, Copy)]
pub(crate) struct Ending<'u> {
    pub under: &'u [Under],
    pub bit: u64,
}

// One item more, of so many parts of a call, the others of which are lost: the map behind it, the cores whose calls have taken effect
// there, and those whose calls it may let take effect.
#[derive(Clone, Copy)]
struct Step {
    mark: Mark,
    count: u32,
    lost: u32,
    spot: Spot,
    done: u64,
    may: u64,
    hides: Option<PageRange>,
}

/// Maps, and the way to each configuration.
#[derive(Drop)]
pub(crate) struct Ways<'a, A: Allocator> {
    objects: &'a Objects<A>,
    any_place: bool,
    arena: Arena<A>,
    trail: Trail<A>,
    seen: Seen<A>,
    work: Vec<Config, A>,
    reached: Vec<Config, A>,
}

impl Ending<'_> {
    // The cores whose calls may come into question before the one that ends, where these have taken effect: those of its rivals, of theirs,
    // and so on. Another one can as well come behind it, since it changes places with all of these.
    fn before(&self, done: u64) -> u64 {
        let mut before = self.bit;
        for _ in 0..64u8 {
            let mut more = before;
            for under in self.under {
                if before & under.bit != 0 {
                    more |= under.rivals & !done;
                }
            }
            if more == before {
                return before;
            }
            before = more;
        }
        before
    }
}

// A number for a map, the calls that have taken effect, and those that may have.
fn print_of(spot: &Spot, done: u64, free: u64) -> u64 {
    let print = mixed(spot.runs_print, spot.cells_print);
    mixed(mixed(print, done), free)
}

impl<'a, A: Allocator + Clone + Drop> Ways<'a, A> {
    /// Nothing took effect yet. There is room for the items of so many calls.
    pub fn new(
        alloc: &A,
        objects: &'a Objects<A>,
        any_place: bool,
        calls: usize,
    ) -> Result<Ways<'a, A>, NoMemory> {
        let work = Vec::new(alloc.clone()?);
        let reached = Vec::new(alloc.clone()?);
        let seen = Seen::new(alloc)?;
        let trail = Trail::new(alloc, calls)?;
        let arena = Arena::new(alloc)?;
        Ok(Ways {
            objects,
            any_place,
            arena,
            trail,
            seen,
            work,
            reached,
        })
    }

    // Tells whether a call, which changes nothing, has its reply in a map.
    fn holds(&self, spot: &Spot, under: &Under) -> bool {
        self.arena.holds(self.objects, self.any_place, spot, under)
    }

    // The part, of a call that has taken effect and hasn't ended, before which an access may go, if it has its reply there.
    fn behind(&self, calls: &[Under], spot: &Spot, done: u64, under: &Under) -> Option<u32> {
        let page = under.touch()?.page;
        for other in calls {
            if done & other.bit != 0 && self.arena.holds_late(self.objects, spot, under, other) {
                return Some(other.part(page));
            }
        }
        None
    }

    // How a call, which changes nothing, takes effect in a map, if it can.
    fn mark_of(&self, calls: &[Under], spot: &Spot, done: u64, under: &Under) -> Option<Mark> {
        let access = under.number;
        if under.by_kernel {
            // (late where it may be, since that marks nothing)
            if let Some(behind) = self.behind(calls, spot, done, under) {
                return Some(Mark::Late { access, behind });
            }
        }
        if self.holds(spot, under) {
            return Some(Mark::Reply(under.number));
        }
        if !under.may_lag {
            return None;
        }
        let behind = self.behind(calls, spot, done, under)?;
        Some(Mark::Late { access, behind })
    }

    /// Lets a call take effect in the configurations in which it has its reply and changes nothing.
    pub fn settle(
        &mut self,
        calls: &[Under],
        configs: &mut [Config],
        under: &Under,
    ) -> Result<(), NoMemory> {
        for at in 0..configs.len() {
            let config = configs[at];
            if let Some(mark) = self.mark_of(calls, &config.spot, config.done, under) {
                let trail = self.trail.add(config.trail, mark, under.count)?;
                configs[at].done = config.done | under.bit;
                configs[at].trail = trail;
            }
        }
        Ok(())
    }

    /// Lets a call take effect in all configurations, as though it changed nothing.
    pub fn pass_over(&mut self, configs: &mut [Config], under: &Under) -> Result<(), NoMemory> {
        for at in 0..configs.len() {
            let config = configs[at];
            let mark = Mark::Reply(under.number);
            let trail = self.trail.add(config.trail, mark, under.count)?;
            configs[at].done = config.done | under.bit;
            configs[at].trail = trail;
        }
        Ok(())
    }

    // The calls that have taken effect once those that change nothing have, as far as they can where only these may newly.
    fn settled(&self, calls: &[Under], spot: &Spot, done: u64, may: u64) -> u64 {
        let mut settled = done;
        for under in calls {
            if !under.is_late
                && may & !done & under.bit != 0
                && self.mark_of(calls, spot, done, under).is_some()
            {
                settled |= under.bit;
            }
        }
        settled
    }

    // The way on from a node by the calls that take effect between one set of them and another.
    fn add_settled(
        &mut self,
        calls: &[Under],
        spot: &Spot,
        node: usize,
        done: u64,
        settled: u64,
    ) -> Result<usize, NoMemory> {
        let mut trail = node;
        if settled == done {
            return Ok(trail);
        }
        for under in calls {
            if settled & under.bit != 0 && done & under.bit == 0 {
                let mark = self
                    .mark_of(calls, spot, done, under)
                    .unwrap_or(Mark::Reply(under.number));
                trail = self.trail.add(trail, mark, under.count)?;
            }
        }
        Ok(trail)
    }

    // Takes a configuration in: one in which the call that ends has taken effect, or one to go on from.
    fn take_in(&mut self, config: Config, bit: u64) -> Result<(), NoMemory> {
        if (config.done | config.free) & bit != 0 {
            self.reached.push(config)?;
        }
        if config.done & bit == 0 {
            self.work.push(config)?;
        }
        Ok(())
    }

    // The way on from a node by the reply of a call that was lost, or by parts that were: their copies are no steps of their own.
    fn add_reply(&mut self, from: &Config, step: &Step, node: usize) -> Result<usize, NoMemory> {
        match step.mark {
            Mark::Copy(number) if step.done != from.done => {
                self.trail.add(node, Mark::Reply(number), step.count)
            }
            Mark::Reply(number) if step.lost > 0 => {
                let next = number.wrapping_add(step.count);
                let node = self.trail.add(node, Mark::Copy(next), step.lost)?;
                self.trail.add(node, Mark::Reply(next), step.lost)
            }
            _ => Ok(node),
        }
    }

    // The bits of the calls that could as well take effect right before a step, which hides what they do.
    fn hidden(&self, calls: &[Under], from: &Config, step: &Step) -> u64 {
        let mut hidden = 0u64;
        let Some(range) = step.hides else {
            return hidden;
        };
        for call in calls {
            if step.may & !step.done & call.bit != 0
                && !call.may_lag
                && range.first <= call.pages.first
                && call.pages.end <= range.end
                && self.arena.is_allowed(self.objects, &from.spot, call)
            {
                hidden |= call.bit;
            }
        }
        hidden
    }

    // Notes that calls may have taken effect, first those that leave a page mapped if it is, since these may need one that is.
    fn mark_hidden(
        &mut self,
        ending: Ending<'_>,
        node: usize,
        hidden: u64,
        may_unmap: bool,
    ) -> Result<usize, NoMemory> {
        let mut trail = node;
        for call in ending.under {
            if hidden & call.bit != 0 && call.hides() == may_unmap {
                let mark = Mark::Maybe(call.number);
                trail = self.trail.add(trail, mark, call.count)?;
            }
        }
        Ok(trail)
    }

    // Adds the configuration to which a step leads from another one, if it is new.
    fn add(&mut self, ending: Ending<'_>, from: &Config, step: &Step) -> Result<bool, NoMemory> {
        let settled = self.settled(ending.under, &step.spot, step.done, step.may);
        let hidden = self.hidden(ending.under, from, step) & !settled;
        let free = (from.free | hidden) & !settled;
        if !self.seen.is_new(print_of(&step.spot, settled, free))? {
            return Ok(false);
        }
        let hidden = hidden & !from.free;
        let trail = self.mark_hidden(ending, from.trail, hidden, false)?;
        let trail = self.mark_hidden(ending, trail, hidden, true)?;
        let trail = self.trail.add(trail, step.mark, step.count)?;
        let trail = self.add_reply(from, step, trail)?;
        let trail = self.add_settled(ending.under, &step.spot, trail, step.done, settled)?;
        self.take_in(
            Config {
                spot: step.spot,
                done: settled,
                free,
                trail,
            },
            ending.bit,
        )?;
        Ok(true)
    }

    // The map to which a call under way leads as it takes effect, if it has its reply.
    fn replied(&mut self, from: &Config, under: &Under) -> Result<Option<Spot>, NoMemory> {
        if under.changes {
            return self
                .arena
                .apply(self.objects, self.any_place, &from.spot, under);
        }
        if self.holds(&from.spot, under) {
            return Ok(Some(from.spot));
        }
        Ok(None)
    }

    // Adds what a call under way leads to from a configuration as it takes effect.
    fn reply(&mut self, ending: Ending<'_>, from: &Config, under: &Under) -> Result<(), NoMemory> {
        let ends = self.arena.ends();
        let Some(spot) = self.replied(from, under)? else {
            return Ok(());
        };
        let spot = if under.by_kernel && under.changes && under.touch().is_none() {
            self.arena.drop_met(&spot, ending.under, under)?
        } else {
            spot
        };
        let is_refused = under.count > 1 && !under.changes;
        let step = Step {
            mark: Mark::Reply(under.number),
            count: if is_refused { 1 } else { under.count },
            lost: if is_refused {
                under.count.saturating_sub(1)
            } else {
                0
            },
            spot,
            done: from.done | under.bit,
            may: under.rivals,
            hides: if under.hides() {
                Some(under.pages)
            } else {
                None
            },
        };
        if !self.add(ending, from, &step)? {
            self.arena.cut(ends);
        }
        Ok(())
    }

    // Adds what an access under way leads to from a configuration as it goes as before a call that hasn't ended.
    fn lag(
        &mut self,
        ending: Ending<'_>,
        from: &Config,
        under: &Under,
        behind: &Under,
    ) -> Result<(), NoMemory> {
        let Some(touch) = under.touch() else {
            return Ok(());
        };
        let ends = self.arena.ends();
        let Some(spot) = self
            .arena
            .apply_late(self.objects, &from.spot, under, behind)?
        else {
            return Ok(());
        };
        let step = Step {
            mark: Mark::Late {
                access: under.number,
                behind: behind.part(touch.page),
            },
            count: 1,
            lost: 0,
            spot,
            done: from.done | under.bit,
            may: under.rivals,
            hides: None,
        };
        if !self.add(ending, from, &step)? {
            self.arena.cut(ends);
        }
        Ok(())
    }

    // The same before each call that has taken effect and hasn't ended.
    fn lag_all(
        &mut self,
        ending: Ending<'_>,
        from: &Config,
        under: &Under,
    ) -> Result<(), NoMemory> {
        if under.may_lag && under.touch().is_some() {
            for behind in ending.under {
                if from.done & behind.bit != 0 && behind.keeps_old() {
                    self.lag(ending, from, under, behind)?;
                }
            }
        }
        Ok(())
    }

    // Lets accesses that haven't taken effect go as before the call that ends, while they still may.
    fn lag_behind(&mut self, ending: Ending<'_>) -> Result<(), NoMemory> {
        for at in 0..LIMIT {
            let Some(config) = self.reached.get(at).copied() else {
                return Ok(());
            };
            for under in ending.under {
                if under.may_lag && under.is_late && config.done & under.bit == 0 {
                    for behind in ending.under {
                        if behind.bit == ending.bit {
                            self.lag(ending, &config, under, behind)?;
                        }
                    }
                }
            }
            if self.reached.len() > LIMIT {
                return Ok(());
            }
        }
        Ok(())
    }

    /// A call isn't under way any more.
    pub fn drop_olds(&mut self, configs: &mut [Config], call: &Under) -> Result<(), NoMemory> {
        if call.keeps_old() {
            for at in 0..configs.len() {
                configs[at].spot = self.arena.drop_olds(&configs[at].spot, call)?;
            }
        }
        Ok(())
    }

    // Adds what a store under way leads to from a configuration as its page gets a copy.
    fn copy(&mut self, ending: Ending<'_>, from: &Config, under: &Under) -> Result<(), NoMemory> {
        let Some(page) = under.stores_to else {
            return Ok(());
        };
        let ends = self.arena.ends();
        let Some(spot) = self.arena.copy(self.objects, &from.spot, page)? else {
            return Ok(());
        };
        let step = Step {
            mark: Mark::Copy(under.number),
            count: 1,
            lost: 0,
            spot,
            done: from.done,
            may: under.rivals,
            hides: None,
        };
        if !self.add(ending, from, &step)? {
            self.arena.cut(ends);
        }
        Ok(())
    }

    // Adds what a call under way leads to from a configuration that is lost, if it may be: nothing changes.
    fn lose(&mut self, ending: Ending<'_>, from: &Config, under: &Under) -> Result<(), NoMemory> {
        if under.is_unsure {
            let step = Step {
                mark: Mark::Copy(under.number),
                count: 1,
                lost: 0,
                spot: from.spot,
                done: from.done | under.bit,
                may: 0,
                hides: None,
            };
            let _is_new = self.add(ending, from, &step)?;
        }
        Ok(())
    }

    // Adds what a refusal under way leads to from a configuration, if it changed the pages in front of the one that isn't mapped.
    fn refuse(&mut self, ending: Ending<'_>, from: &Config, under: &Under) -> Result<(), NoMemory> {
        let Some((range, prot)) = under.refused_range() else {
            return Ok(());
        };
        let ends = self.arena.ends();
        let Some((spot, pages)) = self.arena.protect_front(&from.spot, range, prot)? else {
            return Ok(());
        };
        let count = 1u32.saturating_add(pages).min(under.count);
        let step = Step {
            mark: Mark::Reply(under.number),
            count,
            lost: under.count.saturating_sub(count),
            spot,
            done: from.done | under.bit,
            may: under.rivals,
            hides: None,
        };
        if !self.add(ending, from, &step)? {
            self.arena.cut(ends);
        }
        Ok(())
    }

    // The same by the kernels' rule: in front of the page that has the error.
    fn refuse_front(
        &mut self,
        ending: Ending<'_>,
        from: &Config,
        under: &Under,
    ) -> Result<(), NoMemory> {
        let (Some((range, prot)), Reply::Refused(error)) = (under.front_range(), under.reply) else {
            return Ok(());
        };
        let ends = self.arena.ends();
        let Some((spot, count)) = self
            .arena
            .protect_to(self.objects, &from.spot, range, prot, error)?
        else {
            return Ok(());
        };
        let spot = self.arena.drop_met(&spot, ending.under, under)?;
        let step = Step {
            mark: Mark::Front {
                call: under.number,
                count,
            },
            count: 1,
            lost: 0,
            spot,
            done: from.done | under.bit,
            may: under.rivals,
            hides: None,
        };
        if !self.add(ending, from, &step)? {
            self.arena.cut(ends);
        }
        Ok(())
    }

    // Adds all that the calls under way lead to from a configuration, one of them more.
    fn expand(&mut self, ending: Ending<'_>, from: &Config) -> Result<(), NoMemory> {
        let before = ending.before(from.done);
        for under in ending.under {
            if before & under.bit != 0 {
                self.reply(ending, from, under)?;
                self.lag_all(ending, from, under)?;
                self.copy(ending, from, under)?;
                self.lose(ending, from, under)?;
                self.refuse(ending, from, under)?;
                self.refuse_front(ending, from, under)?;
            }
        }
        Ok(())
    }

    // Takes the configurations in from which a round begins, each once.
    fn begin(&mut self, configs: &[Config], bit: u64) -> Result<(), NoMemory> {
        self.seen.begin();
        self.work.clear();
        self.reached.clear();
        for config in configs {
            if self
                .seen
                .is_new(print_of(&config.spot, config.done, config.free))?
            {
                self.take_in(*config, bit)?;
            }
        }
        Ok(())
    }

    /// Goes on to all configurations in which the call that ends has taken effect, and none of the others later than need be.
    pub fn reach(
        &mut self,
        ending: Ending<'_>,
        ends: &Under,
        configs: &mut Vec<Config, A>,
    ) -> Result<Reach, NoMemory> {
        self.arena.keeps_old = ends.may_lag;
        self.begin(configs.as_slice(), ending.bit)?;
        for at in 0..LIMIT {
            let Some(config) = self.work.get(at).copied() else {
                break;
            };
            self.expand(ending, &config)?;
            if self.work.len().saturating_add(self.reached.len()) > LIMIT || self.arena.is_full() {
                return Ok(Reach::Full);
            }
        }
        if self.reached.is_empty() {
            return Ok(Reach::Stuck);
        }
        if ends.keeps_old() {
            self.lag_behind(ending)?;
        }
        self.prune(ending)?;
        swap(configs, &mut self.reached);
        Ok(Reach::Reached)
    }

    /// Leaves one of those out that are the same now.
    pub fn unite(&mut self, configs: &mut Vec<Config, A>) -> Result<(), NoMemory> {
        if configs.len() > 1 {
            self.begin(configs.as_slice(), 0)?;
            swap(configs, &mut self.work);
        }
        Ok(())
    }

    // Tells whether a configuration can do no more than another one that was reached: that one has the same map, and may still choose whether a call
    // is lost, or when it took effect.
    fn is_needless(&self, ending: Ending<'_>, config: &Config) -> bool {
        for call in ending.under {
            if call.bit == ending.bit || config.free & call.bit != 0 {
                continue;
            }
            let (done, free) = (config.done & !call.bit, config.free | call.bit);
            if self.seen.has(print_of(&config.spot, done, free)) {
                return true;
            }
            let is_worse = call.is_unsure && config.done & call.bit != 0;
            if is_worse && self.seen.has(print_of(&config.spot, done, config.free)) {
                return true;
            }
        }
        false
    }

    // Leaves out the configurations that were reached and can do no more than others.
    fn prune(&mut self, ending: Ending<'_>) -> Result<(), NoMemory> {
        if self.reached.len() <= 1 {
            return Ok(());
        }
        self.work.clear();
        for at in 0..self.reached.len() {
            let config = self.reached[at];
            if !self.is_needless(ending, &config) {
                self.work.push(config)?;
            }
        }
        swap(&mut self.reached, &mut self.work);
        Ok(())
    }

    /// Leaves out what no configuration needs, where there is much of it.
    pub fn shorten(&mut self, alloc: &A, configs: &mut [Config]) -> Result<(), NoMemory> {
        if self.trail.is_long() {
            self.trail.shorten(alloc, configs)?;
        }
        if self.arena.is_long() {
            self.arena.shorten(alloc, configs)?;
        }
        Ok(())
    }

    /// The order of a configuration, which is the only one left.
    pub fn order_of(&mut self, alloc: &A, config: &Config) -> Result<&[Mark], NoMemory> {
        self.trail.order_of(alloc, config)
    }
}
