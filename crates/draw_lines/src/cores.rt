//! Which cores act in a run, and how many are in a set.
ghost use Rattle.std.specs.Prelude.{◌≡◌, ◌≤◌};
ghost use Rattle.draw_lines.specs.Cores.{acting, acts, acts_in, count_members};
ghost use Rattle.vm_base.specs.Cores.{members};

use draw_steps::moments::{Moment, Recorded};
use vm_base::{CoreId, CoreSet};

/// How many cores below this number are in the set.
pub fn count_members(set: CoreSet, end: u8) -> u64
    requires { end ≤ 64 }
    ensures value { result ≡ count_members (members set) end }
    ensures few { result ≤ end }
{
    let mut count = 0u64;
    'cores: for index in 0..end {
        if set.contains(CoreId::new(index)) {
            count += 1;
        }
    }
    count
}

// Tells whether the core has a part in this.
fn acts_in(recorded: &Recorded, core: CoreId) -> bool
    ensures { result ≡ acts_in core recorded.now.moment }
{
    match &recorded.moment {
        Moment::Begins { core: one, .. } => *one == core,
        Moment::Told { core: one, cores } => *one == core || cores.contains(core),
        Moment::Took {
            core: one,
            sender,
            ..
        } => *one == core || *sender == core,
        Moment::Did { core: one, .. } => *one == core,
        _ => false,
    }
}

// Tells whether the core has a part in one of these.
fn acts(moments: &[Recorded], core: CoreId) -> bool
    ensures { result ≡ acts moments.now core }
{
    'moments: for recorded in moments {
        if acts_in(recorded, core) {
            return true;
        }
    }
    false
}

/// The cores that have a part in what happened: that call, take, are told or do something else.
pub fn acting(moments: &[Recorded]) -> CoreSet
    ensures { result ≡ acting (acts moments.now) 64 }
{
    let mut cores = CoreSet::empty();
    'cores: for index in 0..64u8 {
        let core = CoreId::new(index);
        if acts(moments, core) {
            cores = cores.with(core);
        }
    }
    cores
}
