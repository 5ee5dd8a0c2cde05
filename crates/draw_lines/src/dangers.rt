//! Where translations are in danger: a core was told to drop them, and may still have them.
ghost use Rattle.std.specs.Prelude.{◌≡◌, ◌++◌, IfOk, OnOk};
ghost use Rattle.std.specs.List.{flat_map};
ghost use Rattle.draw_lines.specs.Dangers.{acknowledges, acknowledged, danger_at, danger_of, dangers_below, dangers_in, dangers_of};

use draw_steps::moments::{Moment, Pass, Recorded};
use std::alloc::{AllocError, Global};
use vm_base::{CoreId, CoreSet};

/// A span in which a core may use translations that it was told to drop.
#[derive(Clone, Copy)]
pub struct Danger {
    /// The core.
    pub core: CoreId,
    /// The core that told it.
    pub sender: CoreId,
    /// The column in which it was told.
    pub begin: u64,
    /// The column of its second take; `None` where there is none.
    pub end: Option<u64>,
}

// Tells whether in this moment, after the column, the core takes the sender's message for the second time.
fn acknowledges(recorded: &Recorded, sender: CoreId, core: CoreId, column: u64) -> bool
    ensures { result ≡ acknowledges recorded.now sender core column }
{
    match &recorded.moment {
        Moment::Took {
            core: taker,
            sender: from,
            pass: Pass::Second,
        } => *taker == core && *from == sender && column < recorded.step,
        _ => false,
    }
}

// The first column after this one in which the core takes the sender's message for the second time.
fn acknowledged(moments: &[Recorded], sender: CoreId, core: CoreId, column: u64) -> Option<u64>
    ensures { result ≡ acknowledged moments.now sender core column }
{
    'moments: for recorded in moments {
        if acknowledges(recorded, sender, core, column) {
            return Some(recorded.step);
        }
    }
    None
}

// The span of danger of a core that was told in this column.
fn danger_of(moments: &[Recorded], sender: CoreId, core: CoreId, column: u64) -> Danger
    ensures { result ≡ danger_of moments.now sender core column }
{
    Danger {
        core,
        sender,
        begin: column,
        end: acknowledged(moments, sender, core, column),
    }
}

// Appends that of the core, if it was told in this column.
fn put_danger(
    dangers: &mut Vec<Danger>,
    moments: &[Recorded],
    sender: CoreId,
    cores: CoreSet,
    core: CoreId,
    column: u64,
) -> Result<(), AllocError>
    ensures { OnOk result (dangers.new.items ≡ dangers.old.items ++ danger_at moments.now sender cores core column) }
{
    if cores.contains(core) {
        dangers.push(danger_of(moments, sender, core, column))?;
    }
    Ok(())
}

// Appends those of the cores that were told in this column.
fn put_dangers(
    dangers: &mut Vec<Danger>,
    moments: &[Recorded],
    sender: CoreId,
    cores: CoreSet,
    column: u64,
) -> Result<(), AllocError>
    ensures { OnOk result (dangers.new.items ≡ dangers.old.items ++ dangers_below moments.now sender cores column 64) }
{
    let mut index = 0u8;
    'cores: while index < 64 {
        let core = CoreId::new(index);
        put_danger(dangers, moments, sender, cores, core, column)?;
        index += 1;
    }
    Ok(())
}

// Appends those of this moment, if it tells others.
fn put_told(
    dangers: &mut Vec<Danger>,
    moments: &[Recorded],
    recorded: &Recorded,
) -> Result<(), AllocError>
    ensures { OnOk result (dangers.new.items ≡ dangers.old.items ++ dangers_in moments.now recorded.now) }
{
    if let Moment::Told { core, cores } = &recorded.moment {
        put_dangers(dangers, moments, *core, *cores, recorded.step)?;
    }
    Ok(())
}

/// One for each core that is told, from that column on to its second take.
pub fn dangers_of(alloc: Global, moments: &[Recorded]) -> Result<Vec<Danger>, AllocError>
    ensures { IfOk result (λ dangers. dangers.items ≡ dangers_of moments.now moments.now) }
{
    let mut dangers: Vec<Danger> = Vec::new(alloc);
    'moments: for recorded in moments {
        put_told(&mut dangers, moments, recorded)?;
    }
    Ok(dangers)
}
