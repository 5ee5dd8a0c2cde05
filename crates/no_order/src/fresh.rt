//! Whether items lead from the map on in which nothing is mapped.
ghost use Rattle.std.specs.Prelude.{◌≡◌, ◌≤◌, IfOk, Ok, false, length, true};
ghost use Rattle.vm_base.specs.Plain.{Plain, nothing_mapped};
ghost use Rattle.frames.specs.Given.{given_files};
ghost use Rattle.audit.specs.Placing.{rule_of};
ghost use Rattle.orders.specs.Orders.{LeadAll};
ghost use Rattle.no_order.specs.Beginnings.{LeadsSomewhere};

use audit::Auditor;
use frames::FileSpec;
use orders::{Item, Timed, lead_all};
use radix_range::RadixMap;
use std::alloc::Allocator;
use vm_base::NoMemory;

/// The same file once more.
fn file_again<A: Allocator + Clone + Drop>(
    alloc: &A,
    file: &FileSpec<A>,
) -> Result<FileSpec<A>, NoMemory>
    ensures mode { IfOk result (λ again. again.mode ≡ file.now.mode) }
    ensures bytes { IfOk result (λ again. again.bytes.items ≡ file.now.bytes.items) }
{
    let mut bytes = Vec::new(alloc.clone()?);
    bytes.extend_from_slice(file.bytes.as_slice())?;
    Ok(FileSpec {
        mode: file.mode,
        bytes,
    })
}

/// The same files once more.
pub fn files_again<A: Allocator + Clone + Drop>(
    alloc: &A,
    files: &[FileSpec<A>],
) -> Result<Vec<FileSpec<A>, A>, NoMemory>
    ensures count { IfOk result (λ again. length again.items ≡ length files.now) }
    ensures same { IfOk result (λ again. given_files again.items ≡ given_files files.now) }
{
    let mut again = Vec::new(alloc.clone()?);
    'files: for at in 0..files.len() {
        let file = file_again(alloc, &files[at])?;
        again.push(file)?;
    }
    Ok(again)
}

/// Tells whether the items lead on, one after another, from the map on in which nothing is mapped, with these files.
pub(crate) fn leads<A: Allocator + Clone + Drop>(
    alloc: &A,
    files: &[FileSpec<A>],
    any_place: bool,
    history: &[Timed],
    items: &[Item],
) -> Result<bool, NoMemory>
    requires { length files.now ≤ 16 }
    ensures yes { result ≡ Ok true → LeadsSomewhere (rule_of any_place) history.now (nothing_mapped (given_files files.now)) items.now }
    ensures no { result ≡ Ok false → (u : Plain) → ¬ LeadAll (rule_of any_place) history.now (nothing_mapped (given_files files.now)) items.now u }
{
    let map = RadixMap::new(alloc.clone()?)?;
    let files = files_again(alloc, files)?;
    let mut auditor = Auditor::new(alloc.clone()?, map, files, any_place)?;
    lead_all(&mut auditor, history, items)
}
