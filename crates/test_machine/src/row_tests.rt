//! The tables of `rows`.
use crate::machines::Over;
use crate::rows;
use crate::starved::Marks;
use crate::table::{Compared, Found, compare_all};
use std::alloc::Global;
use std::test::Fail;
use vm_base::NoMemory;

/// Compares rows of memory that is refused: each event is given again until it has memory. What it gives, and what can be seen at the
/// end, is as with ample memory from the start.
fn compare_refused(alloc: Global, found: &mut Found) -> Result<(), NoMemory> {
    let told = Compared::Starved(Over::Tree, Marks::Told);
    compare_all(alloc, found, rows::REFUSALS, told)?;
    let in_tree = Compared::Starved(Over::Tree, Marks::Untold);
    compare_all(alloc, found, rows::REFUSED_SOMEWHERE, in_tree)?;
    let in_list = Compared::Starved(Over::List, Marks::Untold);
    compare_all(alloc, found, rows::REFUSED_SOMEWHERE, in_list)?;
    compare_all(alloc, found, rows::FULL_HEAP, Compared::FullHeap)
}

// A name and a text that aren't empty are of a row that gave something else.
#[test]
fn each_row_gives_its_text(rt: HostRuntime) -> Result<(), Fail> {
    let mut found = Found::new(rt.alloc());
    compare_all(rt.alloc(), &mut found, rows::ENTRIES, Compared::Entries)?;
    compare_refused(rt.alloc(), &mut found)?;
    assert_eq!(rt; found.wrong.as_str(), "");
    assert_eq!(rt; found.rows, 15);
    Ok(())
}
