//! Worked acquisitions, folds and cuts of both slot maps. A core locks a range of pages, or two, in steps that divide a slot or lock one:
//! told are both numbers. A part of its pages is `free` again where they are one slot, which ends so; `run` and `back` lock and
//! unlock slots side by side, so many at most, up to a page; `owner` is the core that holds a page, 64 for none.
use crate::script::first_wrong;
use radix_range::RadixMap;
use slot_lock::SlotList;
use std::alloc::Global;
use vm_base::NoMemory;

/// The list of slots, anew for each table: another core waits; a slot is divided for its first page; two ranges; an acquisition that
/// meets another core; all pages; pages that were on two sides of an edge; folds with the next slot; cuts.
const LIST: &str = "\
lock 1 16 17 = 2 1
lock 2 16 17 = 0 0
owner 16 = 1
owner 17 = 64

lock 1 0x8000000 0x8000001 = 2 1
slot 0x8000000 = 0x8000000 0x8000001
slot 16 = 1 0x8000000

lock 1 20 22 16 18 = 4 2
owner 15 = 64
owner 16 = 1
owner 17 = 1
owner 18 = 64
owner 19 = 64
owner 20 = 1
owner 21 = 1
owner 22 = 64
free 1 16 18 = 18
free 1 20 22 = 22

lock 2 21 22 = 2 1
lock 1 16 18 20 22 = 3 2
owner 17 = 1
owner 20 = 1
owner 21 = 2

lock 0 1 0x800000000 = 0 1
owner 0x7ffffffff = 0
room 0 1 0x800000000 0x7ffffffff = 1

lock 0 511 513 = 2 1
slot 512 = 511 513
owner 512 = 0
owner 513 = 64

lock 1 16 17 = 2 1
put 1 16 17 = 1
free 1 16 17 = 17
fold 1 = 0
lock 1 16 17 = 0 1
clear 1 16 17 = 1
free 1 16 17 = 17
fold 1 = 1
fold 1 = 1
fold 1 = 0
slot 16 = 1 0x800000000

lock 2 0x8000000 0x10000000 = 2 1
put 2 0x8000000 0x10000000 = 1
cut 2 0x8000000 0x10000000 0x8000258 0x8000259 = 2
slot 0x8000258 = 0x8000258 0x8000259

lock 2 0x8000000 0x10000000 = 2 1
cut 2 0x8000000 0x10000000 0x8000258 0x8000800 = 2
slot 0x8000258 = 0x8000258 0x8000800
owner 0x80007ff = 2";

/// The tree, likewise. Its root has slots of 2^27 pages, and a slot is divided into 512. All pages are 511 slots of one page, 511 of 2^9, 511 of 2^18
/// and 255 of 2^27. Other than the list it locks and unlocks several slots at once, folds one level after another, and cuts from the start on.
const TREE: &str = "\
lock 1 16 17 = 3 1
lock 2 16 17 = 0 0
owner 16 = 1
owner 17 = 64

lock 1 0x8000000 0x8000001 = 3 1
slot 0x8000000 = 0x8000000 0x8000001
slot 16 = 0 0x8000000

lock 1 20 22 16 18 = 3 4
owner 15 = 64
owner 16 = 1
owner 17 = 1
owner 18 = 64
owner 19 = 64
owner 20 = 1
owner 21 = 1
owner 22 = 64
free 1 16 18 = 17
back 1 17 18 9 = 1 18
back 1 20 22 9 = 2 22

lock 2 21 22 = 3 1
lock 1 16 18 20 22 = 0 3
owner 17 = 1
owner 20 = 1
owner 21 = 2

lock 0 1 0x800000000 = 3 1788
owner 1 = 0
owner 0x7ffffffff = 0
room 0 1 0x800000000 0x7ffffffff = 1

lock 0 511 513 = 4 2
slot 512 = 512 513
owner 512 = 0
owner 513 = 64

lock 2 16 17 = 3 1
free 2 16 17 = 17
lock 2 600 601 = 1 1
run 1 1 1024 100 = 100 101
run 1 101 1024 2000 = 411 512
run 1 512 1024 2000 = 88 600
back 1 1 1024 2000 = 511 512
back 1 1 1024 2000 = 0 1

fold 16 = 0
lock 1 16 17 = 3 1
put 1 16 17 = 1
fold 16 = 0
free 1 16 17 = 17
fold 16 = 0
lock 1 16 17 = 0 1
clear 1 16 17 = 1
free 1 16 17 = 17
fold 16 = 1
slot 16 = 0 512
fold 16 = 1
fold 16 = 1
fold 16 = 0
slot 16 = 0 0x8000000

lock 2 0x8000000 0x10000000 = 0 1
put 2 0x8000000 0x10000000 = 1
cut 2 0x8000000 0x10000000 0x8000258 0x8000259 = 3
slot 0x8000258 = 0x8000258 0x8000259

lock 2 0x8000000 0x10000000 = 0 1
cut 2 0x8000000 0x10000000 0x8000258 0x8000800 = 3
slot 0x8000258 = 0x8000258 0x8000259
slot 0x80007ff = 0x8000600 0x8000800
owner 0x80007ff = 2";

fn wrong_on_list<'a>(alloc: Global, rows: &'a str) -> Result<Option<&'a str>, NoMemory> {
    let mut list = SlotList::new(alloc)?;
    first_wrong(&mut list, rows)
}

fn wrong_on_tree<'a>(alloc: Global, rows: &'a str) -> Result<Option<&'a str>, NoMemory> {
    let mut tree = RadixMap::new(alloc)?;
    first_wrong(&mut tree, rows)
}

#[test]
fn rows_of_both_maps(rt: HostRuntime) {
    for rows in LIST.split("\n\n") {
        assert_eq!(rt; wrong_on_list(rt.alloc(), rows), Ok(None));
    }
    for rows in TREE.split("\n\n") {
        assert_eq!(rt; wrong_on_tree(rt.alloc(), rows), Ok(None));
    }
}
