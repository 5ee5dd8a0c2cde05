//! Each allocation refused in turn: in heaps from too small up to ample, each part of the machine is made and grows, or is refused, and gives
//! all of its memory back.
ghost use Rattle.std.specs.Prelude.{◌<◌};

use crate::script::lock;
use frames::{FileSpec, FrameCell, Frames, Objects};
use linked_list_allocator::LocalHeap;
use mmu::{Cpu, Hardware};
use radix_node::Node;
use radix_range::RadixMap;
use refcache::Refcache;
use slot_lock::SlotList;
use std::alloc::{AllocError, Allocator, Global};
use std::test::Fail;
use trace_io::lines::LineReader;
use vm_base::{CoreId, Mode, NoMemory, PageRange, Prot};

/// What is made in a heap.
#[derive(Clone, Copy, Debug)]
enum Part {
    Frames,
    Frame,
    File,
    Reader,
    Counts,
    Tables,
    List,
    Tree,
    Node,
}

/// A file of one page is opened.
fn open(heap: &LocalHeap) -> Result<(), NoMemory> {
    let bytes = vec![in heap; 7u8; 4096]?;
    let mut files = Vec::new(heap);
    files.push(FileSpec {
        mode: Mode::RW,
        bytes,
    })?;
    files.truncate(16);
    Objects::new(heap, files)?;
    Ok(())
}

/// A core's tables get entries that have no table in common but the first.
fn install(heap: &LocalHeap) -> Result<(), NoMemory> {
    let prot = Prot {
        read: true,
        write: false,
        exec: false,
    };
    let mut cpu = Cpu::new(heap)?;
    cpu.install(1, 7, prot)?;
    cpu.install(0x4_0000_0000, 9, prot)
}

const ONE: PageRange = PageRange { first: 16, end: 17 };

/// A list of slots is divided.
fn divide_list(heap: &LocalHeap) -> Result<(), NoMemory> {
    let mut list = SlotList::new(heap)?;
    lock(&mut list, CoreId::new(0), ONE, ONE, 5)?;
    Ok(())
}

/// A tree grows down to a page.
fn grow_tree(heap: &LocalHeap) -> Result<(), NoMemory> {
    let mut tree = RadixMap::new(heap)?;
    lock(&mut tree, CoreId::new(0), ONE, ONE, 5)?;
    Ok(())
}

/// A slot of a node gets a child, which is folded again.
fn expand<A: Allocator + Clone>(node: &mut Node<A>, slot: usize) -> Result<(), NoMemory>
    requires { slot < 512 }
{
    if node.level() == 0 || node.is_child(slot) {
        return Ok(());
    }
    node.expand(slot)?;
    node.fold(slot);
    Ok(())
}

fn expand_node<A: Allocator + Clone>(alloc: A) -> Result<(), NoMemory> {
    match Node::new(alloc, 1) {
        Ok(mut node) => expand(&mut node, 2),
        Err(refused) => Err(refused),
    }
}

fn is_made(part: Part, heap: &LocalHeap) -> bool {
    match part {
        Part::Frames => Frames::new(heap, 2).is_ok(),
        Part::Frame => FrameCell::new(heap).is_ok(),
        Part::File => open(heap).is_ok(),
        Part::Reader => LineReader::new(heap).is_ok(),
        Part::Counts => Refcache::new(heap, 2, 3).is_ok(),
        Part::Tables => install(heap).is_ok(),
        Part::List => divide_list(heap).is_ok(),
        Part::Tree => grow_tree(heap).is_ok(),
        Part::Node => expand_node(heap).is_ok(),
    }
}

/// How many heaps, each 16 bytes larger than the one before, are too small for a part: none, if one isn't as it was then, or one of
/// the 600 behind them is too small.
fn refusals(alloc: Global, part: Part) -> Result<Option<usize>, AllocError> {
    let mut refused = 0usize;
    for step in 0..12_000usize {
        let heap = LocalHeap::new(alloc, 64 + 16 * step)?;
        let is_made = is_made(part, &heap);
        if heap.used() != 0 || (!is_made && refused != step) {
            return Ok(None);
        }
        if !is_made {
            refused = step.saturating_add(1);
        } else if refused.saturating_add(600) < step {
            break;
        }
    }
    Ok(Some(refused))
}

// The least rooms, in steps of 16 bytes from 64 on: two frames have 8192 bytes, one 4096, a file of one page as many twice where it is given and opened, a chunk of lines 65,536,
// the places of two cores 16 bytes each, two tables of the last level 4096 each, a list its three runs, the nodes of a tree 16 bytes for each slot.
#[test]
fn each_allocation_is_refused(rt: HostRuntime) -> Result<(), Fail> {
    for (part, least) in [
        (Part::Frames, 8192 / 16 - 4),
        (Part::Frame, 4096 / 16 - 4),
        (Part::File, 4096 / 16 - 4),
        (Part::Reader, 65_536 / 16 - 4),
        (Part::Counts, 2 * 64 - 4),
        (Part::Tables, 2 * 4096 / 16 - 4),
        (Part::List, 2),
        (Part::Tree, 4 * 512 - 4),
        (Part::Node, 2 * 512 - 4),
    ] {
        let refused = refusals(rt.alloc(), part)?;
        assert!(rt;
            refused.is_some_and(|count| least <= count && count < 12_000),
            "{part:?}"
        );
    }
    Ok(())
}
