//! Heaps that are full.
use linked_list_allocator::LocalHeap;
use vm_base::NoMemory;

/// More pieces than a test's heap has room for.
const MANY: usize = 4_000_000;

/// A piece of memory that is taken, so that nobody else has it.
pub type HeapBlock<'h> = Vec<u8, &'h LocalHeap>;

/// Takes pieces of so many bytes, as many as there are.
fn fill_by<'h>(
    heap: &'h LocalHeap,
    taken: &mut Vec<HeapBlock<'h>>,
    size: usize,
) -> Result<(), NoMemory> {
    for _piece in 0..MANY {
        let Ok(piece) = Vec::with_capacity(heap, size) else {
            return Ok(());
        };
        taken.push(piece)?;
    }
    Ok(())
}

/// Takes all memory that is free. The least pieces are the last, and are given back first.
pub fn fill<'h>(heap: &'h LocalHeap, taken: &mut Vec<HeapBlock<'h>>) -> Result<(), NoMemory> {
    fill_by(heap, taken, 4096)?;
    fill_by(heap, taken, 256)?;
    fill_by(heap, taken, 16)
}
