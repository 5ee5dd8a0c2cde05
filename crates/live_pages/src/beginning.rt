//! A frame that a page gets first: its bytes, and its count.
ghost use Rattle.std.specs.Prelude.{◌≡◌, ◌≤◌, ◌^◌, is_some, length, true};
ghost use Rattle.vm_base.specs.Plain.{file_bytes, page_bytes, zeros};
ghost use Rattle.frames.specs.Parts.{cell_bytes};
ghost use Rattle.frames.specs.Files.{files_of};
ghost use Rattle.live_pages.specs.Counts.{Begins, BeginsFrom};

use crate::pieces::FrameState;
use frames::{FrameCell, Objects};
use std::alloc::Allocator;

/// The frame gets zeros, and is counted once, for its page.
pub(crate) fn begin_zeros<A: Allocator>(frame: &mut FrameState<A>)
    ensures { Begins zeros 1 frame.old frame.new }
{
    frame.cell.fill_zero();
    frame.count.begin(1);
}

/// The frame gets the file's own bytes of the page, which the file has, and is counted so often.
pub(crate) fn begin_page<A: Allocator>(
    frame: &mut FrameState<A>,
    objects: &Objects<A>,
    file: u32,
    page: u64,
    count: u64,
)
    requires page { is_some (file_bytes (files_of objects.now file) page) ≡ true }
    requires count { count ≤ 2 ^ 40 }
    ensures { BeginsFrom (files_of objects.now) file page count frame.old frame.new }
{
    begin_bytes(frame, objects.first_bytes(file, page), count);
}

// The frame gets these bytes, and zeros after them, and is counted so often.
fn begin_bytes<A: Allocator>(frame: &mut FrameState<A>, bytes: &[u8], count: u64)
    requires short { length bytes.now ≤ 4096 }
    requires count { count ≤ 2 ^ 40 }
    ensures { Begins (page_bytes bytes.now 0) count frame.old frame.new }
{
    frame.cell.fill(bytes);
    frame.count.begin(count);
}

/// The frame gets the bytes of another one, and is counted once, for its page.
pub(crate) fn begin_copy<A: Allocator>(frame: &mut FrameState<A>, from: &FrameCell<A>)
    ensures { Begins (cell_bytes from.now) 1 frame.old frame.new }
{
    frame.cell.copy_from(from);
    frame.count.begin(1);
}
