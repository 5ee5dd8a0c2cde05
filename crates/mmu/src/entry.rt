//! What a last-level table entry says, and where a page's entry stands.
ghost use Rattle.std.specs.Prelude.{◌≡◌, ◌<◌, ◌^◌, slice_index};
ghost use Rattle.vm_base.specs.Rights.{is_allowed};
ghost use Rattle.mmu.specs.Entry.{translation_of, has_right, entry_word, decode, permits, level_index};

use vm_base::{Access, Prot};

/// Frame numbers have 32 bits, so that physical addresses have 44.
const FRAMES: u64 = 1 << 32;

/// Execution is disabled.
const NO_EXECUTE: u64 = 1 << 63;

/// What a present entry gives: a frame, and what may be done with it. Each entry permits loads.
#[derive(Clone, Copy, Default, PartialEq, Eq)]
pub struct Translation {
    pub frame: u32,
    pub write: bool,
    pub exec: bool,
}

impl Translation {
    /// The translation to a frame of a page with these rights, of which there are some.
    pub fn new(frame: u32, prot: Prot) -> Translation
        ensures { result ≡ translation_of frame prot }
    {
        Translation {
            frame,
            write: prot.write,
            exec: prot.exec,
        }
    }

    /// Tells whether the translation permits the access.
    pub(crate) fn permits(self, access: Access) -> bool
        ensures { result ≡ permits self access }
    {
        match access {
            Access::Load => true,
            Access::Store => self.write,
            Access::Fetch => self.exec,
        }
    }

    /// The 64 bits of the last-level entry: the frame's address with P (bit 0), R/W (bit 1) and U/S
    /// (bit 2), and XD (bit 63) where the page isn't executable (Intel SDM volume 3A, 4-level
    /// paging, format of a page-table entry that maps a 4-KByte page).
    pub fn word(self) -> u64
        ensures { result ≡ entry_word self }
    {
        let write = if self.write { 2 } else { 0 };
        let no_exec = if self.exec { 0 } else { NO_EXECUTE };
        u64::from(self.frame) * 4096 + 1 + write + 4 + no_exec
    }
}

/// What the 64 bits of a last-level entry say; nothing where P (bit 0) is 0.
pub(crate) fn decode(word: u64) -> Option<Translation>
    ensures { result ≡ decode word }
{
    if word % 2 == 0 {
        return None;
    }
    Some(Translation {
        frame: (word / 4096 % FRAMES) as u32,
        write: word / 2 % 2 == 1,
        exec: word < NO_EXECUTE,
    })
}

/// Tells whether the protection gives some right, so that a page with it may have an entry.
pub fn has_right(prot: Prot) -> bool
    ensures { result ≡ has_right prot }
{
    prot.read || prot.write || prot.exec
}

/// The places of an address in the tables of the four levels, from the root on: bits 47:39, 38:30,
/// 29:21 and 20:12 (Intel SDM volume 3A, 4-level paging, linear-address translation).
pub fn indices(addr: u64) -> [u16; 4]
    ensures root { slice_index result 0 ≡ level_index 39 addr }
    ensures second { slice_index result 1 ≡ level_index 30 addr }
    ensures third { slice_index result 2 ≡ level_index 21 addr }
    ensures last { slice_index result 3 ≡ level_index 12 addr }
{
    [
        index(39, addr),
        index(30, addr),
        index(21, addr),
        index(12, addr),
    ]
}

/// The nine bits of the address from `shift` on.
fn index(shift: u32, addr: u64) -> u16
    requires { shift < 64 }
    ensures { result ≡ level_index shift addr }
{
    ((addr >> shift) % 512) as u16
}
