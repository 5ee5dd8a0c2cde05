//! Slots side by side that can be one, as `fold` has found them so far.
ghost use Rattle.std.specs.Prelude.{◌≡◌, ◌+◌, ◌-◌, ◌<◌, ◌≤◌, ◌^◌, false};
ghost use Rattle.vm_base.specs.Info.{info_file_page, is_leaf};

use vm_base::PageInfo;

/// Slots side by side that can be one: their pages from `first` up to `end`, and what the first
/// page has.
#[derive(Clone, Copy)]
pub struct Foldable {
    pub first: u64,
    pub end: u64,
    pub content: Option<PageInfo>,
    ghost ordered: { first < end },
    ghost place: { end ≤ 2 ^ 36 },
    ghost no_leaf: { is_leaf content ≡ false },
    ghost fits: { info_file_page content + (end - first) ≤ 2 ^ 36 },
}
