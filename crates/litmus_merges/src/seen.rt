//! What one place of a page shows.
ghost use Rattle.std.specs.Prelude.{◌≡◌};
ghost use Rattle.litmus_merges.specs.Seen.{byte_with, fresh, seen_protected, seen_with};

use vm_base::{Back, Meta, Prot};

/// What a mapped page has, and its own byte at one place, if it has own bytes.
#[derive(Clone, Copy)]
pub(crate) struct Seen {
    /// What backs it.
    pub back: Back,
    /// What may be done with it.
    pub prot: Prot,
    /// Its own byte.
    pub own: Option<u8>,
}

/// A place of a page.
#[derive(Clone, Copy)]
pub(crate) struct Spot {
    /// The page's number.
    pub page: u64,
    /// Where in the page, in bytes.
    pub offset: u64,
}

/// A fresh page.
pub(crate) fn fresh(meta: Meta) -> Seen
    ensures { result ≡ fresh meta }
{
    let own = match meta.back {
        Back::Anon => Some(0),
        Back::Shared { .. } | Back::Private { .. } => None,
    };
    Seen {
        back: meta.back,
        prot: meta.prot,
        own,
    }
}

/// The same under another protection.
pub(crate) fn protected(seen: Option<Seen>, prot: Prot) -> Option<Seen>
    ensures { result ≡ seen_protected prot seen }
{
    match seen {
        None => None,
        Some(seen) => Some(Seen { prot, ..seen }),
    }
}

/// Another own byte, where there is one.
fn byte_with(own: Option<u8>, byte: u8) -> Option<u8>
    ensures { result ≡ byte_with own byte }
{
    match own {
        None => None,
        Some(_) => Some(byte),
    }
}

/// The same with another own byte, where it has one.
pub(crate) fn with_byte(seen: Option<Seen>, byte: u8) -> Option<Seen>
    ensures { result ≡ seen_with byte seen }
{
    match seen {
        None => None,
        Some(seen) => Some(Seen {
            own: byte_with(seen.own, byte),
            ..seen
        }),
    }
}
