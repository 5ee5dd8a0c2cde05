//! The commonest lines, of a core's load or store: each is read once, from left to right, into a few numbers.
ghost use Rattle.std.specs.Prelude.{◌≡◌, ◌++◌, IfSome, Some, codes, true};
ghost use Rattle.vm_base.specs.declared.requests.Request.TheVariants as Asked;
ghost use Rattle.trace_text.specs.Words.{words_of};
ghost use Rattle.trace_text.specs.Request.{load_of, request_of, store_of};
ghost use Rattle.trace_text.specs.Front.{access_asked};
ghost use Rattle.trace_text.specs.Line.{are_printable, line_of};
ghost use Rattle.trace_text.specs.declared.line.Line.TheVariants.{Now};

use crate::line::front_now;
use crate::number::short_number;
use crate::request::{behind_load, behind_store};
use vm_base::{CoreId, Request};

/// A load or a store that a line asks for.
#[derive(Clone, Copy)]
pub struct AskedAccess {
    pub is_store: bool,
    pub addr: u64,
    /// What is stored; a load has none.
    pub byte: u8,
}

impl AskedAccess {
    ghost use Rattle.std.specs.Prelude.{◌≡◌};
    ghost use Rattle.trace_text.specs.Front.{access_asked};

    /// The request for it.
    #[inline(always)]
    pub fn request(&self) -> Request
        ensures { result ≡ access_asked self.now }
    {
        if self.is_store {
            return Request::Store {
                addr: self.addr,
                byte: self.byte,
            };
        }
        Request::Load { addr: self.addr }
    }
}

// The address of a load, where it is all that these bytes are.
#[inline(always)]
fn loaded(args: &[u8]) -> Option<u64>
    ensures { IfSome result (λ addr. Some (Asked.Load addr) ≡ load_of (words_of args.now)) }
{
    let (addr, rest) = short_number(args)?;
    if rest.is_empty() {
        return Some(addr);
    }
    None
}

// The bytes behind a space.
#[inline(always)]
fn behind_space(bytes: &[u8]) -> Option<&[u8]>
    ensures { IfSome result (λ rest. words_of rest.now ≡ words_of bytes.now) }
{
    match bytes {
        [b' ', rest @ ..] => Some(rest),
        _ => None,
    }
}

// The address and the byte of a store, where one space is between them and these bytes are nothing else.
#[inline(always)]
fn stored(args: &[u8]) -> Option<(u64, u8)>
    ensures { IfSome result (λ f. Some (Asked.Store f.0 f.1) ≡ store_of (words_of args.now)) }
{
    let (addr, rest) = short_number(args)?;
    let digits = behind_space(rest)?;
    let (number, rest) = short_number(digits)?;
    if number > 255 || !rest.is_empty() {
        return None;
    }
    Some((addr, number as u8))
}

// The load or store that the words say.
#[inline(always)]
fn asked(words: &[u8]) -> Option<AskedAccess>
    ensures { IfSome result (λ access. Some (access_asked access) ≡ request_of (words_of words.now)) }
{
    if let Some(args) = behind_load(words) {
        let addr = loaded(args)?;
        return Some(AskedAccess {
            is_store: false,
            addr,
            byte: 0,
        });
    }
    if let Some(args) = behind_store(words) {
        let (addr, byte) = stored(args)?;
        return Some(AskedAccess {
            is_store: true,
            addr,
            byte,
        });
    }
    None
}

/// The load or store of the line, and the core that is to make and finish it, where it is written in the usual form: nothing
/// before the core, one space between words, and numbers of at most 16 digits; `None` where it is any other line, which
/// `read_line` reads.
#[inline(always)]
pub fn read_access(bytes: &[u8]) -> Option<(CoreId, AskedAccess)>
    ensures said { IfSome result (λ f. Some (Now f.0 (access_asked f.1)) ≡ line_of bytes.now) }
    ensures printable { IfSome result (λ f. are_printable bytes.now ≡ true) }
{
    if let Some(begun) = front_now(bytes) {
        let access = asked(begun.1)?;
        return Some((begun.0, access));
    }
    None
}
