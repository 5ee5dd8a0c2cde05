//! A text with a difference applied to it.
ghost use Rattle.std.specs.Prelude.{◌≡◌, ◌++◌, OnOk, drop, take};
ghost use Rattle.state_changes.specs.Applied.{applied};

use crate::part::DiffOp;
use std::alloc::AllocError;

// The first bytes of a text, or all where there are fewer, and what follows.
#[tactic(auto, using(std::proofs::lemmas::List::take_min, std::proofs::lemmas::List::drop_min))]
fn cut(text: &[u8], count: usize) -> (&[u8], &[u8])
    ensures front { result.0.now ≡ take count text.now }
    ensures rest { result.1.now ≡ drop count text.now }
{
    text.split_at(count.min(text.len()))
}

/// Appends what the text becomes.
pub(crate) fn apply_to(
    out: &mut Vec<u8>,
    parts: &[DiffOp],
    added: &[u8],
    text: &[u8],
) -> Result<(), AllocError>
    ensures { OnOk result (out.new.items ≡ out.old.items ++ applied parts.now added.now text.now) }
{
    let mut fresh = added;
    let mut rest = text;
    let mut at = 0;
    'parts: while at < parts.len() {
        let part = parts[at];
        let (stays, _) = cut(rest, part.kept());
        let (line, others) = cut(fresh, part.fresh());
        let (_, more) = cut(rest, part.taken());
        out.extend_from_slice(stays)?;
        out.extend_from_slice(line)?;
        rest = more;
        fresh = others;
        at += 1;
    }
    out.extend_from_slice(rest)?;
    Ok(())
}
