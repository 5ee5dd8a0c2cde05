//! Which calls of a core surely took effect.
ghost use Rattle.std.specs.Prelude.{◌≡◌, true};
ghost use Rattle.cores.specs.Effects.{AreTold};

use crate::gathering::took;
use crate::kept::Kept;

/// Tells whether each of these calls is open that may not have taken effect.
pub(crate) fn are_told(effects: &[bool], kept: &[Kept]) -> bool
    ensures { result ≡ true → AreTold effects.now kept.now }
{
    let [first, rest @ ..] = kept else {
        return true;
    };
    if !first.is_open && !took(effects, first.number) {
        return false;
    }
    are_told(effects, rest)
}
