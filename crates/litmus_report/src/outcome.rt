//! Listed outcomes, as they are told.
ghost use Rattle.std.specs.Prelude.{is_some};

use crate::verdict::HasOutcome;
use litmus_outcomes::LitmusOutcome;
use slot_lock::MapLine;
use std::alloc::Allocator;
use vm_base::Reply;

impl<A: Allocator> HasOutcome for LitmusOutcome<A> {
    ghost use Rattle.std.specs.Prelude.{is_some};

    ghost outcome = { λ o. record { replies = o.replies.items; finals = o.finals.items; maps = o.maps.items; reached = is_some o.witness } };

    fn replies(&self) -> &[Reply] {
        self.replies.as_slice()
    }

    fn finals(&self) -> &[Reply] {
        self.finals.as_slice()
    }

    fn maps(&self) -> &[MapLine] {
        self.maps.as_slice()
    }

    fn is_reached(&self) -> bool {
        self.witness.is_some()
    }
}
