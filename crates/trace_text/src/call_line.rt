//! Lines of a core's whole call, other than the commonest loads and stores: each is read without a line that it says.
ghost use Rattle.std.specs.Prelude.{◌≡◌, true, IfSome, Some};
ghost use Rattle.trace_text.specs.Line.{are_printable, line_of};
ghost use Rattle.trace_text.specs.declared.line.Line.TheVariants.{Now};

use crate::line::front_now;
use crate::request::read_request;
use vm_base::{CoreId, Request};

/// The call of the line, and the core that is to make and finish it, where nothing stands before the core and one space behind
/// it; `None` where it is any other line, which `read_line` reads.
#[inline(never)]
pub fn read_call(bytes: &[u8]) -> Option<(CoreId, Request)>
    ensures said { IfSome result (λ f. Some (Now f.0 f.1) ≡ line_of bytes.now) }
    ensures printable { IfSome result (λ f. are_printable bytes.now ≡ true) }
{
    if let Some(begun) = front_now(bytes) {
        let request = read_request(begun.1)?;
        return Some((begun.0, request));
    }
    None
}
