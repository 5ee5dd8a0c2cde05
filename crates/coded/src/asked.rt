//! What C asks of one core of a machine that threads share.
ghost use Rattle.std.specs.Prelude.{◌≡◌};
ghost use Rattle.coded.specs.Asked.{aside_at, aside_of, asked_of};

use crate::codes::{EventCode, RawEvent, RawOutcome, kind_of, reply_code, request_at};
use shared::{Aside, Ask, Tell};
use vm_base::{Reply, Request};

/// The request of the event, if it begins a call. Its core isn't read.
#[inline(always)]
pub fn asked_of(raw: &RawEvent) -> Option<Request>
    ensures { result ≡ asked_of raw.now }
{
    request_at(kind_of(raw.kind)?, raw)
}

fn aside_at(kind: EventCode, raw: &RawEvent) -> Option<Aside>
    ensures { result ≡ aside_at kind raw.now }
{
    match kind {
        EventCode::Walk => Some(Aside::Walk(raw.at)),
        EventCode::Evict => Some(Aside::Evict(raw.at)),
        EventCode::Flush => Some(Aside::Flush),
        EventCode::Review => Some(Aside::Review),
        EventCode::Fold => Some(Aside::Fold(raw.at)),
        _ => None,
    }
}

/// What the event does beside calls, if it is such a thing. Its core isn't read.
pub fn aside_of(raw: &RawEvent) -> Option<Aside>
    ensures { result ≡ aside_of raw.now }
{
    aside_at(kind_of(raw.kind)?, raw)
}

impl Ask for RawEvent {
    ghost use Rattle.coded.specs.Asked.{asked_of};

    ghost request = { asked_of };

    #[inline(always)]
    fn request(&self) -> Option<Request> {
        asked_of(self)
    }
}

impl Tell for RawOutcome {
    ghost use Rattle.coded.specs.Codes.{reply_code};

    ghost told = { reply_code };

    #[inline(always)]
    fn tell(reply: Reply) -> RawOutcome {
        reply_code(reply)
    }
}
