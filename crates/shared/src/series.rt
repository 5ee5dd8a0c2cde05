//! Many whole calls of one core, one after another.
ghost use Rattle.std.specs.Prelude.{◌≡◌, ◌<◌, ◌≤◌, List, Option, length, map};
ghost use Rattle.machine_model.specs.Alone.{IsCalm};
ghost use Rattle.core_steps.specs.Machine.{IsLegal};
ghost use Rattle.vm_base.specs.declared.requests.Request.{Request as RequestOf};
ghost use Rattle.vm_base.specs.declared.replies.Reply.{Reply as ReplyOf};
ghost use Rattle.shared.specs.declared.history.Replied.{Replied as RepliedOf};
ghost use Rattle.shared.specs.Serial.{AreTold, EndsSeries, MakesOne, stop_after};

use crate::whole::{CallEnd, Whole};
use vm_base::{CoreId, Reply, Request};

/// What may ask for a call.
pub trait Ask {
    /// The request that it is, if it is one.
    ghost request: { Self → Option RequestOf };

    /// The request that it is, if it is one.
    fn request(&self) -> Option<Request>
        ensures { result ≡ request self.now };
}

/// What may tell a reply.
pub trait Tell: Copy {
    /// What tells this reply.
    ghost told: { ReplyOf → Self };

    /// What tells this reply.
    fn tell(reply: Reply) -> Self
        ensures { result ≡ told reply };
}

impl Ask for Request {
    ghost use Rattle.std.specs.Prelude.{Some};

    ghost request = { λ request. Some request };

    fn request(&self) -> Option<Request> {
        Some(*self)
    }
}

impl Tell for Reply {
    ghost told = { λ reply. reply };

    fn tell(reply: Reply) -> Reply {
        reply
    }
}

/// Why a series of calls ended.
#[derive(Clone, Copy, PartialEq, Eq)]
pub enum SeriesEnd {
    /// All calls were made.
    Done,
    /// What comes next is no call.
    NoCall,
    /// Memory was refused to the last call that was made: it was given up, as its reply tells.
    NoMemory,
    /// The next call couldn't begin: a limit of the machine is reached, that of calls or that of events.
    Refused,
    /// The next call couldn't be ended: the limit of events is reached. It may stand in the log, with a reply.
    Spent,
}

/// How far a series of calls went.
#[derive(Clone, Copy, PartialEq, Eq)]
pub struct Series {
    /// How many calls were made, and told.
    pub made: usize,
    /// Why it ended.
    pub stop: SeriesEnd,
}

// Why a series ends after a call with this reply, if it does.
fn stop_after(reply: Reply) -> SeriesEnd
    ensures { result ≡ stop_after reply }
{
    if reply == Reply::NoMemory {
        SeriesEnd::NoMemory
    } else {
        SeriesEnd::Done
    }
}

// Makes a call, if it is one, and tells its reply, if it gets one.
#[inline(always)]
fn make_one<S: Whole, Q: Ask, T: Tell>(
    machine: &mut S,
    core: CoreId,
    ask: &Q,
    told: &mut T,
) -> SeriesEnd
    requires here { core < (S.state machine.old).made.cores }
    requires calm { IsCalm (S.state machine.old) }
    requires legal { IsLegal (S.state machine.old) }
    ensures makes { MakesOne T.told (S.state machine.old) core (Q.request ask.now) told.old result told.new
        (S.state machine.new) }
    ensures made { (S.state machine.new).made ≡ (S.state machine.old).made }
    ensures legal { IsLegal (S.state machine.new) }
{
    let Some(request) = ask.request() else {
        return SeriesEnd::NoCall;
    };
    match machine.call_whole(core, request) {
        CallEnd::Reply(reply) => {
            *told = T::tell(reply);
            stop_after(reply)
        }
        CallEnd::Refused => SeriesEnd::Refused,
        CallEnd::Spent => SeriesEnd::Spent,
    }
}

/// Makes the calls of this core, each whole, in order, and tells each reply in its place, up to what is no call, a call to which
/// memory is refused, or a limit. The other places stay as they were.
pub fn call_each<S: Whole, Q: Ask, T: Tell>(
    machine: &mut S,
    core: CoreId,
    asks: &[Q],
    told: &mut [T],
) -> Series
    requires here { core < (S.state machine.old).made.cores }
    requires calm { IsCalm (S.state machine.old) }
    requires legal { IsLegal (S.state machine.old) }
    requires room { length asks.now ≤ length told.old }
    ensures ends { (added : List RepliedOf) × AreTold T.told added told.old told.new × (result.made ≡ length added)
        × EndsSeries (S.state machine.old) core (map Q.request asks.now) added result.stop (S.state machine.new) }
    ensures made { (S.state machine.new).made ≡ (S.state machine.old).made }
    ensures legal { IsLegal (S.state machine.new) }
{
    'calls: for at in 0..asks.len() {
        match make_one(machine, core, &asks[at], &mut told[at]) {
            SeriesEnd::Done => {}
            SeriesEnd::NoMemory => {
                return Series {
                    made: at + 1,
                    stop: SeriesEnd::NoMemory,
                };
            }
            SeriesEnd::NoCall => {
                return Series {
                    made: at,
                    stop: SeriesEnd::NoCall,
                };
            }
            SeriesEnd::Refused => {
                return Series {
                    made: at,
                    stop: SeriesEnd::Refused,
                };
            }
            SeriesEnd::Spent => {
                return Series {
                    made: at,
                    stop: SeriesEnd::Spent,
                };
            }
        }
    }
    Series {
        made: asks.len(),
        stop: SeriesEnd::Done,
    }
}
