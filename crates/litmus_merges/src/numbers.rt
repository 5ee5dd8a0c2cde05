//! Numbers by which ends are told apart: two ends with different ones have different replies or finals.
ghost use Rattle.std.specs.Prelude.{◌≡◌, ◌<◌, ◌^◌};
ghost use Rattle.litmus_merges.specs.Numbers.{mixed, mixed_all, number_of, reply_number};

use vm_base::{Reply, SegvCode};

/// What comes behind the last number.
const LIMIT: u64 = 1 << 32;

/// A number for a reply.
fn reply_number(reply: Reply) -> u64
    ensures value { result ≡ reply_number reply }
    ensures small { result < 2 ^ 9 }
{
    match reply {
        Reply::Byte(byte) => u64::from(byte),
        Reply::Done => 256,
        Reply::Segv(SegvCode::MapErr) => 257,
        Reply::Segv(SegvCode::AccErr) => 258,
        Reply::Bus => 259,
        Reply::Refused(_) => 260,
        Reply::Mapped(_) => 261,
        Reply::NoFrame => 262,
        Reply::NoMemory => 263,
    }
}

/// A number and that of a reply.
fn mixed(number: u64, reply: Reply) -> u64
    requires { number < 2 ^ 32 }
    ensures value { result ≡ mixed number reply }
    ensures small { result < 2 ^ 32 }
{
    (number * 33 + reply_number(reply)) % LIMIT
}

/// A number and those of all replies of a list.
fn mixed_all(number: u64, replies: &[Reply]) -> u64
    requires { number < 2 ^ 32 }
    ensures value { result ≡ mixed_all number replies.now }
    ensures small { result < 2 ^ 32 }
{
    let mut all = number;
    'replies: for k in 0..replies.len() {
        let reply = replies[k];
        all = mixed(all, reply);
    }
    all
}

/// A number for replies and finals.
pub(crate) fn number_of(replies: &[Reply], finals: &[Reply]) -> u64
    ensures { result ≡ number_of replies.now finals.now }
{
    mixed_all(mixed_all(0, replies), finals)
}
