//! How many of the steps belong to a line.
ghost use Rattle.std.specs.Prelude.{◌≡◌, ◌≤◌, length, min};
ghost use Rattle.core_steps.specs.Finishing.{finish_limit};
ghost use Rattle.trace_text.specs.Line.{line_of};
ghost use Rattle.state_changes.specs.Spans.{call_len, count_of, span_of, steps_to_end};

use crate::recorder::StateStep;
use trace_text::{Line, read_line};

/// How many steps finish a call at the most.
const FINISH_LIMIT: usize = 1 << 40;

// How many steps there are up to the first behind which the call doesn't go on, or how many all are.
fn steps_to_end(moments: &[StateStep]) -> usize
    ensures value { result ≡ steps_to_end moments.now }
    ensures within { result ≤ length moments.now }
{
    let mut at = 0;
    'moments: while at < moments.len() {
        let goes_on = moments[at].goes_on();
        at += 1;
        if !goes_on {
            return at;
        }
    }
    at
}

// How many steps finish a call.
fn finish_len(moments: &[StateStep]) -> usize
    ensures value { result ≡ min (steps_to_end moments.now) finish_limit }
    ensures within { result ≤ length moments.now }
{
    steps_to_end(moments).min(FINISH_LIMIT)
}

// How many steps begin and finish a call, if it can begin.
fn call_len(moments: &[StateStep]) -> usize
    ensures value { result ≡ call_len moments.now }
    ensures within { result ≤ length moments.now }
{
    let Some((first, others)) = moments.split_first() else {
        return 0;
    };
    if first.goes_on() {
        1 + finish_len(others)
    } else {
        1
    }
}

// How many steps a line that says this makes.
fn count_of(said: &Option<Line>, moments: &[StateStep]) -> usize
    ensures value { result ≡ count_of said.now moments.now }
    ensures within { result ≤ length moments.now }
{
    match said {
        None | Some(Line::Blank) | Some(Line::Space { .. }) | Some(Line::File { .. }) => 0,
        Some(Line::Act(..)) | Some(Line::Fold(_)) => moments.len().min(1),
        Some(Line::Finish(_)) => finish_len(moments),
        Some(Line::Now(..)) => call_len(moments),
    }
}

/// How many steps a line makes, of those from its first one on.
pub fn span_of(line: &[u8], moments: &[StateStep]) -> usize
    ensures value { result ≡ span_of line.now moments.now }
    ensures within { result ≤ length moments.now }
{
    count_of(&read_line(line), moments)
}
