//! The lines of a core: `cC` and what it is to do, `cC finish` and `cC! REQ`.
ghost use Rattle.std.specs.Prelude.{◌≡◌, ◌<◌, ◌≤◌, option_map, IfSome};
ghost use Rattle.trace_text.specs.Words.{words_of};
ghost use Rattle.trace_text.specs.Request.{ended};
ghost use Rattle.trace_text.specs.Line.{act_of, core_number, core_of, event_of, task_of};

use crate::action::read_action;
use crate::line::Line;
use crate::request::read_request;
use crate::words::next_word;
use vm_base::CoreId;

/// A core's number: 0 to 63 in decimal without a leading zero.
pub fn read_core_number(digits: &[u8]) -> Option<CoreId>
    ensures { result ≡ core_number digits.now }
{
    match digits {
        [d] if *d >= b'0' && *d <= b'9' => Some(CoreId::new(*d - b'0')),
        [d, e] if *d >= b'1' && *d <= b'9' && *e >= b'0' && *e <= b'9' => {
            let n = 10 * (*d - b'0') + (*e - b'0');
            if n > 63 {
                return None;
            }
            Some(CoreId::new(n))
        }
        _ => None,
    }
}

/// The core that a word `cC` names.
pub(crate) fn read_core(word: &[u8]) -> Option<CoreId>
    ensures { result ≡ core_of word.now }
{
    match word {
        [b'c', digits @ ..] => read_core_number(digits),
        _ => None,
    }
}

#[tactic(auto, unfolding(crate::specs::Line::act_of))]
fn read_act(core: CoreId, name: &[u8], args: &[u8]) -> Option<Line>
    ensures { result ≡ act_of core name.now (words_of args.now) }
{
    let action = read_action(name, args)?;
    Some(Line::Act(core, action))
}

// The line, if no word is left.
fn read_end(line: Line, rest: &[u8]) -> Option<Line>
    ensures { result ≡ ended (words_of rest.now) line }
{
    match next_word(rest) {
        Some(_) => None,
        None => Some(line),
    }
}

#[tactic(auto, unfolding(crate::specs::Line::task_of))]
fn read_task(core: CoreId, words: &[u8]) -> Option<Line>
    ensures { result ≡ task_of core (words_of words.now) }
{
    let (name, args) = next_word(words)?;
    if name == b"finish".as_slice() {
        read_end(Line::Finish(core), args)
    } else {
        read_act(core, name, args)
    }
}

/// The line of a core whose first word is `name` and whose other words are in `args`;
/// `None` where they say none.
#[tactic(auto, unfolding(crate::specs::Line::event_of, crate::specs::Line::now_of))]
pub(crate) fn read_core_line(name: &[u8], args: &[u8]) -> Option<Line>
    ensures { result ≡ event_of name.now (words_of args.now) }
{
    match name {
        [word @ .., b'!'] => {
            let core = read_core(word)?;
            let request = read_request(args)?;
            Some(Line::Now(core, request))
        }
        _ => {
            let core = read_core(name)?;
            read_task(core, args)
        }
    }
}
