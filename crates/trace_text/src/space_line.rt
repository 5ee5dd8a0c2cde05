//! The line `vm CORES FRAMES` or `vm CORES FRAMES CALLS`, which says how large a space is.
ghost use Rattle.std.specs.Prelude.{◌≡◌, option_map};
ghost use Rattle.trace_text.specs.Words.{words_of};
ghost use Rattle.trace_text.specs.Line.{limit_of, space_of};

use crate::line::Line;
use crate::number::next_number;
use crate::words::next_word;

/// How many calls a space may begin where the line leaves it out.
pub const DEFAULT_CALLS: u64 = 4096;

#[tactic(auto, unfolding(crate::specs::Line::limit_of))]
fn read_calls(cores: u64, frames: u64, args: &[u8]) -> Option<Line>
    ensures { result ≡ limit_of cores frames (words_of args.now) }
{
    if next_word(args).is_none() {
        return Some(Line::Space {
            cores,
            frames,
            calls: DEFAULT_CALLS,
        });
    }
    let (calls, rest) = next_number(args)?;
    if next_word(rest).is_some() {
        return None;
    }
    Some(Line::Space {
        cores,
        frames,
        calls,
    })
}

/// The line of these words after `vm`; `None` where they are no such line. Whether a
/// space of this size can be made isn't tested here.
#[tactic(auto, unfolding(crate::specs::Line::space_of))]
pub(crate) fn read_space(args: &[u8]) -> Option<Line>
    ensures { result ≡ space_of (words_of args.now) }
{
    let (cores, rest) = next_number(args)?;
    let (frames, rest) = next_number(rest)?;
    read_calls(cores, frames, rest)
}
