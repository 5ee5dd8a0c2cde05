//! The line of a call of a history.
ghost use Rattle.std.specs.Prelude.{◌≡◌, ◌+◌, ◌≤◌, ◌++◌, codes, decimal, length};
ghost use Rattle.trace_text.specs.Printing.{text_of};
ghost use Rattle.trace_words.specs.Written.{request_words, spaced};
ghost use Rattle.live_script.specs.Text.{call_text};

use orders::Timed;
use trace_text::{LineText, number_text, push_count, push_number, push_reply};
use trace_words::request_text::push_request;
use vm_base::{CoreId, Reply};

// Replaces the text by when a call began and was answered.
fn put_times(text: &mut LineText, begin: u64, end: u64)
    ensures bytes { text.new.bytes ≡ decimal begin ++ codes " " ++ decimal end }
    ensures short { length text.new.bytes ≤ 41 }
{
    text.clear();
    push_number(text, begin);
    push_count(text, end);
}

// Appends a space and the word of a core that makes a call and finishes it.
fn push_core(text: &mut LineText, core: CoreId)
    requires { length text.old.bytes + 23 ≤ 256 }
    ensures bytes { text.new.bytes ≡ text.old.bytes ++ codes " c" ++ decimal core ++ codes "!" }
    ensures short { length text.new.bytes ≤ length text.old.bytes + 23 }
{
    text.push_str(" c");
    text.push_str(number_text(u64::from(core.index())).as_str());
    text.push_str("!");
}

// Appends a sign between spaces, the reply and a newline.
fn push_answer(text: &mut LineText, reply: Reply)
    requires { length text.old.bytes + 24 ≤ 256 }
    ensures { text.new.bytes ≡ text.old.bytes ++ codes " = " ++ text_of reply ++ codes "\n" }
{
    text.push_str(" = ");
    push_reply(text, reply);
    text.push_str("\n");
}

/// Replaces the text by the call's line: `BEGIN END cC! REQ = REPLY`, as `run --echo` writes requests and replies.
pub fn put_call(text: &mut LineText, call: &Timed)
    ensures { text.new.bytes ≡ call_text call.now }
{
    put_times(text, call.begin, call.end);
    push_core(text, call.call.core);
    push_request(text, call.call.request);
    push_answer(text, call.call.reply);
}
