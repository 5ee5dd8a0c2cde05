//! What an event is written as.
ghost use Rattle.std.specs.Prelude.{◌≡◌, ◌+◌, ◌≤◌, ◌++◌, codes, decimal, length};
ghost use Rattle.trace_words.specs.Written.{event_words, spaced};
ghost use Rattle.trace_text.specs.Lists.{start_of};

use crate::request_text::push_request;
use machine_model::Event;
use trace_text::{LineText, number_text, push_count, push_start, push_word};
use vm_base::CoreId;

// Appends a space, the core's word, a space and this word.
fn push_core(text: &mut LineText, core: CoreId, word: &str)
    requires room { length text.old.bytes + 29 ≤ 256 }
    requires few { length word.now ≤ 6 }
    ensures bytes { text.new.bytes ≡ text.old.bytes ++ codes " c" ++ decimal core ++ codes " " ++ word.now }
    ensures short { length text.new.bytes ≤ length text.old.bytes + 29 }
{
    text.push_str(" c");
    text.push_str(number_text(u64::from(core.index())).as_str());
    push_word(text, word);
}

// Appends a space and the page's address.
fn push_page(text: &mut LineText, page: u64)
    requires { length text.old.bytes + 24 ≤ 256 }
    ensures bytes { text.new.bytes ≡ text.old.bytes ++ codes " " ++ start_of page }
    ensures short { length text.new.bytes ≤ length text.old.bytes + 24 }
{
    text.push_str(" ");
    push_start(text, page);
}

/// Appends the words of the event, each after a space, as a line of a trace has them; a page by its address.
pub fn push_event(text: &mut LineText, event: Event)
    requires { length text.old.bytes + 129 ≤ 256 }
    ensures bytes { text.new.bytes ≡ text.old.bytes ++ spaced (event_words event) }
    ensures short { length text.new.bytes ≤ length text.old.bytes + 129 }
{
    match event {
        Event::Call(core, request) => {
            push_core(text, core, "call");
            push_request(text, request);
        }
        Event::Go(core) => push_core(text, core, "go"),
        Event::Frame(core, frame) => {
            push_core(text, core, "frame");
            push_count(text, frame);
        }
        Event::Guess(core, page) => {
            push_core(text, core, "guess");
            push_page(text, page);
        }
        Event::Whole(core) => push_core(text, core, "whole"),
        Event::Take(core) => push_core(text, core, "take"),
        Event::Walk(core, page) => {
            push_core(text, core, "walk");
            push_page(text, page);
        }
        Event::Evict(core, page) => {
            push_core(text, core, "evict");
            push_page(text, page);
        }
        Event::Flush(core) => push_core(text, core, "flush"),
        Event::Review(core) => push_core(text, core, "review"),
        Event::Fold(page) => {
            push_word(text, "fold");
            push_page(text, page);
        }
        Event::GiveUp(core) => push_core(text, core, "giveup"),
    }
}
