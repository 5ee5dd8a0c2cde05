//! A replay beside which it is noted where calls were asked for.
ghost use Rattle.std.specs.Prelude.{◌≡◌, ◌+◌, ◌≤◌, ◌++◌, length};
ghost use Rattle.trace.specs.Asking.{asked_text, begins_call, call_asked, line_core};

use crate::replayer::Staged;
use machine_log::LoggedEntries;
use slot_lock::MapLine;
use trace_text::{Action, Line, LineText, push_number, read_line};
use trace_words::fault::TraceFault;
use trace_words::request_text::push_request;
use vm_base::{CoreId, Request};

/// A call that began: the number of the line that asked for it, and what it asked for.
#[derive(Clone, Copy)]
pub struct AskedAt {
    pub line: u64,
    pub request: Request,
}

/// The calls that cores began last.
#[derive(Clone, Copy)]
pub struct Asks {
    /// Whether they are looked for.
    pub is_wanted: bool,
    /// The number of the present line.
    pub line: u64,
    /// Of each core its call.
    pub calls: [Option<AskedAt>; 64],
    /// The core of the last line, if it had one.
    pub core: Option<CoreId>,
}

// The core whose line it is.
fn line_core(said: &Option<Line>) -> Option<CoreId>
    ensures { result ≡ line_core said.now }
{
    match said {
        Some(Line::Act(core, _)) | Some(Line::Finish(core)) | Some(Line::Now(core, _)) => Some(
            *core,
        ),
        None
        | Some(Line::Blank)
        | Some(Line::Space { .. })
        | Some(Line::File { .. })
        | Some(Line::Fold(_)) => None,
    }
}

// The call that a line asks for.
fn call_asked(said: &Option<Line>) -> Option<Request>
    ensures { result ≡ call_asked said.now }
{
    match said {
        Some(Line::Act(_, Action::Call(request))) | Some(Line::Now(_, request)) => Some(*request),
        _ => None,
    }
}

// Whether a call that was asked for has begun.
fn begins_call(text: &LineText) -> bool
    ensures { result ≡ begins_call text.now.bytes }
{
    let told = text.as_str().as_bytes();
    !(told == b"idle\n".as_slice() || told == b"full\n".as_slice())
}

// Appends where the core's call was asked for.
fn push_asked(text: &mut LineText, core: CoreId, asked: AskedAt)
    requires { length text.old.bytes + 160 ≤ 256 }
    ensures { text.new.bytes ≡ text.old.bytes ++ asked_text core (Some asked) }
{
    text.push_str(" (line ");
    push_number(text, asked.line);
    text.push_str(": c");
    push_number(text, u64::from(core.index()));
    push_request(text, asked.request);
    text.push_str(")");
}

impl Asks {
    ghost use Rattle.std.specs.Prelude.{◌≡◌};
    ghost use Rattle.trace.specs.Asking.{asks_after, nothing_asked, whose_text, with_call};

    /// None yet.
    pub fn new(is_wanted: bool) -> Asks
        ensures { result ≡ nothing_asked is_wanted }
    {
        Asks {
            is_wanted,
            line: 0,
            calls: [None; 64],
            core: None,
        }
    }

    // The call of the core, where one began at this line.
    fn note_call(&mut self, core: Option<CoreId>, request: Option<Request>, begins: bool)
        ensures { self.new ≡ record self.old { calls = with_call core request begins self.old.line self.old.calls } }
    {
        if let Some(core) = core
            && let Some(request) = request
            && begins
        {
            self.calls[core.index() as usize] = Some(AskedAt {
                line: self.line,
                request,
            });
        }
    }

    // That the present line, which was acted on, gave this text.
    fn note(&mut self, line: &[u8], text: &LineText)
        ensures { self.new ≡ asks_after self.old line.now text.now.bytes }
    {
        if !self.is_wanted {
            return;
        }
        let said = read_line(line);
        self.note_call(line_core(&said), call_asked(&said), begins_call(text));
        self.core = line_core(&said);
    }

    /// Of the call that the last line's core has, the line that asked for it, the core and the request, in brackets.
    pub fn whose(&self) -> LineText
        ensures { result.bytes ≡ whose_text self.now }
    {
        let mut text = LineText::new();
        if let Some(core) = self.core
            && let Some(asked) = self.calls[core.index() as usize]
        {
            push_asked(&mut text, core, asked);
        }
        text
    }
}

/// A replay, and the calls that cores began last.
#[derive(Drop)]
pub struct Asking<R> {
    pub replayer: R,
    pub asks: Asks,
}

impl<R: Staged> Staged for Asking<R> {
    ghost use Rattle.trace.specs.Asking.{NotesLine};

    ghost stage = { λ a. R.stage a.replayer };

    ghost keeps = { R.keeps };

    ghost saw = { λ first now lines text. NotesLine first.asks now.asks lines text };

    fn act(&mut self, number: u64, line: &[u8], text: &mut LineText) -> Result<(), TraceFault> {
        match self.replayer.act(number, line, text) {
            Ok(()) => {
                self.asks.note(line, text);
                Ok(())
            }
            Err(fault) => Err(fault),
        }
    }

    fn finish(&self) -> Result<(), TraceFault> {
        self.replayer.finish()
    }

    fn log(&self) -> Option<LoggedEntries<'_>> {
        self.replayer.log()
    }

    fn next_map_line(&self, from: u64) -> Option<MapLine> {
        self.replayer.next_map_line(from)
    }
}
