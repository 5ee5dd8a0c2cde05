//! The program: `command_line` over standard input and output.
//!
//! It opens the streams, and knows nothing else.
#![tactic(auto)]

use command_line::command::{WordsFault, program, refuse_words};
use command_line::output::Noted;
use command_line::terminals::Terminals;
use live_script::OnThreads;
use std::io::{BufWriter, IsTerminal};
use std::process::ExitCode;
use trace_io::sink::TrackedSink;

fn main(rt: HostRuntime) -> ExitCode {
    let alloc = rt.alloc();
    let mut errors = rt.stderr();
    let Ok(buffer) = BufWriter::new(alloc, Noted::new(rt.stdout())) else {
        return ExitCode::from(refuse_words(WordsFault::NoMemory, &mut errors));
    };
    let mut out = TrackedSink::new(buffer);
    let terminals = Terminals {
        input: rt.stdin().is_terminal(),
        output: rt.stdout().is_terminal(),
        errors: errors.is_terminal(),
    };
    let status = program(
        &rt,
        &alloc,
        alloc,
        (&rt, &rt, &OnThreads),
        rt.stdin(),
        &mut out,
        &mut errors,
        terminals,
    );
    ExitCode::from(status)
}
