//! What is written of a script that was run on a machine that threads share.
ghost use Rattle.std.specs.Prelude.{◌≡◌, ◌≤◌, ◌++◌, OnOk, length, map, true};
ghost use Rattle.std.specs.List.{flat_map};
ghost use Rattle.vm_base.specs.Log.{nth};
ghost use Rattle.trace_io.specs.Io.{IsWritten, written_to};
ghost use Rattle.shared.specs.Histories.{history_of};
ghost use Rattle.shared_script.specs.Texts.{call_line, entry_line, shared_text, told_line, told_lines};

use crate::logged::Logged;
use crate::running::RunMachine;
use shared::Replied;
use trace_io::sink::{Sink, WriteFailed, write_all};
use trace_text::{LineText, push_number, push_reply};
use trace_words::declaration::Declaration;
use trace_words::declaring::write_declaration;
use trace_words::request_text::push_request;
use vm_base::{Entry, Request};

// Replaces the text by the line of the call, with its reply, behind these words.
fn put_call(text: &mut LineText, mark: &str, core: u64, call: Replied)
    requires { length mark.now ≤ 2 }
    ensures { text.new.bytes ≡ mark.now ++ call_line core call }
{
    text.clear();
    text.push_str(mark);
    text.push_str("c");
    push_number(text, core);
    text.push_str("!");
    push_request(text, call.request);
    text.push_str(" = ");
    push_reply(text, call.reply);
    text.push_str("\n");
}

// Writes the lines of a core's calls.
fn write_core<W: Sink>(writer: &mut W, core: u64, told: &[Replied]) -> Result<(), WriteFailed>
    ensures { IsWritten result (written_to W.Sink writer.old writer.new) (flat_map (told_line core) told.now) }
{
    let mut text = LineText::new();
    let mut at = 0;
    'calls: while at < told.len() {
        let call = told[at];
        put_call(&mut text, "# ", core, call);
        if let Err(failed) = write_all(writer, text.as_str().as_bytes()) {
            return Err(failed);
        }
        at += 1;
    }
    Ok(())
}

// Writes the lines of all cores' calls, in order of cores.
fn write_cores<W: Sink>(writer: &mut W, told: &[Vec<Replied>]) -> Result<(), WriteFailed>
    ensures { IsWritten result (written_to W.Sink writer.old writer.new) (told_lines 0 (map (λ told. told.items) told.now)) }
{
    let mut core = 0;
    'cores: while core < told.len() {
        if let Err(failed) = write_core(writer, core as u64, told[core].as_slice()) {
            return Err(failed);
        }
        core += 1;
    }
    Ok(())
}

// The request of the call with this number, from 1.
fn request_at(requests: &[Request], call: u64) -> Option<Request>
    ensures { result ≡ nth requests.now call }
{
    let at = call.checked_sub(1)?;
    let at = usize::try_from(at).ok()?;
    requests.get(at).copied()
}

// Writes the line of the call that the entry answers, where it answers one.
fn write_entry<W: Sink>(
    writer: &mut W,
    requests: &[Request],
    entry: Entry,
) -> Result<(), WriteFailed>
    ensures { IsWritten result (written_to W.Sink writer.old writer.new) (entry_line requests.now entry) }
{
    let Entry::Answer {
        call,
        core,
        reply,
        ..
    } = entry
    else {
        return Ok(());
    };
    let Some(request) = request_at(requests, call) else {
        return Ok(());
    };
    let mut text = LineText::new();
    put_call(
        &mut text,
        "",
        u64::from(core.index()),
        Replied { request, reply },
    );
    write_all(writer, text.as_str().as_bytes())
}

// Writes the line of each call that the log answers, in order.
fn write_log<W: Sink>(
    writer: &mut W,
    requests: &[Request],
    entries: &[Entry],
) -> Result<(), WriteFailed>
    ensures { IsWritten result (written_to W.Sink writer.old writer.new) (flat_map (entry_line requests.now) entries.now) }
{
    let mut at = 0;
    'entries: while at < entries.len() {
        let entry = entries[at];
        if let Err(failed) = write_entry(writer, requests, entry) {
            return Err(failed);
        }
        at += 1;
    }
    Ok(())
}

// Writes what is declared, what each core was told, and the log.
fn write_lines<S: Logged, W: Sink>(
    writer: &mut W,
    declaration: &Declaration,
    ran: &RunMachine<S>,
) -> Result<(), WriteFailed>
    ensures { IsWritten result (written_to W.Sink writer.old writer.new)
        (shared_text declaration.now (map (λ told. told.items) ran.now.told.items) (history_of (S.state ran.now.machine))) }
{
    if let Err(failed) = write_declaration(writer, declaration) {
        return Err(failed);
    }
    if let Err(failed) = write_cores(writer, ran.told.as_slice()) {
        return Err(failed);
    }
    write_log(writer, ran.machine.requests(), ran.machine.entries())
}

/// Writes what is declared, then behind `# ` the calls of each core with the replies that its thread was told, in order of
/// cores, and then the calls of all cores with their replies in the order of the machine's log. After an `Ok` all of it has gone
/// out; at an `Err` a front of it was written.
pub fn write_ran<S: Logged, W: Sink>(
    writer: &mut W,
    declaration: &Declaration,
    ran: &RunMachine<S>,
) -> Result<(), WriteFailed>
    ensures wrote { IsWritten result (written_to W.Sink writer.old writer.new)
        (shared_text declaration.now (map (λ told. told.items) ran.now.told.items) (history_of (S.state ran.now.machine))) }
    ensures out { OnOk result (W.is_flushed writer.new ≡ true) }
{
    if let Err(failed) = write_lines(writer, declaration, ran) {
        return Err(failed);
    }
    writer.flush()
}
