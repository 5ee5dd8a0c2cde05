//! Notes as text: what is written of them, and what certifying a text comes to.
use notes_text::{certify_text, write_notes};
use seats::Notes;
use std::alloc::{Allocator, Global};
use trace_io::sink;
use trace_io::source::Counted;
use trace_words::fault::TraceFault;
use trace_words::{Script, read_script};
use vm_base::NoMemory;

/// What a script says, in this memory.
pub fn script_read<A: Allocator + Clone + Drop>(
    memory: A,
    text: &str,
) -> Result<Script<A>, TraceFault> {
    let mut reader = Counted::new(text.as_bytes());
    read_script(memory, &mut reader)
}

/// What has been written, and behind it the fault, where there is one.
fn written(
    alloc: Global,
    bytes: &[u8],
    end: Result<(), TraceFault>,
) -> Result<String<Global>, NoMemory> {
    let text = str::from_utf8(bytes).unwrap_or("not UTF-8");
    let mut out = String::from_str(alloc, text)?;
    if let Err(fault) = end {
        out.push_str(&format!(in alloc; "fault {fault}\n")?)?;
    }
    Ok(out)
}

/// The text of the notes of these seats, in a space that the script declares.
pub fn text_of<A: Allocator + Clone + Drop>(
    alloc: Global,
    script: &Script<A>,
    seats: &[Notes<'_>],
) -> Result<String<Global>, NoMemory> {
    let mut writer = sink::TrackedSink::unbuffered(alloc, Vec::new(alloc));
    let end = write_notes(script, seats, &mut writer);
    written(alloc, writer.writer.get_ref(), end)
}

/// What certifying the text writes, in this memory.
pub fn verdict_in<A: Allocator + Clone + Drop>(
    alloc: Global,
    memory: A,
    text: &str,
) -> Result<String<Global>, NoMemory> {
    let mut reader = Counted::new(text.as_bytes());
    let mut writer = sink::TrackedSink::unbuffered(alloc, Vec::new(alloc));
    let end = match certify_text(memory, &mut reader, &mut writer) {
        Ok(_) => Ok(()),
        Err(fault) => Err(fault),
    };
    written(alloc, writer.writer.get_ref(), end)
}
