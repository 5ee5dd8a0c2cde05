//! Notes that are read, and written in order of their tickets, as those of threads are.
use notes_text::kept_notes::KeptNotes;
use notes_text::noted_line::NoteLines;
use notes_text::write_notes;
use seats::{NoteList, Noted};
use std::alloc::Global;
use std::io::{BufWriter, Read, Write};
use trace_io::sink;
use trace_io::source::Counted;
use trace_words::collecting::collect;
use trace_words::declaration::Declaration;
use trace_words::{Script, read_script};

/// A script that declares the same space, without files, and gives no core a task.
fn script_of(alloc: Global, declared: &Declaration) -> Option<Script<Global>> {
    let (cores, frames, calls) = (declared.cores(), declared.frames(), declared.calls());
    let Ok(text) = format!(in alloc; "vm {cores} {frames} {calls}\n") else {
        return None;
    };
    let mut reader = Counted::new(text.as_bytes());
    read_script(alloc, &mut reader).ok()
}

/// Reads notes of a space without files, and writes them. Tells whether that went well.
pub fn rewrite<R: Read + Drop, W: Write + Drop>(alloc: Global, input: R, output: W) -> bool {
    let mut reader = Counted::new(input);
    let list: NoteList<Global> = NoteList::new(alloc, alloc);
    let notes = KeptNotes { list };
    let Ok(collected) = collect::<NoteLines, Noted, KeptNotes<Global>, Global, _>(
        alloc,
        notes,
        &mut reader,
    ) else {
        return false;
    };
    let Some(declared) = collected.declaration() else {
        return false;
    };
    let Some(script) = script_of(alloc, declared) else {
        return false;
    };
    let Ok(buffer) = BufWriter::new(alloc, output) else {
        return false;
    };
    let mut writer = sink::TrackedSink::new(buffer);
    let notes = collected.items().list.notes();
    write_notes(&script, &[notes], &mut writer).is_ok()
}
