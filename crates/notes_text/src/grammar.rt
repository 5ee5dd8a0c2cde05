//! What lines of notes say, against their grammar.
ghost use Rattle.notes_text.specs.Laws.{NotesAreOne, ReadsAllOutcomes, ReadsOnlyOutcomes};
ghost use Rattle.notes_text.specs.TextLaws.{LinesAreShort, NamedFits, NotesDeclare, SaidIsNotRefused, SaysOne, ScriptsDeclare, WrittenIsSaid};
ghost use Rattle.notes_text.specs.WrittenLaws.{WritesWhatIsRead};

/// Words that name an outcome are read as it (`all`), and words that are read as an outcome name it (`only`). A line names at
/// most one note (`one`). `read_note` answers a note that the line names, or none where it names none: so it answers this one.
pub fn notes_grammar()
    ensures all { ReadsAllOutcomes }
    ensures only { ReadsOnlyOutcomes }
    ensures one { NotesAreOne }
{}

/// The line that is written of a note names it, as `write_notes` writes it, and by `notes_grammar` it names no other: it is read
/// back as that note. This holds of each note whose pages have addresses below 2^64, and which waits for the acknowledgements
/// of some core if it waits for any.
pub fn written_notes()
    ensures { WritesWhatIsRead }
{}

/// The text that `write_notes` writes says what is declared, and then the notes in their order, each with its ticket, event and
/// outcome (`written`). No text says two lists of notes, or two declarations (`one`). So whoever reads it is given those that were
/// written, or learns that a read failed or that there was no memory (`read`).
pub fn written_texts()
    ensures written { WrittenIsSaid }
    ensures one { SaysOne }
    ensures read { SaidIsNotRefused }
{}

/// What is read can be written: a note that a line names fits (`named`), and so does what notes (`declared`) or a script
/// (`script`) declare. The line that is written of a note is short enough to be read, if it waits only where it goes on with a
/// call (`short`).
pub fn texts_fit()
    ensures named { NamedFits }
    ensures declared { NotesDeclare }
    ensures script { ScriptsDeclare }
    ensures short { LinesAreShort }
{}
