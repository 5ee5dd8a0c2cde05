//! What holds of all texts that are written of scripts.
ghost use Rattle.live_script.specs.ReadBack.{TextsAreReadBack};

/// The text that `run_text` writes of a script can be read back: it says what the script declares, and just the notes that the
/// seats made, in order of their tickets. It says nothing else, and a reader is given those, unless a read fails or memory is
/// wanting: `notes_text::grammar::written_texts`.
pub fn texts_are_read_back()
    ensures { TextsAreReadBack }
{}
