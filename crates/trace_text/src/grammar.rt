//! What a line says, against the grammar of lines: nothing else is read, and nothing in
//! the grammar is refused.
ghost use Rattle.trace_text.specs.Grammar.{ReadsAll, ReadsOnly, ReadsPrintable, ReadsPrinted};

/// Each line of the grammar is read as what it says (`all`), and what is read is in the
/// grammar (`only`), so that its bytes are printable (`printable`). A printed number or
/// address is read back as itself (`printed`).
pub fn grammar()
    ensures all { ReadsAll }
    ensures only { ReadsOnly }
    ensures printable { ReadsPrintable }
    ensures printed { ReadsPrinted }
{}
