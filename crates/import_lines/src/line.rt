//! What a line of a log says, and the name that it shows.
ghost use Rattle.std.specs.Prelude.{◌≡◌};
ghost use Rattle.import_lines.specs.Lines.{asked_name, is_half, kept_of, kept_text, mapped_name, name_in};

use crate::quotes::quoted;
use import_forms::said::{Said, read_call, read_file_name};
use import_forms::speech::{begun, returned};
use vm_base::Request;

/// What is kept of a line's text.
#[derive(Clone, Copy)]
pub(crate) struct Line<'a> {
    /// Whether it is of half of a call.
    pub(crate) half: bool,
    /// What the call says, if it's whole.
    pub(crate) said: Said,
    /// The name that the call shows; of half of a call the whole text.
    pub(crate) name: &'a [u8],
}

// Tells whether the text is of half of a call.
fn is_half(text: &[u8]) -> bool
    ensures { result ≡ is_half text.now }
{
    begun(text).is_some() || returned(text).is_some()
}

// The name of the file that a request maps.
fn asked_name(request: Request, text: &[u8]) -> &[u8]
    ensures { result.now ≡ asked_name request text.now }
{
    match request {
        Request::Mmap { flags, .. } => {
            if flags.anon {
                b"".as_slice()
            } else {
                read_file_name(text)
            }
        }
        Request::Munmap { .. }
        | Request::Mprotect { .. }
        | Request::Load { .. }
        | Request::Store { .. }
        | Request::Fetch { .. } => b"".as_slice(),
    }
}

/// The name that a call shows which says this.
pub(crate) fn name_in(said: Said, text: &[u8]) -> &[u8]
    ensures { result.now ≡ name_in said text.now }
{
    match said {
        Said::Asks(request) => asked_name(request, text),
        Said::Begins => quoted(text),
        Said::Breaks(_)
        | Said::Moves { .. }
        | Said::Makes { .. }
        | Said::Keyed(_)
        | Said::Sizes { .. }
        | Said::Attaches { .. }
        | Said::Detaches(_)
        | Said::Clears { .. }
        | Said::Loses(_)
        | Said::Ends
        | Said::Fails
        | Said::Unread
        | Said::Other => b"".as_slice(),
    }
}

/// What is kept of this text.
pub(crate) fn read_line(text: &[u8]) -> Line<'_>
    ensures { kept_of result ≡ kept_text text.now }
{
    if is_half(text) {
        return Line {
            half: true,
            said: Said::Other,
            name: text,
        };
    }
    let said = read_call(text);
    Line {
        half: false,
        said,
        name: name_in(said, text),
    }
}
