//! The forms in which a state is written, and the words that begin and end a line.
ghost use Rattle.std.specs.Prelude.{◌≡◌};
ghost use Rattle.state_text.specs.Forms.{core_word, end_word};

/// How a state is written.
#[derive(Clone, Copy)]
pub enum Form {
    /// A line of words for each.
    Text,
    /// A JSON object a line.
    Json,
}

/// What begins a line about a core, before its number.
pub(crate) fn core_word(form: Form) -> &'static str
    ensures { result.now ≡ core_word form }
{
    match form {
        Form::Text => "core ",
        Form::Json => "{\"core\":",
    }
}

/// What ends a line.
pub(crate) fn end_word(form: Form) -> &'static str
    ensures { result.now ≡ end_word form }
{
    match form {
        Form::Text => "\n",
        Form::Json => "}\n",
    }
}
