//! What stands in quotes.
ghost use Rattle.std.specs.Prelude.{◌≡◌};
ghost use Rattle.import_lines.specs.Quotes.{past_quote, quoted, up_to_quote};

// What stands after the first quote.
fn past_quote(text: &[u8]) -> &[u8]
    ensures { result.now ≡ past_quote text.now }
{
    let mut at = 0;
    'bytes: while at < text.len() {
        if text[at] == b'"' {
            let (_, rest) = text.split_at(at + 1);
            return rest;
        }
        at += 1;
    }
    b"".as_slice()
}

// What stands before the first quote.
fn up_to_quote(text: &[u8]) -> &[u8]
    ensures { result.now ≡ up_to_quote text.now }
{
    let mut count = 0;
    'bytes: while count < text.len() && text[count] != b'"' {
        count += 1;
    }
    let (front, _) = text.split_at(count);
    front
}

/// What stands between the first two quotes.
pub(crate) fn quoted(text: &[u8]) -> &[u8]
    ensures { result.now ≡ quoted text.now }
{
    up_to_quote(past_quote(text))
}
