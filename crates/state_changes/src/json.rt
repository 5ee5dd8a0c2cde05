//! Texts as JSON that may stand in a page.
ghost use Rattle.std.specs.Prelude.{◌≡◌, ◌++◌, ◌<◌, OnOk};
ghost use Rattle.std.specs.List.{flat_map};
ghost use Rattle.state_changes.specs.Json.{escaped, hex_digit, string_text};

use std::alloc::AllocError;

// A digit in base 16.
fn hex_digit(value: u8) -> u8
    requires { value < 16 }
    ensures { result ≡ hex_digit value }
{
    if value < 10 {
        b'0' + value
    } else {
        b'a' + (value - 10)
    }
}

// Appends a byte of a string.
fn put_byte(out: &mut Vec<u8>, byte: u8) -> Result<(), AllocError>
    ensures { OnOk result (out.new.items ≡ out.old.items ++ escaped byte) }
{
    if byte == b'\n' {
        out.extend_from_slice(b"\\n")?;
    } else if byte == b'"' || byte == b'\\' {
        out.extend_from_slice(&[b'\\', byte])?;
    } else if byte < 32 || byte == 127 || byte == b'<' {
        out.extend_from_slice(&[
            b'\\',
            b'u',
            b'0',
            b'0',
            hex_digit(byte / 16),
            hex_digit(byte % 16),
        ])?;
    } else {
        out.push(byte)?;
    }
    Ok(())
}

/// Appends a string: quotes, backslashes, newlines, control bytes and `<` are escaped.
pub(crate) fn put_string(out: &mut Vec<u8>, text: &[u8]) -> Result<(), AllocError>
    ensures { OnOk result (out.new.items ≡ out.old.items ++ string_text text.now) }
{
    out.push(b'"')?;
    let mut at = 0;
    'bytes: while at < text.len() {
        put_byte(out, text[at])?;
        at += 1;
    }
    out.push(b'"')?;
    Ok(())
}
