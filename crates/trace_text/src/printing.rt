//! What numbers, addresses and replies are written as, in texts of fixed size that take no memory.
ghost use Rattle.std.specs.Prelude.{◌≡◌, ◌+◌, ◌<◌, ◌≤◌, ◌++◌, codes, false, length, decimal, map};
ghost use Rattle.std.specs.Fmt.{digit_glyph};
ghost use Rattle.std.specs.Int.Digits.{digits_of};
ghost use Rattle.arrayvec.specs.ArrayString.{array_string_len};
ghost use Rattle.trace_text.specs.Printing.{address_of, refusal_of, text_of};
ghost use Rattle.trace_text.specs.Spelling.{letter};

use arrayvec::ArrayString;
use vm_base::{Errno, Reply, SegvCode};

/// A text of at most 20 bytes: each number below 2^64 fits, and each address.
pub type ShortText = ArrayString<20>;

/// Room for one line of output.
pub type LineText = ArrayString<256>;

// The character of a hexadecimal digit, in lower case.
fn digit_character(digit: u8) -> char
    requires { digit < 16 }
    ensures value { result ≡ digit_glyph false digit }
    ensures ascii { result < 128 }
{
    if digit < 10 {
        (b'0' + digit) as char
    } else {
        (b'a' + (digit - 10)) as char
    }
}

// Appends the hexadecimal digits, none for 0.
fn push_digits(text: &mut ShortText, number: u64)
    requires { array_string_len text.old + length (digits_of 16 number) ≤ 20 }
    ensures { text.new.bytes ≡ text.old.bytes ++ map (digit_glyph false) (digits_of 16 number) }
{
    if number > 0 {
        push_digits(text, number / 16);
        text.push(digit_character((number % 16) as u8));
    }
}

/// The number in decimal digits without leading zeros, `0` for zero.
pub fn number_text(number: u64) -> ShortText
    ensures { result.bytes ≡ decimal number }
{
    let mut buffer = itoa::Buffer::new();
    let mut text = ShortText::new();
    text.push_str(buffer.format(number));
    text
}

/// The address, or the offset, as `0x` and lower case hexadecimal digits without leading
/// zeros, `0x0` for zero.
pub fn address_text(address: u64) -> ShortText
    ensures { result.bytes ≡ address_of address }
{
    let mut text = ShortText::new();
    text.push_str("0x");
    if address == 0 {
        text.push_str("0");
    } else {
        push_digits(&mut text, address);
    }
    text
}

/// Appends the number, as `number_text` has it.
#[inline(always)]
pub fn push_number(text: &mut LineText, number: u64)
    requires { length text.old.bytes + 20 ≤ 256 }
    ensures bytes { text.new.bytes ≡ text.old.bytes ++ decimal number }
    ensures short { length text.new.bytes ≤ length text.old.bytes + 20 }
{
    let mut buffer = itoa::Buffer::new();
    let digits = buffer.format(number);
    text.push_str(digits);
}

// The character of a decimal digit.
#[inline(always)]
fn decimal_character(digit: u8) -> char
    requires { digit < 10 }
    ensures value { result ≡ 48 + digit }
    ensures ascii { result < 128 }
{
    (b'0' + digit) as char
}

// Appends the byte, as `number_text` has it, digit by digit.
#[inline(always)]
fn push_byte(text: &mut LineText, byte: u8)
    requires { length text.old.bytes + 20 ≤ 256 }
    ensures bytes { text.new.bytes ≡ text.old.bytes ++ decimal byte }
    ensures short { length text.new.bytes ≤ length text.old.bytes + 20 }
{
    if byte >= 100 {
        text.push(decimal_character(byte / 100));
        text.push(decimal_character(byte / 10 % 10));
        text.push(decimal_character(byte % 10));
    } else if byte >= 10 {
        text.push(decimal_character(byte / 10));
        text.push(decimal_character(byte % 10));
    } else {
        text.push(decimal_character(byte));
    }
}

fn refusal_word(errno: Errno) -> &'static str
    ensures value { result.now ≡ refusal_of errno }
    ensures short { length result.now ≤ 20 }
{
    match errno {
        Errno::EINVAL => "einval",
        Errno::ENOMEM => "enomem",
        Errno::EACCES => "eacces",
        Errno::EBADF => "ebadf",
        Errno::EOVERFLOW => "eoverflow",
    }
}

/// Appends the reply as a trace's output has it: an address, a byte in decimal, or words
/// in lower case, without a newline.
#[inline(always)]
pub fn push_reply(text: &mut LineText, reply: Reply)
    requires { length text.old.bytes + 20 ≤ 256 }
    ensures bytes { text.new.bytes ≡ text.old.bytes ++ text_of reply }
    ensures short { length text.new.bytes ≤ length text.old.bytes + 20 }
{
    match reply {
        Reply::Mapped(address) => text.push_str(address_text(address).as_str()),
        Reply::Done => text.push_str("done"),
        Reply::Byte(byte) => push_byte(text, byte),
        Reply::Refused(errno) => text.push_str(refusal_word(errno)),
        Reply::Segv(SegvCode::MapErr) => text.push_str("segv maperr"),
        Reply::Segv(SegvCode::AccErr) => text.push_str("segv accerr"),
        Reply::Bus => text.push_str("bus"),
        Reply::NoFrame => text.push_str("noframe"),
        Reply::NoMemory => text.push_str("nomemory"),
    }
}

/// Appends a space and the word.
pub fn push_word(text: &mut LineText, word: &str)
    requires { length text.old.bytes + length word.now + 1 ≤ 256 }
    ensures bytes { text.new.bytes ≡ text.old.bytes ++ codes " " ++ word.now }
    ensures long { length text.new.bytes ≡ length text.old.bytes + length word.now + 1 }
{
    text.push_str(" ");
    text.push_str(word);
}

/// Appends a space and the address.
pub fn push_address(text: &mut LineText, address: u64)
    requires { length text.old.bytes + 21 ≤ 256 }
    ensures bytes { text.new.bytes ≡ text.old.bytes ++ codes " " ++ address_of address }
    ensures short { length text.new.bytes ≤ length text.old.bytes + 21 }
{
    push_word(text, address_text(address).as_str());
}

/// Appends a space and the number.
pub fn push_count(text: &mut LineText, number: u64)
    requires { length text.old.bytes + 21 ≤ 256 }
    ensures bytes { text.new.bytes ≡ text.old.bytes ++ codes " " ++ decimal number }
    ensures short { length text.new.bytes ≤ length text.old.bytes + 21 }
{
    push_word(text, number_text(number).as_str());
}

/// Appends a flag's letter, if it is set.
pub fn push_letter(text: &mut LineText, is_set: bool, word: &str)
    requires room { length text.old.bytes + 1 ≤ 256 }
    requires one { length word.now ≤ 1 }
    ensures bytes { text.new.bytes ≡ text.old.bytes ++ letter is_set word.now }
    ensures short { length text.new.bytes ≤ length text.old.bytes + 1 }
{
    if is_set {
        text.push_str(word);
    }
}
