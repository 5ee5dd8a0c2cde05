//! Files by their names, in comments of a trace: what a line shows of a name.
ghost use Rattle.std.specs.Prelude.{◌≡◌, ◌++◌, ◌-◌, ◌<◌, IfOk, OnErr, OnOk, drop, length, take};
ghost use Rattle.std.specs.Str.{bytes_eq};
ghost use Rattle.import_steps.specs.Names.{bare, byte_shown, digit, is_plain, name_shown, without_sign};
ghost use Rattle.import_steps.specs.Taking.{last_name, with_name};

use import_maps::names::Name;
use std::alloc::AllocError;

/// How many bytes show a file's name at most, except for the two dots after it.
pub const NAME: usize = 200;

/// How many do beside a range.
pub const NAME_OF_RANGE: usize = 180;

// Tells whether the names end with this one.
fn ends(names: &[u8], name: &[u8]) -> bool
    ensures { result ≡ bytes_eq (drop (length names.now - length name.now) names.now) name.now }
{
    let (_, last) = names.split_at(names.len().saturating_sub(name.len()));
    last == name
}

/// Adds a name after the others, unless they end with it, and answers where it stands. Where there is no memory they
/// stay as they are.
pub fn note_name(names: &mut Vec<u8>, name: &[u8]) -> Result<Name, AllocError>
    ensures names { OnOk result (names.new.items ≡ with_name names.old.items name.now) }
    ensures name { IfOk result (λ n. n ≡ last_name names.new.items name.now) }
    ensures err { OnErr result (names.new.items ≡ names.old.items) }
{
    if !ends(names.as_slice(), name) {
        names.extend_from_slice(name)?;
    }
    Ok(Name {
        from: names.len().saturating_sub(name.len()),
        len: name.len(),
    })
}

/// The name that stands there.
#[tactic(auto, using(std::proofs::lemmas::List::take_min, std::proofs::lemmas::List::drop_min))]
pub fn name_at(names: &[u8], name: Name) -> &[u8]
    ensures { result.now ≡ take name.len (drop name.from names.now) }
{
    let (_, rest) = names.split_at(name.from.min(names.len()));
    let (front, _) = rest.split_at(name.len.min(rest.len()));
    front
}

// A hexadecimal digit.
fn digit(number: u8) -> u8
    requires { number < 16 }
    ensures { result ≡ digit number }
{
    if number < 10 {
        48 + number
    } else {
        87 + number
    }
}

// Tells whether the byte shows itself.
fn is_plain(byte: u8) -> bool
    ensures { result ≡ is_plain byte }
{
    byte >= 33 && byte <= 126 && byte != 92
}

// How many bytes show this byte.
fn width(byte: u8) -> usize
    ensures { result ≡ length (byte_shown byte) }
{
    if is_plain(byte) { 1 } else { 4 }
}

// Appends what shows the byte.
fn push_byte(all: &mut Vec<u8>, byte: u8) -> Result<(), AllocError>
    ensures { OnOk result (all.new.items ≡ all.old.items ++ byte_shown byte) }
{
    if is_plain(byte) {
        all.push(byte)?;
        return Ok(());
    }
    all.extend_from_slice(b"\\x")?;
    all.push(digit(byte / 16))?;
    all.push(digit(byte % 16))?;
    Ok(())
}

/// Appends a name, as far as this many bytes show it, and two dots where it goes on.
#[tactic(auto, using(crate::proofs::NameLemmas::name_more, crate::proofs::NameLemmas::name_cut))]
pub fn push_name(all: &mut Vec<u8>, name: &[u8], room: usize) -> Result<(), AllocError>
    ensures { OnOk result (all.new.items ≡ all.old.items ++ name_shown room name.now) }
{
    let mut left = room;
    let mut at = 0;
    'bytes: while at < name.len() {
        let byte = name[at];
        let width = width(byte);
        if left < width {
            all.extend_from_slice(b"..")?;
            return Ok(());
        }
        push_byte(all, byte)?;
        left -= width;
        at += 1;
    }
    Ok(())
}

// What stands before a `>` at the end.
fn without_sign(name: &[u8]) -> &[u8]
    ensures { result.now ≡ without_sign name.now }
{
    if name.is_empty() {
        return name;
    }
    let end = name.len() - 1;
    if name[end] == b'>' {
        let (front, _) = name.split_at(end);
        return front;
    }
    name
}

/// A file's name as strace shows it, `<NAME>`, without these signs; a descriptor as it is.
pub fn bare(name: &[u8]) -> &[u8]
    ensures { result.now ≡ bare name.now }
{
    if name.is_empty() {
        return name;
    }
    if name[0] == b'<' {
        let (_, rest) = name.split_at(1);
        return without_sign(rest);
    }
    name
}
