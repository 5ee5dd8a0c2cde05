//! What a line of a trace says.
ghost use Rattle.std.specs.Prelude.{◌≡◌, IfSome, Some, codes, option_map, true};
ghost use Rattle.trace_text.specs.Front.{BeginsCore, BeginsNow, NamesByOne, NamesByTwo};
ghost use Rattle.trace_text.specs.Words.{words_of};
ghost use Rattle.trace_text.specs.Line.{are_printable, begins_with, begins_with_file, begins_with_vm};
ghost use Rattle.trace_text.specs.Line.{fold_of, is_comment, line_of, line_of_words, task_of};

use crate::action::{Action, front_action, read_page_alone};
use crate::core_line::read_core_line;
use crate::file_line::read_file;
use crate::request::read_request;
use crate::space_line::read_space;
use crate::words::next_word;
use vm_base::{CoreId, Mode, Request};

/// What a line says.
#[derive(Clone, Copy, Debug)]
pub enum Line {
    /// Nothing: no word, or a comment.
    Blank,
    /// `vm CORES FRAMES CALLS`: a space of this many cores and frames, in which this many calls may begin.
    Space {
        cores: u64,
        frames: u64,
        calls: u64,
    },
    /// `file N MODE LEN SEED`: the file with this number is open for this, and has so
    /// many bytes. The byte at offset `i` is `(seed + i) mod 256`.
    File {
        number: u64,
        mode: Mode,
        len: u64,
        seed: u8,
    },
    /// `cC` and an action: the core does it.
    Act(CoreId, Action),
    /// `fold ADDR`: slots are joined at the page with this number.
    Fold(u64),
    /// `cC finish`: all steps of the core's call.
    Finish(CoreId),
    /// `cC! REQ`: the core begins a call and finishes it.
    Now(CoreId, Request),
}

/// Tells whether each byte is printable ASCII, 0x20 to 0x7e. A line with another byte is bad, a
/// comment too. It looks at all bytes even after a bad one, so that many are compared at once.
pub fn is_printable(bytes: &[u8]) -> bool
    ensures { result ≡ are_printable bytes.now }
{
    let mut printable = true;
    for b in bytes {
        printable &= *b >= 0x20 && *b <= 0x7e;
    }
    printable
}

// Tells whether the line is a comment: its first byte is `#`.
fn is_comment(bytes: &[u8]) -> bool
    ensures { result ≡ is_comment bytes.now }
{
    match bytes {
        [b'#', ..] => true,
        _ => false,
    }
}

/// Tells whether each byte of the line is printable, which says this, as `read_line` told. A line that
/// is read has no other bytes, so only those of a comment or of a bad line are looked at.
#[tactic(auto, using(crate::proofs::PrintableLemmas::line_printable))]
pub fn is_printable_line(bytes: &[u8], said: &Option<Line>) -> bool
    requires { said.now ≡ line_of bytes.now }
    ensures { result ≡ are_printable bytes.now }
{
    if !is_comment(bytes) && said.is_some() {
        return true;
    }
    is_printable(bytes)
}

// Tells whether this is the first word.
fn first_word_is(bytes: &[u8], word: &[u8]) -> bool
    ensures { result ≡ begins_with word.now (words_of bytes.now) }
{
    match next_word(bytes) {
        Some((name, _)) => name == word,
        None => false,
    }
}

/// Tells whether the first word is `vm`; a line without words has none.
pub fn first_word_is_vm(bytes: &[u8]) -> bool
    ensures { result ≡ begins_with_vm (words_of bytes.now) }
{
    first_word_is(bytes, b"vm")
}

/// Tells whether the first word is `file`; a line without words has none.
pub fn first_word_is_file(bytes: &[u8]) -> bool
    ensures { result ≡ begins_with_file (words_of bytes.now) }
{
    first_word_is(bytes, b"file")
}

#[tactic(auto, unfolding(crate::specs::Line::fold_of))]
fn read_fold(args: &[u8]) -> Option<Line>
    ensures { result ≡ fold_of (words_of args.now) }
{
    let page = read_page_alone(args)?;
    Some(Line::Fold(page))
}

// The core that is named by this digit.
#[inline(always)]
#[tactic(auto, using(crate::proofs::FrontLemmas::one_named))]
fn core_of_one(digit: u8) -> Option<CoreId>
    ensures { IfSome result (λ core. NamesByOne digit core) }
{
    if digit < b'0' || digit > b'9' {
        return None;
    }
    Some(CoreId::new(digit - b'0'))
}

// The core that is named by these two digits.
#[inline(always)]
#[tactic(auto, using(crate::proofs::FrontLemmas::two_named))]
fn core_of_two(tens: u8, ones: u8) -> Option<CoreId>
    ensures { IfSome result (λ core. NamesByTwo tens ones core) }
{
    if tens < b'1' || tens > b'6' || ones < b'0' || ones > b'9' {
        return None;
    }
    let number = (tens - b'0') * 10 + (ones - b'0');
    if number >= 64 {
        return None;
    }
    Some(CoreId::new(number))
}

// A core of one digit that makes a call and finishes it, and the bytes of the call.
#[inline(always)]
fn one_digit_now(bytes: &[u8]) -> Option<(CoreId, &[u8])>
    ensures { IfSome result (λ f. BeginsNow bytes.now f.0 f.1.now) }
{
    match bytes {
        [b'c', digit, b'!', b' ', args @ ..] => {
            let core = core_of_one(*digit)?;
            Some((core, args))
        }
        _ => None,
    }
}

// A core of two digits that makes a call and finishes it, and the bytes of the call.
#[inline(always)]
fn two_digits_now(bytes: &[u8]) -> Option<(CoreId, &[u8])>
    ensures { IfSome result (λ f. BeginsNow bytes.now f.0 f.1.now) }
{
    match bytes {
        [b'c', tens, ones, b'!', b' ', args @ ..] => {
            let core = core_of_two(*tens, *ones)?;
            Some((core, args))
        }
        _ => None,
    }
}

/// A core that makes a call and finishes it, and the bytes of the call.
#[inline(always)]
pub(crate) fn front_now(bytes: &[u8]) -> Option<(CoreId, &[u8])>
    ensures { IfSome result (λ f. BeginsNow bytes.now f.0 f.1.now) }
{
    if let Some(begun) = one_digit_now(bytes) {
        return Some(begun);
    }
    two_digits_now(bytes)
}

// A core of one digit with one action, and the bytes of the action.
#[inline(always)]
fn one_digit_core(bytes: &[u8]) -> Option<(CoreId, &[u8])>
    ensures { IfSome result (λ f. BeginsCore bytes.now f.0 f.1.now) }
{
    match bytes {
        [b'c', digit, b' ', action @ ..] => {
            let core = core_of_one(*digit)?;
            Some((core, action))
        }
        _ => None,
    }
}

// A core of two digits with one action, and the bytes of the action.
#[inline(always)]
fn two_digits_core(bytes: &[u8]) -> Option<(CoreId, &[u8])>
    ensures { IfSome result (λ f. BeginsCore bytes.now f.0 f.1.now) }
{
    match bytes {
        [b'c', tens, ones, b' ', action @ ..] => {
            let core = core_of_two(*tens, *ones)?;
            Some((core, action))
        }
        _ => None,
    }
}

/// A core with one action, and the bytes of the action.
#[inline(always)]
pub(crate) fn front_core(bytes: &[u8]) -> Option<(CoreId, &[u8])>
    ensures { IfSome result (λ f. BeginsCore bytes.now f.0 f.1.now) }
{
    if let Some(begun) = one_digit_core(bytes) {
        return Some(begun);
    }
    two_digits_core(bytes)
}

// Tells whether these bytes are `finish`.
#[inline(always)]
fn is_finish(bytes: &[u8]) -> bool
    ensures { result ≡ true → bytes.now ≡ codes "finish" }
{
    match bytes {
        [b'f', b'i', b'n', b'i', b's', b'h'] => true,
        _ => false,
    }
}

// What these bytes tell the core, where that is one of the commonest and they begin with its name;
// `None` where it isn't, or they tell it nothing that a line may.
#[inline(always)]
fn front_task(core: CoreId, bytes: &[u8]) -> Option<Line>
    ensures { IfSome result (λ line. Some line ≡ task_of core (words_of bytes.now)) }
{
    if is_finish(bytes) {
        return Some(Line::Finish(core));
    }
    let action = front_action(bytes)?;
    Some(Line::Act(core, action))
}

#[tactic(auto, unfolding(crate::specs::Line::line_of_words))]
fn read_by_first_word(bytes: &[u8]) -> Option<Line>
    ensures { result ≡ line_of_words (words_of bytes.now) }
{
    let Some((name, args)) = next_word(bytes) else {
        return Some(Line::Blank);
    };
    if name == b"vm".as_slice() {
        read_space(args)
    } else if name == b"file".as_slice() {
        read_file(args)
    } else if name == b"fold".as_slice() {
        read_fold(args)
    } else {
        read_core_line(name, args)
    }
}

/// What the words say, whether or not a `#` comes first; `None` where they say nothing that a line may.
/// Most are known by their first bytes, and their first word isn't looked for.
pub fn read_words(bytes: &[u8]) -> Option<Line>
    ensures { result ≡ line_of_words (words_of bytes.now) }
{
    if let Some(begun) = front_now(bytes) {
        let request = read_request(begun.1)?;
        return Some(Line::Now(begun.0, request));
    }
    if let Some(begun) = front_core(bytes)
        && let Some(line) = front_task(begun.0, begun.1)
    {
        return Some(line);
    }
    read_by_first_word(bytes)
}

/// What a line of printable bytes says, without its newline; `None` where it is a bad
/// line. A line whose first byte is `#` is a comment. It isn't inlined: its caller would copy
/// what the line says piece by piece.
#[inline(never)]
pub fn read_line(bytes: &[u8]) -> Option<Line>
    ensures { result ≡ line_of bytes.now }
{
    if is_comment(bytes) {
        return Some(Line::Blank);
    }
    read_words(bytes)
}
