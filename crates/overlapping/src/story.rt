//! A history as a text: the mappings that its first calls leave, and the lines of the others.
ghost use Rattle.std.specs.Prelude.{◌≡◌, ◌<◌, ◌≤◌, ◌⊎◌, ◌++◌, IfNone, IfOk, IfSome, OnOk, length, take};
ghost use Rattle.trace_io.specs.Lines.{lines_of};
ghost use Rattle.vm_base.specs.Plain.{nothing_mapped};
ghost use Rattle.frames.specs.Given.{given_files};
ghost use Rattle.audit.specs.Auditor.{plain_of};
ghost use Rattle.audit.specs.Placing.{rule_of};
ghost use Rattle.overlapping.specs.Story.{AreWrong, HasMappings, IsStory, are_behind, first_mapped, is_mapped, mappings_text, most_first, without_times};
ghost use Rattle.core_text.specs.Told.{numbered_text};

use audit::{Auditor, Call};
use core_text::push_numbered;
use frames::FileSpec;
use no_order::files_again;
use orders::Timed;
use radix_range::RadixMap;
use slot_lock::{MapLine, SlotMap, all_lines};
use std::alloc::Allocator;
use trace_text::{LineText, write_map_line};
use vm_base::{NoMemory, Reply};

// Tells whether each of these calls began after this time.
fn are_behind(end: u64, calls: &[Timed]) -> bool
    ensures { result ≡ are_behind end calls.now }
{
    let [first, rest @ ..] = calls else {
        return true;
    };
    end < first.begin && are_behind(end, rest)
}

fn is_mapped(reply: Reply) -> bool
    ensures { result ≡ is_mapped reply }
{
    matches!(reply, Reply::Mapped(_))
}

// How many first calls there are that mapped pages, and each ended before all behind it began.
fn first_mapped(calls: &[Timed]) -> usize
    ensures { result ≡ first_mapped calls.now }
{
    'calls: for at in 0..calls.len() {
        let timed = calls[at];
        let is_first = is_mapped(timed.call.reply) && are_behind(timed.end, &calls[at + 1..]);
        if !is_first {
            return at;
        }
    }
    calls.len()
}

// Appends these calls, without their times.
#[tactic(auto, using(crate::proofs::StoryLemmas::pushed_calls, crate::proofs::StoryLemmas::pushed_no_call))]
fn push_calls<A: Allocator>(out: &mut Vec<Call, A>, calls: &[Timed]) -> Result<(), NoMemory>
    ensures { OnOk result (out.new.items ≡ out.old.items ++ without_times calls.now) }
{
    let [first, rest @ ..] = calls else {
        return Ok(());
    };
    out.push(first.call)?;
    push_calls(out, rest)
}

// The mappings that these calls leave behind those judged before, if their replies are the plain page map's.
fn mappings_behind<M: SlotMap, A: Allocator + Clone>(
    alloc: &A,
    auditor: &mut Auditor<M, A>,
    first: &[Call],
) -> Result<Option<Vec<MapLine, A>>, NoMemory>
    ensures mapped { IfOk result (λ found. IfSome found (λ mappings.
        HasMappings (rule_of auditor.old.any_place) (plain_of auditor.old) first.now mappings.items)) }
    ensures wrong { IfOk result (λ found. IfNone found
        (AreWrong (rule_of auditor.old.any_place) (plain_of auditor.old) first.now)) }
{
    match auditor.judge_all(first)? {
        Some(_) => Ok(None),
        None => {
            let mappings = all_lines(auditor.map(), alloc.clone()?)?;
            Ok(Some(mappings))
        }
    }
}

// The mappings that these calls leave in a space with these files, if their replies are the plain page map's.
fn mappings_left<A: Allocator + Clone + Drop>(
    alloc: &A,
    files: &[FileSpec<A>],
    any_place: bool,
    first: &[Call],
) -> Result<Option<Vec<MapLine, A>>, NoMemory>
    requires { length files.now ≤ 16 }
    ensures mapped { IfOk result (λ found. IfSome found (λ mappings.
        HasMappings (rule_of any_place) (nothing_mapped (given_files files.now)) first.now mappings.items)) }
    ensures wrong { IfOk result (λ found. IfNone found
        (AreWrong (rule_of any_place) (nothing_mapped (given_files files.now)) first.now)) }
{
    let map = RadixMap::new(alloc.clone()?)?;
    let again = files_again(alloc, files)?;
    let mut auditor = Auditor::new(alloc.clone()?, map, again, any_place)?;
    let mappings = mappings_behind(alloc, &mut auditor, first)?;
    Ok(mappings)
}

// Appends the lines of mappings.
#[tactic(auto, using(crate::proofs::StoryLemmas::pushed_mappings, crate::proofs::StoryLemmas::pushed_no_mapping))]
fn push_mappings<A: Allocator>(out: &mut Vec<u8, A>, mappings: &[MapLine]) -> Result<(), NoMemory>
    ensures { OnOk result (out.new.items ≡ out.old.items ++ mappings_text mappings.now) }
{
    let [first, rest @ ..] = mappings else {
        return Ok(());
    };
    let mut text = LineText::new();
    write_map_line(&mut text, first.range, first.prot, first.back);
    out.extend_from_slice(text.as_str().as_bytes())?;
    push_mappings(out, rest)
}

// Tells a history of a space with these files: the mappings that so many first calls leave, and the lines of the others, if the replies of these
// are the plain page map's.
#[tactic(auto, using(crate::proofs::StoryLemmas::few_first))]
fn story_behind<A: Allocator + Clone + Drop>(
    alloc: &A,
    files: &[FileSpec<A>],
    any_place: bool,
    text: &[u8],
    calls: &[Timed],
    numbers: &[u64],
    count: usize,
) -> Result<Option<Vec<u8, A>>, NoMemory>
    requires files { length files.now ≤ 16 }
    requires few { count ≤ most_first calls.now numbers.now }
    requires most { (count ≡ most_first calls.now numbers.now)
        ⊎ AreWrong (rule_of any_place) (nothing_mapped (given_files files.now))
        (without_times (take (most_first calls.now numbers.now) calls.now)) }
    ensures told { IfOk result (λ found. IfSome found (λ told.
        IsStory (rule_of any_place) (nothing_mapped (given_files files.now)) calls.now
        (lines_of text.now) numbers.now told.items)) }
    ensures wrong { IfOk result (λ found. IfNone found
        (AreWrong (rule_of any_place) (nothing_mapped (given_files files.now)) (without_times (take count calls.now)))) }
{
    let mut first = Vec::new(alloc.clone()?);
    push_calls(&mut first, &calls[..count])?;
    let Some(mappings) = mappings_left(alloc, files, any_place, first.as_slice())? else {
        return Ok(None);
    };
    let mut out = Vec::new(alloc.clone()?);
    push_mappings(&mut out, mappings.as_slice())?;
    push_numbered(&mut out, text, &numbers[count..])?;
    Ok(Some(out))
}

/// Tells a history of a space with these files: the mappings that its first calls leave, and the lines of the others, if these are no more
/// than so many. The numbers are those of the lines of all its calls.
pub(crate) fn story<A: Allocator + Clone + Drop>(
    alloc: &A,
    files: &[FileSpec<A>],
    any_place: bool,
    text: &[u8],
    calls: &[Timed],
    numbers: &[u64],
    most: usize,
) -> Result<Option<Vec<u8, A>>, NoMemory>
    requires { length files.now ≤ 16 }
    ensures told { IfOk result (λ found. IfSome found (λ told.
        IsStory (rule_of any_place) (nothing_mapped (given_files files.now)) calls.now
        (lines_of text.now) numbers.now told.items)) }
    ensures long { IfOk result (λ found. IfNone found (most < length numbers.now)) }
{
    let mut count = first_mapped(calls).min(numbers.len());
    'counts: loop {
        if numbers.len() - count > most {
            return Ok(None);
        }
        let found = story_behind(alloc, files, any_place, text, calls, numbers, count)?;
        let is_told = found.is_some();
        if is_told {
            return Ok(found);
        }
        // (the replies of no calls aren't wrong)
        if count == 0 {
            return Ok(found);
        }
        count -= 1;
    }
}
