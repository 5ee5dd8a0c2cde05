//! What is written of an outcome and of a clause.
ghost use Rattle.std.specs.Prelude.{◌≡◌, ◌+◌, ◌≤◌, ◌++◌, IfOk, OnOk, codes, decimal, length};
ghost use Rattle.trace_words.specs.Written.{core_word};
ghost use Rattle.trace_text.specs.Printing.{address_of, text_of};
ghost use Rattle.litmus_text.specs.Scripts.{claim_of};
ghost use Rattle.litmus_report.specs.Texts.{call_text, clause_text, counts_text, fact_text, final_text, finals_text, joint_text, lead_in, more_text};
ghost use Rattle.litmus_report.specs.Texts.{often_text};
ghost use Rattle.litmus_report.specs.Counts.{plain_text};
ghost use Rattle.litmus_report.specs.Texts.{observation_text, outcome_text, quantifier_text, reached_text, replies_text, terms_text, verdict_text};

use crate::mappings::add_if_mapped;
use crate::verdict::{ClauseVerdict, HasOutcome, Named};
use litmus_merges::Asked;
use litmus_text::facts::{Connective, Fact, Term};
use litmus_text::kinds::Quantifier;
use litmus_text::script::Clause;
use std::alloc::Allocator;
use trace_text::{LineText, address_text, number_text, push_number, push_reply};
use vm_base::{CoreId, NoMemory, Reply};

/// The number of no core.
const NO_CORE: u64 = 64;

/// Appends the bytes. Where memory is refused nothing is appended.
pub(crate) fn add_text<A: Allocator>(out: &mut Vec<u8, A>, text: &str) -> Result<(), NoMemory>
    ensures { OnOk result (out.new.items ≡ out.old.items ++ text.now) }
{
    out.extend_from_slice(text.as_bytes())?;
    Ok(())
}

/// Appends the number.
pub(crate) fn add_number<A: Allocator>(out: &mut Vec<u8, A>, number: u64) -> Result<(), NoMemory>
    ensures { OnOk result (out.new.items ≡ out.old.items ++ decimal number) }
{
    let digits = number_text(number);
    out.extend_from_slice(digits.as_str().as_bytes())?;
    Ok(())
}

/// Appends the address.
pub(crate) fn add_address<A: Allocator>(out: &mut Vec<u8, A>, addr: u64) -> Result<(), NoMemory>
    ensures { OnOk result (out.new.items ≡ out.old.items ++ address_of addr) }
{
    let digits = address_text(addr);
    out.extend_from_slice(digits.as_str().as_bytes())?;
    Ok(())
}

// Appends the reply.
fn add_reply<A: Allocator>(out: &mut Vec<u8, A>, reply: Reply) -> Result<(), NoMemory>
    ensures { OnOk result (out.new.items ≡ out.old.items ++ text_of reply) }
{
    let mut text = LineText::new();
    push_reply(&mut text, reply);
    out.extend_from_slice(text.as_str().as_bytes())?;
    Ok(())
}

/// Appends the word of a core.
pub(crate) fn add_core<A: Allocator>(out: &mut Vec<u8, A>, core: u64) -> Result<(), NoMemory>
    ensures { OnOk result (out.new.items ≡ out.old.items ++ core_word core) }
{
    add_text(out, "c")?;
    add_number(out, core)
}

// Appends what stands before a core's reply, behind one of the core before.
fn add_lead_in<A: Allocator>(out: &mut Vec<u8, A>, before: u64, core: u64) -> Result<(), NoMemory>
    ensures { OnOk result (out.new.items ≡ out.old.items ++ lead_in before core) }
{
    if before == core {
        return add_text(out, ", ");
    }
    if before != NO_CORE {
        add_text(out, "; ")?;
    }
    add_core(out, core)?;
    add_text(out, " ")
}

// Appends the replies to the calls, one core's after another's.
#[tactic(auto, using(crate::proofs::TextLemmas::written_more, crate::proofs::TextLemmas::written_all, crate::proofs::TextLemmas::replies_more, crate::proofs::TextLemmas::replies_end))]
fn add_replies<A: Allocator>(
    out: &mut Vec<u8, A>,
    calls: &[Asked],
    replies: &[Reply],
) -> Result<(), NoMemory>
    ensures { OnOk result (out.new.items ≡ out.old.items ++ replies_text 64 calls.now replies.now) }
{
    let mut before = NO_CORE;
    let mut at = 0;
    'calls: while at < calls.len() && at < replies.len() {
        let core = u64::from(calls[at].core.index());
        add_lead_in(out, before, core)?;
        add_reply(out, replies[at])?;
        before = core;
        at += 1;
    }
    Ok(())
}

// Appends what a load of a final address shows.
fn add_final<A: Allocator>(out: &mut Vec<u8, A>, addr: u64, reply: Reply) -> Result<(), NoMemory>
    ensures { OnOk result (out.new.items ≡ out.old.items ++ final_text addr reply) }
{
    add_text(out, "; ")?;
    add_address(out, addr)?;
    add_text(out, " ")?;
    add_reply(out, reply)
}

// Appends what loads of the final addresses show.
#[tactic(auto, using(crate::proofs::TextLemmas::written_more, crate::proofs::TextLemmas::written_all, crate::proofs::TextLemmas::finals_more, crate::proofs::TextLemmas::finals_end))]
fn add_finals<A: Allocator>(
    out: &mut Vec<u8, A>,
    addrs: &[u64],
    finals: &[Reply],
) -> Result<(), NoMemory>
    ensures { OnOk result (out.new.items ≡ out.old.items ++ finals_text addrs.now finals.now) }
{
    let mut at = 0;
    'addrs: while at < addrs.len() && at < finals.len() {
        add_final(out, addrs[at], finals[at])?;
        at += 1;
    }
    Ok(())
}

fn reached_word(is_reached: bool) -> &'static str
    ensures { result.now ≡ reached_text is_reached }
{
    if is_reached { "" } else { " (open)" }
}

/// The text of an outcome: `c0 done; c1 1, 2`, behind it `; ADDR BYTE` for each final address, `; maps ` and the mappings where they
/// are asked for, and ` (open)` where it isn't known to come about.
pub fn outcome_text<T: HasOutcome, A: Allocator>(
    alloc: A,
    named: &Named<'_>,
    outcome: &T,
) -> Result<Vec<u8, A>, NoMemory>
    ensures { IfOk result (λ text. text.items ≡ outcome_text named.now.calls.now named.now.addrs.now named.now.maps (T.outcome outcome.now)) }
{
    let mut out: Vec<u8, A> = Vec::new(alloc);
    add_replies(&mut out, named.calls, outcome.replies())?;
    add_finals(&mut out, named.addrs, outcome.finals())?;
    add_if_mapped(&mut out, named.maps, outcome.maps())?;
    add_text(&mut out, reached_word(outcome.is_reached()))?;
    Ok(out)
}

/// The text of an outcome without a mark where it isn't known to come about.
pub(crate) fn plain_text<T: HasOutcome, A: Allocator>(
    alloc: A,
    named: &Named<'_>,
    outcome: &T,
) -> Result<Vec<u8, A>, NoMemory>
    ensures { IfOk result (λ text. text.items ≡ plain_text named.now.calls.now named.now.addrs.now named.now.maps (T.outcome outcome.now)) }
{
    let mut out: Vec<u8, A> = Vec::new(alloc);
    add_replies(&mut out, named.calls, outcome.replies())?;
    add_finals(&mut out, named.addrs, outcome.finals())?;
    add_if_mapped(&mut out, named.maps, outcome.maps())?;
    Ok(out)
}

fn quantifier_word(quantifier: Quantifier) -> &'static str
    ensures { result.now ≡ quantifier_text quantifier }
{
    match quantifier {
        Quantifier::Exists => "exists",
        Quantifier::Never => "never",
        Quantifier::Forall => "forall",
    }
}

fn joint_word(joint: Connective) -> &'static str
    ensures { result.now ≡ joint_text joint }
{
    match joint {
        Connective::And => " and ",
        Connective::Or => " or ",
    }
}

fn verdict_word(verdict: ClauseVerdict) -> &'static str
    ensures { result.now ≡ verdict_text verdict }
{
    match verdict {
        ClauseVerdict::Holds => ": holds\n",
        ClauseVerdict::Fails => ": fails\n",
        ClauseVerdict::Open => ": open\n",
    }
}

// Appends `cC.N`.
fn add_call<A: Allocator>(out: &mut Vec<u8, A>, core: CoreId, number: u64) -> Result<(), NoMemory>
    ensures { OnOk result (out.new.items ≡ out.old.items ++ call_text core number) }
{
    add_core(out, u64::from(core.index()))?;
    add_text(out, ".")?;
    add_number(out, number)
}

// Appends a fact.
fn add_fact<A: Allocator>(out: &mut Vec<u8, A>, fact: Fact) -> Result<(), NoMemory>
    ensures { OnOk result (out.new.items ≡ out.old.items ++ fact_text fact) }
{
    match fact {
        Fact::Has(core, number, reply) => {
            add_call(out, core, number)?;
            add_text(out, " = ")?;
            add_reply(out, reply)
        }
        Fact::Lacks(core, number, reply) => {
            add_call(out, core, number)?;
            add_text(out, " != ")?;
            add_reply(out, reply)
        }
        Fact::Shows(addr, byte) => {
            add_address(out, addr)?;
            add_text(out, " = ")?;
            add_number(out, u64::from(byte))
        }
    }
}

// Appends facts behind the first, each with its joint.
fn add_more<A: Allocator>(out: &mut Vec<u8, A>, terms: &[Term]) -> Result<(), NoMemory>
    ensures { OnOk result (out.new.items ≡ out.old.items ++ more_text terms.now) }
{
    for term in terms {
        add_text(out, joint_word(term.joint))?;
        add_fact(out, term.fact)?;
    }
    Ok(())
}

// Appends the facts of a clause.
fn add_terms<A: Allocator>(out: &mut Vec<u8, A>, terms: &[Term]) -> Result<(), NoMemory>
    ensures { OnOk result (out.new.items ≡ out.old.items ++ terms_text terms.now) }
{
    match terms {
        [] => Ok(()),
        [first, rest @ ..] => {
            add_fact(out, first.fact)?;
            add_more(out, rest)
        }
    }
}

/// Appends a clause, as a script has it. Where memory is refused a part of it may have been appended.
pub(crate) fn add_clause<A: Allocator, B: Allocator>(
    out: &mut Vec<u8, A>,
    clause: &Clause<B>,
) -> Result<(), NoMemory>
    ensures { OnOk result (out.new.items ≡ out.old.items ++ clause_text (claim_of clause.now)) }
{
    add_text(out, quantifier_word(clause.quantifier))?;
    add_text(out, " ")?;
    add_terms(out, clause.terms.as_slice())
}

/// Appends what a clause comes to, and a newline.
pub(crate) fn add_verdict<A: Allocator>(
    out: &mut Vec<u8, A>,
    verdict: ClauseVerdict,
) -> Result<(), NoMemory>
    ensures { OnOk result (out.new.items ≡ out.old.items ++ verdict_text verdict) }
{
    add_text(out, verdict_word(verdict))
}

fn often_word(positive: u64, negative: u64) -> &'static str
    ensures { result.now ≡ often_text positive negative }
{
    if positive == 0 {
        "Never"
    } else if negative == 0 {
        "Always"
    } else {
        "Sometimes"
    }
}

// Appends how often a condition is so.
fn add_counts<A: Allocator>(
    out: &mut Vec<u8, A>,
    positive: u64,
    negative: u64,
) -> Result<(), NoMemory>
    ensures { OnOk result (out.new.items ≡ out.old.items ++ counts_text positive negative) }
{
    add_text(out, often_word(positive, negative))?;
    add_text(out, " ")?;
    add_number(out, positive)?;
    add_text(out, " ")?;
    add_number(out, negative)?;
    add_text(out, "\n")
}

/// Appends the line that tells of how many outcomes a condition holds, and of how many it doesn't.
pub(crate) fn add_observation<A: Allocator>(
    out: &mut Vec<u8, A>,
    name: &[u8],
    positive: u64,
    negative: u64,
) -> Result<(), NoMemory>
    ensures { OnOk result (out.new.items ≡ out.old.items ++ observation_text name.now positive negative) }
{
    add_text(out, "Observation ")?;
    out.extend_from_slice(name)?;
    add_text(out, " ")?;
    add_counts(out, positive, negative)?;
    Ok(())
}
