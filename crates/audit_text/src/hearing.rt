//! The calls of a text, judged one after another, and those that wait.
ghost use Rattle.std.specs.Prelude.{◌≡◌, None, IfOk, replicate};

use crate::allowing::{Terms, is_lacking, is_let, is_unplaced, may_copy};
use crate::item::AuditItem;
use crate::reading::Said;
use audit::{Auditor, Call, ReplyVerdict};
use frames::FileSpec;
use ghost_list::GhostList;
use slot_lock::SlotMap;
use std::alloc::{AllocError, Allocator};
use vm_base::{CoreId, NoMemory, Reply, Request};

/// How many cores a space may have.
const CORES: usize = 64;

/// The result of hearing a line.
#[derive(Clone, Copy)]
pub enum Turn {
    /// It may stand here, and a reply that it tells is the plain page map's.
    Legal,
    /// It may not stand here.
    Bad,
    /// Its call may not have this reply, or it tells a copy that may not be. A plain page map would give this, and
    /// whether no other order of the calls, and no other map, can be after the lines so far.
    Illegal(AuditItem, Option<Reply>, bool),
}

/// What was heard so far.
#[derive(Drop)]
pub struct Hearing<M: SlotMap, A: Allocator> {
    /// The plain page map that the calls led to.
    pub auditor: Auditor<M, A>,
    /// Whether no call may find that there is no frame or no memory.
    pub is_strict: bool,
    /// What the call of each core asks for that waits.
    pub waiting: Vec<Option<Request>, A>,
    /// How many wait.
    pub pending: u64,
    /// The calls that were judged, and the copies between them, all of them legal.
    pub items: GhostList<AuditItem>,
    /// How many calls these are.
    pub judged: u64,
    /// How many of them found no frame or no memory.
    pub lacking: u64,
    /// How many of them are mappings without `MAP_FIXED` that were refused for want of memory.
    pub unplaced: u64,
    /// Whether no other order of them, and no other map, can explain their replies.
    pub is_sure: bool,
    /// How many lines were passed over.
    pub passed: u64,
}

// No call waits.
fn none_waits<A: Allocator>(alloc: A) -> Result<Vec<Option<Request>, A>, AllocError>
    ensures { IfOk result (λ waiting. waiting.items ≡ replicate 64 None) }
{
    let mut waiting = Vec::with_capacity(alloc, CORES)?;
    'cores: for _core in 0..CORES {
        waiting.push_reserved(None);
    }
    Ok(waiting)
}

impl<M: SlotMap + Drop, A: Allocator + Clone + Drop> Hearing<M, A> {
    ghost use Rattle.std.specs.Prelude.{◌≡◌, ◌+◌, ◌≤◌, IfOk, length};
    ghost use Rattle.vm_base.specs.Plain.{nothing_mapped};
    ghost use Rattle.slot_lock.specs.Slots.{IsNew};
    ghost use Rattle.frames.specs.Given.{given_files};
    ghost use Rattle.audit.specs.Auditor.{plain_of};
    ghost use Rattle.audit_text.specs.Heard.{nothing};
    ghost use Rattle.audit_text.specs.Steps.{IsCounted, count_of, heard_of, terms_of};

    /// Nothing was heard yet, of a space with these files, which has nothing mapped.
    pub fn new(
        alloc: A,
        map: M,
        files: Vec<FileSpec<A>, A>,
        terms: Terms,
    ) -> Result<Hearing<M, A>, NoMemory>
        requires new { IsNew (M.slots map) }
        requires files { length files.items ≤ 16 }
        ensures heard { IfOk result (λ it. heard_of it ≡ nothing) }
        ensures plain { IfOk result (λ it. plain_of it.auditor ≡ nothing_mapped (given_files files.items)) }
        ensures terms { IfOk result (λ it. terms_of it ≡ terms) }
        ensures counted { IfOk result (λ it. IsCounted it) }
        ensures few { IfOk result (λ it. count_of it ≤ 0) }
    {
        let Ok(for_waiting) = alloc.clone() else {
            return Err(NoMemory);
        };
        let Ok(waiting) = none_waits(for_waiting) else {
            return Err(NoMemory);
        };
        let Ok(auditor) = Auditor::new(alloc, map, files, terms.any_place) else {
            return Err(NoMemory);
        };
        Ok(Hearing {
            auditor,
            is_strict: terms.is_strict,
            waiting,
            pending: 0,
            items: GhostList::new(),
            judged: 0,
            lacking: 0,
            unplaced: 0,
            is_sure: true,
            passed: 0,
        })
    }
}

impl<M: SlotMap + Drop, A: Allocator + Drop> Hearing<M, A> {
    ghost use Rattle.std.specs.Prelude.{◌≡◌, ◌+◌, ◌≤◌, ◌<◌, ◌^◌, ◌&&◌, nat_le, Bool, IfOk, Ok, OnErr, OnOk, Option};
    ghost use Rattle.vm_base.specs.declared.replies.Reply.{Reply};
    ghost use Rattle.audit.specs.Auditor.{plain_of};
    ghost use Rattle.audit.specs.Judging.{IsGiven};
    ghost use Rattle.audit.specs.Placing.{rule_of};
    ghost use Rattle.audit_text.specs.Heard.{lacking_by, waits, with_answer, with_copy, with_item};
    ghost use Rattle.audit_text.specs.declared.item.AuditItem.{AuditItem};
    ghost use Rattle.audit_text.specs.Steps.{Hears, IsCounted, JudgesCall, MayWant, Passes, count_of, heard_of, terms_of};
    ghost use Rattle.audit_text.specs.declared.reading.Said.TheVariants as Of;

    // By what replies are judged.
    fn terms(&self) -> Terms
        ensures { result ≡ terms_of self.now }
    {
        Terms {
            any_place: self.auditor.any_place(),
            is_strict: self.is_strict,
        }
    }

    /// How many calls found no frame or no memory by the terms.
    pub(crate) fn lacking_told(&self) -> u64
        requires { IsCounted self.now }
        ensures { result ≡ lacking_by (terms_of self.now) (heard_of self.now) }
    {
        let terms = self.terms();
        if terms.any_place && !terms.is_strict {
            self.lacking + self.unplaced
        } else {
            self.lacking
        }
    }

    // Tells whether no other order of the calls, and no other map, can explain the replies so far and the next one's, as which
    // at most so many calls wait.
    fn is_certain(&self, most: u64) -> bool
        ensures { result ≡ (self.now.is_sure && nat_le self.now.pending most) }
    {
        self.is_sure && self.pending <= most
    }

    // A call has this reply, which may be there.
    #[inline(always)]
    fn note_answer(&mut self, certain: bool, call: Call)
        requires counted { IsCounted self.old }
        requires room { count_of self.old + 1 < 2 ^ 64 }
        ensures heard { heard_of self.new ≡ with_answer (heard_of self.old) certain call }
        ensures same { self.new.auditor ≡ self.old.auditor }
        ensures strict { self.new.is_strict ≡ self.old.is_strict }
        ensures counted { IsCounted self.new }
        ensures few { count_of self.new ≤ count_of self.old + 1 }
    {
        if is_lacking(call.reply) {
            self.lacking += 1;
        }
        if is_unplaced(call.request, call.reply) {
            self.unplaced += 1;
        }
        self.is_sure = certain && !may_copy(call.request, call.reply);
        self.items = self.items.and(&AuditItem::Answer(call));
        self.judged += 1;
    }

    // A page gets its copy, which may be.
    fn note_copy(&mut self, certain: bool, page: u64)
        requires counted { IsCounted self.old }
        ensures heard { heard_of self.new ≡ with_copy (heard_of self.old) certain page }
        ensures same { self.new.auditor ≡ self.old.auditor }
        ensures strict { self.new.is_strict ≡ self.old.is_strict }
        ensures counted { IsCounted self.new }
        ensures few { count_of self.new ≤ count_of self.old }
    {
        self.is_sure = certain;
        self.items = self.items.and(&AuditItem::Copy(page));
    }

    // What a line told is taken in.
    pub(crate) fn note(&mut self, certain: bool, item: &AuditItem)
        requires counted { IsCounted self.old }
        requires room { count_of self.old + 1 < 2 ^ 64 }
        ensures heard { heard_of self.new ≡ with_item (heard_of self.old) certain item.now }
        ensures same { self.new.auditor ≡ self.old.auditor }
        ensures strict { self.new.is_strict ≡ self.old.is_strict }
        ensures counted { IsCounted self.new }
        ensures few { count_of self.new ≤ count_of self.old + 1 }
    {
        match item {
            AuditItem::Answer(call) => self.note_answer(certain, *call),
            AuditItem::Copy(page) => self.note_copy(certain, *page),
        }
    }

    // Judges a call, at whose line this is certain.
    #[inline(always)]
    fn judge(&mut self, certain: bool, call: Call) -> Result<Turn, NoMemory>
        requires counted { IsCounted self.old }
        requires room { count_of self.old + 1 < 2 ^ 64 }
        ensures judged { IfOk result (λ turn.
            JudgesCall (terms_of self.old) (heard_of self.old) (plain_of self.old.auditor) certain call turn
            (heard_of self.new) (plain_of self.new.auditor)) }
        ensures legal { OnErr result (IsGiven (rule_of self.old.auditor.any_place) (plain_of self.old.auditor)
            call.core call.request call.reply) }
        ensures terms { terms_of self.new ≡ terms_of self.old }
        ensures counted { OnOk result (IsCounted self.new) }
        ensures few { OnOk result (count_of self.new ≤ count_of self.old + 1) }
        ensures still { (item : AuditItem) (due : Option Reply) (certain : Bool)
            → result ≡ Ok (Turn.Illegal item due certain) → count_of self.new ≤ count_of self.old }
    {
        let terms = self.terms();
        match self.auditor.judge(call.core, call.request, call.reply)? {
            ReplyVerdict::Legal => {
                self.note_answer(certain, call);
                Ok(Turn::Legal)
            }
            ReplyVerdict::Illegal(due) => {
                if is_let(terms, call.request, due, call.reply) {
                    self.note_answer(certain, call);
                    return Ok(Turn::Legal);
                }
                Ok(Turn::Illegal(AuditItem::Answer(call), Some(due), certain))
            }
        }
    }

    // What the core's call asks for, if it waits.
    fn waits(&self, core: CoreId) -> Option<Request>
        requires { IsCounted self.now }
        ensures { result ≡ waits (heard_of self.now) core }
    {
        self.waiting[core.index() as usize]
    }

    // Judges a call of a core none of whose calls waits.
    #[inline(always)]
    fn answer(&mut self, call: Call) -> Result<Turn, NoMemory>
        requires counted { IsCounted self.old }
        requires room { count_of self.old + 1 < 2 ^ 64 }
        ensures hears { IfOk result (λ turn.
            Hears (terms_of self.old) (heard_of self.old) (plain_of self.old.auditor) (Of.Answered call) turn
            (heard_of self.new) (plain_of self.new.auditor)) }
        ensures want { OnErr result (
            MayWant (terms_of self.old) (heard_of self.old) (plain_of self.old.auditor) (Of.Answered call)) }
        ensures terms { terms_of self.new ≡ terms_of self.old }
        ensures counted { OnOk result (IsCounted self.new) }
        ensures few { OnOk result (count_of self.new ≤ count_of self.old + 1) }
        ensures still { (item : AuditItem) (due : Option Reply) (certain : Bool)
            → result ≡ Ok (Turn.Illegal item due certain) → count_of self.new ≤ count_of self.old }
    {
        if self.waits(call.core).is_some() {
            return Ok(Turn::Bad);
        }
        let certain = self.is_certain(0);
        self.judge(certain, call)
    }

    // A call of a core begins to wait.
    #[tactic(auto, using(crate::proofs::HeardLemmas::waits_hears, crate::proofs::HeardLemmas::waits_bad))]
    fn wait(&mut self, core: CoreId, request: Request) -> Turn
        requires counted { IsCounted self.old }
        requires room { count_of self.old + 1 < 2 ^ 64 }
        ensures hears { Hears (terms_of self.old) (heard_of self.old) (plain_of self.old.auditor) (Of.Waits core request) result
            (heard_of self.new) (plain_of self.new.auditor) }
        ensures terms { terms_of self.new ≡ terms_of self.old }
        ensures counted { IsCounted self.new }
        ensures few { count_of self.new ≤ count_of self.old + 1 }
    {
        if self.waits(core).is_some() {
            return Turn::Bad;
        }
        self.waiting[core.index() as usize] = Some(request);
        self.pending += 1;
        Turn::Legal
    }

    // Judges the call of a core that waited.
    #[tactic(auto, using(crate::proofs::HeardLemmas::ended_hears, crate::proofs::HeardLemmas::ended_bad, crate::proofs::HeardLemmas::ended_wants))]
    fn end(&mut self, core: CoreId, reply: Reply) -> Result<Turn, NoMemory>
        requires counted { IsCounted self.old }
        requires room { count_of self.old + 1 < 2 ^ 64 }
        ensures hears { IfOk result (λ turn.
            Hears (terms_of self.old) (heard_of self.old) (plain_of self.old.auditor) (Of.Ends core reply) turn
            (heard_of self.new) (plain_of self.new.auditor)) }
        ensures want { OnErr result (
            MayWant (terms_of self.old) (heard_of self.old) (plain_of self.old.auditor) (Of.Ends core reply)) }
        ensures terms { terms_of self.new ≡ terms_of self.old }
        ensures counted { OnOk result (IsCounted self.new) }
        ensures few { OnOk result (count_of self.new ≤ count_of self.old + 1) }
        ensures still { (item : AuditItem) (due : Option Reply) (certain : Bool)
            → result ≡ Ok (Turn.Illegal item due certain) → count_of self.new ≤ count_of self.old }
    {
        let Some(request) = self.waits(core) else {
            return Ok(Turn::Bad);
        };
        let certain = self.is_certain(1);
        self.waiting[core.index() as usize] = None;
        self.pending = self.pending.saturating_sub(1);
        let call = Call {
            core,
            request,
            reply,
        };
        self.judge(certain, call)
    }

    // Gives a page its copy, if that may be.
    fn copy(&mut self, page: u64) -> Result<Turn, NoMemory>
        requires counted { IsCounted self.old }
        ensures hears { IfOk result (λ turn.
            Hears (terms_of self.old) (heard_of self.old) (plain_of self.old.auditor) (Of.Copies page) turn
            (heard_of self.new) (plain_of self.new.auditor)) }
        ensures want { OnErr result (
            MayWant (terms_of self.old) (heard_of self.old) (plain_of self.old.auditor) (Of.Copies page)) }
        ensures terms { terms_of self.new ≡ terms_of self.old }
        ensures counted { IsCounted self.new }
        ensures few { count_of self.new ≤ count_of self.old }
    {
        let sure = self.is_certain(0);
        let copied = self.auditor.copy(page)?;
        if !copied {
            return Ok(Turn::Illegal(AuditItem::Copy(page), None, sure));
        }
        self.note_copy(sure, page);
        Ok(Turn::Legal)
    }

    // A line is passed over, if it may stand here.
    fn pass(&mut self, may: bool) -> Turn
        requires counted { IsCounted self.old }
        requires room { count_of self.old + 1 < 2 ^ 64 }
        ensures passes { Passes may (heard_of self.old) result (heard_of self.new) }
        ensures same { self.new.auditor ≡ self.old.auditor }
        ensures terms { terms_of self.new ≡ terms_of self.old }
        ensures counted { IsCounted self.new }
        ensures few { count_of self.new ≤ count_of self.old + 1 }
    {
        if !may {
            return Turn::Bad;
        }
        self.passed += 1;
        Turn::Legal
    }

    /// Hears what a line says. Memory is wanted only for a legal reply.
    #[inline(always)]
    pub(crate) fn hear(&mut self, said: Said) -> Result<Turn, NoMemory>
        requires counted { IsCounted self.old }
        requires room { count_of self.old + 1 < 2 ^ 64 }
        ensures hears { IfOk result (λ turn.
            Hears (terms_of self.old) (heard_of self.old) (plain_of self.old.auditor) said turn
            (heard_of self.new) (plain_of self.new.auditor)) }
        ensures want { OnErr result (
            MayWant (terms_of self.old) (heard_of self.old) (plain_of self.old.auditor) said) }
        ensures terms { terms_of self.new ≡ terms_of self.old }
        ensures counted { OnOk result (IsCounted self.new) }
        ensures few { OnOk result (count_of self.new ≤ count_of self.old + 1) }
        ensures still { (item : AuditItem) (due : Option Reply) (certain : Bool)
            → result ≡ Ok (Turn.Illegal item due certain) → count_of self.new ≤ count_of self.old }
    {
        match said {
            Said::Blank => Ok(Turn::Legal),
            Said::Space { .. } | Said::File { .. } => Ok(Turn::Bad),
            Said::Answered(call) => self.answer(call),
            Said::Waits(core, request) => Ok(self.wait(core, request)),
            Said::Ends(core, reply) => self.end(core, reply),
            Said::StillWaits(core) => {
                let may = self.waits(core).is_some();
                Ok(self.pass(may))
            }
            Said::Copies(page) => self.copy(page),
            Said::Passes => Ok(self.pass(true)),
        }
    }
}
