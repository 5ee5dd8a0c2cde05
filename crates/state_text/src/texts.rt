//! The text of a state, in either form.
ghost use Rattle.std.specs.Prelude.{◌≡◌, ◌+◌, ◌≤◌, ◌++◌, OnOk, length};
ghost use Rattle.state_seen.specs.Lists.{at_page};
ghost use Rattle.state_seen.specs.PageTexts.{pages_text, texts_below};
ghost use Rattle.std.specs.List.{flat_map};
ghost use Rattle.state_text.specs.Texts.{call_front, call_line, call_text, core_text, due_word, entry_line, epoch_line};
ghost use Rattle.state_text.specs.Texts.{going_word, gone_word};
ghost use Rattle.state_text.specs.Texts.{holds_front, holds_line, holds_text, message_line, rights_of, seen_core};
ghost use Rattle.state_text.specs.Texts.{seen_text, spot_text, table_entry};
ghost use Rattle.state_text.specs.Texts.{table_line, tlb_line, took_line, took_text, work_text};
ghost use Rattle.state_text.specs.Words.{held_spot};
ghost use Rattle.machine_model.specs.Holding.{taken_in};

use crate::form::{Form, core_word, end_word};
use crate::page_texts::{put_mappings, put_pages};
use crate::words::{WorkPages, call_word, doing_word, held_spot, spot_of, taken_in};
use machine_model::Phase;
use mmu::Message;
use mmu::entry::Translation;
use mmu::tlb::TlbEntry;
use state_seen::held::CoreHeld;
use state_seen::mirror::Mirror;
use state_seen::{OfPage, PageList};
use std::alloc::{AllocError, Allocator};
use trace_text::pieces::{Piece, put, put_all};
use vm_base::{CoreId, Prot};

// Which take of a message is due.
fn due_word(is_cleared: bool) -> &'static str
    ensures { result.now ≡ due_word is_cleared }
{
    if is_cleared {
        "second take due"
    } else {
        "first take due"
    }
}

// How far a message has come that is to take a page away: said behind the page's translation.
fn gone_word(form: Form, is_cleared: bool) -> &'static str
    ensures { result.now ≡ gone_word form is_cleared }
{
    match (form, is_cleared) {
        (Form::Text, true) => " stale: cleared\n",
        (Form::Text, false) => " stale: posted\n",
        (Form::Json, true) => ",\"stale\":\"cleared\"}\n",
        (Form::Json, false) => ",\"stale\":\"posted\"}\n",
    }
}

// Whether a translation of the page is going: a message of the inbox has the page, and the oldest such says how far
// it has come.
fn going_word(form: Form, inbox: &[Message], page: u64) -> &'static str
    ensures { result.now ≡ going_word form inbox.now page }
{
    let mut at = 0;
    'messages: while at < inbox.len() {
        if inbox[at].range.contains(page) {
            return gone_word(form, inbox[at].is_cleared);
        }
        at += 1;
    }
    end_word(form)
}

// The rights of a translation: each permits loads.
fn rights_of(translation: Translation) -> Prot
    ensures { result ≡ rights_of translation }
{
    Prot {
        read: true,
        write: translation.write,
        exec: translation.exec,
    }
}

// Appends the line of a translation, which is in this place: a core's TLB, or its tables.
fn put_entry(
    out: &mut Vec<u8>,
    form: Form,
    place: &str,
    core: CoreId,
    inbox: &[Message],
    entry: &TlbEntry,
) -> Result<(), AllocError>
    ensures { OnOk result (out.new.items ≡ out.old.items ++ entry_line form place.now core inbox.now entry.now) }
{
    let rights = rights_of(entry.translation);
    let frame = u64::from(entry.translation.frame);
    let going = going_word(form, inbox, entry.page);
    let (before, behind, framed, ruled, closed) = match form {
        Form::Text => (" ", " ", " frame ", " ", ""),
        Form::Json => (",\"", "\":\"", "\",\"frame\":", ",\"rights\":\"", "\""),
    };
    put_all(
        out,
        &[
            Piece::Words(core_word(form)),
            Piece::Core(core),
            Piece::Words(before),
            Piece::Words(place),
            Piece::Words(behind),
            Piece::Start(entry.page),
            Piece::Words(framed),
            Piece::Number(frame),
            Piece::Words(ruled),
            Piece::Rights(rights),
            Piece::Words(closed),
            Piece::Words(going),
        ],
    )
}

// Appends the lines of translations, which are in this place.
fn put_entries(
    out: &mut Vec<u8>,
    form: Form,
    place: &str,
    core: CoreId,
    inbox: &[Message],
    entries: &[TlbEntry],
) -> Result<(), AllocError>
    ensures { OnOk result
        (out.new.items ≡ out.old.items ++ flat_map (entry_line form place.now core inbox.now) entries.now) }
{
    let mut at = 0;
    'entries: while at < entries.len() {
        put_entry(out, form, place, core, inbox, &entries[at])?;
        at += 1;
    }
    Ok(())
}

// Appends the lines of a TLB.
fn put_tlb(out: &mut Vec<u8>, form: Form, core: CoreId, held: &CoreHeld) -> Result<(), AllocError>
    ensures { OnOk result
        (out.new.items ≡ out.old.items ++ flat_map (tlb_line form core held.now.inbox) held.now.tlb) }
{
    put_entries(out, form, "tlb", core, held.inbox(), held.tlb())
}

// Appends the lines of what tables have, in order of the list.
fn put_listed(
    out: &mut Vec<u8>,
    form: Form,
    core: CoreId,
    inbox: &[Message],
    entries: &[OfPage<Translation>],
) -> Result<(), AllocError>
    ensures { OnOk result (out.new.items ≡ out.old.items ++ flat_map (table_entry form core inbox.now) entries.now) }
{
    let mut at = 0;
    'listed: while at < entries.len() {
        let entry = TlbEntry {
            page: entries[at].page,
            translation: entries[at].value,
        };
        put_entry(out, form, "table", core, inbox, &entry)?;
        at += 1;
    }
    Ok(())
}

// Appends the lines of the pages that tables have, the lowest first.
fn put_table<A: Allocator>(
    out: &mut Vec<u8>,
    form: Form,
    core: CoreId,
    inbox: &[Message],
    table: &PageList<Translation, A>,
) -> Result<(), AllocError>
    ensures { OnOk result
        (out.new.items ≡ out.old.items ++ pages_text (table_line form core inbox.now) (at_page table.now)) }
{
    put_listed(out, form, core, inbox, table.entries())?;
    Ok(())
}

// Appends the line of a message.
fn put_message(
    out: &mut Vec<u8>,
    form: Form,
    core: CoreId,
    message: &Message,
) -> Result<(), AllocError>
    ensures { OnOk result (out.new.items ≡ out.old.items ++ message_line form core message.now) }
{
    let due = due_word(message.is_cleared);
    match form {
        Form::Text => put_all(
            out,
            &[
                Piece::Words("core "),
                Piece::Core(core),
                Piece::Words(" inbox from "),
                Piece::Core(message.from),
                Piece::Words(" "),
                Piece::Start(message.range.first),
                Piece::Words("-"),
                Piece::Start(message.range.end),
                Piece::Words(" "),
                Piece::Words(due),
                Piece::Words("\n"),
            ],
        ),
        Form::Json => put_all(
            out,
            &[
                Piece::Words("{\"core\":"),
                Piece::Core(core),
                Piece::Words(",\"inbox\":\""),
                Piece::Words(due),
                Piece::Words("\",\"from\":"),
                Piece::Core(message.from),
                Piece::Words(",\"first\":\""),
                Piece::Start(message.range.first),
                Piece::Words("\",\"end\":\""),
                Piece::Start(message.range.end),
                Piece::Words("\"}\n"),
            ],
        ),
    }
}

// Appends the lines of an inbox.
fn put_inbox(
    out: &mut Vec<u8>,
    form: Form,
    core: CoreId,
    inbox: &[Message],
) -> Result<(), AllocError>
    ensures { OnOk result (out.new.items ≡ out.old.items ++ flat_map (message_line form core) inbox.now) }
{
    let mut at = 0;
    'messages: while at < inbox.len() {
        put_message(out, form, core, &inbox[at])?;
        at += 1;
    }
    Ok(())
}

// Appends where a call is at work, and the end of the line.
#[tactic(auto, unfolding(crate::specs::Texts::spot_text))]
fn put_spot(out: &mut Vec<u8>, form: Form, spot: &WorkPages) -> Result<(), AllocError>
    ensures { OnOk result (out.new.items ≡ out.old.items ++ spot_text form spot.now) }
{
    match spot {
        WorkPages::Nowhere => put(out, end_word(form)),
        WorkPages::Page(page) => {
            let (front, end) = match form {
                Form::Text => (" ", "\n"),
                Form::Json => (",\"page\":\"", "\"}\n"),
            };
            put_all(
                out,
                &[Piece::Words(front), Piece::Start(*page), Piece::Words(end)],
            )
        }
        WorkPages::Pages(range) => {
            let (front, between, end) = match form {
                Form::Text => (" ", "-", "\n"),
                Form::Json => (",\"first\":\"", "\",\"end\":\"", "\"}\n"),
            };
            put_all(
                out,
                &[
                    Piece::Words(front),
                    Piece::Start(range.first),
                    Piece::Words(between),
                    Piece::Start(range.end),
                    Piece::Words(end),
                ],
            )
        }
    }
}

// Appends what a call is, and what it does next.
#[tactic(auto, unfolding(crate::specs::Texts::call_front))]
fn put_doing(out: &mut Vec<u8>, form: Form, core: CoreId, phase: &Phase) -> Result<(), AllocError>
    ensures { OnOk result (out.new.items ≡ out.old.items ++ call_front form core phase.now) }
{
    let call = call_word(phase);
    let doing = doing_word(phase);
    let (before, behind) = match form {
        Form::Text => (" ", ""),
        Form::Json => (",\"call\":\"", "\""),
    };
    put_all(
        out,
        &[
            Piece::Words(core_word(form)),
            Piece::Core(core),
            Piece::Words(before),
            Piece::Words(call),
            Piece::Words(doing),
            Piece::Words(behind),
        ],
    )
}

// Appends the line of a call.
fn put_phase(out: &mut Vec<u8>, form: Form, core: CoreId, phase: &Phase) -> Result<(), AllocError>
    ensures { OnOk result (out.new.items ≡ out.old.items ++ call_line form core phase.now) }
{
    let spot = spot_of(phase);
    put_doing(out, form, core, phase)?;
    put_spot(out, form, &spot)?;
    Ok(())
}

// Appends the line of a call, if the core has one.
fn put_call(out: &mut Vec<u8>, form: Form, core: CoreId, phase: &Phase) -> Result<(), AllocError>
    ensures { OnOk result (out.new.items ≡ out.old.items ++ call_text form core phase.now) }
{
    if let Phase::Free = phase {
        return Ok(());
    }
    put_phase(out, form, core, phase)
}

// Appends that a call holds pages.
#[tactic(auto, unfolding(crate::specs::Texts::holds_front))]
fn put_holding(out: &mut Vec<u8>, form: Form, core: CoreId) -> Result<(), AllocError>
    ensures { OnOk result (out.new.items ≡ out.old.items ++ holds_front form core) }
{
    let holds = match form {
        Form::Text => " holds",
        Form::Json => ",\"holds\":true",
    };
    put_all(
        out,
        &[
            Piece::Words(core_word(form)),
            Piece::Core(core),
            Piece::Words(holds),
        ],
    )
}

// Appends the line of the pages that a call holds.
fn put_spot_held(
    out: &mut Vec<u8>,
    form: Form,
    core: CoreId,
    spot: &WorkPages,
) -> Result<(), AllocError>
    ensures { OnOk result (out.new.items ≡ out.old.items ++ holds_line form core spot.now) }
{
    put_holding(out, form, core)?;
    put_spot(out, form, spot)?;
    Ok(())
}

// Appends that line, if it holds some.
fn put_holds(
    out: &mut Vec<u8>,
    form: Form,
    core: CoreId,
    spot: &WorkPages,
) -> Result<(), AllocError>
    ensures { OnOk result (out.new.items ≡ out.old.items ++ holds_text form core spot.now) }
{
    if let WorkPages::Nowhere = spot {
        return Ok(());
    }
    put_spot_held(out, form, core, spot)
}

// Appends the line of the frame that a call has taken, if it has taken one.
#[tactic(auto, unfolding(crate::specs::Texts::took_line))]
fn put_took(
    out: &mut Vec<u8>,
    form: Form,
    core: CoreId,
    frame: Option<u32>,
) -> Result<(), AllocError>
    ensures { OnOk result (out.new.items ≡ out.old.items ++ took_text form core frame) }
{
    let Some(frame) = frame else {
        return Ok(());
    };
    let took = match form {
        Form::Text => " took frame ",
        Form::Json => ",\"took\":",
    };
    put_all(
        out,
        &[
            Piece::Words(core_word(form)),
            Piece::Core(core),
            Piece::Words(took),
            Piece::Number(u64::from(frame)),
            Piece::Words(end_word(form)),
        ],
    )
}

// Appends the lines of a call, and of what it holds.
fn put_work(out: &mut Vec<u8>, form: Form, core: CoreId, phase: &Phase) -> Result<(), AllocError>
    ensures { OnOk result (out.new.items ≡ out.old.items ++ work_text form core phase.now) }
{
    let spot = held_spot(phase);
    let frame = taken_in(phase);
    put_call(out, form, core, phase)?;
    put_holds(out, form, core, &spot)?;
    put_took(out, form, core, frame)?;
    Ok(())
}

// Appends the lines of a core.
fn put_core<A: Allocator>(
    out: &mut Vec<u8>,
    form: Form,
    core: CoreId,
    phase: &Phase,
    held: &CoreHeld,
    table: &PageList<Translation, A>,
) -> Result<(), AllocError>
    ensures { OnOk result
        (out.new.items ≡ out.old.items ++ core_text form core phase.now held.now (at_page table.now)) }
{
    put_work(out, form, core, phase)?;
    put_tlb(out, form, core, held)?;
    put_table(out, form, core, held.inbox(), table)?;
    put_inbox(out, form, core, held.inbox())?;
    Ok(())
}

// Appends the lines of all cores.
fn put_cores<A: Allocator>(
    out: &mut Vec<u8>,
    form: Form,
    phases: &[Phase],
    cores: &[CoreHeld],
    tables: &[PageList<Translation, A>],
) -> Result<(), AllocError>
    requires phases { length phases.now ≡ 64 }
    requires cores { length cores.now ≡ 64 }
    requires tables { length tables.now ≡ 64 }
    ensures { OnOk result
        (out.new.items ≡ out.old.items ++ texts_below (seen_core form phases.now cores.now tables.now) 64) }
{
    'cores: for index in 0..64u8 {
        let at = usize::from(index);
        put_core(
            out,
            form,
            CoreId::new(index),
            &phases[at],
            &cores[at],
            &tables[at],
        )?;
    }
    Ok(())
}

// Appends the line of the epoch.
#[tactic(auto, unfolding(crate::specs::Texts::epoch_line))]
fn put_epoch(out: &mut Vec<u8>, form: Form, epoch: u64) -> Result<(), AllocError>
    ensures { OnOk result (out.new.items ≡ out.old.items ++ epoch_line form epoch) }
{
    let front = match form {
        Form::Text => "epoch ",
        Form::Json => "{\"epoch\":",
    };
    put_all(
        out,
        &[
            Piece::Words(front),
            Piece::Number(epoch),
            Piece::Words(end_word(form)),
        ],
    )
}

/// Appends the text of what was seen, in this form: the epoch; of each core its call with what it holds, its TLB in order of filling,
/// the pages in its tables, and its inbox; these lines of mappings, which have no quotes, and the pages that were used. An error is a
/// refusal of memory.
pub fn put_state<A: Allocator>(
    out: &mut Vec<u8>,
    form: Form,
    mirror: &Mirror<A>,
    maps: &[u8],
) -> Result<(), AllocError>
    ensures { OnOk result (out.new.items ≡ out.old.items ++ seen_text form maps.now mirror.now) }
{
    put_epoch(out, form, mirror.epoch())?;
    put_cores(out, form, mirror.phases(), mirror.cores(), mirror.tables())?;
    put_mappings(out, form, maps)?;
    put_pages(out, form, mirror.pages())?;
    Ok(())
}
