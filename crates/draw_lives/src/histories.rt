//! A history of calls as a picture: a lane for each core, time across, and a bar for each call.
ghost use Rattle.std.specs.Prelude.{◌≡◌, ◌++◌, ◌<◌, ◌≤◌, IfOk, OnOk, codes, decimal, length, take};
ghost use Rattle.std.specs.List.{flat_map};
ghost use Rattle.trace_text.specs.Words.{words_of};
ghost use Rattle.draw_steps.specs.Backing.{shown};
ghost use Rattle.draw_lives.specs.Histories.{axis_text, bar_place, bar_text, call_text, calls_text, class_of, first_time, first_tops, head_text};
ghost use Rattle.draw_lives.specs.Histories.{history_text, is_busy, is_listed, is_lit, label_text, lane_height, lane_text, lane_top, lane_words, lanes_text};
ghost use Rattle.draw_lives.specs.Histories.{last_time, lit_of, lit_words, said_text, scene_of, scene_text, words_at, words_class, words_text, words_x, worded_of, x_of};

use crate::calls::{Call, listed_calls, own_calls};
use draw_steps::canvas::put_size;
use draw_steps::elements::{Rect, Way, put_line, put_rect, put_text};
use std::alloc::{AllocError, Global};
use std::marker::Model;
use trace_text::pieces::{Piece, put, put_all};
use trace_text::words::next_word;

/// What the colours of a history are and mean, in light and in dark.
pub const HISTORY_STYLE: &str = "\
<style>
svg{background:#fff}text{font:14px ui-monospace,monospace;fill:#14181d}.head,.core{font-weight:bold}.time{font-size:12px;fill:#4d5660}
.end{text-anchor:end}.lane{stroke:#c3cad2}.flag{stroke:#6a747e}rect{stroke-width:1.5px}
.change{fill:#ffcf91;stroke:#a84a00}.access{fill:#e0ecff;stroke:#1746c2}
.change.dim{fill:#faf3ea;stroke:#b08a58}.access.dim{fill:#f0f4fa;stroke:#7c93bb}
@media(prefers-color-scheme:dark){
svg{background:#0e1116}text{fill:#f2f5f8}.time{fill:#b3bdc7}.lane{stroke:#3a434e}.flag{stroke:#98a3ad}
.change{fill:#5f3706;stroke:#ffb454}.access{fill:#11336b;stroke:#82b6ff}
.change.dim{fill:#1d1810;stroke:#806a47}.access.dim{fill:#131a24;stroke:#5d79ad}
}
</style>
<rect x=\"800\" y=\"13\" width=\"16\" height=\"12\" class=\"change\"/><text x=\"822\" y=\"24\">mmap, munmap, mprotect</text>
<rect x=\"1040\" y=\"13\" width=\"16\" height=\"12\" class=\"access\"/><text x=\"1062\" y=\"24\">load, store, fetch</text>
";

/// The calls of a history, and those that are lit. A clause sees it as `SceneView`.
#[derive(Drop)]
struct Scene<'a> {
    calls: &'a [Call<'a>],
    listed: &'a [Call<'a>],
    first: u64,
    last: u64,
    worded: bool,
}

impl<'a> Model for Scene<'a> {
    ghost use Rattle.draw_lives.specs.Histories.{SceneView};

    ghost Value = { SceneView };

    ghost view = { λ s. record { calls = s.calls.now; listed = s.listed.now; first = s.first; last = s.last; worded = s.worded } };
}

// Whether a call with this number is listed.
fn is_listed(listed: &[Call], line: u64) -> bool
    ensures { result ≡ is_listed line listed.now }
{
    'calls: for call in listed {
        if call.line == line {
            return true;
        }
    }
    false
}

// Whether a call is lit.
fn is_lit(listed: &[Call], call: &Call) -> bool
    ensures { result ≡ is_lit listed.now call.now }
{
    listed.is_empty() || is_listed(listed, call.line)
}

// When the first call begins.
fn first_time(calls: &[Call]) -> u64
    ensures { result ≡ first_time calls.now }
{
    let mut first = u64::MAX;
    'calls: for call in calls {
        first = first.min(call.begin);
    }
    first
}

// When the last call ends.
fn last_time(calls: &[Call]) -> u64
    ensures { result ≡ last_time calls.now }
{
    let mut last = 0u64;
    'calls: for call in calls {
        last = last.max(call.end);
    }
    last
}

// A history, of which these calls are listed.
fn scene_of<'a>(calls: &'a [Call<'a>], listed: &'a [Call<'a>]) -> Scene<'a>
    ensures { result ≡ scene_of calls.now listed.now }
{
    Scene {
        calls,
        listed,
        first: first_time(calls),
        last: last_time(calls),
        worded: !listed.is_empty() || calls.len() <= 2000,
    }
}

// Where a time lies across.
fn x_of(scene: &Scene, time: u64) -> u64
    ensures value { result ≡ x_of scene.now time }
    ensures bounded { result ≤ 1256 }
{
    let span = scene.last.saturating_sub(scene.first).max(1);
    let scaled = time.saturating_sub(scene.first).saturating_mul(1144);
    112 + (scaled / span).min(1144)
}

// How many of these calls are lit and of the core.
fn lit_of(listed: &[Call], core: u8, calls: &[Call]) -> u64
    ensures { result ≡ lit_of listed.now core calls.now }
{
    let mut count = 0u64;
    'calls: for call in calls {
        if call.core.index() == core && is_lit(listed, call) {
            count += 1;
        }
    }
    count
}

// Whether a core has calls.
fn is_busy(core: u8, calls: &[Call]) -> bool
    ensures { result ≡ is_busy core calls.now }
{
    'calls: for call in calls {
        if call.core.index() == core {
            return true;
        }
    }
    false
}

// How many of a core's calls have their words beside them.
fn worded_of(scene: &Scene, core: u8) -> u64
    ensures value { result ≡ worded_of scene.now core }
    ensures bounded { result ≤ 60 }
{
    if scene.worded {
        lit_of(scene.listed, core, scene.calls).min(60)
    } else {
        0
    }
}

// How high a core's lane is.
fn lane_height(scene: &Scene, core: u8) -> u64
    ensures value { result ≡ lane_height scene.now core }
    ensures bounded { result ≤ 1100 }
{
    if is_busy(core, scene.calls) {
        20 + 18 * worded_of(scene, core)
    } else {
        0
    }
}

// Where lanes begin: those of all cores, and what is below them.
#[tactic(auto, unfolding(crate::specs::Histories::first_tops, crate::specs::Histories::lane_top))]
fn tops_of(alloc: Global, scene: &Scene) -> Result<Vec<u64>, AllocError>
    ensures { IfOk result (λ tops. tops.items ≡ first_tops scene.now 65) }
{
    let mut tops = Vec::new(alloc);
    let mut top = 48;
    let mut core = 0u8;
    'cores: while core < 65 {
        tops.push(top)?;
        top += lane_height(scene, core);
        core += 1;
    }
    Ok(tops)
}

// Where the lane of this core begins, or what is below all.
fn top_at(tops: &[u64], scene: &Scene, core: u8) -> u64
    requires tops { tops.now ≡ first_tops scene.now 65 }
    requires core { core ≤ 64 }
    ensures value { result ≡ lane_top scene.now core }
    ensures bounded { result ≤ 100000 }
{
    tops[usize::from(core)]
}

// A call's class.
fn class_of(is_change: bool, is_lit: bool) -> &'static str
    ensures { result.now ≡ class_of is_change is_lit }
{
    match (is_change, is_lit) {
        (true, true) => "change",
        (true, false) => "change dim",
        (false, true) => "access",
        (false, false) => "access dim",
    }
}

// Appends a byte as SVG has it in a text.
fn put_byte(out: &mut Vec<u8>, byte: u8) -> Result<(), AllocError>
    ensures { OnOk result (out.new.items ≡ out.old.items ++ shown byte) }
{
    if byte == 38 {
        return put(out, "&amp;");
    }
    if byte == 60 {
        return put(out, "&lt;");
    }
    if byte == 62 {
        return put(out, "&gt;");
    }
    if byte < 32 || byte > 126 {
        return put(out, "?");
    }
    out.push(byte)?;
    Ok(())
}

// Appends a word behind a space.
fn put_word(out: &mut Vec<u8>, word: &[u8]) -> Result<(), AllocError>
    ensures { OnOk result (out.new.items ≡ out.old.items ++ codes " " ++ flat_map shown word.now) }
{
    put(out, " ")?;
    'bytes: for byte in word {
        put_byte(out, *byte)?;
    }
    Ok(())
}

// Appends each word of these bytes, behind a space.
fn put_words(out: &mut Vec<u8>, bytes: &[u8]) -> Result<(), AllocError>
    ensures { OnOk result (out.new.items ≡ out.old.items ++ words_text (words_of bytes.now)) }
{
    let mut rest = bytes;
    'words: while let Some((word, more)) = next_word(rest) {
        put_word(out, word)?;
        rest = more;
    }
    Ok(())
}

// Appends the number of a call's line, and its words.
#[tactic(auto, unfolding(crate::specs::Histories::said_text))]
fn put_said(out: &mut Vec<u8>, call: &Call) -> Result<(), AllocError>
    ensures { OnOk result (out.new.items ≡ out.old.items ++ said_text call.now) }
{
    put_all(out, &[Piece::Number(call.line)])?;
    put_words(out, call.words)
}

// Where a call's bar lies.
fn bar_place(scene: &Scene, top: u64, call: &Call) -> Rect
    requires { top ≤ 100000 }
    ensures { result ≡ bar_place scene.now top call.now }
{
    let x = x_of(scene, call.begin);
    Rect {
        x,
        y: top + 5,
        width: x_of(scene, call.end).saturating_sub(x).max(2),
        height: 10,
    }
}

// Appends a call's bar, with what it says on pointing.
#[tactic(auto, unfolding(crate::specs::Histories::bar_text))]
fn put_bar(out: &mut Vec<u8>, scene: &Scene, top: u64, call: &Call) -> Result<(), AllocError>
    requires { top ≤ 100000 }
    ensures { OnOk result (out.new.items ≡ out.old.items ++ bar_text scene.now top call.now) }
{
    put(out, "<g><title>line ")?;
    put_said(out, call)?;
    put(out, "</title>")?;
    let class = class_of(call.is_change, is_lit(scene.listed, call));
    put_rect(out, class, bar_place(scene, top, call))?;
    put(out, "</g>\n")
}

// The class of words beside a bar that begins here.
fn words_class(x: u64) -> &'static str
    ensures { result.now ≡ words_class x }
{
    if x > 860 { "words end" } else { "words" }
}

// Where they begin, or end.
fn words_x(x: u64) -> u64
    requires { x ≤ 1256 }
    ensures { result ≡ words_x x }
{
    if x > 860 { x - 5 } else { x + 5 }
}

// Appends the words of a call whose bar begins here, in this row below the bars of its lane.
#[tactic(auto, unfolding(crate::specs::Histories::label_text))]
fn put_label(out: &mut Vec<u8>, x: u64, top: u64, row: u64, call: &Call) -> Result<(), AllocError>
    requires x { x ≤ 1256 }
    requires top { top ≤ 100000 }
    requires row { row ≤ 60 }
    ensures { OnOk result (out.new.items ≡ out.old.items ++ label_text x top row call.now) }
{
    let way = Way {
        x1: x,
        y1: top + 15,
        x2: x,
        y2: top + 33 + 18 * row,
    };
    put_line(out, "flag", way)?;
    put_text(out, words_class(x), words_x(x), top + 32 + 18 * row)?;
    put_said(out, call)?;
    put(out, "</text>\n")
}

// Appends the words of a call, where they stand beside it: so many calls stand before it.
fn put_words_at(
    out: &mut Vec<u8>,
    scene: &Scene,
    top: u64,
    at: usize,
    call: &Call,
) -> Result<(), AllocError>
    requires top { top ≤ 100000 }
    requires at { at ≤ length scene.now.calls }
    ensures { OnOk result (out.new.items ≡ out.old.items
        ++ words_at scene.now top (lit_of scene.now.listed call.now.core (take at scene.now.calls)) call.now) }
{
    if !is_lit(scene.listed, call) {
        return Ok(());
    }
    let count = worded_of(scene, call.core.index());
    if count == 0 {
        return Ok(());
    }
    let (before, _) = scene.calls.split_at(at);
    let rank = lit_of(scene.listed, call.core.index(), before);
    if rank >= count {
        return Ok(());
    }
    put_label(out, x_of(scene, call.begin), top, count - (rank + 1), call)
}

// Appends the call with this number, in its core's lane.
fn put_call(
    out: &mut Vec<u8>,
    scene: &Scene,
    tops: &[u64],
    at: usize,
    call: &Call,
) -> Result<(), AllocError>
    requires tops { tops.now ≡ first_tops scene.now 65 }
    requires at { at ≤ length scene.now.calls }
    ensures { OnOk result (out.new.items ≡ out.old.items ++ call_text scene.now call.now at) }
{
    let top = top_at(tops, scene, call.core.index());
    put_bar(out, scene, top, call)?;
    put_words_at(out, scene, top, at, call)
}

// Appends all calls.
fn put_calls(out: &mut Vec<u8>, scene: &Scene, tops: &[u64]) -> Result<(), AllocError>
    requires { tops.now ≡ first_tops scene.now 65 }
    ensures { OnOk result (out.new.items ≡ out.old.items ++ calls_text scene.now 0 scene.now.calls) }
{
    let mut at = 0;
    'calls: while at < scene.calls.len() {
        put_call(out, scene, tops, at, &scene.calls[at])?;
        at += 1;
    }
    Ok(())
}

// Appends a core's name, and the line above its lane, which begins here.
#[tactic(auto, unfolding(crate::specs::Histories::lane_words))]
fn put_lane_words(out: &mut Vec<u8>, top: u64, core: u8) -> Result<(), AllocError>
    requires { top ≤ 100000 }
    ensures { OnOk result (out.new.items ≡ out.old.items ++ lane_words top core) }
{
    let way = Way {
        x1: 8,
        y1: top,
        x2: 1272,
        y2: top,
    };
    put_line(out, "lane", way)?;
    put_text(out, "core", 8, top + 15)?;
    put_all(
        out,
        &[
            Piece::Words("core "),
            Piece::Number(u64::from(core)),
            Piece::Words("</text>\n"),
        ],
    )
}

// Appends the lane of a core that has calls.
fn put_lane(out: &mut Vec<u8>, scene: &Scene, tops: &[u64], core: u8) -> Result<(), AllocError>
    requires tops { tops.now ≡ first_tops scene.now 65 }
    requires core { core < 64 }
    ensures { OnOk result (out.new.items ≡ out.old.items ++ lane_text scene.now core) }
{
    if !is_busy(core, scene.calls) {
        return Ok(());
    }
    put_lane_words(out, top_at(tops, scene, core), core)
}

// Appends all lanes.
#[tactic(auto, unfolding(crate::specs::Histories::lanes_text))]
fn put_lanes(out: &mut Vec<u8>, scene: &Scene, tops: &[u64]) -> Result<(), AllocError>
    requires { tops.now ≡ first_tops scene.now 65 }
    ensures { OnOk result (out.new.items ≡ out.old.items ++ lanes_text scene.now 64) }
{
    let mut core = 0u8;
    'cores: while core < 64 {
        put_lane(out, scene, tops, core)?;
        core += 1;
    }
    Ok(())
}

// Appends when the history begins and ends.
#[tactic(auto, unfolding(crate::specs::Histories::axis_text))]
fn put_axis(out: &mut Vec<u8>, scene: &Scene, y: u64) -> Result<(), AllocError>
    ensures { OnOk result (out.new.items ≡ out.old.items ++ axis_text scene.now y) }
{
    put_text(out, "time", 112, y)?;
    put_all(out, &[Piece::Number(scene.first), Piece::Words("</text>")])?;
    put_text(out, "time end", 1256, y)?;
    put_all(out, &[Piece::Number(scene.last), Piece::Words("</text>\n")])
}

// Appends how many calls these are.
fn put_count(out: &mut Vec<u8>, calls: &[Call]) -> Result<(), AllocError>
    ensures { OnOk result (out.new.items ≡ out.old.items ++ decimal (length calls.now)) }
{
    let count = calls.len() as u64;
    put_all(out, &[Piece::Number(count)])
}

// Appends how many of them are lit, where some are listed.
fn put_lit(out: &mut Vec<u8>, listed: &[Call]) -> Result<(), AllocError>
    ensures { OnOk result (out.new.items ≡ out.old.items ++ lit_words (length listed.now)) }
{
    if listed.is_empty() {
        return Ok(());
    }
    let count = listed.len() as u64;
    put_all(out, &[Piece::Words(", lit: "), Piece::Number(count)])
}

// Appends how many calls there are.
#[tactic(auto, unfolding(crate::specs::Histories::head_text))]
fn put_head(out: &mut Vec<u8>, scene: &Scene) -> Result<(), AllocError>
    ensures { OnOk result (out.new.items ≡ out.old.items ++ head_text scene.now) }
{
    put_text(out, "head", 8, 24)?;
    put_count(out, scene.calls)?;
    put(out, " calls")?;
    put_lit(out, scene.listed)?;
    put(out, "</text>\n")
}

// Appends the whole picture.
#[tactic(auto, unfolding(crate::specs::Histories::scene_text))]
fn put_scene(out: &mut Vec<u8>, scene: &Scene, tops: &[u64]) -> Result<(), AllocError>
    requires { tops.now ≡ first_tops scene.now 65 }
    ensures { OnOk result (out.new.items ≡ out.old.items ++ scene_text scene.now) }
{
    let bottom = top_at(tops, scene, 64);
    put_size(out, "", 1280, bottom + 40)?;
    put(out, HISTORY_STYLE)?;
    put_head(out, scene)?;
    put_lanes(out, scene, tops)?;
    put_calls(out, scene, tops)?;
    put_axis(out, scene, bottom + 20)?;
    put(out, "</svg>\n")?;
    Ok(())
}

// The picture of these calls.
fn drawn<'a>(
    alloc: Global,
    calls: &'a [Call<'a>],
    listed: &'a [Call<'a>],
) -> Result<Vec<u8>, AllocError>
    ensures { IfOk result (λ text. text.items ≡ scene_text (scene_of calls.now listed.now)) }
{
    let scene = scene_of(calls, listed);
    let tops = tops_of(alloc, &scene)?;
    let mut out = Vec::new(alloc);
    put_scene(&mut out, &scene, tops.as_slice())?;
    Ok(out)
}

/// The picture of a history of calls, as `audit --overlapping` reads it: a lane for each core that has calls, time across, to scale, and a
/// bar for each call, from its begin to its end. The text of audit's answer may stand behind it, or alone: the calls that it shows are lit,
/// or all calls, where it shows none. Lit calls have their words beside them: the number of the line, what was asked for, and the reply.
pub fn draw_history(alloc: Global, text: &[u8]) -> Result<Vec<u8>, AllocError>
    ensures { IfOk result (λ drawn. drawn.items ≡ history_text text.now) }
{
    let own = own_calls(alloc, text)?;
    let listed = listed_calls(alloc, text)?;
    if own.is_empty() {
        return drawn(alloc, listed.as_slice(), listed.as_slice());
    }
    drawn(alloc, own.as_slice(), listed.as_slice())
}
