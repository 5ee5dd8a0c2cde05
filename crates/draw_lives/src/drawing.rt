//! The lives of mappings over a whole run: which pages were mapped over which steps, in one SVG text.
ghost use Rattle.std.specs.Prelude.{◌≡◌, ◌+◌, ◌++◌, ◌≤◌, IfOk, None, OnOk};
ghost use Rattle.draw_lives.specs.Lives.{are_more, chart_of, chart_text, count_of, count_words, drawn_of, end_of, frame_text, head_text, kind_class};
ghost use Rattle.draw_lives.specs.Lives.{labels_text, last_of, life_end, life_text, lives_text, page_text, plot_height, row_text, shown, tick_text, title_text};

use crate::joining::joined_rows;
use crate::living::lives_of;
use draw_steps::canvas::put_front;
use draw_steps::drawing::prot_class;
use draw_steps::elements::{Way, put_text};
use draw_steps::moments::Recorded;
use draw_steps::parts::{Part, put_parts};
use draw_steps::shapes::Stretch;
use draw_steps::texts::{Drawable, Series, put_each, put_first};
use std::alloc::{AllocError, Global};
use trace_text::pieces::{Piece, put, put_all};
use vm_base::Back;

/// What the colours of lives are and mean, and their shades. The lives' edges are thin in the units of rows, since not all that show
/// SVG know of strokes that don't scale.
pub const LIVES_STYLE: &str = "\
<style>
rect{stroke-width:.5px}svg svg rect{stroke-width:.02px}
.none{stroke:#bbb}.read{stroke:#7fbf93}.write{stroke:#e0aa55}.exec{stroke:#6fa0d6}.both{stroke:#d67f7f}
.anon{fill-opacity:.3}.private{fill-opacity:.6}
</style>
<rect x=\"640\" y=\"9\" width=\"14\" height=\"10\" class=\"none\"/><text class=\"note\" x=\"658\" y=\"18\">no rights</text>
<rect x=\"740\" y=\"9\" width=\"14\" height=\"10\" class=\"read\"/><text class=\"note\" x=\"758\" y=\"18\">read</text>
<rect x=\"810\" y=\"9\" width=\"14\" height=\"10\" class=\"write\"/><text class=\"note\" x=\"828\" y=\"18\">write</text>
<rect x=\"884\" y=\"9\" width=\"14\" height=\"10\" class=\"exec\"/><text class=\"note\" x=\"902\" y=\"18\">execute</text>
<rect x=\"970\" y=\"9\" width=\"14\" height=\"10\" class=\"both\"/><text class=\"note\" x=\"988\" y=\"18\">write and execute</text>
<rect x=\"1140\" y=\"9\" width=\"14\" height=\"10\" class=\"write anon\"/><text class=\"note\" x=\"1158\" y=\"18\">anon</text>
<rect x=\"1220\" y=\"9\" width=\"14\" height=\"10\" class=\"write private\"/><text class=\"note\" x=\"1238\" y=\"18\">private</text>
<rect x=\"1320\" y=\"9\" width=\"14\" height=\"10\" class=\"write shared\"/><text class=\"note\" x=\"1338\" y=\"18\">shared</text>
";

/// What a picture of lives is of.
#[derive(Clone, Copy)]
pub struct Chart {
    /// How many steps the run has.
    pub steps: u64,
    /// How many rows are shown.
    pub rows: u32,
}

// Tells whether there are more lives than are shown.
fn are_more(lives: &[Stretch]) -> bool
    ensures { result ≡ are_more lives.now }
{
    lives.len() > 2000
}

// The lives that are shown.
#[tactic(auto, using(std::proofs::lemmas::List::take_min))]
fn shown(lives: &[Stretch]) -> &[Stretch]
    ensures { result.now ≡ shown lives.now }
{
    &lives[..2000usize.min(lives.len())]
}

// How many rows there are down to this one.
fn rows_to(row: u16) -> u32
    ensures { result ≡ row + 1 }
{
    u32::from(row) + 1
}

// What is shown of lives: the rows down to that of the last one.
fn chart_of(steps: u64, lives: &[Stretch]) -> Chart
    ensures { result ≡ chart_of steps lives.now }
{
    let rows = match lives.last() {
        Some(life) => rows_to(life.row),
        None => 0,
    };
    Chart { steps, rows }
}

// How high the rows are together.
fn plot_height(chart: Chart) -> u64
    ensures value { result ≡ plot_height chart }
    ensures bounded { result ≤ 760 }
{
    (24 * u64::from(chart.rows)).min(760)
}

// Behind the last step.
fn end_of(steps: u64) -> u64
    ensures { result ≡ end_of steps }
{
    steps.saturating_add(1)
}

// Appends how many lives there are.
fn put_count(out: &mut Vec<u8>, more: bool, count: usize) -> Result<(), AllocError>
    ensures { OnOk result (out.new.items ≡ out.old.items ++ count_words more count) }
{
    if more {
        put(out, "the first 2000 lives of mappings, by address, of more")
    } else {
        let number = count as u64;
        put_all(
            out,
            &[Piece::Number(number), Piece::Words(" lives of mappings")],
        )
    }
}

// Appends what stands above all.
fn put_head(out: &mut Vec<u8>, chart: Chart, more: bool, count: usize) -> Result<(), AllocError>
    ensures { OnOk result (out.new.items ≡ out.old.items ++ head_text chart more count) }
{
    put_text(out, "head", 8, 18)?;
    put_count(out, more, count)?;
    put_all(
        out,
        &[
            Piece::Words(", over "),
            Piece::Number(chart.steps),
            Piece::Words(" steps</text>\n"),
        ],
    )?;
    Ok(())
}

// Nine steps, evenly over the run, and their lines.
#[derive(Clone, Copy)]
struct Ticks {
    chart: Chart,
}

impl Series for Ticks {
    ghost count = { λ _. 9 };

    ghost text = { λ ticks. tick_text ticks.chart };

    fn put_at(&self, out: &mut Vec<u8>, at: u16) -> Result<(), AllocError> {
        let at = u64::from(at);
        let step = self.chart.steps.saturating_mul(at) / 8;
        let bottom = plot_height(self.chart) + 48;
        let x = 504 + 150 * at;
        let way = Way {
            x1: x,
            y1: 44,
            x2: x,
            y2: bottom,
        };
        put_parts(
            out,
            &[
                Part::Line("grid", way),
                Part::Text("step", x, 38),
                Part::Plain(Piece::Number(step)),
                Part::Plain(Piece::Words("</text>\n")),
            ],
        )
    }
}

// The last life of a row.
fn last_of(lives: &[Stretch], row: u64) -> Option<Stretch>
    ensures { result ≡ last_of None lives.now row }
{
    let mut known = None;
    'lives: for life in lives {
        if u64::from(life.row) == row {
            known = Some(*life);
        }
    }
    known
}

// How many rows have words beside them.
fn count_of(chart: Chart) -> u64
    ensures value { result ≡ count_of chart }
    ensures bounded { result ≤ 63 }
{
    u64::from(chart.rows).min(63)
}

// Appends which pages a row has, and what they are mapped to in its last life.
#[tactic(auto, unfolding(crate::specs::Lives::row_text))]
fn put_row(out: &mut Vec<u8>, y: u64, text: &[u8], last: Option<Stretch>) -> Result<(), AllocError>
    ensures { OnOk result (out.new.items ≡ out.old.items ++ row_text y text.now last) }
{
    match last {
        Some(life) => put_parts(
            out,
            &[
                Part::Text("page", 8, y),
                Part::Plain(Piece::Start(life.pages.first)),
                Part::Plain(Piece::Words("-")),
                Part::Plain(Piece::Start(life.pages.end)),
                Part::Backing(text, life.back),
                Part::Plain(Piece::Words("</text>\n")),
            ],
        ),
        None => Ok(()),
    }
}

// A chart with its lives, and the text of the trace, which has names of files. Its texts say what those of its rows are that have words
// beside them.
#[derive(Clone, Copy)]
struct Named<'a> {
    chart: Chart,
    text: &'a [u8],
    lives: &'a [Stretch],
}

impl<'a> Series for Named<'a> {
    ghost count = { λ named. count_of named.chart };

    ghost text = { λ named. page_text named.chart named.text.now named.lives.now };

    fn put_at(&self, out: &mut Vec<u8>, at: u16) -> Result<(), AllocError> {
        let at = u64::from(at);
        let all = u64::from(self.chart.rows);
        let count = count_of(self.chart);
        let y = plot_height(self.chart) * at / count + 58;
        let last = last_of(self.lives, all * at / count);
        put_row(out, y, self.text, last)
    }
}

// Appends those, beside the drawing, which they don't reach.
fn put_labels(out: &mut Vec<u8>, named: &Named) -> Result<(), AllocError>
    ensures { OnOk result (out.new.items ≡ out.old.items ++ labels_text named.now.chart named.now.text.now named.now.lives.now) }
{
    put(out, "<svg width=\"496\">\n")?;
    put_first(out, named, count_of(named.chart) as u16)?;
    put(out, "</svg>\n")?;
    Ok(())
}

// Appends the beginning of the drawing of lives, whose units are a step and a row.
fn put_frame(out: &mut Vec<u8>, chart: Chart) -> Result<(), AllocError>
    ensures { OnOk result (out.new.items ≡ out.old.items ++ frame_text chart) }
{
    let high = plot_height(chart);
    let rows = u64::from(chart.rows);
    put_all(
        out,
        &[
            Piece::Words("<svg x=\"504\" y=\"48\" width=\"1200\" height=\""),
            Piece::Number(high),
            Piece::Words("\" viewBox=\"1 0 "),
            Piece::Number(chart.steps),
            Piece::Words(" "),
            Piece::Number(rows),
            Piece::Words("\" preserveAspectRatio=\"none\">\n"),
        ],
    )
}

// The step in which a life ends, or that after the last one.
fn life_end(chart: Chart, end: Option<u64>) -> u64
    ensures { result ≡ life_end chart end }
{
    match end {
        Some(step) => step,
        None => end_of(chart.steps),
    }
}

// The class of what is backed so.
fn kind_class(back: Option<Back>) -> &'static str
    ensures { result.now ≡ kind_class back }
{
    match back {
        None => "unknown",
        Some(Back::Anon) => "anon",
        Some(Back::Shared { .. }) => "shared",
        Some(Back::Private { .. }) => "private",
    }
}

// Appends what a life says on pointing, and its end.
#[tactic(auto, unfolding(crate::specs::Lives::title_text))]
fn put_title(out: &mut Vec<u8>, text: &[u8], life: &Stretch) -> Result<(), AllocError>
    ensures { OnOk result (out.new.items ≡ out.old.items ++ title_text text.now life.now) }
{
    put_parts(
        out,
        &[
            Part::Plain(Piece::Words("<title>")),
            Part::Plain(Piece::Start(life.pages.first)),
            Part::Plain(Piece::Words("-")),
            Part::Plain(Piece::Start(life.pages.end)),
            Part::Plain(Piece::Words(" ")),
            Part::Plain(Piece::Rights(life.prot)),
            Part::Backing(text, life.back),
            Part::Span(life.begin, life.end),
            Part::Plain(Piece::Words("</title></rect>\n")),
        ],
    )
}

// A life, with what it says on pointing.
impl<'a> Drawable<Named<'a>> for Stretch {
    ghost text = { λ named. life_text named.chart named.text.now };

    fn put(&self, out: &mut Vec<u8>, named: &Named<'a>) -> Result<(), AllocError> {
        let class = prot_class(self.prot);
        let kind = kind_class(self.back);
        let row = u64::from(self.row);
        let width = life_end(named.chart, self.end).saturating_sub(self.begin);
        put_all(
            out,
            &[
                Piece::Words("<rect class=\""),
                Piece::Words(class),
                Piece::Words(" "),
                Piece::Words(kind),
                Piece::Words("\" x=\""),
                Piece::Number(self.begin),
                Piece::Words("\" y=\""),
                Piece::Number(row),
                Piece::Words("\" width=\""),
                Piece::Number(width),
                Piece::Words("\" height=\"1\">"),
            ],
        )?;
        put_title(out, named.text, self)?;
        Ok(())
    }
}

// Appends the whole picture.
fn put_chart(
    out: &mut Vec<u8>,
    chart: Chart,
    text: &[u8],
    more: bool,
    lives: &[Stretch],
) -> Result<(), AllocError>
    ensures { OnOk result (out.new.items ≡ out.old.items ++ chart_text chart text.now more lives.now) }
{
    let named = Named { chart, text, lives };
    let high = plot_height(chart) + 64;
    put_front(out, 1760, high)?;
    put(out, LIVES_STYLE)?;
    put_head(out, chart, more, lives.len())?;
    put_first(out, &Ticks { chart }, 9)?;
    put_labels(out, &named)?;
    put_frame(out, chart)?;
    put_each(out, &named, lives)?;
    put(out, "</svg>\n</svg>\n")?;
    Ok(())
}

// Appends the picture of these lives, of which the first 2,000 are shown, in as few rows.
fn put_shown(
    alloc: Global,
    out: &mut Vec<u8>,
    steps: u64,
    text: &[u8],
    lives: &[Stretch],
) -> Result<(), AllocError>
    ensures { OnOk result (out.new.items ≡ out.old.items ++ drawn_of steps text.now lives.now) }
{
    let joined = joined_rows(alloc, shown(lives))?;
    let more = are_more(lives);
    let chart = chart_of(steps, joined.as_slice());
    put_chart(out, chart, text, more, joined.as_slice())?;
    Ok(())
}

/// The picture of the lives of mappings in a run of this many steps: a rectangle for each stretch of pages, where neighbours that are alike in
/// all steps are one, from the step
/// in which they are mapped to the first that changes them, or to the end, with what backs them, and the names of files that the text of
/// the trace has. The first 2,000 lives are shown, from the
/// lowest pages on, and the picture says so where there are more. It is one SVG text. An error is a refusal of memory.
pub fn draw_lives(
    alloc: Global,
    steps: u64,
    text: &[u8],
    moments: &[Recorded],
) -> Result<Vec<u8>, AllocError>
    ensures { IfOk result (λ drawn. drawn.items ≡ lives_text steps text.now moments.now) }
{
    let lives = lives_of(alloc, moments)?;
    let mut out: Vec<u8> = Vec::new(alloc);
    put_shown(alloc, &mut out, steps, text, lives.as_slice())?;
    Ok(out)
}
