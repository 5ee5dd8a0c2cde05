//! What shapes are written as.
ghost use Rattle.std.specs.Prelude.{◌≡◌, ◌++◌, OnOk};
ghost use Rattle.draw_steps.specs.Drawing.{arrow_text, bar_text, course_class, course_words, mark_text, prot_class, request_name};
ghost use Rattle.draw_steps.specs.Drawing.{sign_class, sign_word, stretch_text};

use crate::moments::Deed;
use crate::parts::{Part, put_parts};
use crate::places::{View, arrow_way, bar_place, column, lane, row_y, stretch_place};
use crate::shapes::{Arrow, Bar, Course, Mark, Sign, Stretch};
use crate::texts::Drawable;
use std::alloc::AllocError;
use trace_text::pieces::Piece;
use vm_base::{Prot, Request};

/// What the colours and letters are, in light and in dark, and the heads of arrows.
pub const STYLE: &str = "\
<style>
svg{background:#fff;font-family:monospace;font-size:9px}
text{fill:#333}.name{fill:#fff}.prot{fill:#222}
.reply,.fault{text-anchor:end;font-size:10px}
.step,.deed{text-anchor:middle;fill:#666}
.deed{paint-order:stroke;stroke:#fff;stroke-width:3px}
.core,.head{font-weight:bold;font-size:12px}
.page,.note{font-size:10px}.note{fill:#666}
.grid{stroke:#eee}.lane{stroke:#ccc}
.told{stroke:#b0433b;stroke-width:1.6;marker-end:url(#told)}
.back{stroke:#3b8f5a;stroke-width:1.4;stroke-dasharray:4 3;marker-end:url(#back)}
.fault,.ask{fill:#b0433b}.answer{fill:#3b8f5a}
.mmap{fill:#2f6fb0}.munmap{fill:#b0433b}.mprotect{fill:#8a5fb5}
.load{fill:#2f7d4c}.store{fill:#a8650f}.fetch{fill:#3f7f7f}
.take{fill:#fff6d8;stroke:#a98}.spot{fill:#eee;stroke:#aaa}.still{fill:none}
.none{fill:#ddd}.read{fill:#d9efdf}.write{fill:#f6e3c4}.exec{fill:#d5e4f4}.both{fill:#f3d3d3}
@media (prefers-color-scheme:dark){
svg{background:#16181c}text{fill:#ddd}.name{fill:#fff}.prot{fill:#222}
.step,.deed,.note{fill:#aaa}.deed{stroke:#16181c}
.grid{stroke:#25282d}.lane{stroke:#444}
.told{stroke:#e0786f}.back{stroke:#6cc08a}.fault,.ask{fill:#e0786f}.answer{fill:#6cc08a}
.take{fill:#5a5030;stroke:#a98}.spot{fill:#333;stroke:#888}
.none{fill:#999}.read{fill:#9cc7a8}.write{fill:#d3b883}.exec{fill:#9db8d3}.both{fill:#d09a9a}}
</style>
<defs>
<marker id=\"told\" markerWidth=\"7\" markerHeight=\"7\" refX=\"6\" refY=\"3\" orient=\"auto\">
<path class=\"ask\" d=\"M0,0 L6,3 L0,6 z\"/></marker>
<marker id=\"back\" markerWidth=\"7\" markerHeight=\"7\" refX=\"6\" refY=\"3\" orient=\"auto\">
<path class=\"answer\" d=\"M0,0 L6,3 L0,6 z\"/></marker>
</defs>
";

/// What stands below a picture.
pub const LEGEND: &str = "\
Bars are calls, with their replies above. Red: a message of a shootdown, up to its first take;</text>
";

/// What stands below that.
pub const LEGEND_MORE: &str = "\
green: its acknowledgement, at its second take. Point at a thing to read more of it.</text>
";

/// The name of a request, which is also the class of its bar.
pub fn request_name(request: Request) -> &'static str
    ensures { result.now ≡ request_name request }
{
    match request {
        Request::Mmap { .. } => "mmap",
        Request::Munmap { .. } => "munmap",
        Request::Mprotect { .. } => "mprotect",
        Request::Load { .. } => "load",
        Request::Store { .. } => "store",
        Request::Fetch { .. } => "fetch",
    }
}

// A bar with its name, its reply and what it says on pointing.
impl Drawable<View> for Bar {
    ghost text = { bar_text };

    fn put(&self, out: &mut Vec<u8>, view: &View) -> Result<(), AllocError> {
        let name = request_name(self.request);
        let place = bar_place(*view, self);
        let x = column(*view, self.begin) + 5;
        let y = lane(self.core) + 44;
        put_parts(
            out,
            &[
                Part::Plain(Piece::Words("<g><title>")),
                Part::Plain(Piece::Words(name)),
                Part::Arguments(self.request),
                Part::Outcome(self.begin, self.answer),
                Part::Plain(Piece::Words("</title>")),
                Part::Rect(name, place),
                Part::Text("name", x, y),
                Part::Plain(Piece::Words(name)),
                Part::Plain(Piece::Words("</text>")),
                Part::Label(*view, self.core, self.answer),
                Part::Plain(Piece::Words("</g>\n")),
            ],
        )
    }
}

/// The class of an arrow.
pub fn course_class(course: Course) -> &'static str
    ensures { result.now ≡ course_class course }
{
    match course {
        Course::Message => "told",
        Course::Acknowledgement => "back",
    }
}

/// What an arrow stands for, between the numbers of its cores.
pub fn course_words(course: Course) -> &'static str
    ensures { result.now ≡ course_words course }
{
    match course {
        Course::Message => " asks to drop translations: core ",
        Course::Acknowledgement => " acknowledges to core ",
    }
}

// An arrow, with what it says on pointing.
impl Drawable<View> for Arrow {
    ghost text = { arrow_text };

    fn put(&self, out: &mut Vec<u8>, view: &View) -> Result<(), AllocError> {
        let words = course_words(self.course);
        let class = course_class(self.course);
        let way = arrow_way(*view, self);
        put_parts(
            out,
            &[
                Part::Plain(Piece::Words("<g><title>core ")),
                Part::Plain(Piece::Core(self.from)),
                Part::Plain(Piece::Words(words)),
                Part::Plain(Piece::Core(self.to)),
                Part::Span(self.sent, Some(self.came)),
                Part::Plain(Piece::Words("</title>")),
                Part::Line(class, way),
                Part::Plain(Piece::Words("</g>\n")),
            ],
        )
    }
}

// The word below a mark.
fn sign_word(sign: Sign) -> &'static str
    ensures { result.now ≡ sign_word sign }
{
    match sign {
        Sign::Take => "take",
        Sign::Deed(Deed::Wait) => "waits",
        Sign::Deed(Deed::Idle) => "idle",
        Sign::Deed(Deed::Walk) => "walk",
        Sign::Deed(Deed::Evict) => "evict",
        Sign::Deed(Deed::Flush) => "flush",
        Sign::Deed(Deed::Review) => "review",
    }
}

// The class of a mark's circle; that of a wait isn't seen.
fn sign_class(sign: Sign) -> &'static str
    ensures { result.now ≡ sign_class sign }
{
    match sign {
        Sign::Take => "take",
        Sign::Deed(Deed::Wait) => "still",
        Sign::Deed(Deed::Idle)
        | Sign::Deed(Deed::Walk)
        | Sign::Deed(Deed::Evict)
        | Sign::Deed(Deed::Flush)
        | Sign::Deed(Deed::Review) => "spot",
    }
}

// A mark with its word, and what it says on pointing.
impl Drawable<View> for Mark {
    ghost text = { mark_text };

    fn put(&self, out: &mut Vec<u8>, view: &View) -> Result<(), AllocError> {
        let class = sign_class(self.sign);
        let word = sign_word(self.sign);
        let x = column(*view, self.step) + 26;
        let y = lane(self.core);
        put_parts(
            out,
            &[
                Part::Plain(Piece::Words("<g><title>core ")),
                Part::Plain(Piece::Core(self.core)),
                Part::Plain(Piece::Words(", step ")),
                Part::Plain(Piece::Number(self.step)),
                Part::Plain(Piece::Words("</title>")),
                Part::Circle(class, x, y + 40),
                Part::Text("deed", x, y + 63),
                Part::Plain(Piece::Words(word)),
                Part::Plain(Piece::Words("</text></g>\n")),
            ],
        )
    }
}

/// The class of what has these rights.
pub fn prot_class(prot: Prot) -> &'static str
    ensures { result.now ≡ prot_class prot }
{
    if prot.write && prot.exec {
        "both"
    } else if prot.write {
        "write"
    } else if prot.exec {
        "exec"
    } else if prot.read {
        "read"
    } else {
        "none"
    }
}

/// A view, and the text of the trace, which has names of files.
#[derive(Clone, Copy)]
pub struct NamedView<'a> {
    /// The view.
    pub view: View,
    /// The text of the trace.
    pub text: &'a [u8],
}

// A stretch with its rights, and what it says on pointing.
impl<'a> Drawable<NamedView<'a>> for Stretch {
    ghost text = { λ named. stretch_text named.view named.text.now };

    fn put(&self, out: &mut Vec<u8>, named: &NamedView<'a>) -> Result<(), AllocError> {
        let class = prot_class(self.prot);
        let place = stretch_place(named.view, *self);
        let x = column(named.view, self.begin) + 30;
        let y = row_y(named.view, self.row) + 15;
        put_parts(
            out,
            &[
                Part::Plain(Piece::Words("<g><title>")),
                Part::Plain(Piece::Start(self.pages.first)),
                Part::Plain(Piece::Words("-")),
                Part::Plain(Piece::Start(self.pages.end)),
                Part::Plain(Piece::Words(" ")),
                Part::Plain(Piece::Rights(self.prot)),
                Part::Backing(named.text, self.back),
                Part::Span(self.begin, self.end),
                Part::Plain(Piece::Words("</title>")),
                Part::Rect(class, place),
                Part::Text("prot", x, y),
                Part::Plain(Piece::Rights(self.prot)),
                Part::Plain(Piece::Words("</text></g>\n")),
            ],
        )
    }
}
