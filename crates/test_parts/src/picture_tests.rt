//! Pictures of sixty events, and of the lives of 2000 mappings: their texts are apart. Which shapes a picture has, its contract says.
use draw_lives::drawing::draw_lives;
use draw_steps::canvas::draw;
use draw_steps::moments::{Deed, Moment, Recorded};
use draw_steps::places::view_of;
use std::alloc::{AllocError, Global};
use std::test::Fail;
use vm_base::{Back, CoreId, Errno, PageRange, Prot, Reply, Request, SegvCode};

const RW: Prot = Prot {
    read: true,
    write: true,
    exec: false,
};

fn add(all: &mut Vec<Recorded>, step: u64, moment: Moment) -> Result<(), AllocError> {
    all.push(Recorded { step, moment })?;
    Ok(())
}

// A page that is mapped in a step.
fn add_page(all: &mut Vec<Recorded>, step: u64, first: u64) -> Result<(), AllocError> {
    let pages = PageRange {
        first,
        end: first.saturating_add(1),
    };
    let back = Some(Back::Anon);
    add(
        all,
        step,
        Moment::Mapped {
            pages,
            prot: RW,
            back,
        },
    )
}

// The lives of so many pages that are mapped one by one, none beside another.
fn lives_of(alloc: Global, pages: u64) -> Result<Vec<u8>, AllocError> {
    let mut all: Vec<Recorded> = Vec::new(alloc);
    for page in 0..pages.min(10_000) {
        add_page(&mut all, 1, 16 + 2 * page)?;
    }
    draw_lives(alloc, 8, b"", all.as_slice())
}

// A reply for each step, the longest among them.
fn reply_at(step: u64) -> Reply {
    match step % 5 {
        0 => Reply::Mapped(0x7fff_ffff_f000),
        1 => Reply::Segv(SegvCode::MapErr),
        2 => Reply::Refused(Errno::EOVERFLOW),
        3 => Reply::Mapped(0x7fff_ffff_e000),
        _ => Reply::Segv(SegvCode::AccErr),
    }
}

// What a core did in a step.
fn deed_at(step: u64) -> Deed {
    match step % 4 {
        0 => Deed::Review,
        1 => Deed::Evict,
        2 => Deed::Wait,
        _ => Deed::Flush,
    }
}

// A call of the first core in a step, with its reply.
fn add_call(all: &mut Vec<Recorded>, step: u64) -> Result<(), AllocError> {
    let request = Request::Mprotect {
        addr: 0x7fff_ffff_f000,
        len: 4096,
        prot: RW,
    };
    add(
        all,
        step,
        Moment::Begins {
            call: step,
            core: CoreId::new(0),
            request,
        },
    )?;
    let reply = reply_at(step);
    add(all, step, Moment::Answers { call: step, reply })
}

// Sixty events: calls of one core, each with a long reply, and then deeds of the other; and a page that is mapped in every third.
fn add_sixty(all: &mut Vec<Recorded>) -> Result<(), AllocError> {
    for step in 100_000..100_060 {
        if step < 100_036 {
            add_call(all, step)?;
        } else {
            let core = CoreId::new(1);
            let deed = deed_at(step);
            add(all, step, Moment::Did { core, deed })?;
        }
        if step % 3 == 0 {
            add_page(all, step, 0x7_ffff_0000 + step % 64)?;
        }
    }
    Ok(())
}

// The picture of sixty events.
fn sixty(alloc: Global) -> Result<Vec<u8>, AllocError> {
    let mut all: Vec<Recorded> = Vec::new(alloc);
    add_sixty(&mut all)?;
    draw(alloc, view_of(2, 100_000, 100_059), b"", all.as_slice())
}

// A text's box, in tenths of the picture's units: left, right, top and bottom.
type TextBox = [u64; 4];

// The size of a class's letters, in tenths, and how many halves of its width a text of it begins before its place.
fn letters_of(class: &str) -> (u64, u64) {
    match class {
        "core" | "head" => (120, 0),
        "reply" | "fault" => (100, 2),
        "page" | "note" => (100, 0),
        "step" | "deed" => (90, 1),
        _ => (90, 0),
    }
}

// The box of so many letters of a class at a place; a letter of a monospaced font is 62 hundredths of its size wide at most.
fn box_at(class: &str, x: u64, y: u64, letters: u64) -> TextBox {
    let (size, halves) = letters_of(class);
    let width = letters.saturating_mul(size).saturating_mul(62) / 100;
    let x = x.saturating_mul(10).saturating_add(10_000);
    let y = y.saturating_mul(10).saturating_add(10_000);
    let left = x.saturating_sub(width.saturating_mul(halves) / 2);
    let top = y.saturating_sub(size.saturating_mul(8) / 10);
    let bottom = y.saturating_add(size.saturating_mul(2) / 10);
    [left, left.saturating_add(width), top, bottom]
}

// The box of a text element, from its class on.
fn read_box(piece: &str) -> Option<TextBox> {
    let (class, piece) = piece.split_once("\" x=\"")?;
    let (x, piece) = piece.split_once("\" y=\"")?;
    let (y, piece) = piece.split_once("\">")?;
    let (words, _) = piece.split_once("<")?;
    let x = x.parse::<u64>().ok()?;
    let y = y.parse::<u64>().ok()?;
    Some(box_at(class, x, y, words.len() as u64))
}

// Whether a box is apart from all of these.
fn is_apart_from(a: TextBox, others: &[TextBox]) -> bool {
    for b in others {
        if a[0] < b[1] && b[0] < a[1] && a[2] < b[3] && b[2] < a[3] {
            return false;
        }
    }
    true
}

// How many texts a picture has, if each is apart from those before it.
fn texts_apart(alloc: Global, svg: &[u8]) -> Result<Option<usize>, AllocError> {
    let mut boxes: Vec<TextBox> = Vec::new(alloc);
    for piece in str::from_utf8(svg).unwrap_or("").split("<text class=\"") {
        if let Some(found) = read_box(piece) {
            if !is_apart_from(found, boxes.as_slice()) {
                return Ok(None);
            }
            boxes.push(found)?;
        }
    }
    Ok(Some(boxes.len()))
}

#[test]
fn texts_are_apart(rt: HostRuntime) -> Result<(), Fail> {
    let picture = sixty(rt.alloc())?;
    let texts = 60 + 2 + 20 + 20 + 36 + 36 + 24 + 3;
    assert_eq!(rt; texts_apart(rt.alloc(), picture.as_slice())?, Some(texts));
    let lives = lives_of(rt.alloc(), 2000)?;
    assert_eq!(rt;
        texts_apart(rt.alloc(), lives.as_slice())?,
        Some(1 + 5 + 3 + 9 + 63)
    );
    Ok(())
}
