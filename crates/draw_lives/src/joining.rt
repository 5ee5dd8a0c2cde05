//! Rows that are alike in all steps, and lie beside each other, are made one.
ghost use Rattle.std.specs.Prelude.{◌≡◌, ◌++◌, ◌+◌, ◌-◌, ◌≤◌, ◌<◌, ◌^◌, IfOk, OnOk, map};
ghost use Rattle.draw_lives.specs.Joining.{end_of_row, first_joined, goes_on, is_anon, is_of, is_private, is_shared, is_unknown, joined_rows};
ghost use Rattle.draw_lives.specs.Joining.{next_row, numbered, reaching, row_goes_on, row_lives, same_back, same_right, same_rights, same_step, with_row};

use draw_steps::moments::back_by;
use draw_steps::shapes::Stretch;
use std::alloc::{AllocError, Global};
use vm_base::{Back, PageRange, Prot};

// Tells whether two ends are the same.
fn same_step(a: Option<u64>, b: Option<u64>) -> bool
    ensures { result ≡ same_step a b }
{
    match a {
        None => match b {
            None => true,
            Some(_) => false,
        },
        Some(a) => match b {
            None => false,
            Some(b) => a == b,
        },
    }
}

// Tells whether a right is given, or not, in both.
fn same_right(a: bool, b: bool) -> bool
    ensures { result ≡ same_right a b }
{
    if a { b } else { !b }
}

// Tells whether rights are the same.
fn same_rights(a: Prot, b: Prot) -> bool
    ensures { result ≡ same_rights a b }
{
    same_right(a.read, b.read) && same_right(a.write, b.write) && same_right(a.exec, b.exec)
}

// Tells whether it isn't known what backs a page.
fn is_unknown(b: Option<Back>) -> bool
    ensures { result ≡ is_unknown b }
{
    match b {
        None => true,
        Some(_) => false,
    }
}

// Tells whether zero bytes back a page.
fn is_anon(b: Option<Back>) -> bool
    ensures { result ≡ is_anon b }
{
    match b {
        None => false,
        Some(Back::Anon) => true,
        Some(Back::Shared { .. }) => false,
        Some(Back::Private { .. }) => false,
    }
}

// Tells whether this page of a file backs a page.
fn is_shared(file: u32, page: u64, b: Option<Back>) -> bool
    ensures { result ≡ is_shared file page b }
{
    match b {
        None => false,
        Some(Back::Anon) => false,
        Some(Back::Shared { file: f, page: p }) => f == file && p == page,
        Some(Back::Private { .. }) => false,
    }
}

// Tells whether a copy of this page of a file backs a page.
fn is_private(file: u32, page: u64, b: Option<Back>) -> bool
    ensures { result ≡ is_private file page b }
{
    match b {
        None => false,
        Some(Back::Anon) => false,
        Some(Back::Shared { .. }) => false,
        Some(Back::Private { file: f, page: p }) => f == file && p == page,
    }
}

// Tells whether the same backs two pages.
fn same_back(a: Option<Back>, b: Option<Back>) -> bool
    ensures { result ≡ same_back a b }
{
    match a {
        None => is_unknown(b),
        Some(Back::Anon) => is_anon(b),
        Some(Back::Shared { file, page }) => is_shared(file, page, b),
        Some(Back::Private { file, page }) => is_private(file, page, b),
    }
}

// Tells whether a life goes on in another, on the pages right behind.
fn goes_on(a: &Stretch, b: &Stretch) -> bool
    ensures { result ≡ goes_on a.now b.now }
{
    let by = b.pages.first.saturating_sub(a.pages.first);
    a.pages.end == b.pages.first
        && a.begin == b.begin
        && same_step(a.end, b.end)
        && same_rights(a.prot, b.prot)
        && same_back(back_by(a.back, by), b.back)
}

// Tells whether each life of a row goes on in one of another.
fn row_goes_on(above: &[Stretch], below: &[Stretch]) -> bool
    ensures { result ≡ row_goes_on above.now below.now }
{
    let mut at = 0;
    'lives: while at < above.len() && at < below.len() {
        if !goes_on(&above[at], &below[at]) {
            return false;
        }
        at += 1;
    }
    above.len() == below.len()
}

// The lives of a row.
fn row_lives(alloc: Global, lives: &[Stretch], row: u16) -> Result<Vec<Stretch>, AllocError>
    ensures { IfOk result (λ some. some.items ≡ row_lives lives.now row) }
{
    let mut some: Vec<Stretch> = Vec::new(alloc);
    'lives: for life in lives {
        if life.row == row {
            some.push(*life)?;
        }
    }
    Ok(some)
}

// The number of the row behind all of these.
fn next_row(lives: &[Stretch]) -> u16
    ensures { result ≡ next_row lives.now }
{
    match lives.last() {
        Some(life) => life.row.saturating_add(1),
        None => 0,
    }
}

// The life, of the row with this number.
fn numbered(life: Stretch, row: u16) -> Stretch
    ensures { result ≡ numbered row life }
{
    Stretch { row, ..life }
}

// The life, up to this page, where it is one of the row.
fn reaching(life: Stretch, row: u16, end: u64) -> Stretch
    ensures { result ≡ reaching row end life }
{
    if life.row == row {
        let pages = PageRange {
            first: life.pages.first,
            end,
        };
        Stretch { pages, ..life }
    } else {
        life
    }
}

// Where the pages of a row end.
fn end_of_row(row: &[Stretch]) -> u64
    ensures { result ≡ end_of_row row.now }
{
    match row.first() {
        Some(life) => life.pages.end,
        None => 0,
    }
}

// The lives, of which those of a row go on up to this page.
fn reached(alloc: Global, lives: &[Stretch], row: u16, end: u64) -> Result<Vec<Stretch>, AllocError>
    ensures { IfOk result (λ all. all.items ≡ map (reaching row end) lives.now) }
{
    let mut all: Vec<Stretch> = Vec::new(alloc);
    'lives: for life in lives {
        all.push(reaching(*life, row, end))?;
    }
    Ok(all)
}

// Appends lives, as those of the row with this number.
fn push_row(lives: &mut Vec<Stretch>, row: &[Stretch], number: u16) -> Result<(), AllocError>
    ensures { OnOk result (lives.new.items ≡ lives.old.items ++ map (numbered number) row.now) }
{
    'lives: for life in row {
        lives.push(numbered(*life, number))?;
    }
    Ok(())
}

// Adds the lives of a row more: they share the last row, where its lives go on in them, and else have the next one.
fn add_row(alloc: Global, lives: &mut Vec<Stretch>, row: &[Stretch]) -> Result<(), AllocError>
    ensures { OnOk result (lives.new.items ≡ with_row lives.old.items row.now) }
{
    let next = next_row(lives.as_slice());
    let number = next.saturating_sub(1);
    let last = row_lives(alloc, lives.as_slice(), number)?;
    if row_goes_on(last.as_slice(), row) {
        let all = reached(alloc, lives.as_slice(), number, end_of_row(row))?;
        *lives = all;
        return Ok(());
    }
    push_row(lives, row, next)?;
    Ok(())
}

/// The lives in as few rows: where rows lie beside each other and are alike in all steps, with the same rights and what backs them
/// going on, they are one. An error is a refusal of memory.
pub fn joined_rows(alloc: Global, lives: &[Stretch]) -> Result<Vec<Stretch>, AllocError>
    ensures { IfOk result (λ joined. joined.items ≡ joined_rows lives.now) }
{
    let count = next_row(lives);
    let mut all: Vec<Stretch> = Vec::new(alloc);
    'rows: for at in 0..count {
        let row = row_lives(alloc, lives, at)?;
        add_row(alloc, &mut all, row.as_slice())?;
    }
    Ok(all)
}
