//! Which pages were mapped over which steps, found by halving the rows: in each half only what touches its pages is looked at.
ghost use Rattle.std.specs.Prelude.{◌≡◌, ◌++◌, ◌≤◌, ◌⊎◌, IfOk, OnOk, ◌+◌, ◌/◌, drop, length, take};
ghost use Rattle.std.specs.List.{filter};
ghost use Rattle.std.specs.List.Sorted.{IsStrictlyIncreasing};
ghost use Rattle.draw_steps.specs.Rows.{rows_of};
ghost use Rattle.draw_steps.specs.Shapes.{stretches_of};
ghost use Rattle.draw_lives.specs.Living.{AreAdded, lives_of, meets, span_of};

use draw_steps::moments::{Moment, Recorded};
use draw_steps::rows::{edges_of, has_mapped, stretch_of};
use draw_steps::shapes::Stretch;
use std::alloc::{AllocError, Global};
use vm_base::PageRange;

// Tells whether this maps or unmaps some of the pages.
fn meets(recorded: &Recorded, pages: PageRange) -> bool
    ensures { result ≡ meets pages recorded.now }
{
    match &recorded.moment {
        Moment::Mapped { pages: range, .. } => range.first < pages.end && pages.first < range.end,
        Moment::Unmapped { pages: range } => range.first < pages.end && pages.first < range.end,
        _ => false,
    }
}

// The moments that map or unmap some of the pages, in order.
fn meeting(
    alloc: Global,
    moments: &[Recorded],
    pages: PageRange,
) -> Result<Vec<Recorded>, AllocError>
    ensures { IfOk result (λ some. some.items ≡ filter (meets pages) moments.now) }
{
    let mut some: Vec<Recorded> = Vec::new(alloc);
    'moments: for recorded in moments {
        if meets(recorded, pages) {
            some.push(*recorded)?;
        }
    }
    Ok(some)
}

// Appends the lives of one row, up to 2,001 in all.
fn put_row(
    lives: &mut Vec<Stretch>,
    moments: &[Recorded],
    row: u16,
    pages: PageRange,
) -> Result<(), AllocError>
    requires { length lives.old.items ≤ 2001 }
    ensures { OnOk result (lives.new.items
        ≡ take 2001 (lives.old.items ++ stretches_of moments.now row pages moments.now)) }
{
    let most = moments.len();
    let mut at = 0;
    'moments: while at < most && lives.len() <= 2000 {
        if let Some(life) = stretch_of(moments, row, pages, &moments[at]) {
            lives.push(life)?;
        }
        at += 1;
    }
    Ok(())
}

// The pages from the first edge up to the last.
fn span_of(edges: &[u64]) -> PageRange
    requires { 2 ≤ length edges.now }
    ensures { result ≡ span_of edges.now }
{
    PageRange {
        first: edges[0],
        end: edges[edges.len() - 1],
    }
}

// The moments that are looked at between these edges, while there is room for more lives.
fn looked_at(
    alloc: Global,
    lives: usize,
    moments: &[Recorded],
    edges: &[u64],
) -> Result<Vec<Recorded>, AllocError>
    requires { 2 ≤ length edges.now }
    ensures { IfOk result (λ some. (some.items ≡ filter (meets (span_of edges.now)) moments.now) ⊎ (2001 ≤ lives)) }
{
    if lives > 2000 {
        return Ok(Vec::new(alloc));
    }
    let some = meeting(alloc, moments, span_of(edges))?;
    Ok(some)
}

// Appends the lives of the pages between two edges, if they are a row, and answers the number of the next row.
fn put_between(
    lives: &mut Vec<Stretch>,
    moments: &[Recorded],
    row: u16,
    edges: &[u64],
) -> Result<u16, AllocError>
    requires { (length edges.now ≡ 2) × (row ≤ length lives.old.items) × (length lives.old.items ≤ 2000) }
    ensures { IfOk result (λ next.
        AreAdded moments.now row (rows_of moments.now edges.now) lives.old.items next lives.new.items) }
{
    let pages = span_of(edges);
    if has_mapped(moments, pages.first) {
        put_row(lives, moments, row, pages)?;
        return Ok(row + 1);
    }
    Ok(row)
}

// The edges up to the middle one, which both halves have.
fn lower_edges(edges: &[u64]) -> &[u64]
    requires { 2 ≤ length edges.now }
    ensures { result.now ≡ take (length edges.now / 2 + 1) edges.now }
{
    &edges[..edges.len() / 2 + 1]
}

// The edges from the middle one on.
fn upper_edges(edges: &[u64]) -> &[u64]
    requires { 2 ≤ length edges.now }
    ensures { result.now ≡ drop (length edges.now / 2) edges.now }
{
    &edges[edges.len() / 2..]
}

// Appends the lives of the rows between these edges, of which the first has this number, up to 2,001 lives in all, and
// answers the number of the next row.
fn put_rows(
    alloc: Global,
    lives: &mut Vec<Stretch>,
    moments: &[Recorded],
    row: u16,
    edges: &[u64],
) -> Result<u16, AllocError>
    requires { (row ≤ length lives.old.items) × (length lives.old.items ≤ 2001) × IsStrictlyIncreasing edges.now }
    ensures { IfOk result (λ next.
        AreAdded moments.now row (rows_of moments.now edges.now) lives.old.items next lives.new.items) }
{
    if lives.len() > 2000 {
        return Ok(row);
    }
    if edges.len() < 2 {
        return Ok(row);
    }
    if edges.len() == 2 {
        let next = put_between(lives, moments, row, edges)?;
        return Ok(next);
    }
    let below = lower_edges(edges);
    let lower = looked_at(alloc, lives.len(), moments, below)?;
    let next = put_rows(alloc, lives, lower.as_slice(), row, below)?;
    let above = upper_edges(edges);
    let upper = looked_at(alloc, lives.len(), moments, above)?;
    let last = put_rows(alloc, lives, upper.as_slice(), next, above)?;
    Ok(last)
}

/// The lives of mappings, from the lowest pages on: all of them, or of more than 2,001 the first 2,001. An error is a refusal of memory.
/// The time grows with the moments and a logarithm.
pub fn lives_of(alloc: Global, moments: &[Recorded]) -> Result<Vec<Stretch>, AllocError>
    ensures { IfOk result (λ lives. lives.items ≡ lives_of moments.now) }
{
    let edges = edges_of(alloc, moments)?;
    let mut lives: Vec<Stretch> = Vec::new(alloc);
    let _rows = put_rows(alloc, &mut lives, moments, 0, edges.as_slice())?;
    Ok(lives)
}
