//! Pieces of a text, appended to it: words, numbers, cores, addresses, replies and rights.
ghost use Rattle.std.specs.Prelude.{◌≡◌, ◌++◌, OnOk, decimal};
ghost use Rattle.std.specs.List.{flat_map};
ghost use Rattle.trace_text.specs.Pieces.{piece_text};
ghost use Rattle.trace_text.specs.Lists.{start_of};
ghost use Rattle.trace_text.specs.Printing.{address_of, text_of};
ghost use Rattle.trace_text.specs.Spelling.{rights_text};

use crate::{LineText, address_text, number_text, push_reply, push_rights, push_start};
use std::alloc::AllocError;
use vm_base::{CoreId, Prot, Reply};

/// A piece of a text.
#[derive(Clone, Copy)]
pub enum Piece<'a> {
    /// These words.
    Words(&'a str),
    /// A number in decimal digits.
    Number(u64),
    /// A core's number.
    Core(CoreId),
    /// An address in hexadecimal digits.
    Address(u64),
    /// The address at which a page begins.
    Start(u64),
    /// A reply in the words of the log.
    Reply(Reply),
    /// The three rights.
    Rights(Prot),
}

/// Appends words.
pub fn put(out: &mut Vec<u8>, words: &str) -> Result<(), AllocError>
    ensures { OnOk result (out.new.items ≡ out.old.items ++ words.now) }
{
    out.extend_from_slice(words.as_bytes())
}

// Appends a number.
fn put_number(out: &mut Vec<u8>, number: u64) -> Result<(), AllocError>
    ensures { OnOk result (out.new.items ≡ out.old.items ++ decimal number) }
{
    put(out, number_text(number).as_str())
}

// Appends a core's number.
fn put_core(out: &mut Vec<u8>, core: CoreId) -> Result<(), AllocError>
    ensures { OnOk result (out.new.items ≡ out.old.items ++ decimal core) }
{
    put_number(out, u64::from(core.index()))
}

// Appends an address.
fn put_address(out: &mut Vec<u8>, address: u64) -> Result<(), AllocError>
    ensures { OnOk result (out.new.items ≡ out.old.items ++ address_of address) }
{
    put(out, address_text(address).as_str())
}

// Appends the address at which a page begins.
fn put_start(out: &mut Vec<u8>, page: u64) -> Result<(), AllocError>
    ensures { OnOk result (out.new.items ≡ out.old.items ++ start_of page) }
{
    let mut text = LineText::new();
    push_start(&mut text, page);
    put(out, text.as_str())
}

// Appends a reply.
fn put_reply(out: &mut Vec<u8>, reply: Reply) -> Result<(), AllocError>
    ensures { OnOk result (out.new.items ≡ out.old.items ++ text_of reply) }
{
    let mut text = LineText::new();
    push_reply(&mut text, reply);
    put(out, text.as_str())
}

// Appends the three rights.
fn put_rights(out: &mut Vec<u8>, prot: Prot) -> Result<(), AllocError>
    ensures { OnOk result (out.new.items ≡ out.old.items ++ rights_text prot) }
{
    let mut text = LineText::new();
    push_rights(&mut text, prot);
    put(out, text.as_str())
}

/// Appends a piece.
pub fn put_piece(out: &mut Vec<u8>, piece: &Piece) -> Result<(), AllocError>
    ensures { OnOk result (out.new.items ≡ out.old.items ++ piece_text piece.now) }
{
    match piece {
        Piece::Words(words) => put(out, words),
        Piece::Number(number) => put_number(out, *number),
        Piece::Core(core) => put_core(out, *core),
        Piece::Address(address) => put_address(out, *address),
        Piece::Start(page) => put_start(out, *page),
        Piece::Reply(reply) => put_reply(out, *reply),
        Piece::Rights(prot) => put_rights(out, *prot),
    }
}

/// Appends pieces, one after another.
pub fn put_all(out: &mut Vec<u8>, pieces: &[Piece]) -> Result<(), AllocError>
    ensures { OnOk result (out.new.items ≡ out.old.items ++ flat_map piece_text pieces.now) }
{
    let mut at = 0;
    'pieces: while at < pieces.len() {
        put_piece(out, &pieces[at])?;
        at += 1;
    }
    Ok(())
}
