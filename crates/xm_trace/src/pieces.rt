//! Texts that are put into lines often.

ghost use Rattle.std.specs.Prelude.{◌≡◌, ◌+◌, ◌<◌, ◌≤◌, ◌^◌, [], ◌∷◌, ◌++◌, length, map, take, slice_index_or, IfOk, OnOk};
ghost use Rattle.xm_model.specs.Naming.{texts_of};
ghost use Rattle.xm_trace.specs.Inner.Pieces.{AreWithin, before_each, pairs_text, piece_len, piece_room, piece_text, pieces_text};

use std::alloc::Global;
use xm_model::{List, OutOfMemory, Text};

/// How many bytes are copied of a short text.
const SHORT: usize = 16;

/// A text. One of at most 16 bytes stands in front of zeros: all 16 are copied, and what follows is written over
/// the zeros, which costs less than a copy of its own length (measured with callgrind).
#[derive(Drop)]
pub enum Piece {
    Short { bytes: [u8; SHORT], len: u8 },
    Long(Text),
}

/// Texts by number, none of which needs more room than `widest`.
#[derive(Drop)]
pub struct Pieces {
    pub list: List<Piece>,
    pub widest: u32,
}

/// The text in front of zeros.
fn padded(text: &[u8]) -> [u8; SHORT]
    requires { length text.now ≤ SHORT }
    ensures { take (length text.now) result ≡ text.now }
{
    let mut bytes = [0; SHORT];
    for i in 0..text.len() {
        bytes[i] = text[i];
    }
    bytes
}

/// The text as a piece. One of 4 GiB is refused as if there were no memory for it.
fn piece_of(alloc: Global, text: &[u8]) -> Result<Piece, OutOfMemory>
    ensures text { IfOk result (λ piece. piece_text piece ≡ text.now) }
    ensures short { IfOk result (λ piece. piece_len piece ≤ piece_room piece) }
    ensures room { IfOk result (λ piece. piece_room piece < 2 ^ 32) }
{
    if text.len() <= SHORT {
        return Ok(Piece::Short {
            bytes: padded(text),
            len: text.len() as u8,
        });
    }
    if text.len() > u32::MAX as usize {
        return Err(OutOfMemory);
    }
    Ok(Piece::Long(Text::from_bytes(alloc, text)?))
}

/// How many bytes of room a piece needs.
fn room_of(piece: &Piece) -> usize
    ensures { result ≡ piece_room piece.now }
{
    match piece {
        Piece::Short { bytes, .. } => bytes.as_slice().len(),
        Piece::Long(text) => text.as_bytes().len(),
    }
}

/// Appends a text.
fn push_piece(alloc: Global, pieces: &mut Pieces, text: &[u8]) -> Result<(), OutOfMemory>
    requires { AreWithin pieces.old }
    ensures texts { OnOk result (pieces_text pieces.new ≡ pieces_text pieces.old ++ text.now ∷ []) }
    ensures within { OnOk result (AreWithin pieces.new) }
{
    let piece = piece_of(alloc, text)?;
    pieces.widest = pieces.widest.max(room_of(&piece) as u32);
    pieces.list.push(piece)
}

/// No texts.
pub fn no_pieces(alloc: Global) -> Pieces
    ensures texts { pieces_text result ≡ [] }
    ensures within { AreWithin result }
    ensures widest { result.widest ≡ 0 }
{
    Pieces {
        list: List::new(alloc),
        widest: 0,
    }
}

/// The texts as pieces.
pub fn pieces_of(alloc: Global, texts: &[Text]) -> Result<Pieces, OutOfMemory>
    ensures texts { IfOk result (λ pieces. pieces_text pieces ≡ texts_of texts.now) }
    ensures within { IfOk result AreWithin }
{
    let mut pieces = no_pieces(alloc);
    for text in texts {
        push_piece(alloc, &mut pieces, text.as_bytes())?;
    }
    Ok(pieces)
}

/// Appends one text before another, as one.
fn push_joined(
    alloc: Global,
    pieces: &mut Pieces,
    first: &[u8],
    second: &[u8],
) -> Result<(), OutOfMemory>
    requires { AreWithin pieces.old }
    ensures texts { OnOk result (pieces_text pieces.new ≡ pieces_text pieces.old ++ (first.now ++ second.now) ∷ []) }
    ensures within { OnOk result (AreWithin pieces.new) }
{
    let mut text = Text::new(alloc);
    text.push_bytes(first)?;
    text.push_bytes(second)?;
    push_piece(alloc, pieces, text.as_bytes())
}

/// Appends the text before each of the others.
fn push_before_each(
    alloc: Global,
    pieces: &mut Pieces,
    first: &[u8],
    others: &[Text],
) -> Result<(), OutOfMemory>
    requires { AreWithin pieces.old }
    ensures texts { OnOk result (pieces_text pieces.new
        ≡ pieces_text pieces.old ++ before_each (texts_of others.now) first.now) }
    ensures within { OnOk result (AreWithin pieces.new) }
{
    for other in others {
        push_joined(alloc, pieces, first, other.as_bytes())?;
    }
    Ok(())
}

/// Each of the first texts before each of the others.
pub fn pairs_of(alloc: Global, firsts: &[Text], others: &[Text]) -> Result<Pieces, OutOfMemory>
    ensures texts { IfOk result
        (λ pieces. pieces_text pieces ≡ pairs_text (texts_of others.now) (texts_of firsts.now)) }
    ensures within { IfOk result AreWithin }
{
    let mut pieces = no_pieces(alloc);
    for first in firsts {
        push_before_each(alloc, &mut pieces, first.as_bytes(), others)?;
    }
    Ok(pieces)
}

/// Writes the bytes of a short text at this place.
#[inline(always)]
fn put_short(out: &mut [u8], at: usize, bytes: &[u8; SHORT])
    requires { at + length bytes.now ≤ length out.old }
    ensures text { take (at + length bytes.now) out.new ≡ take at out.old ++ bytes.now }
    ensures len { length out.new ≡ length out.old }
{
    // A copy that cannot overlap `out` is one load and one store (seen in the disassembly).
    let copied = *bytes;
    out[at..at + SHORT].copy_from_slice(&copied);
}

/// Writes the text at this place. It is not inlined, so that the loop over the moves stays small.
#[inline(never)]
pub fn put_bytes(out: &mut [u8], at: usize, text: &[u8]) -> usize
    requires { at + length text.now ≤ length out.old }
    ensures end { result ≡ at + length text.now }
    ensures text { take result out.new ≡ take at out.old ++ text.now }
    ensures len { length out.new ≡ length out.old }
{
    let end = at + text.len();
    out[at..end].copy_from_slice(text);
    end
}

/// Writes the piece at this place, and gives the place behind it.
#[inline(always)]
fn put_piece(out: &mut [u8], at: usize, piece: &Piece) -> usize
    requires short { piece_len piece.now ≤ piece_room piece.now }
    requires room { at + piece_room piece.now ≤ length out.old }
    ensures text { take result out.new ≡ take at out.old ++ piece_text piece.now }
    ensures within { result ≤ at + piece_room piece.now }
    ensures len { length out.new ≡ length out.old }
{
    match piece {
        Piece::Short { bytes, len } => {
            put_short(out, at, bytes);
            at + usize::from(*len)
        }
        Piece::Long(text) => put_bytes(out, at, text.as_bytes()),
    }
}

/// Writes the text with this number at this place, and gives the place behind it. There is nothing to write where
/// there is no such text.
#[inline(always)]
pub fn put_at(out: &mut [u8], at: usize, pieces: &Pieces, number: usize) -> usize
    requires within { AreWithin pieces.now }
    requires room { at + pieces.now.widest ≤ length out.old }
    ensures text { take result out.new ≡ take at out.old ++ slice_index_or (pieces_text pieces.now) number [] }
    ensures within { result ≤ at + pieces.now.widest }
    ensures len { length out.new ≡ length out.old }
{
    match pieces.list.as_slice().get(number) {
        Some(piece) => put_piece(out, at, piece),
        None => at,
    }
}
