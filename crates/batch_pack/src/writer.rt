//! Writing the spelling of a call with its pieces of client memory, a slot after the other. It takes no memory.

ghost use Rattle.std.specs.Prelude.{◌≡◌, ◌+◌, ◌*◌, ◌^◌, ◌<◌, ◌≤◌, ◌++◌, length, map, vec_capacity};
ghost use Rattle.std.specs.Int.{from_le_bytes, w64};
ghost use Rattle.std.specs.List.{flat_map};
ghost use Rattle.gl_words.specs.Slots.{slot_of};
ghost use Rattle.gl_memory.specs.ClientMemory.{memory_of};
ghost use Rattle.gl_memory.specs.Piece.{IsPiece, bytes_from, cut, cut_out};
ghost use Rattle.batch_pack.specs.Batch.{captured};
ghost use Rattle.batch_pack.specs.Heading.{IsHeadingOf};
ghost use Rattle.batch_pack.specs.Spelling.{slot_at, slots_for, segment_spelling, spelling_of, HasSpelling};

use crate::spelling::{Heading, header, words_of};
use gl_memory::{Piece, Pieces};
use gl_words::{Call, arguments_of};

/// Puts the spelling of a call with this heading behind the other slots.
pub(crate) fn spell(
    slots: &mut Vec<u64>,
    call: &Call,
    pieces: &Pieces,
    bytes: &[u8],
    heading: Heading,
)
    requires heading { IsHeadingOf heading (captured call.now pieces.now bytes.now) }
    requires short { heading.slots < 2 ^ 32 }
    requires room { length slots.old.items + heading.slots ≤ vec_capacity slots.old }
    ensures spelled { slots.new.items
        ≡ slots.old.items ++ spelling_of (captured call.now pieces.now bytes.now) }
    ensures has { HasSpelling (captured call.now pieces.now bytes.now) }
    ensures same_room { vec_capacity slots.new ≡ vec_capacity slots.old }
{
    let arguments = arguments_of(call);
    slots.push_reserved(header(heading, pieces.len()));
    spell_arguments(slots, arguments.as_slice());
    spell_pieces(slots, pieces, bytes);
}

/// Puts arguments behind the other slots.
#[tactic(auto, unfolding(gl_words::specs::Slots::slot_of))]
fn spell_arguments(slots: &mut Vec<u64>, numbers: &[i64])
    requires room { length slots.old.items + length numbers.now ≤ vec_capacity slots.old }
    ensures spelled { slots.new.items ≡ slots.old.items ++ map slot_of numbers.now }
    ensures same_room { vec_capacity slots.new ≡ vec_capacity slots.old }
{
    for number in numbers {
        slots.push_reserved(number.cast_unsigned());
    }
}

/// Puts pieces behind the other slots, each as a segment of the bytes that it holds.
fn spell_pieces(slots: &mut Vec<u64>, pieces: &Pieces, bytes: &[u8])
    requires room { length slots.old.items
        + length (flat_map segment_spelling (cut pieces.now (memory_of bytes.now)))
        ≤ vec_capacity slots.old }
    ensures spelled { slots.new.items
        ≡ slots.old.items ++ flat_map segment_spelling (cut pieces.now (memory_of bytes.now)) }
    ensures same_room { vec_capacity slots.new ≡ vec_capacity slots.old }
{
    for at in 0..pieces.len() {
        spell_piece(slots, pieces.at(at), bytes);
    }
}

/// Puts a piece behind the other slots, as a segment of the bytes that it holds.
fn spell_piece(slots: &mut Vec<u64>, piece: Piece, bytes: &[u8])
    requires piece { IsPiece piece }
    requires room { length slots.old.items + 2 + slots_for piece.len ≤ vec_capacity slots.old }
    ensures spelled { slots.new.items
        ≡ slots.old.items ++ segment_spelling (cut_out (memory_of bytes.now) piece) }
    ensures same_room { vec_capacity slots.new ≡ vec_capacity slots.old }
{
    slots.push_reserved(piece.start);
    slots.push_reserved(piece.len);
    for number in 0..words_of(piece.len) {
        slots.push_reserved(word_of(piece, number, bytes));
    }
}

/// The slot with this number among those of a piece's bytes: eight bytes, and zeros where the piece or client memory ends.
fn word_of(piece: Piece, number: u64, bytes: &[u8]) -> u64
    requires piece { IsPiece piece }
    requires there { number < slots_for piece.len }
    ensures { result
        ≡ slot_at (bytes_from (memory_of bytes.now) piece.start piece.len) (8 * number) }
{
    let at = piece.start + 8 * number;
    let count = (piece.len - 8 * number).min(8);
    if count == 8 && at + 8 <= bytes.len() as u64 {
        whole_word(bytes, at as usize)
    } else {
        partial_word(bytes, at as usize, count as usize)
    }
}

/// Eight bytes from a place on, the first in the lowest eight bits.
fn whole_word(bytes: &[u8], at: usize) -> u64
    requires there { at + 8 ≤ length bytes.now }
    ensures { result ≡ from_le_bytes w64 (bytes_from (memory_of bytes.now) at 8) }
{
    u64::from_le_bytes([
        bytes[at],
        bytes[at + 1],
        bytes[at + 2],
        bytes[at + 3],
        bytes[at + 4],
        bytes[at + 5],
        bytes[at + 6],
        bytes[at + 7],
    ])
}

/// So many bytes from a place on, the first in the lowest eight bits, and zeros where there are none.
fn partial_word(bytes: &[u8], at: usize, count: usize) -> u64
    requires few { count ≤ 8 }
    ensures { result ≡ from_le_bytes w64 (bytes_from (memory_of bytes.now) at count) }
{
    let mut word = [0; 8];
    if at < bytes.len() {
        let there = count.min(bytes.len() - at);
        word[..there].copy_from_slice(&bytes[at..at + there]);
    }
    u64::from_le_bytes(word)
}
