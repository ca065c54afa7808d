//! The pieces of client memory that a call reads. What they hold stands elsewhere.

ghost use Rattle.std.specs.Prelude.{◌≡◌, ◌<◌, ◌≤◌, [], ◌∷◌, ◌++◌, length, slice_get, All, Some};
ghost use Rattle.gl_memory.specs.Piece.{IsPiece};

use crate::piece::Piece;
use arrayvec::ArrayVec;
use std::marker::Model;

/// At most 8 pieces, in order; own. Contracts see the list. Each has a byte at least and an end at or below 2^62.
#[derive(Drop)]
pub struct Pieces {
    list: ArrayVec<Piece, 8>,
}

impl Model for Pieces {
    ghost use Rattle.std.specs.Prelude.{List, All};
    ghost use Rattle.gl_memory.specs.declared.piece.Piece.{Piece};
    ghost use Rattle.gl_memory.specs.Piece.{IsPiece};

    ghost Value = { List Piece };

    ghost view = { λ p. p.list.items };

    ghost invariant = { λ p. All IsPiece p.list.items };
}

impl Pieces {
    /// No pieces.
    pub fn new() -> Pieces
        ensures { result ≡ [] }
    {
        Pieces {
            list: ArrayVec::new(),
        }
    }

    /// Puts a piece behind the others.
    pub fn push(&mut self, piece: Piece)
        requires room { length self.old < 8 }
        requires piece { IsPiece piece }
        ensures { self.new ≡ self.old ++ piece ∷ [] }
    {
        self.list.push(piece);
    }

    /// How many pieces there are: 0 to 8.
    pub fn len(&self) -> usize
        ensures len { result ≡ length self.now }
        ensures few { result ≤ 8 }
        ensures pieces { All IsPiece self.now }
    {
        self.list.len()
    }

    /// The piece with this number, from 0.
    pub fn at(&self, at: usize) -> Piece
        requires there { at < length self.now }
        ensures piece { slice_get self.now at ≡ Some result }
        ensures kept { IsPiece result }
    {
        self.list.as_slice()[at]
    }
}
