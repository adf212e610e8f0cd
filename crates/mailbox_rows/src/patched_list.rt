//! `PatchedList`: edits over a borrowed list.

ghost use Rattle.std.specs.Prelude.{◌≡◌, ℕ, ◌+◌, ◌^◌, ◌<◌, ◌≤◌, [], ◌∷◌, ◌++◌, IfOk, OnOk, length};
ghost use Rattle.std.specs.Prelude.{remove, set};
ghost use Rattle.std.specs.List.{slice_get};
ghost use Rattle.mailbox_rows.specs.Pieces.{HasRoom};

use crate::pieces::{self, Piece, PieceSource};
use chunk_list::ChunkList;
use std::alloc::{AllocError, Global};
use std::marker::Model;

/// A borrowed list in chunks with edits over it; the list below stays unchanged.
#[derive(Drop)]
pub struct PatchedList<'a, T> {
    base: &'a ChunkList<T>,
    pieces: Vec<Piece<T>>,
    len: usize,
}

impl<'a, T> Model for PatchedList<'a, T> {
    ghost use Rattle.std.specs.Prelude.{◌≡◌, ◌-◌, length, vec_len, vec_capacity};
    ghost use Rattle.mailbox_rows.specs.Pieces.{ArePieces, PatchedState, items_of};

    ghost Value = { PatchedState T };

    ghost view = { λ a. record {
      items = items_of a.base.now.items a.pieces.items;
      places = vec_capacity a.pieces - vec_len a.pieces;
    } };

    ghost invariant = { λ a. ArePieces a.base.now.items 0 a.pieces.items
        × (a.len ≡ length (items_of a.base.now.items a.pieces.items)) };
}

impl<'a, T: Copy + Drop> PatchedList<'a, T> {
    /// The list without edits. `Err` if memory runs out.
    pub fn new(alloc: Global, base: &'a ChunkList<T>) -> Result<PatchedList<'a, T>, AllocError>
        ensures { IfOk result (λ list. list.items ≡ base.now.items) }
    {
        let len = base.len();
        let mut pieces = Vec::new(alloc);
        if len != 0 {
            pieces.push(Piece {
                start: 0,
                len,
                source: PieceSource::Base(0),
            })?;
        }
        Ok(PatchedList { base, pieces, len })
    }

    /// Makes room for `edits` further edits; `Err` if memory runs out. The items stay, and no room
    /// is lost.
    pub fn reserve(&mut self, edits: usize) -> Result<(), AllocError>
        ensures items { self.new.items ≡ self.old.items }
        ensures ok { OnOk result (HasRoom self.new edits) }
        ensures places { self.old.places ≤ self.new.places }
    {
        let Some(places) = edits.checked_mul(2) else {
            return Err(AllocError);
        };
        self.pieces.reserve(places)
    }

    /// The number of items.
    pub fn len(&self) -> usize
        ensures { result ≡ length self.now.items }
    {
        self.len
    }

    /// The item at `index`, from 0; `None` if the list is shorter.
    #[inline(always)]
    pub fn get(&self, index: usize) -> Option<T>
        ensures { result ≡ slice_get self.now.items index }
    {
        if self.len <= index {
            return None;
        }
        pieces::item_in(self.base, &self.pieces, index)
    }

    /// Replaces the item at `index`. There is room for the edit.
    pub fn replace(&mut self, index: usize, item: T)
        requires within { index < length self.old.items }
        requires room { HasRoom self.old 1 }
        ensures items { self.new.items ≡ set self.old.items index item }
        ensures room { (n : ℕ) → HasRoom self.old (n + 1) → HasRoom self.new n }
    {
        let at = pieces::isolate(self.base, &mut self.pieces, index);
        pieces::replace_piece(self.base, &mut self.pieces, index, at, item);
    }

    /// Removes the item at `index`. There is room for the edit.
    pub fn remove(&mut self, index: usize)
        requires within { index < length self.old.items }
        requires room { HasRoom self.old 1 }
        ensures items { self.new.items ≡ remove self.old.items index }
        ensures room { (n : ℕ) → HasRoom self.old (n + 1) → HasRoom self.new n }
    {
        let at = pieces::isolate(self.base, &mut self.pieces, index);
        pieces::take_piece(self.base, &mut self.pieces, index, at);
        self.len -= 1;
    }

    /// Appends an item. There is room for the edit.
    pub fn push(&mut self, item: T)
        requires fits { length self.old.items < 2 ^ 32 }
        requires room { HasRoom self.old 1 }
        ensures items { self.new.items ≡ self.old.items ++ item ∷ [] }
        ensures room { (n : ℕ) → HasRoom self.old (n + 1) → HasRoom self.new n }
    {
        pieces::push_piece(self.base, &mut self.pieces, self.len, item);
        self.len += 1;
    }
}
