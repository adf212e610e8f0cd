//! An iterator over the items of a list from one place to its end.

ghost use Rattle.std.specs.Prelude.{◌≡◌, ◌++◌};
ghost use Rattle.chunk_list.specs.Chunks.{AreSome, items_of};

use crate::chunks::Chunk;
use std::marker::Model;

/// The items from one place of a list to its end, in order.
#[derive(Drop)]
pub struct ChunkIter<'a, T> {
    front: &'a [T],
    tail: &'a [Chunk<T>],
}

impl<'a, T> Model for ChunkIter<'a, T> {
    ghost use Rattle.std.specs.Prelude.{List, ◌++◌};
    ghost use Rattle.chunk_list.specs.Chunks.{AreSome, items_of};

    ghost Value = { List T };

    ghost view = { λ i. i.front.now ++ items_of i.tail.now };

    ghost invariant = { λ i. AreSome i.tail.now };
}

impl<'a, T> ChunkIter<'a, T> {
    /// These items, and then those of these chunks.
    pub(crate) fn new(front: &'a [T], tail: &'a [Chunk<T>]) -> ChunkIter<'a, T>
        requires { AreSome tail.now }
        ensures { result ≡ front.now ++ items_of tail.now }
    {
        ChunkIter { front, tail }
    }
}

impl<'a, T> Iterator for ChunkIter<'a, T> {
    ghost use Rattle.std.specs.Iterator.{YieldsFirstRef, item_count};

    type Item = &'a T;

    ghost next_gives = { YieldsFirstRef (λ s. s) };

    ghost remaining = { item_count (λ s. s) };

    fn next(&mut self) -> Option<&'a T> {
        if let Some((first, others)) = self.front.split_first() {
            self.front = others;
            return Some(first);
        }
        let (chunk, tail) = self.tail.split_first()?;
        let (first, others) = chunk.items.split_first()?;
        self.front = others;
        self.tail = tail;
        Some(first)
    }
}
