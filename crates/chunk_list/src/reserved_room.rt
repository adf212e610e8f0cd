//! Room for lists, reserved apart from them.

ghost use Rattle.std.specs.Prelude.{◌≡◌, ◌*◌, ◌≤◌, All, IfOk, vec_capacity, vec_len};
ghost use Rattle.chunk_list.specs.Room.{IsReady, IsSpare, most_items};

use crate::chunks::{CHUNK, Chunk, MAX_CHUNKS};
use std::alloc::{AllocError, Global};
use std::marker::Model;

/// Room that a list of at most `most` items can adopt, for `room` further items.
#[derive(Drop)]
pub struct ReservedRoom<T> {
    chunks: Vec<Chunk<T>>,
    spares: Vec<Vec<T>>,
}

impl<T> Model for ReservedRoom<T> {
    ghost use Rattle.std.specs.Prelude.{◌*◌, vec_capacity, vec_len};
    ghost use Rattle.chunk_list.specs.Room.{IsReady, RoomState, most_items};
    ghost use Rattle.chunk_list.specs.declared.chunks.TheConstants.{CHUNK};

    ghost Value = { RoomState };

    ghost view = { λ a. record {
      most = most_items (vec_capacity a.chunks) (vec_len a.spares);
      room = CHUNK * vec_len a.spares;
    } };

    ghost invariant = { λ a. IsReady a.chunks a.spares };
}

impl<T: Drop> ReservedRoom<T> {
    /// Room for no items.
    pub fn none(alloc: Global) -> ReservedRoom<T>
        ensures { result.room ≡ 0 }
    {
        ReservedRoom {
            chunks: Vec::new(alloc),
            spares: Vec::new(alloc),
        }
    }

    /// Room for `additional` further items in a list of at most `most` items. `Err` if memory runs
    /// out.
    pub fn new(alloc: Global, most: usize, additional: usize) -> Result<ReservedRoom<T>, AllocError>
        ensures { IfOk result (λ growth. (most ≤ growth.most) × (additional ≤ growth.room)) }
    {
        let count = additional.div_ceil(CHUNK);
        let places = most.div_ceil(CHUNK / 2) + count + 1;
        if places > MAX_CHUNKS {
            return Err(AllocError);
        }
        let chunks = Vec::with_capacity(alloc, places)?;
        let spares = spares_for(alloc, count, places)?;
        Ok(ReservedRoom { chunks, spares })
    }

    /// How many items it has room for.
    pub(crate) fn room(&self) -> usize
        ensures { result ≡ self.now.room }
    {
        CHUNK * self.spares.len()
    }

    /// The empty vector that has places for all chunks, and the spares.
    pub(crate) fn into_parts(self) -> (Vec<Chunk<T>>, Vec<Vec<T>>)
        ensures ready { IsReady result.0 result.1 }
        ensures most { self.most ≡ most_items (vec_capacity result.0) (vec_len result.1) }
        ensures room { self.room ≡ CHUNK * vec_len result.1 }
    {
        let ReservedRoom { chunks, spares } = self;
        (chunks, spares)
    }
}

/// `count` spares, in a vector with `places` places. `Err` if memory runs out.
fn spares_for<T: Drop>(
    alloc: Global,
    count: usize,
    places: usize,
) -> Result<Vec<Vec<T>>, AllocError>
    requires { count ≤ places }
    ensures spares { IfOk result (λ spares. All IsSpare spares.items) }
    ensures len { IfOk result (λ spares. vec_len spares ≡ count) }
    ensures capacity { IfOk result (λ spares. vec_capacity spares ≡ places) }
{
    let mut spares = Vec::with_capacity(alloc, places)?;
    for _ in 0..count {
        spares.push_reserved(Vec::with_capacity(alloc, CHUNK)?);
    }
    Ok(spares)
}
