//! Pieces of a list with edits: runs of the list below and single new items, and how they are cut.

ghost use Rattle.std.specs.Prelude.{◌≡◌, ℕ, ◌+◌, ◌-◌, ◌^◌, ◌<◌, ◌≤◌, [], ◌∷◌, ◌++◌, length, take};
ghost use Rattle.std.specs.Prelude.{drop, map, remove, set, get_or, vec_len, vec_capacity};
ghost use Rattle.std.specs.List.{insert, slice_get};
ghost use Rattle.mailbox_rows.specs.Pieces.{ArePieces, IsAlone, IsPiece, IsInPiece, items_of};
ghost use Rattle.mailbox_rows.specs.Pieces.{with_one_less, piece_items};

use chunk_list::ChunkList;

/// The source of a piece's items.
#[derive(Clone, Copy)]
pub enum PieceSource<T> {
    /// From the list below, from this place on.
    Base(usize),
    /// One item of the piece's own.
    Own(T),
}

/// `len` items one after another, and the number `start` of items before them.
#[derive(Clone, Copy)]
pub struct Piece<T> {
    pub start: usize,
    pub len: usize,
    pub source: PieceSource<T>,
}

/// The place of the piece that has the item at `index`.
#[inline(always)]
pub fn piece_at<T>(base: &ChunkList<T>, pieces: &[Piece<T>], index: usize) -> usize
    requires pieces { ArePieces base.now.items 0 pieces.now }
    requires within { index < length (items_of base.now.items pieces.now) }
    ensures { IsInPiece pieces.now index result }
{
    let mut low = 0;
    let mut high = pieces.len();
    while high - low > 1 {
        let middle = low + (high - low) / 2;
        if pieces[middle].start <= index {
            low = middle;
        } else {
            high = middle;
        }
    }
    low
}

/// The item at `index`.
#[inline(always)]
pub fn item_in<T: Copy + Drop>(base: &ChunkList<T>, pieces: &[Piece<T>], index: usize) -> Option<T>
    requires pieces { ArePieces base.now.items 0 pieces.now }
    requires within { index < length (items_of base.now.items pieces.now) }
    ensures { result ≡ slice_get (items_of base.now.items pieces.now) index }
{
    let at = piece_at(base, pieces, index);
    let piece = pieces[at];
    match piece.source {
        PieceSource::Base(from) => base_item(base, from, index - piece.start),
        PieceSource::Own(item) => Some(item),
    }
}

/// The item of the list below that is `more` places after `from`.
#[inline(always)]
fn base_item<T: Copy + Drop>(base: &ChunkList<T>, from: usize, more: usize) -> Option<T>
    requires { from + more < length base.now.items }
    ensures { result ≡ slice_get (drop from base.now.items) more }
{
    let _len = base.len();
    base.get(from + more).copied()
}

/// Cuts the piece at `at` in two; the first has `count` items. There is room for another
/// piece.
fn split_piece<T: Copy + Drop>(
    base: &ChunkList<T>,
    pieces: &mut Vec<Piece<T>>,
    at: usize,
    count: usize,
)
    requires pieces { ArePieces base.now.items 0 pieces.old.items }
    requires within { at < vec_len pieces.old }
    requires fits { length (items_of base.now.items pieces.old.items) < 2 ^ 64 }
    requires room { vec_len pieces.old < vec_capacity pieces.old }
    requires some { 0 < count }
    requires more { (d : Piece T) → count < (get_or pieces.old.items at d).len }
    ensures items { items_of base.now.items pieces.new.items
        ≡ items_of base.now.items pieces.old.items }
    ensures pieces { ArePieces base.now.items 0 pieces.new.items }
    ensures len { vec_len pieces.new ≡ vec_len pieces.old + 1 }
    ensures capacity { vec_capacity pieces.old ≤ vec_capacity pieces.new }
    ensures front { (d : Piece T)
        → ((get_or pieces.new.items at d).start ≡ (get_or pieces.old.items at d).start)
        × ((get_or pieces.new.items at d).len ≡ count) }
    ensures back { (d : Piece T)
        → ((get_or pieces.new.items (at + 1) d).start
        ≡ (get_or pieces.old.items at d).start + count)
        × ((get_or pieces.new.items (at + 1) d).len + count
        ≡ (get_or pieces.old.items at d).len) }
{
    let piece = pieces[at];
    let back = piece_after(base, piece, count);
    put_in(pieces, at + 1, back);
    pieces[at] = Piece {
        start: piece.start,
        len: count,
        source: piece.source,
    };
}

/// Inserts a piece at a place. There is room for it.
fn put_in<T: Copy + Drop>(pieces: &mut Vec<Piece<T>>, at: usize, piece: Piece<T>)
    requires within { at ≤ vec_len pieces.old }
    requires room { vec_len pieces.old < vec_capacity pieces.old }
    ensures items { pieces.new.items ≡ insert pieces.old.items at piece }
    ensures len { vec_len pieces.new ≡ vec_len pieces.old + 1 }
    ensures capacity { vec_capacity pieces.old ≤ vec_capacity pieces.new }
{
    if pieces.insert(at, piece).is_err() {
        unreachable!();
    }
}

/// The piece without its first `count` items.
fn piece_after<T: Copy + Drop>(base: &ChunkList<T>, piece: Piece<T>, count: usize) -> Piece<T>
    requires piece { (n : ℕ) × IsPiece base.now.items n piece }
    requires some { 0 < count }
    requires more { count < piece.len }
    requires fits { piece.start + piece.len < 2 ^ 64 }
    ensures start { result.start ≡ piece.start + count }
    ensures len { result.len + count ≡ piece.len }
    ensures items { piece_items base.now.items (record piece { len = count })
        ++ piece_items base.now.items result ≡ piece_items base.now.items piece }
    ensures item_count { length (piece_items base.now.items result) ≡ result.len }
{
    let _len = base.len();
    match piece.source {
        PieceSource::Base(from) => Piece {
            start: piece.start + count,
            len: piece.len - count,
            source: PieceSource::Base(from + count),
        },
        PieceSource::Own(_) => unreachable!(),
    }
}

/// Cuts the pieces so that the item at `index` is a piece by itself, and returns that piece's
/// place. There is room for two further pieces.
pub fn isolate<T: Copy + Drop>(
    base: &ChunkList<T>,
    pieces: &mut Vec<Piece<T>>,
    index: usize,
) -> usize
    requires pieces { ArePieces base.now.items 0 pieces.old.items }
    requires within { index < length (items_of base.now.items pieces.old.items) }
    requires fits { length (items_of base.now.items pieces.old.items) < 2 ^ 64 }
    requires room { vec_len pieces.old + 2 ≤ vec_capacity pieces.old }
    ensures items { items_of base.now.items pieces.new.items
        ≡ items_of base.now.items pieces.old.items }
    ensures pieces { ArePieces base.now.items 0 pieces.new.items }
    ensures alone { IsAlone pieces.new.items index result }
    ensures len { vec_len pieces.new ≤ vec_len pieces.old + 2 }
    ensures capacity { vec_capacity pieces.old ≤ vec_capacity pieces.new }
{
    let at = piece_at(base, pieces, index);
    let front = index - pieces[at].start;
    let first = cut_front(base, pieces, at, front);
    cut_after(base, pieces, first);
    first
}

/// Cuts the piece at `at` so that a piece begins after `front` of its items, and returns the place
/// of that one. There is room for another piece.
fn cut_front<T: Copy + Drop>(
    base: &ChunkList<T>,
    pieces: &mut Vec<Piece<T>>,
    at: usize,
    front: usize,
) -> usize
    requires pieces { ArePieces base.now.items 0 pieces.old.items }
    requires within { at < vec_len pieces.old }
    requires fits { length (items_of base.now.items pieces.old.items) < 2 ^ 64 }
    requires room { vec_len pieces.old < vec_capacity pieces.old }
    requires more { (d : Piece T) → front < (get_or pieces.old.items at d).len }
    ensures items { items_of base.now.items pieces.new.items
        ≡ items_of base.now.items pieces.old.items }
    ensures pieces { ArePieces base.now.items 0 pieces.new.items }
    ensures within { result < vec_len pieces.new }
    ensures first { (d : Piece T)
        → (get_or pieces.new.items result d).start ≡ (get_or pieces.old.items at d).start + front }
    ensures len { vec_len pieces.new ≤ vec_len pieces.old + 1 }
    ensures capacity { vec_capacity pieces.old ≤ vec_capacity pieces.new }
{
    if front == 0 {
        return at;
    }
    split_piece(base, pieces, at, front);
    at + 1
}

/// Cuts the piece at `at` after its first item. There is room for another piece.
fn cut_after<T: Copy + Drop>(base: &ChunkList<T>, pieces: &mut Vec<Piece<T>>, at: usize)
    requires pieces { ArePieces base.now.items 0 pieces.old.items }
    requires within { at < vec_len pieces.old }
    requires fits { length (items_of base.now.items pieces.old.items) < 2 ^ 64 }
    requires room { vec_len pieces.old < vec_capacity pieces.old }
    ensures items { items_of base.now.items pieces.new.items
        ≡ items_of base.now.items pieces.old.items }
    ensures pieces { ArePieces base.now.items 0 pieces.new.items }
    ensures within { at < vec_len pieces.new }
    ensures one { (d : Piece T)
        → ((get_or pieces.new.items at d).start ≡ (get_or pieces.old.items at d).start)
        × ((get_or pieces.new.items at d).len ≡ 1) }
    ensures len { vec_len pieces.new ≤ vec_len pieces.old + 1 }
    ensures capacity { vec_capacity pieces.old ≤ vec_capacity pieces.new }
{
    if pieces[at].len <= 1 {
        return;
    }
    split_piece(base, pieces, at, 1);
}

/// Puts a new item in place of a piece of one item.
pub fn replace_piece<T: Copy + Drop>(
    base: &ChunkList<T>,
    pieces: &mut Vec<Piece<T>>,
    index: usize,
    at: usize,
    item: T,
)
    requires pieces { ArePieces base.now.items 0 pieces.old.items }
    requires alone { IsAlone pieces.old.items index at }
    ensures items { items_of base.now.items pieces.new.items
        ≡ set (items_of base.now.items pieces.old.items) index item }
    ensures pieces { ArePieces base.now.items 0 pieces.new.items }
    ensures len { vec_len pieces.new ≡ vec_len pieces.old }
    ensures capacity { vec_capacity pieces.new ≡ vec_capacity pieces.old }
{
    let start = pieces[at].start;
    pieces[at] = Piece {
        start,
        len: 1,
        source: PieceSource::Own(item),
    };
}

/// Removes a piece of one item.
pub fn take_piece<T: Copy + Drop>(
    base: &ChunkList<T>,
    pieces: &mut Vec<Piece<T>>,
    index: usize,
    at: usize,
)
    requires pieces { ArePieces base.now.items 0 pieces.old.items }
    requires alone { IsAlone pieces.old.items index at }
    ensures items { items_of base.now.items pieces.new.items
        ≡ remove (items_of base.now.items pieces.old.items) index }
    ensures pieces { ArePieces base.now.items 0 pieces.new.items }
    ensures len { vec_len pieces.new ≤ vec_len pieces.old }
    ensures capacity { vec_capacity pieces.new ≡ vec_capacity pieces.old }
{
    count_down_after(pieces, at);
    let _ = pieces.remove(at);
}

/// Lowers `start` by one in each piece after the one at `at`.
fn count_down_after<T>(pieces: &mut [Piece<T>], at: usize)
    requires within { at < length pieces.old }
    requires some { (k : ℕ) (d : Piece T) → at < k → k < length pieces.old
        → 0 < (get_or pieces.old k d).start }
    ensures { pieces.new
        ≡ take (at + 1) pieces.old ++ map with_one_less (drop (at + 1) pieces.old) }
{
    count_down(&mut pieces[at + 1..]);
}

/// Lowers `start` by one in each piece.
fn count_down<T>(pieces: &mut [Piece<T>])
    requires { (k : ℕ) (d : Piece T) → k < length pieces.old → 0 < (get_or pieces.old k d).start }
    ensures { pieces.new ≡ map with_one_less pieces.old }
{
    for piece in pieces.iter_mut() {
        piece.start -= 1;
    }
}

/// Appends an item. There is room for another piece.
pub fn push_piece<T: Copy + Drop>(
    base: &ChunkList<T>,
    pieces: &mut Vec<Piece<T>>,
    len: usize,
    item: T,
)
    requires pieces { ArePieces base.now.items 0 pieces.old.items }
    requires len { len ≡ length (items_of base.now.items pieces.old.items) }
    requires room { vec_len pieces.old < vec_capacity pieces.old }
    ensures items { items_of base.now.items pieces.new.items
        ≡ items_of base.now.items pieces.old.items ++ item ∷ [] }
    ensures pieces { ArePieces base.now.items 0 pieces.new.items }
    ensures len { vec_len pieces.new ≡ vec_len pieces.old + 1 }
    ensures capacity { vec_capacity pieces.new ≡ vec_capacity pieces.old }
{
    pieces.push_reserved(Piece {
        start: len,
        len: 1,
        source: PieceSource::Own(item),
    });
}
