//! Lists whose copies share one memory.

ghost use Rattle.std.specs.Prelude.{◌≡◌, ◌≢◌, ◌↔◌, ◌⊎◌, ◌+◌, ℕ, [], IfOk, IsTrue, length, take};

use std::alloc::{AllocError, Global};
use std::marker::Model;
use std::sync::Arc;

/// The most items for which a list has room that is freed as it is: so many answers take 1 MiB.
const MOST_FREED: usize = 6_553;

/// A list that doesn't change. Its copies share one memory, which is freed with the last of them;
/// an empty list takes none.
pub struct SharedList<T> {
    items: Option<Arc<Vec<T>>>,
}

// By hand, since a large list is shrunk before.
impl<T: Drop> Drop for SharedList<T> {
    fn drop(self) {
        let Self { items } = self;
        if let Some(mut items) = items.and_then(Arc::into_inner) {
            shrink_before_drop(&mut items);
        }
    }
}

/// Drops all items but the first, and gives back the memory of the others, if the list has much
/// room, however few items are left. The C library gets large blocks from the system and returns
/// each when it is freed; but it takes further blocks of up to the size of the largest one that was
/// freed from memory that it retains (mallopt(3)), and what stays between those keeps it from being
/// returned. A block that was shrunk doesn't count.
fn shrink_before_drop<T: Drop>(items: &mut Vec<T>) {
    if items.capacity() > MOST_FREED {
        items.truncate(1);
        items.shrink_to(1);
    }
}

impl<T> Model for SharedList<T> {
    ghost use Rattle.std.specs.Prelude.{List, []};
    ghost use Rattle.std.specs.Arc.{arc_value};
    ghost use Rattle.std.specs.Global.{Vec};
    ghost use Rattle.std.specs.Option.{option_map, unwrap_or};

    ghost Value = { List T };

    ghost view = { λ s. unwrap_or
        (option_map (λ items. (arc_value {X = Vec T} items).items) s.items) [] };
}

impl<T: Drop> SharedList<T> {
    /// The list of these items, whose memory it takes over, without spare room; `Err` if memory to
    /// share them runs out.
    pub fn new(items: Vec<T>) -> Result<SharedList<T>, AllocError>
        ensures { IfOk result (λ shared. shared ≡ items.items) }
    {
        if items.is_empty() {
            return Ok(SharedList { items: None });
        }
        let mut items = items;
        items.shrink_to_fit();
        Ok(SharedList {
            items: Some(Arc::new(*items.allocator(), items)?),
        })
    }

    /// The items in order.
    pub fn as_slice(&self) -> &[T]
        ensures { result.now ≡ self.now }
    {
        match &self.items {
            Some(items) => items.as_slice(),
            None => &[],
        }
    }

    /// The same list, in the same memory. `Err` if more copies share it than can be counted.
    pub fn copy(&self) -> Result<SharedList<T>, AllocError>
        ensures { IfOk result (λ copied. copied ≡ self.now) }
    {
        match &self.items {
            Some(items) => {
                Ok(SharedList {
                    items: Some(Arc::try_clone(items)?),
                })
            }
            None => Ok(SharedList { items: None }),
        }
    }

    /// Drops the last items, as many as are asked for, if no copy shares the memory; otherwise gives
    /// the memory up. False if nothing is left.
    pub fn drop_some(&mut self, most: usize) -> bool
        ensures rest { (self.new ≡ [])
            ⊎ (n : ℕ) × (n + most ≡ length self.old) × (self.new ≡ take n self.old) }
        ensures left { IsTrue result ↔ (self.new ≢ []) }
    {
        let is_left = match &mut self.items {
            Some(items) => match Arc::get_mut(items) {
                Some(items) => {
                    items.truncate(items.len().saturating_sub(most));
                    if items.len() <= most {
                        items.shrink_to(1);
                    }
                    !items.is_empty()
                }
                None => false,
            },
            None => false,
        };
        if !is_left {
            drop(SharedList {
                items: self.items.take(),
            });
        }
        is_left
    }
}
