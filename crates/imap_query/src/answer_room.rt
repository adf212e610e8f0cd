//! Room for one more item in a list.

ghost use Rattle.std.specs.Prelude.{◌≡◌, ◌<◌, vec_capacity, vec_len, OnOk};

use std::alloc::AllocError;

/// Makes room for one more item after those in the list, which stay; `Err` if memory runs out. If
/// there is room already, the allocator isn't called.
#[inline(always)]
pub fn make_room<T>(items: &mut Vec<T>) -> Result<(), AllocError>
    ensures items { items.new.items ≡ items.old.items }
    ensures room { OnOk result (vec_len items.new < vec_capacity items.new) }
{
    if items.len() < items.capacity() {
        return Ok(());
    }
    items.reserve(1)
}
