//! Vectors of one item.
ghost use Rattle.std.specs.Prelude.{◌≡◌, replicate, IfOk};

use crate::Memory;
use std::alloc::Global;

/// An item, `count` times. Errors: want of memory.
pub fn copies_of<T: Copy>(alloc: Global, count: u32, item: T) -> Result<Vec<T>, Memory>
    ensures items { IfOk result (λ v. v.items ≡ replicate count item) }
{
    let mut items = Vec::with_capacity(alloc, count as usize)?;
    for _ in 0..count {
        items.push_reserved(item);
    }
    Ok(items)
}
