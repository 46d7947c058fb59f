//! Vectors that grow by an eighth, so that a long one takes little more memory than its items.
ghost use Rattle.std.specs.Prelude.{◌≡◌, ◌<◌, [], ◌∷◌, ◌++◌, vec_len, vec_capacity, OnOk};

use md_graph::Memory;

// Appends an item.
#[inline(always)]
pub(crate) fn append<T: Drop>(list: &mut Vec<T>, item: T) -> Result<(), Memory>
    ensures { OnOk result (list.new.items ≡ list.old.items ++ item ∷ []) }
{
    make_room(list)?;
    list.push_reserved(item);
    Ok(())
}

// Makes room for another item.
#[inline(always)]
fn make_room<T>(list: &mut Vec<T>) -> Result<(), Memory>
    ensures items { OnOk result (list.new.items ≡ list.old.items) }
    ensures room { OnOk result (vec_len list.new < vec_capacity list.new) }
{
    if list.len() == list.capacity() {
        return grow(list);
    }
    Ok(())
}

// Makes room for more items: few at first, as most lists of pairs are short.
#[inline(never)]
fn grow<T>(list: &mut Vec<T>) -> Result<(), Memory>
    ensures items { OnOk result (list.new.items ≡ list.old.items) }
    ensures room { OnOk result (vec_len list.new < vec_capacity list.new) }
{
    list.reserve_exact(list.len() / 8 + 16)?;
    Ok(())
}
