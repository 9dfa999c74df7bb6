//! Lists that grow item by item. Each doubles, so that an item is seldom moved, and the room is bounded.
ghost use Rattle.std.specs.Prelude.{◌≡◌, ◌+◌, ◌*◌, ◌≤◌, ◌∷◌, ◌++◌, [], length, max, vec_capacity, OnOk, OnErr};
ghost use Rattle.revision_store.specs.Room.{most_room};

use etcd_types::Mem;
use std::alloc::Global;
use std::marker::Model;

/// A list that doubles as it grows. It never has room for more than as many items again as it has, and one more.
#[derive(Drop)]
pub(crate) struct Growing<T> {
    items: Vec<T>,
}

impl<T> Model for Growing<T> {
    ghost use Rattle.std.specs.Prelude.{◌≤◌, List, length, vec_capacity};
    ghost use Rattle.revision_store.specs.Room.{most_room};

    ghost Value = { List T };

    ghost view = { λ g. g.items.items };

    ghost invariant = { λ g. vec_capacity g.items ≤ most_room (length g.items.items) };
}

impl<T> Growing<T> {
    /// With no items. It takes no memory.
    pub(crate) fn new(alloc: Global) -> Growing<T>
        ensures { result ≡ [] }
    {
        Growing {
            items: Vec::new(alloc),
        }
    }

    /// The items as a slice.
    pub(crate) fn as_slice(&self) -> &[T]
        ensures { result.now ≡ self.now }
    {
        self.items.as_slice()
    }

    /// The items as a vector.
    pub(crate) fn into_vec(self) -> Vec<T>
        ensures items { result.items ≡ self }
        ensures room { vec_capacity result ≤ most_room (length self) }
    {
        self.items
    }
}

impl<T: Drop> Growing<T> {
    /// Appends one item. Where no memory is found, the list stays as it was and the item is dropped.
    pub(crate) fn push(&mut self, item: T) -> Mem<()>
        ensures ok { OnOk result (self.new ≡ self.old ++ item ∷ []) }
        ensures err { OnErr result (self.new ≡ self.old) }
    {
        make_room(&mut self.items, 1)?;
        self.items.push_reserved(item);
        Ok(())
    }
}

/// Makes room for so many more items, and for no more than doubles the list. Without memory the room stays as it was.
pub(crate) fn make_room<T>(list: &mut Vec<T>, more: usize) -> Mem<()>
    ensures items { list.new.items ≡ list.old.items }
    ensures room { OnOk result (length list.old.items + more ≤ vec_capacity list.new) }
    ensures most { vec_capacity list.new ≤ max (vec_capacity list.old) (2 * length list.old.items + more) }
    ensures memory { OnErr result (vec_capacity list.new ≡ vec_capacity list.old) }
{
    let count = list.len();
    if list.capacity() - count < more {
        list.reserve_exact(more.max(count))?;
    }
    Ok(())
}
