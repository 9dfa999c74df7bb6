//! How items move within the places of a shelf.
ghost use Rattle.std.specs.Prelude.{◌≡◌, ◌+◌, ◌-◌, ◌<◌, ◌≤◌, ◌∷◌, length, take, vec_capacity};
ghost use Rattle.chunk_list.specs.Shelves.{stretch, written};

/// Puts copies of an item after the last place, until there are so many places.
pub(crate) fn fill<T: Copy>(places: &mut Vec<T>, end: usize, item: T)
    requires { end ≤ vec_capacity places.old }
    ensures kept { take (length places.old.items) places.new.items ≡ places.old.items }
    ensures more { length places.old.items ≤ length places.new.items }
    ensures enough { end ≤ length places.new.items }
    ensures capacity { vec_capacity places.new ≡ vec_capacity places.old }
{
    'filling: while places.len() < end {
        places.push_reserved(item);
    }
}

/// Copies so many items from a place on to another one.
pub(crate) fn copy_items<T: Copy>(places: &mut Vec<T>, from: usize, count: usize, to: usize)
    requires from { from + count ≤ length places.old.items }
    requires to { to + count ≤ length places.old.items }
    ensures items { places.new.items ≡ written places.old.items to (stretch places.old.items from count) }
    ensures capacity { vec_capacity places.new ≡ vec_capacity places.old }
{
    places.copy_within(from..from + count, to);
}

/// Puts an item at a place, and so many items that stood from there on one place further.
pub(crate) fn put_before<T: Copy>(places: &mut Vec<T>, at: usize, count: usize, item: T)
    requires { at + count < length places.old.items }
    ensures items { places.new.items ≡ written places.old.items at (item ∷ stretch places.old.items at count) }
    ensures capacity { vec_capacity places.new ≡ vec_capacity places.old }
{
    places.copy_within(at..at + count, at + 1);
    places[at] = item;
}
