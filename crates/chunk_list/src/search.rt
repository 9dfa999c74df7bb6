//! Looking for the place where a test stops holding.
ghost use Rattle.std.specs.Prelude.{◌≡◌, ℕ, ◌<◌, ◌≤◌, List, length};
ghost use Rattle.std.specs.List.{All};
ghost use Rattle.chunk_list.specs.Chunked.{TurnsAt};
ghost use Rattle.chunk_list.specs.Chunks.{IsDense, IsTurnIn, chunk_items};

use crate::shelf::Shelf;

/// A test of items, as whether an item is below something that is looked for.
pub trait Test<T> {
    ghost use Rattle.std.specs.Prelude.{Bool};

    /// At which items it may be asked.
    ghost can: { Self → T → Type 0 };

    ghost test: { Self → T → Bool };

    fn holds(&self, item: T) -> bool
        requires { can self.now item }
        ensures { result ≡ test self.now item };
}

/// The first item at which the test doesn't hold, or the end.
pub(crate) fn first_item<T: Copy, S: Test<T>>(items: &[T], test: &S) -> usize
    requires { All (S.can test.now) items.now }
    ensures in_range { result ≤ length items.now }
    ensures exact { (k : ℕ) → TurnsAt (S.test test.now) items.now k → k ≡ result }
{
    let mut low = 0;
    let mut high = items.len();
    while low < high {
        let middle = low + (high - low) / 2;
        if test.holds(items[middle]) {
            low = middle + 1;
        } else {
            high = middle;
        }
    }
    low
}

/// The first chunk at whose last item the test doesn't hold, or the last chunk.
pub(crate) fn first_chunk<T: Copy, S: Test<T>>(shelf: &Shelf<T>, test: &S) -> usize
    requires some { 0 < length shelf.now.chunks }
    requires dense { IsDense shelf.now.chunks }
    requires can { All (S.can test.now) (chunk_items shelf.now.chunks) }
    ensures { IsTurnIn (S.test test.now) shelf.now.chunks result }
{
    let mut low = 0;
    let mut high = shelf.count() - 1;
    while low < high {
        let middle = low + (high - low) / 2;
        let last = shelf.last(middle);
        if test.holds(last) {
            low = middle + 1;
        } else {
            high = middle;
        }
    }
    low
}
