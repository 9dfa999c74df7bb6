//! Whether a watch is to be told of a change, which is read where it lies.
ghost use Rattle.std.specs.Prelude.{◌≡◌, ◌<◌, ℕ, List, IsSome, IsTrue, false, length, take};
ghost use Rattle.std.specs.List.{AllByRecursion};
ghost use Rattle.etcd_model.specs.Interval.{is_in};
ghost use Rattle.revision_store.specs.Plans.{key_at};
ghost use Rattle.revision_store.specs.Stored.{cells};
ghost use Rattle.watch_sync.specs.Agreeing.{front_of};
ghost use Rattle.watch_sync.specs.Ahead.{is_ahead_at, is_put_at, note_at, revision_at};

use crate::noted::Noted;
use etcd_model::state::Watch;
use etcd_types::CellNo;
use key_index::Records;
use revision_store::{Changes, Store};

/// The revision of a change.
pub(crate) fn revision_at(store: &Store, cell: CellNo) -> u64
    requires { IsSome (cells store.now cell) }
    ensures { result ≡ revision_at (cells store.now) cell }
{
    store.records().revision(cell)
}

/// Whether it is a put, and not a delete.
pub(crate) fn is_put_at(store: &Store, cell: CellNo) -> bool
    requires { IsSome (cells store.now cell) }
    ensures { result ≡ is_put_at (cells store.now) cell }
{
    store.records().is_put(cell)
}

/// Of one change the front of its key, and of more none.
pub(crate) fn front_of<'a>(store: &'a Store, changes: &Changes<'_>) -> &'a [u8]
    requires { AllByRecursion (λ c. IsSome (cells store.now c)) changes.now }
    ensures { result.now ≡ front_of store.now changes.now }
{
    let mut left = changes.again();
    match left.next() {
        Some(cell) if left.is_empty() => store.key_front(cell),
        _ => b"",
    }
}

/// Whether a watch is of one key, and another key's front shows that it is not that one. The last byte of the
/// front tells most keys apart.
pub(crate) fn is_other(watch: &Watch, front: &[u8]) -> bool
    ensures other { IsTrue result → (key : List ℕ) → front.now ≡ take 48 key
        → is_in watch.now.key watch.now.range_end key ≡ false }
    ensures some { IsTrue result → 0 < length front.now }
{
    let [.., last] = front else {
        return false;
    };
    if !watch.range_end.as_slice().is_empty() {
        return false;
    }
    match watch.key.as_slice().get(front.len() - 1) {
        Some(byte) => *byte != *last,
        None => true,
    }
}

/// Whether its key lies in an interval.
fn lies_in(store: &Store, cell: CellNo, key: &[u8], range_end: &[u8]) -> bool
    requires { IsSome (cells store.now cell) }
    ensures { result ≡ is_in key.now range_end.now (key_at (cells store.now) cell) }
{
    revision_store::lies_in(&store.records(), cell, key, range_end)
}

/// Whether a watch is to be told of the change.
#[tactic(auto, using(crate::proofs::Wanted::read_ahead))]
pub(crate) fn is_ahead(watch: &Watch, store: &Store, cell: CellNo) -> bool
    requires { IsSome (cells store.now cell) }
    ensures { result ≡ is_ahead_at (cells store.now) watch.now cell }
{
    watch.next <= revision_at(store, cell)
        && lies_in(
            store,
            cell,
            watch.key.as_slice(),
            watch.range_end.as_slice(),
        )
        && (if is_put_at(store, cell) {
            !watch.no_put
        } else {
            !watch.no_delete
        })
}

/// What a ring has of the change.
pub(crate) fn note_of(store: &Store, cell: CellNo) -> Noted
    requires { IsSome (cells store.now cell) }
    ensures { result ≡ note_at (cells store.now) cell }
{
    Noted {
        revision: revision_at(store, cell),
        cell,
    }
}
