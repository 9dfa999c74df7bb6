//! Looking up a key among the newest records, and a revision in the chain of a key.
ghost use Rattle.std.specs.Prelude.{◌≡◌, ℕ, ◌+◌, ◌<◌, ◌≤◌, List, length};
ghost use Rattle.std.specs.Prelude.{Option, Some, None, IsSome, IfSome, MatchResult, MatchOption};
ghost use Rattle.etcd_model.specs.Order.{key_cmp as cmp_of_keys};
ghost use Rattle.key_index.specs.Links.{Linked, IsChained, IsLast, IsNewest, IsOfKey, NoneUpTo};
ghost use Rattle.key_index.specs.Index.{IsFoundAt, IsMissingAt, IsSpread};
ghost use Rattle.key_index.specs.Sought.{IsThere, sought_key};

use crate::records::Records;
use chunk_list::{ChunkList, Place, Test};
use etcd_types::CellNo;
use std::cmp::Ordering;

/// The key that is looked up: these bytes, or the key of a record where it stands.
#[derive(Clone, Copy)]
pub(crate) enum Sought<'a> {
    Key(&'a [u8]),
    KeyOf(CellNo),
}

/// How the key of a record stands to the one that is looked up.
fn stands<R: Records>(head: CellNo, records: &R, sought: &Sought<'_>) -> Ordering
    requires head { IsSome (R.cells records.now head) }
    requires sought { IsThere (R.cells records.now) sought.now }
    ensures { IfSome (R.cells records.now head)
        (λ e. result ≡ cmp_of_keys e.change.key (sought_key (R.cells records.now) sought.now)) }
{
    match *sought {
        Sought::Key(key) => records.key_cmp(head, key),
        Sought::KeyOf(cell) => records.keys_cmp(head, cell),
    }
}

/// Whether the key of a record comes before the one that is looked up.
#[derive(Drop)]
struct ComesBefore<'a, R> {
    records: &'a R,
    sought: &'a Sought<'a>,
}

impl<'a, R: Records> Test<CellNo> for ComesBefore<'a, R> {
    ghost use Rattle.std.specs.Prelude.{IsSome};
    ghost use Rattle.key_index.specs.Sought.{IsThere, comes_before, sought_key};

    ghost can = { λ s c. IsSome (R.cells s.records.now c)
        × IsThere (R.cells s.records.now) s.sought.now };

    ghost test = { λ s c. comes_before (R.cells s.records.now)
        (sought_key (R.cells s.records.now) s.sought.now) c };

    fn holds(&self, cell: CellNo) -> bool {
        stands(cell, self.records, self.sought).is_lt()
    }
}

/// The place of the key among the newest records, or the place where it would go.
pub(crate) fn search<R: Records>(
    heads: &ChunkList<CellNo>,
    records: &R,
    sought: &Sought<'_>,
) -> Result<Place, Place>
    requires spread { IsSpread (R.cells records.now) heads.now.items }
    requires sought { IsThere (R.cells records.now) sought.now }
    ensures { MatchResult result
        (IsFoundAt (R.cells records.now) heads.now (sought_key (R.cells records.now) sought.now))
        (IsMissingAt (R.cells records.now) heads.now (sought_key (R.cells records.now) sought.now)) }
{
    let place = heads.search(&ComesBefore { records, sought });
    if !heads.has_item(place) {
        return Err(place);
    }
    match stands(heads.get(place), records, sought) {
        Ordering::Equal => Ok(place),
        _ => Err(place),
    }
}

/// The same, which needs no search where the key stands at a place that is likely.
pub(crate) fn search_near<R: Records>(
    heads: &ChunkList<CellNo>,
    records: &R,
    sought: &Sought<'_>,
    near: Place,
) -> Result<Place, Place>
    requires spread { IsSpread (R.cells records.now) heads.now.items }
    requires sought { IsThere (R.cells records.now) sought.now }
    ensures { MatchResult result
        (IsFoundAt (R.cells records.now) heads.now (sought_key (R.cells records.now) sought.now))
        (IsMissingAt (R.cells records.now) heads.now (sought_key (R.cells records.now) sought.now)) }
{
    if !heads.has_item(near) {
        return search(heads, records, sought);
    }
    match stands(heads.get(near), records, sought) {
        Ordering::Equal => Ok(near),
        _ => search(heads, records, sought),
    }
}

/// The last change at a revision at most this one, of the key whose newest record is under a cell.
pub fn last_up_to<R: Records>(head: CellNo, records: &R, revision: u64) -> Option<CellNo>
    requires chained { IsChained (R.cells records.now) }
    requires newest { IsNewest (R.cells records.now) head }
    ensures { (key : List ℕ) → IsOfKey (R.cells records.now) key head
        → MatchOption result (NoneUpTo (R.cells records.now) key revision)
        (IsLast (R.cells records.now) key revision) }
{
    let mut cell = head;
    while records.revision(cell) > revision {
        match records.older(cell) {
            Some(older) => cell = older,
            None => return None,
        }
    }
    Some(cell)
}
