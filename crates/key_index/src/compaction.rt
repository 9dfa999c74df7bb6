//! Compaction of the chain of a key.
ghost use Rattle.std.specs.Prelude.{◌≡◌, ℕ, ◌+◌, ◌-◌, ◌<◌, ◌≤◌, List, length, slice_index, take};
ghost use Rattle.std.specs.Prelude.{Option, Some, None, IsSome, is_some, true, false, ◌⊎◌};
ghost use Rattle.chunk_list.specs.Chunked.{HasItem, IsPlace, position_of};
ghost use Rattle.key_index.specs.Links.{Linked, IsChained, IsNewest, IsOfKey, with_link, without};
ghost use Rattle.key_index.specs.Index.{AreNewest, StayParted};
ghost use Rattle.key_index.specs.Compaction.{AreDone, CutsAt, DropsUpTo, Frees, IsCompactedAt};
ghost use Rattle.key_index.specs.Compaction.{KeptAsDefined, Remains};

use crate::records::{Records, RecordsMut};
use chunk_list::{ChunkList, Place};
use etcd_types::CellNo;

/// What a compaction keeps of records is what it keeps of a list of their changes, by definition.
pub fn kept_as_defined()
    ensures { KeptAsDefined }
{}

/// Where a compaction cuts a chain: the last record that stays, and the first that goes.
#[derive(Clone, Copy)]
struct CutPlace {
    last: Option<CellNo>,
    first: Option<CellNo>,
}

/// Compacts the chain of the head at a place of a list at a revision, and takes its place away if none of it is left.
pub(crate) fn cut_head<R: RecordsMut>(
    heads: &mut ChunkList<CellNo>,
    records: &mut R,
    place: Place,
    revision: u64,
)
    requires place { HasItem heads.old.sizes place }
    requires within { position_of heads.old.sizes place < length heads.old.items }
    requires chained { IsChained (R.cells records.old) }
    requires newest { AreNewest (R.cells records.old) heads.old.items }

    ensures room { heads.new.room ≡ heads.old.room }
    ensures parted { StayParted (R.cells records.old) heads.old.items (R.cells records.new) heads.new.items }
    ensures chained { IsChained (R.cells records.new) }
    ensures compacted { (key : List ℕ)
        → IsOfKey (R.cells records.old) key (slice_index heads.old.items (position_of heads.old.sizes place))
        → IsCompactedAt (R.cells records.old) (R.cells records.new) revision key }
    ensures free { Frees R.cost R.cells R.free records.old records.new }
    ensures rest { R.same_rest records.old records.new }
{
    let head = heads.get(place);
    if !cut_chain(head, records, revision) {
        heads.remove(place);
    }
}

/// Compacts the chains of the heads of a list at a revision, and takes away the places of those of which none
/// is left.
pub(crate) fn cut_heads<R: RecordsMut>(
    heads: &mut ChunkList<CellNo>,
    records: &mut R,
    revision: u64,
)
    requires chained { IsChained (R.cells records.old) }
    requires newest { AreNewest (R.cells records.old) heads.old.items }

    ensures room { heads.new.room ≡ heads.old.room }
    ensures parted { StayParted (R.cells records.old) heads.old.items (R.cells records.new) heads.new.items }
    ensures chained { IsChained (R.cells records.new) }
    ensures done { AreDone (R.cells records.old) (R.cells records.new)
        heads.old.items revision (length heads.old.items) }
    ensures free { Frees R.cost R.cells R.free records.old records.new }
    ensures rest { R.same_rest records.old records.new }
{
    let left = cut_chains(heads, records, revision);
    heads.truncate(left);
}

/// The same, but that the heads of which any is left are moved to the front, up to a place.
fn cut_chains<R: RecordsMut>(heads: &mut ChunkList<CellNo>, records: &mut R, revision: u64) -> Place
    requires chained { IsChained (R.cells records.old) }
    requires newest { AreNewest (R.cells records.old) heads.old.items }

    ensures place { IsPlace heads.new.sizes result }
    ensures room { heads.new.room ≡ heads.old.room }
    ensures parted { StayParted (R.cells records.old) heads.old.items (R.cells records.new)
        (take (position_of heads.new.sizes result) heads.new.items) }
    ensures chained { IsChained (R.cells records.new) }
    ensures done { AreDone (R.cells records.old) (R.cells records.new)
        heads.old.items revision (length heads.old.items) }
    ensures free { Frees R.cost R.cells R.free records.old records.new }
    ensures rest { R.same_rest records.old records.new }
{
    let mut read = heads.start();
    let mut left = heads.start();
    'cutting: for _read in 0..heads.len() {
        let head = heads.get(read);
        read = heads.next(read);
        if cut_chain(head, records, revision) {
            heads.set(left, head);
            left = heads.next(left);
        }
    }
    left
}

/// Compacts the chain of a head at a revision, and says whether any of it is left.
pub(crate) fn cut_chain<R: RecordsMut>(head: CellNo, records: &mut R, revision: u64) -> bool
    requires chained { IsChained (R.cells records.old) }
    requires newest { IsNewest (R.cells records.old) head }

    ensures chained { IsChained (R.cells records.new) }
    ensures compacted { (e : Linked) → R.cells records.old head ≡ Some e
        → IsCompactedAt (R.cells records.old) (R.cells records.new) revision e.change.key }
    ensures remains { (e : Linked) → R.cells records.old head ≡ Some e
        → Remains (R.cells records.new) e.change.key head result }
    ensures free { Frees R.cost R.cells R.free records.old records.new }
    ensures rest { R.same_rest records.old records.new }
{
    let place = cut_place(head, records, revision);
    match place.first {
        None => true,
        Some(first) => {
            // Only once the older ones are gone: a drop still reads the links.
            drop_chain(first, records);
            match place.last {
                None => false,
                Some(last) => {
                    records.set_older(last, None);
                    true
                }
            }
        }
    }
}

/// Drops a record and the older ones of its key.
fn drop_chain<R: RecordsMut>(first: CellNo, records: &mut R)
    requires chained { IsChained (R.cells records.old) }
    requires first { IsSome (R.cells records.old first) }
    ensures drops { (e : Linked) → R.cells records.old first ≡ Some e
        → DropsUpTo (R.cells records.old) (R.cells records.new) e.change.key e.change.revision }
    ensures free { Frees R.cost R.cells R.free records.old records.new }
    ensures rest { R.same_rest records.old records.new }
{
    let mut next = Some(first);
    while let Some(cell) = next {
        next = records.older(cell);
        records.drop_record(cell);
    }
}

/// Where a compaction cuts the chain of a head.
fn cut_place<R: Records>(head: CellNo, records: &R, revision: u64) -> CutPlace
    requires chained { IsChained (R.cells records.now) }
    requires newest { IsNewest (R.cells records.now) head }
    ensures { (e : Linked) → R.cells records.now head ≡ Some e
        → CutsAt (R.cells records.now) e.change.key revision head result.last result.first }
{
    let mut last = None;
    let mut next = Some(head);
    while let Some(cell) = next {
        if records.revision(cell) <= revision {
            return cut_at(cell, last, records, revision);
        }
        last = Some(cell);
        next = records.older(cell);
    }
    CutPlace { last, first: None }
}

/// The same from the last change up to the revision on, which stays if it is at the revision or a put.
fn cut_at<R: Records>(cell: CellNo, last: Option<CellNo>, records: &R, revision: u64) -> CutPlace
    requires { IsSome (R.cells records.now cell) }
    ensures stays { (e : Linked) → R.cells records.now cell ≡ Some e
        → (e.change.revision ≡ revision) ⊎ (is_some e.change.row ≡ true)
        → (result.last ≡ Some cell) × (result.first ≡ e.older) }
    ensures goes { (e : Linked) → R.cells records.now cell ≡ Some e
        → (e.change.revision ≡ revision → ⊥) → is_some e.change.row ≡ false
        → (result.last ≡ last) × (result.first ≡ Some cell) }
{
    if records.revision(cell) == revision || records.is_put(cell) {
        CutPlace {
            last: Some(cell),
            first: records.older(cell),
        }
    } else {
        CutPlace {
            last,
            first: Some(cell),
        }
    }
}
