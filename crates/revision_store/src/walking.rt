//! The cells of the changes, in order.
ghost use Rattle.std.specs.Prelude.{◌≡◌, ◌+◌, ◌<◌, ◌≤◌, ◌^◌, ◌++◌, [], length, map, nat_eq, take, Some, IsSome};
ghost use Rattle.std.specs.List.{All};
ghost use Rattle.etcd_model.specs.Changes.{since};
ghost use Rattle.key_index.specs.Links.{change_at};
ghost use Rattle.key_index.specs.Order.{IsInOrder, changes_in};
ghost use Rattle.revision_store.specs.Recorded.{cells_of};
ghost use Rattle.revision_store.specs.Stored.{cells};

use crate::log::Log;
use crate::records::Reader;
use crate::store::Store;
use chunk_list::{ChunkList, Test, Walk};
use etcd_types::CellNo;
use key_index::Records;
use std::marker::Model;

/// The cells of some changes, in order. Contracts see it as the list of those that are left.
#[derive(Drop)]
pub struct Changes<'a> {
    settled: Walk<'a, CellNo>,
    recent: Walk<'a, CellNo>,
}

impl<'a> Model for Changes<'a> {
    ghost use Rattle.std.specs.Prelude.{◌+◌, ◌<◌, ◌^◌, ◌++◌, ℕ, List, length};

    ghost Value = { List ℕ };

    ghost view = { λ c. c.settled ++ c.recent };

    ghost invariant = { λ c. length c.settled + length c.recent < 2 ^ 64 };
}

impl<'a> Changes<'a> {
    /// No change.
    pub fn none() -> Changes<'a>
        ensures { result ≡ [] }
    {
        Changes {
            settled: Walk::none(),
            recent: Walk::none(),
        }
    }

    /// Some settled changes and the recent ones after them.
    fn of(settled: Walk<'a, CellNo>, recent: Walk<'a, CellNo>) -> Changes<'a>
        requires { length settled + length recent < 2 ^ 64 }
        ensures { result ≡ settled.entry ++ recent.entry }
    {
        Changes { settled, recent }
    }

    /// The first so many of those that are left, or all of them if there are fewer. This walk stays where it is.
    pub fn first(&self, count: usize) -> Changes<'a>
        ensures { result ≡ take count self.now }
    {
        let settled = self.settled.first(count);
        let recent = self.recent.first(count - settled.len());
        Changes { settled, recent }
    }

    /// All that are left, to go over while this walk stays where it is.
    pub fn again(&self) -> Changes<'a>
        ensures { result ≡ self.now }
    {
        Changes {
            settled: self.settled.again(),
            recent: self.recent.again(),
        }
    }

    /// How many are left.
    pub fn len(&self) -> usize
        ensures { result ≡ length self.now }
    {
        self.settled.len() + self.recent.len()
    }

    /// Whether none is left.
    pub fn is_empty(&self) -> bool
        ensures { result ≡ nat_eq (length self.now) 0 }
    {
        self.len() == 0
    }
}

impl<'a> Iterator for Changes<'a> {
    ghost use Rattle.std.specs.Iterator.{YieldsFirst, item_count};

    type Item = CellNo;

    ghost next_gives = { YieldsFirst (λ rest. rest) };

    ghost remaining = { item_count (λ rest. rest) };

    fn next(&mut self) -> Option<CellNo> {
        match self.settled.next() {
            Some(cell) => Some(cell),
            None => self.recent.next(),
        }
    }
}

impl Store {
    /// The cells of the kept changes at revisions from this one on, in order.
    pub fn since(&self, revision: u64) -> Changes<'_>
        ensures { map (change_at (cells self.now)) result
            ≡ map Some (since revision self.now.kept.changes) }
    {
        self.log.since(revision)
    }

    /// The records of the changes, to read under their cells.
    pub fn records(&self) -> Reader<'_>
        ensures { ⟦<Reader<'static> as Records>⟧.cells result ≡ cells self.now }
    {
        self.log.records()
    }
}

impl Log {
    /// The records of the changes, to read under their cells.
    pub(crate) fn records(&self) -> Reader<'_>
        ensures { ⟦<Reader<'static> as Records>⟧.cells result ≡ cells_of self.now.records }
    {
        Reader::new(&self.region)
    }

    /// The cells of the changes at revisions from this one on, in order.
    fn since(&self, revision: u64) -> Changes<'_>
        ensures { map (change_at (cells_of self.now.records)) result
            ≡ map Some (since revision self.now.changes) }
    {
        let records = Reader::new(&self.region);
        Changes::of(
            walk_before(&self.settled, &self.recent, &records, revision),
            walk_from(&self.recent, &records, revision),
        )
    }
}

/// Whether the change under a cell is at a revision below this one.
#[derive(Drop)]
struct IsBelow<'a, R> {
    records: &'a R,
    revision: u64,
}

impl<'a, R: Records> Test<CellNo> for IsBelow<'a, R> {
    ghost use Rattle.std.specs.Prelude.{IsSome};
    ghost use Rattle.revision_store.specs.Walking.{is_below};

    ghost can = { λ s c. IsSome (R.cells s.records.now c) };

    ghost test = { λ s c. is_below (R.cells s.records.now) s.revision c };

    fn holds(&self, cell: CellNo) -> bool {
        self.records.revision(cell) < self.revision
    }
}

/// The cells of a list whose changes are at revisions from this one on. It counts them chunk by chunk.
fn walk_from<'a, R: Records>(
    order: &'a ChunkList<CellNo>,
    records: &R,
    revision: u64,
) -> Walk<'a, CellNo>
    requires there { All (λ c. IsSome (R.cells records.now c)) order.now.items }
    requires rises { IsInOrder (R.cells records.now) order.now.items }
    ensures few { length result ≤ length order.now.items }
    ensures from { map (change_at (R.cells records.now)) result
        ≡ map Some (since revision (changes_in (R.cells records.now) order.now.items)) }
{
    let from = order.search_last(&IsBelow { records, revision });
    let count = order.count_between(from, order.end());
    order.walk(from, count)
}

/// The same of a list that stands before another. Where that one begins below the revision, there is none, which
/// its first change tells: so what a write has changed is found among the recent changes alone.
fn walk_before<'a, R: Records>(
    order: &'a ChunkList<CellNo>,
    later: &ChunkList<CellNo>,
    records: &R,
    revision: u64,
) -> Walk<'a, CellNo>
    requires there { All (λ c. IsSome (R.cells records.now c)) (order.now.items ++ later.now.items) }
    requires rises { IsInOrder (R.cells records.now) (order.now.items ++ later.now.items) }
    ensures few { length result ≤ length order.now.items }
    ensures from { map (change_at (R.cells records.now)) result
        ≡ map Some (since revision (changes_in (R.cells records.now) order.now.items)) }
{
    let first = later.start();
    if later.has_item(first) && records.revision(later.get(first)) < revision {
        return Walk::none();
    }
    walk_from(order, records, revision)
}
