//! Reading the kept changes at a revision.
ghost use Rattle.std.specs.Prelude.{◌≡◌, ◌≤◌, ℕ, [], length, vec_capacity, Some, IsSome, IfSome, IfOk};
ghost use Rattle.std.specs.Prelude.{option_map, option_and_then};
ghost use Rattle.std.specs.List.{AllByRecursion};
ghost use Rattle.etcd_model.specs.Changes.{Recorded, live, rows};
ghost use Rattle.etcd_model.specs.Interval.{is_in};
ghost use Rattle.etcd_model.specs.Ranges.{without_value};
ghost use Rattle.key_index.specs.Links.{IsNewest, change_at};
ghost use Rattle.revision_store.specs.Recorded.{cells_of};
ghost use Rattle.revision_store.specs.Pending.{numbers_alone};
ghost use Rattle.revision_store.specs.Plans.{key_at};
ghost use Rattle.revision_store.specs.Room.{most_room};
ghost use Rattle.revision_store.specs.Stored.{ShowRows, row_at};

use crate::growing::Growing;
use crate::heads::HeadsInOrder;
use crate::log::Log;
use crate::records::Reader;
use crate::rows::first_cells;
use chunk_list::Walk;
use etcd_types::{CellNo, KeyValue, List, Mem};
use key_index::{Records, last_up_to};
use std::alloc::Global;

impl Log {
    /// The cell of the row that a key shows at a revision, if it is live there: the key whose newest change is under
    /// a cell.
    pub(crate) fn live_of(&self, head: CellNo, revision: u64) -> Option<CellNo>
        requires { IsNewest (cells_of self.now.records) head }
        ensures row { option_and_then (row_at (cells_of self.now.records)) result
            ≡ live (key_at (cells_of self.now.records) head) revision self.now.changes }
        ensures there { IfSome result (λ c. IsSome (row_at (cells_of self.now.records) c)) }
    {
        self.put_of(last_up_to(head, &Reader::new(&self.region), revision))
    }

    /// The cell of a last change, if it is a put.
    pub(crate) fn put_of(&self, last: Option<CellNo>) -> Option<CellNo>
        requires { IfSome last (λ c. IsSome (cells_of self.now.records c)) }
        ensures row { option_and_then (row_at (cells_of self.now.records)) result
            ≡ option_and_then
            (λ (x : Recorded). x.row) (option_and_then (change_at (cells_of self.now.records)) last) }
        ensures there { IfSome result (λ c. IsSome (row_at (cells_of self.now.records) c)) }
    {
        match last {
            Some(cell) if Reader::new(&self.region).is_put(cell) => Some(cell),
            _ => None,
        }
    }

    /// The cells of the rows of an interval that are live at a revision, by ascending key. It looks at each
    /// key of the interval.
    pub(crate) fn live_cells(
        &self,
        alloc: Global,
        key: &[u8],
        range_end: &[u8],
        revision: u64,
    ) -> Mem<Vec<CellNo>>
        ensures cells { IfOk result
            (λ found. ShowRows (cells_of self.now.records) self.now.changes key.now range_end.now revision
            found.items) }
        ensures room { IfOk result (λ found. vec_capacity found ≤ most_room (length found.items)) }
    {
        let reader = Reader::new(&self.region);
        let live = self.index.span(&reader, key, range_end);
        let dead = self.index.dead_span(&reader, key, range_end);
        let mut found = Growing::new(alloc);
        let mut heads = HeadsInOrder::new(live, dead);
        while let Some(head) = heads.next(&reader) {
            if let Some(cell) = self.live_of(head, revision) {
                found.push(cell)?;
            }
        }
        Ok(found.into_vec())
    }

    /// How many rows of an interval are live at a revision. It looks at each key of the interval, and takes no memory.
    pub(crate) fn live_count(&self, key: &[u8], range_end: &[u8], revision: u64) -> usize
        ensures { result ≡ length (rows (is_in key.now range_end.now) revision self.now.changes) }
    {
        let reader = Reader::new(&self.region);
        let live = self.index.span(&reader, key, range_end);
        let dead = self.index.dead_span(&reader, key, range_end);
        let mut count = 0;
        let mut heads = HeadsInOrder::new(live, dead);
        while let Some(head) = heads.next(&reader) {
            if self.live_of(head, revision).is_some() {
                count += 1;
            }
        }
        count
    }

    /// The cells of the rows of an interval that are live now, by ascending key. It looks at no other key.
    pub(crate) fn newest_cells(&self, key: &[u8], range_end: &[u8]) -> Walk<'_, CellNo>
        ensures { (revision : ℕ) → AllByRecursion (λ x. x.revision ≤ revision) self.now.changes
            → ShowRows (cells_of self.now.records) self.now.changes key.now range_end.now revision result }
    {
        self.index.span(&Reader::new(&self.region), key, range_end)
    }

    /// The same in a list.
    pub(crate) fn newest_list(
        &self,
        alloc: Global,
        key: &[u8],
        range_end: &[u8],
    ) -> Mem<Vec<CellNo>>
        ensures cells { IfOk result
            (λ found. (revision : ℕ) → AllByRecursion (λ x. x.revision ≤ revision) self.now.changes
            → ShowRows (cells_of self.now.records) self.now.changes key.now range_end.now revision
            found.items) }
        ensures room { IfOk result (λ found. vec_capacity found ≤ length found.items) }
    {
        let cells = self.newest_cells(key, range_end);
        let count = cells.len();
        first_cells(alloc, cells, count)
    }

    /// The row under a cell.
    #[inline(always)]
    pub(crate) fn row(&self, alloc: Global, cell: CellNo) -> Mem<KeyValue>
        requires { IsSome (row_at (cells_of self.now.records) cell) }
        ensures { IfOk result (λ row. row_at (cells_of self.now.records) cell ≡ Some row) }
    {
        let mut row = self.row_without_value(alloc, cell)?;
        let mut value = self.room_for_value(alloc, cell)?;
        self.region.read_value(cell, &mut value)?;
        row.value = List::from_vec(value);
        Ok(row)
    }

    /// Room for the value of the row under a cell, and for no more.
    fn room_for_value(&self, alloc: Global, cell: CellNo) -> Mem<Vec<u8>>
        requires { IsSome (row_at (cells_of self.now.records) cell) }
        ensures none { IfOk result (λ value. value.items ≡ []) }
        ensures room { IfOk result (λ value. IfSome (row_at (cells_of self.now.records) cell)
            (λ row. vec_capacity value ≤ length row.value)) }
    {
        Vec::with_capacity(alloc, self.region.value_len(cell) as usize)
    }

    /// The row under a cell without its value, which is not read.
    #[inline(always)]
    pub(crate) fn row_without_value(&self, alloc: Global, cell: CellNo) -> Mem<KeyValue>
        requires { IsSome (row_at (cells_of self.now.records) cell) }
        ensures { IfOk result
            (λ row. option_map without_value (row_at (cells_of self.now.records) cell) ≡ Some row) }
    {
        let mut row = self.numbers(alloc, cell);
        row.key = self.key(alloc, cell)?;
        Ok(row)
    }

    /// The numbers of the row under a cell, read from its head alone: a row without its key and its value.
    pub(crate) fn numbers(&self, alloc: Global, cell: CellNo) -> KeyValue
        requires { IsSome (row_at (cells_of self.now.records) cell) }
        ensures { option_map numbers_alone (row_at (cells_of self.now.records) cell) ≡ Some result }
    {
        let fields = self.region.fields(cell);
        KeyValue {
            key: List::new(alloc),
            create_revision: fields.create_revision,
            mod_revision: fields.revision,
            version: fields.version,
            value: List::new(alloc),
            lease: fields.lease,
        }
    }

    /// The revisions of the first and of the last put of the row under a cell, read from its head alone.
    pub(crate) fn revisions(&self, cell: CellNo) -> (u64, u64)
        requires { IsSome (row_at (cells_of self.now.records) cell) }
        ensures created { IfSome (row_at (cells_of self.now.records) cell)
            (λ row. result.0 ≡ row.create_revision) }
        ensures modified { IfSome (row_at (cells_of self.now.records) cell)
            (λ row. result.1 ≡ row.mod_revision) }
    {
        let fields = self.region.fields(cell);
        (fields.create_revision, fields.revision)
    }
}
