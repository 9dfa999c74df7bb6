//! A change under its cell: its key, its row, and what its key showed before.
ghost use Rattle.std.specs.Prelude.{◌≡◌, ◌-◌, ◌≤◌, [], length, take, vec_capacity, Some, IsSome, IfSome, IfOk};
ghost use Rattle.std.specs.Prelude.{option_and_then};
ghost use Rattle.std.specs.List.{AllByRecursion};
ghost use Rattle.etcd_model.specs.Changes.{live};
ghost use Rattle.etcd_model.specs.Store.{kept_store};
ghost use Rattle.key_index.specs.Links.{change_at};
ghost use Rattle.revision_store.specs.Recorded.{cells_of};
ghost use Rattle.revision_store.specs.Plans.{key_at};
ghost use Rattle.revision_store.specs.Stored.{cells, row_at};

use crate::log::Log;
use crate::records::Reader;
use crate::store::Store;
use etcd_types::{CellNo, KeyValue, List, Mem};
use key_index::Records;
use std::alloc::Global;

impl Store {
    /// The key of the change under a cell.
    pub fn key(&self, alloc: Global, cell: CellNo) -> Mem<List<u8>>
        requires { IsSome (cells self.now cell) }
        ensures { IfOk result (λ key. key ≡ key_at (cells self.now) cell) }
    {
        self.log.key(alloc, cell)
    }

    /// The first 48 bytes of the key of the change under a cell, or the whole key if it has no more.
    pub fn key_front(&self, cell: CellNo) -> &[u8]
        requires { IsSome (cells self.now cell) }
        ensures { result.now ≡ take 48 (key_at (cells self.now) cell) }
    {
        self.log.key_front(cell)
    }

    /// The row that the put under a cell left.
    pub fn row(&self, alloc: Global, cell: CellNo) -> Mem<KeyValue>
        requires { IsSome (row_at (cells self.now) cell) }
        ensures { IfOk result (λ row. row_at (cells self.now) cell ≡ Some row) }
    {
        self.log.row(alloc, cell)
    }

    /// The cell of the row that the key of a change showed at the revision before, if it was live.
    pub fn cell_before(&self, cell: CellNo) -> Option<CellNo>
        requires { IsSome (cells self.now cell) }
        ensures row { IfSome (change_at (cells self.now) cell)
            (λ x. option_and_then (row_at (cells self.now)) result
            ≡ live x.key (x.revision - 1) self.now.kept.changes) }
        ensures there { IfSome result (λ c. IsSome (row_at (cells self.now) c)) }
    {
        self.log.cell_before(cell)
    }

    /// That row, if the revision before is not one that a compaction forgot.
    pub fn row_before(&self, alloc: Global, cell: CellNo) -> Mem<Option<KeyValue>>
        requires { IsSome (cells self.now cell) }
        ensures { IfOk result (λ row. IfSome (change_at (cells self.now) cell)
            (λ x. row ≡ kept_store.row_at self.now.kept x.key (x.revision - 1))) }
    {
        let revision = self.records().revision(cell).saturating_sub(1);
        if revision < self.compacted() {
            return Ok(None);
        }
        match self.cell_before(cell) {
            Some(before) => Ok(Some(self.row(alloc, before)?)),
            None => Ok(None),
        }
    }
}

impl Log {
    /// The key of the change under a cell.
    pub(crate) fn key(&self, alloc: Global, cell: CellNo) -> Mem<List<u8>>
        requires { IsSome (cells_of self.now.records cell) }
        ensures { IfOk result (λ key. key ≡ key_at (cells_of self.now.records) cell) }
    {
        let mut key = self.room_for_key(alloc, cell)?;
        self.region.read_key(cell, &mut key)?;
        Ok(List::from_vec(key))
    }

    /// Room for the key of the change under a cell, and for no more.
    fn room_for_key(&self, alloc: Global, cell: CellNo) -> Mem<Vec<u8>>
        requires { IsSome (cells_of self.now.records cell) }
        ensures none { IfOk result (λ key. key.items ≡ []) }
        ensures room { IfOk result
            (λ key. vec_capacity key ≤ length (key_at (cells_of self.now.records) cell)) }
    {
        Vec::with_capacity(alloc, self.region.key_len(cell) as usize)
    }

    /// The first 48 bytes of the key of the change under a cell, or the whole key if it has no more.
    fn key_front(&self, cell: CellNo) -> &[u8]
        requires { IsSome (cells_of self.now.records cell) }
        ensures { result.now ≡ take 48 (key_at (cells_of self.now.records) cell) }
    {
        self.region.key_front(cell)
    }

    /// The cell of the row that the key of a change showed at the revision before, if it was live.
    fn cell_before(&self, cell: CellNo) -> Option<CellNo>
        requires there { IsSome (cells_of self.now.records cell) }
        requires least { AllByRecursion (λ x. 1 ≤ x.revision) self.now.changes }
        ensures row { IfSome (change_at (cells_of self.now.records) cell)
            (λ x. option_and_then (row_at (cells_of self.now.records)) result
            ≡ live x.key (x.revision - 1) self.now.changes) }
        ensures there { IfSome result (λ c. IsSome (row_at (cells_of self.now.records) c)) }
    {
        self.put_of(Reader::new(&self.region).older(cell))
    }
}
