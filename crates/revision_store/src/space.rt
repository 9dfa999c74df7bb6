//! How many cells are in use, and how many a plan takes.
ghost use Rattle.std.specs.Prelude.{◌≡◌, ◌+◌, ◌-◌, ◌≤◌, ◌^◌, ◌↔◌, min, IsTrue};
ghost use Rattle.etcd_model.specs.Store.{after, counted_cells, record_cells};
ghost use Rattle.revision_store.specs.Stored.{cells, changes_of, Follows, HasSpace, IsPlanFor};
ghost use Rattle.revision_store.specs.Plans.{cost_in, growth_of};
ghost use Rattle.revision_store.specs.Pending.{IsSound};

use crate::log::Log;
use crate::plan::{Plan, Write};
use crate::store::Store;
use etcd_types::limits::CELL_BYTES;
use store_words::{cost_put, growth_put};

impl Store {
    /// How many cells are free.
    pub fn free_cells(&self) -> u32
        ensures { result ≡ self.now.free }
    {
        self.log.region.free_cells()
    }

    /// How many cells are in use: those of the kept changes, and one for each lease.
    pub fn filled_cells(&self) -> u32
        ensures { result ≡ record_cells self.now.kept.changes + self.now.lease_cells }
    {
        self.log.filled_cells()
    }

    /// Whether there are cells for all that the plan writes.
    pub fn fits(&self, plan: &Plan) -> bool
        requires { IsPlanFor self.now plan.now }
        ensures { IsTrue result ↔ HasSpace self.now plan.now }
    {
        let mut left = u64::from(self.free_cells());
        for write in plan.writes() {
            let cost = self.cost(write);
            if left < cost {
                return false;
            }
            left -= cost;
        }
        true
    }

    /// By how many cells the plan raises those that count against a quota, at most 2^64 - 1: a put
    /// takes its record, and room for a delete of its key where that was not live; a delete takes
    /// the room that was held for it.
    pub fn growth(&self, plan: &Plan) -> u64
        requires { IsPlanFor self.now plan.now }
        ensures exact { result
            ≡ min (counted_cells (after self.now.kept (changes_of self.now plan.now)) - counted_cells
            self.now.kept) (2 ^ 64 - 1) }
        ensures grows { counted_cells self.now.kept
            ≤ counted_cells (after self.now.kept (changes_of self.now plan.now)) }
        ensures sound { IsSound self.now }
    {
        self.use_invariant();
        let mut growth: u64 = 0;
        for write in plan.writes() {
            growth = growth.saturating_add(growth_of(write));
        }
        growth
    }

    /// How many cells a write takes.
    fn cost(&self, write: &Write) -> u64
        requires { Follows self.now write.now }
        ensures { result ≡ cost_in (cells self.now) write.now }
    {
        match write {
            Write::Put(row) => cost_put(row.key.as_slice(), row.value.as_slice()),
            Write::Delete(cell) => {
                1 + u64::from(self.log.region.key_len(*cell)).div_ceil(CELL_BYTES)
            }
        }
    }
}

/// By how many cells a write raises those that count.
fn growth_of(write: &Write) -> u64
    ensures { result ≡ growth_of write.now }
{
    match write {
        Write::Put(row) => growth_put(row),
        Write::Delete(_) => 0,
    }
}

impl Log {
    /// How many cells are in use.
    fn filled_cells(&self) -> u32
        ensures { result ≡ record_cells self.now.changes + self.now.lease_cells }
    {
        self.region.filled_cells()
    }
}
