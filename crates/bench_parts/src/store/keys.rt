//! The keys that a store is filled with, those that come anew, and the requests for them.
ghost use Rattle.std.specs.Prelude.{◌<◌, ◌*◌};

use crate::requests::{key, put};
use etcd_types::{List, Mem, PutReq, RangeReq, SortOrder, SortTarget};
use std::alloc::Global;

/// Rows of a range that is measured.
pub(crate) const ROWS: u64 = 100;

/// Keys come in steps of so many, so that they are scattered. It is prime and divides no count of keys, so
/// that each comes once.
const STEP: u64 = 7_919;

/// So many keys of 16 bytes, with values of one length.
#[derive(Clone, Copy)]
pub(crate) struct Keys {
    pub(crate) count: u32,
    pub(crate) value_len: usize,
    ghost some: { 0 < count },
}

impl Keys {
    /// Puts of so many of the keys, scattered.
    pub(crate) fn puts(self, alloc: Global, many: u32) -> Mem<Vec<PutReq>> {
        let mut puts = Vec::with_capacity(alloc, many as usize)?;
        for index in 0..many {
            puts.push(put(alloc, self.number(index), self.value_len)?)?;
        }
        Ok(puts)
    }

    /// Puts of so many other keys, each behind one of the keys, scattered.
    pub(crate) fn new_puts(self, alloc: Global, many: u32) -> Mem<Vec<PutReq>> {
        let mut puts = Vec::with_capacity(alloc, many as usize)?;
        for index in 0..many {
            puts.push(put(alloc, self.number(index) + 1, self.value_len)?)?;
        }
        Ok(puts)
    }

    /// Reads of so many of the keys, each alone, scattered.
    pub(crate) fn gets(self, alloc: Global, many: u32) -> Mem<Vec<RangeReq>> {
        let mut gets = Vec::with_capacity(alloc, many as usize)?;
        for index in 0..many {
            let end = List::new(alloc);
            gets.push(range(key(alloc, self.number(index))?, end))?;
        }
        Ok(gets)
    }

    /// Reads of so many intervals, each of `ROWS` keys, scattered.
    pub(crate) fn ranges(self, alloc: Global, many: u32) -> Mem<Vec<RangeReq>> {
        let last = (2 * u64::from(self.count)).saturating_sub(2 * ROWS);
        let mut ranges = Vec::with_capacity(alloc, many as usize)?;
        for index in 0..many {
            let first = self.number(index).min(last);
            let end = key(alloc, first + 2 * ROWS)?;
            ranges.push(range(key(alloc, first)?, end))?;
        }
        Ok(ranges)
    }

    /// The number in the key that comes at a place. Those of the keys are even.
    fn number(self, index: u32) -> u64
        ensures { result < 2 * self.count }
    {
        2 * (u64::from(index) * STEP % u64::from(self.count))
    }
}

/// The newest rows of an interval, by ascending key.
fn range(key: List<u8>, range_end: List<u8>) -> RangeReq {
    RangeReq {
        key,
        range_end,
        limit: 0,
        revision: 0,
        sort_order: SortOrder::Unsorted,
        sort_target: SortTarget::Key,
        serializable: false,
        keys_only: false,
        count_only: false,
        min_mod_revision: 0,
        max_mod_revision: 0,
        min_create_revision: 0,
        max_create_revision: 0,
    }
}
