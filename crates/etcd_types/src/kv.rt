//! Requests to read and write keys.
use crate::copy::{CopyOf, Mem};
use crate::list::List;
use std::alloc::Global;

/// The order that a range is sorted in.
#[derive(Clone, Copy, PartialEq, Eq)]
pub enum SortOrder {
    /// `NONE`: ascending by the target.
    Unsorted,
    Ascend,
    Descend,
}

/// What a range is sorted by.
#[derive(Clone, Copy, PartialEq, Eq)]
pub enum SortTarget {
    Key,
    Version,
    Create,
    Mod,
    Value,
}

/// A read of an interval of keys.
#[derive(PartialEq, Eq)]
pub struct RangeReq {
    /// The first key of the interval.
    pub key: List<u8>,
    /// The end of the interval: empty for the one key, the single byte 0 for all keys from `key` on.
    pub range_end: List<u8>,
    /// How many rows at most; 0 or below is no limit.
    pub limit: i64,
    /// The revision to read at; 0 or below is the newest.
    pub revision: i64,
    pub sort_order: SortOrder,
    pub sort_target: SortTarget,
    /// Changes nothing: there is one member.
    pub serializable: bool,
    pub keys_only: bool,
    pub count_only: bool,
    /// A bound of 0 is none, in each of the four.
    pub min_mod_revision: i64,
    pub max_mod_revision: i64,
    pub min_create_revision: i64,
    pub max_create_revision: i64,
}

impl Drop for RangeReq {
    fn drop(self) {
        let RangeReq {
            key: _,
            range_end: _,
            limit: _,
            revision: _,
            sort_order: _,
            sort_target: _,
            serializable: _,
            keys_only: _,
            count_only: _,
            min_mod_revision: _,
            max_mod_revision: _,
            min_create_revision: _,
            max_create_revision: _,
        } = self;
    }
}

impl CopyOf for RangeReq {
    fn copy_of(&self, alloc: Global) -> Mem<RangeReq> {
        Ok(RangeReq {
            key: self.key.copy_of(alloc)?,
            range_end: self.range_end.copy_of(alloc)?,
            limit: self.limit,
            revision: self.revision,
            sort_order: self.sort_order,
            sort_target: self.sort_target,
            serializable: self.serializable,
            keys_only: self.keys_only,
            count_only: self.count_only,
            min_mod_revision: self.min_mod_revision,
            max_mod_revision: self.max_mod_revision,
            min_create_revision: self.min_create_revision,
            max_create_revision: self.max_create_revision,
        })
    }
}

/// A write of one key.
#[derive(PartialEq, Eq)]
pub struct PutReq {
    pub key: List<u8>,
    pub value: List<u8>,
    /// The ID of the lease to attach the key to; 0 is none.
    pub lease: i64,
    /// Asks for the row before the put.
    pub prev_kv: bool,
    /// Keeps the present value.
    pub ignore_value: bool,
    /// Keeps the present lease.
    pub ignore_lease: bool,
}

impl Drop for PutReq {
    fn drop(self) {
        let PutReq {
            key: _,
            value: _,
            lease: _,
            prev_kv: _,
            ignore_value: _,
            ignore_lease: _,
        } = self;
    }
}

impl CopyOf for PutReq {
    fn copy_of(&self, alloc: Global) -> Mem<PutReq> {
        Ok(PutReq {
            key: self.key.copy_of(alloc)?,
            value: self.value.copy_of(alloc)?,
            lease: self.lease,
            prev_kv: self.prev_kv,
            ignore_value: self.ignore_value,
            ignore_lease: self.ignore_lease,
        })
    }
}

/// A delete of an interval of keys.
#[derive(PartialEq, Eq)]
pub struct DeleteReq {
    pub key: List<u8>,
    pub range_end: List<u8>,
    /// Asks for the rows that are deleted.
    pub prev_kv: bool,
}

impl Drop for DeleteReq {
    fn drop(self) {
        let DeleteReq {
            key: _,
            range_end: _,
            prev_kv: _,
        } = self;
    }
}

impl CopyOf for DeleteReq {
    fn copy_of(&self, alloc: Global) -> Mem<DeleteReq> {
        Ok(DeleteReq {
            key: self.key.copy_of(alloc)?,
            range_end: self.range_end.copy_of(alloc)?,
            prev_kv: self.prev_kv,
        })
    }
}
