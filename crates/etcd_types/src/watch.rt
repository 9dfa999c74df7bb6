//! Requests to watches.
use crate::copy::{CopyOf, Mem};
use crate::list::List;
use std::alloc::Global;

/// The kinds of events that a watch leaves out.
#[derive(Clone, Copy, PartialEq, Eq)]
pub struct Filters {
    pub no_put: bool,
    pub no_delete: bool,
}

/// A new watch of an interval of keys.
#[derive(PartialEq, Eq)]
pub struct WatchReq {
    /// The first key. An empty one counts as the single byte 0.
    pub key: List<u8>,
    pub range_end: List<u8>,
    /// The first revision that is told; 0 or below is the one after the current.
    pub start_revision: i64,
    pub filters: Filters,
    /// Asks for the row before each change.
    pub prev_kv: bool,
    /// The number that each response repeats.
    pub watch_id: i64,
    /// Asks for a response now and then where there is no event.
    pub progress_notify: bool,
}

impl Drop for WatchReq {
    fn drop(self) {
        let WatchReq {
            key: _,
            range_end: _,
            start_revision: _,
            filters: _,
            prev_kv: _,
            watch_id: _,
            progress_notify: _,
        } = self;
    }
}

impl CopyOf for WatchReq {
    fn copy_of(&self, alloc: Global) -> Mem<WatchReq> {
        Ok(WatchReq {
            key: self.key.copy_of(alloc)?,
            range_end: self.range_end.copy_of(alloc)?,
            start_revision: self.start_revision,
            filters: self.filters,
            prev_kv: self.prev_kv,
            watch_id: self.watch_id,
            progress_notify: self.progress_notify,
        })
    }
}
