//! What is put and watched.
use crate::requests::{key, put};
use etcd_types::{Filters, List, Mem, PutReq, WatchReq};
use std::alloc::Global;

/// Bytes of a value.
const VALUE_LEN: usize = 32;

/// Puts of so many keys, from this one on.
pub(crate) fn puts(alloc: Global, first: u32, many: u32) -> Mem<Vec<PutReq>> {
    let mut puts = Vec::with_capacity(alloc, many as usize)?;
    for index in 0..many {
        let number = u64::from(first.saturating_add(index));
        puts.push(put(alloc, number, VALUE_LEN)?)?;
    }
    Ok(puts)
}

/// A watch of a key, from a revision on or from now on.
pub(crate) fn watch(alloc: Global, number: u32, start_revision: i64) -> Mem<WatchReq> {
    Ok(WatchReq {
        key: key(alloc, u64::from(number))?,
        range_end: List::new(alloc),
        start_revision,
        filters: Filters {
            no_put: false,
            no_delete: false,
        },
        prev_kv: false,
        watch_id: 0,
        progress_notify: false,
    })
}
