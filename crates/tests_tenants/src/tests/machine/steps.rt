//! The steps of scripts.
use super::scripts::Ask;
use etcd_types::{Filters, GrantReq, List, Mem, PutReq, Step, WatchReq};
use std::alloc::Global;

pub(super) fn step_of(alloc: Global, ask: Ask) -> Mem<Step> {
    match ask {
        Ask::Put(key, lease) => put_step(alloc, key, lease),
        Ask::Compact(revision) => Ok(Step::Compact(revision)),
        Ask::Grant(id) => Ok(Step::Grant(GrantReq { ttl: 5, id })),
        Ask::Revoke(id) => Ok(Step::Revoke(id)),
        Ask::Watch(start) => watch_step(alloc, start, false),
        Ask::WatchProgress(start) => watch_step(alloc, start, true),
        Ask::Take(slot) => Ok(Step::Take(slot)),
        Ask::DropWatch(slot) => Ok(Step::DropWatch(slot)),
        Ask::CatchUp(changes) => Ok(Step::CatchUp(changes)),
        Ask::Tick(moment) => Ok(Step::Tick(moment)),
    }
}

fn put_step(alloc: Global, key: &str, lease: i64) -> Mem<Step> {
    Ok(Step::Put(PutReq {
        key: List::from_slice(alloc, key.as_bytes())?,
        value: List::from_slice(alloc, b"bar")?,
        lease,
        prev_kv: false,
        ignore_value: false,
        ignore_lease: false,
    }))
}

fn watch_step(alloc: Global, start_revision: i64, progress_notify: bool) -> Mem<Step> {
    Ok(Step::Watch(WatchReq {
        key: List::from_slice(alloc, b"foo")?,
        range_end: List::new(alloc),
        start_revision,
        filters: Filters {
            no_put: false,
            no_delete: false,
        },
        prev_kv: false,
        watch_id: 0,
        progress_notify,
    }))
}
