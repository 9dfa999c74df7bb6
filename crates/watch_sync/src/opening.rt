//! A watch at its beginning.
ghost use Rattle.std.specs.Prelude.{◌≡◌, ◌<◌, ◌^◌, IfOk};
ghost use Rattle.etcd_model.specs.Watches.{start, watch_of, watched_key};
ghost use Rattle.watch_sync.specs.Agreeing.{Agrees};

use crate::watch::OpenWatch;
use circular_buffer::HeapCircularBuffer;
use etcd_model::state::Watch;
use etcd_types::limits::RING_ENTRIES;
use etcd_types::{CopyOf, List, Mem, WatchReq};
use revision_store::Store;
use std::alloc::Global;

/// The key at which a watch begins: for an empty one the single byte 0.
fn watched_key(alloc: Global, key: &List<u8>) -> Mem<List<u8>>
    ensures { IfOk result (λ first. first ≡ watched_key key.now) }
{
    match key.as_slice() {
        [] => List::from_slice(alloc, &[0]),
        _ => key.copy_of(alloc),
    }
}

/// The revision at which a watch begins: after the current one for 0 and below.
fn start(current: u64, revision: i64) -> u64
    requires { current < 2 ^ 63 }
    ensures { result ≡ start current revision }
{
    if revision <= 0 {
        current + 1
    } else {
        revision as u64
    }
}

/// The watch that a request asks for at a moment.
fn watch_of(alloc: Global, current: u64, moment: u64, request: &WatchReq) -> Mem<Watch>
    requires { current < 2 ^ 63 }
    ensures { IfOk result (λ watch. watch ≡ watch_of current moment request.now) }
{
    Ok(Watch {
        key: watched_key(alloc, &request.key)?,
        range_end: request.range_end.copy_of(alloc)?,
        no_put: request.filters.no_put,
        no_delete: request.filters.no_delete,
        prev_kv: request.prev_kv,
        id: request.watch_id,
        next: start(current, request.start_revision),
        progress_notify: request.progress_notify,
        told: moment,
    })
}

impl OpenWatch {
    /// The watch that a request asks for at a moment, with an empty ring.
    pub fn open(alloc: Global, store: &Store, moment: u64, request: &WatchReq) -> Mem<OpenWatch>
        ensures watch { IfOk result (λ new. new.watch
            ≡ watch_of store.now.kept.current moment request.now) }
        ensures agrees { IfOk result (λ new. Agrees new store.now) }
    {
        let current = store.current();
        let watch = watch_of(alloc, current, moment, request)?;
        let ring = HeapCircularBuffer::with_capacity(alloc, RING_ENTRIES)?;
        let position = watch.next.min(current + 1);
        Ok(OpenWatch::new(watch, ring, position))
    }
}
