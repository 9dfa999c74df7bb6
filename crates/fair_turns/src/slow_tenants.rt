//! Tenants whose last turn with a worker was long, or whose last takes were. All workers but one may serve them at once,
//! so that one is left for the others, however many of these there are.
use crossbeam_channel::{Receiver, Sender, bounded};
use crossbeam_utils::CachePadded;
use etcd_types::Mem;
use std::alloc::Global;
use std::sync::Wait;
use std::sync::atomic::{AtomicUsize, Ordering};

/// How many slow tenants are served, and those that wait with their turn.
#[derive(Drop)]
pub(crate) struct SlowTenants {
    most: usize,
    /// A worker is left for the others.
    leaves_one: bool,
    served: CachePadded<AtomicUsize>,
    wait: Sender<u64>,
    waiting: Receiver<u64>,
}

impl SlowTenants {
    /// None is served or waits. A worker that is alone serves them too.
    pub(crate) fn new(alloc: Global, tenants: usize, workers: usize) -> Mem<SlowTenants> {
        let (wait, waiting) = bounded(alloc, tenants)?;
        Ok(SlowTenants {
            most: workers.saturating_sub(1).max(1),
            leaves_one: workers > 1,
            served: CachePadded::new(AtomicUsize::new(0)),
            wait,
            waiting,
        })
    }

    pub(crate) fn leaves_one(&self) -> bool {
        self.leaves_one
    }

    /// A worker may serve a slow tenant now; else the tenant waits.
    pub(crate) fn begin<R: Wait>(&self, rt: &R, tenant: u64) -> bool {
        if self.served.fetch_add(1, Ordering::SeqCst) < self.most {
            return true;
        }
        self.served.fetch_sub(1, Ordering::SeqCst);
        // A tenant waits once at most, so there is room.
        let _ = self.wait.send(rt, tenant);
        false
    }

    /// A worker has served a slow tenant.
    pub(crate) fn end(&self) {
        self.served.fetch_sub(1, Ordering::SeqCst);
    }

    /// A tenant that need not wait on. It is asked for after each `end`, and after each tenant that began to wait,
    /// since the last of those served may have ended just before.
    pub(crate) fn next<R: Wait>(&self, rt: &R) -> Option<u64> {
        if self.served.load(Ordering::SeqCst) >= self.most {
            return None;
        }
        self.waiting.try_recv(rt).ok()
    }
}
