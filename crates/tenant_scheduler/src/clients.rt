//! What the clients of a tenant have under way, for whoever has the turn there.
ghost use Rattle.std.specs.Prelude.{◌≡◌, IfSome, Some};

use crate::clock::Running;
use auto_compaction::{Retention, StandingOrder};
use etcd_types::Mem;
use fair_turns::{Budget, Scheduler, ServedWatch, TenantCounts, TenantTurns, Work};
use pending_calls::Entrance;
use std::alloc::Global;
use std::sync::{Arc, Wait};
use tenant_calls::TenantKey;

/// The clients of one tenant, for whoever has the turn there.
#[derive(Drop)]
pub(crate) struct Clients<K: TenantKey> {
    /// By which the tenant is called. None where it is not there yet, or was removed.
    pub(crate) key: Option<K>,
    pub(crate) budget: Budget,
    pub(crate) counts: Arc<TenantCounts>,
    pub(crate) watches: Vec<ServedWatch>,
    /// At which place of the watches the pump goes on.
    pub(crate) next_take: usize,
    pub(crate) running: Running,
    /// What of its history is kept.
    pub(crate) standing: StandingOrder,
    /// Its last turn with a worker was long.
    pub(crate) is_slow: bool,
    /// How many of its next takes are left to the workers, since one was long.
    pub(crate) takes_left: u32,
    /// How many of its brief calls the event loops leave to the workers, since an answer was long.
    pub(crate) left_to_workers: u32,
}

impl<K: TenantKey> Clients<K> {
    /// Those of a tenant whose calls go in there, with nothing under way. It has no key: it is not there yet.
    pub(crate) fn new<R: Wait + Drop>(
        alloc: Global,
        entrance: &Entrance<R>,
        retention: Retention,
    ) -> Mem<Clients<K>> {
        let number = entrance.number;
        Ok(Clients {
            key: None,
            budget: entrance.budget.share()?,
            counts: Arc::try_clone(&entrance.counts)?,
            watches: Vec::new(alloc),
            next_take: 0,
            running: Running::new(number),
            standing: StandingOrder::new(alloc, number, retention)?,
            is_slow: false,
            takes_left: 0,
            left_to_workers: 0,
        })
    }

    /// Has the pump take for the tenant's watches, if there are any.
    pub(crate) fn schedule_takes<R: Wait>(
        &self,
        rt: &R,
        scheduler: &Scheduler,
        turns: &TenantTurns,
    ) {
        if !self.watches.is_empty() {
            scheduler.schedule(rt, turns, Work::Takes);
        }
    }

    /// The tenant was removed: nobody calls it any more, and its watches end.
    pub(crate) fn end(&mut self) {
        self.key = None;
        self.watches.clear();
    }
}

/// The key, if it is to the tenant of that number.
pub(crate) fn key_of<K: TenantKey>(key: &Option<K>, number: u64) -> Option<&K>
    ensures number { IfSome result (λ found. K.number_of found.now ≡ number) }
    ensures key { IfSome result (λ found. key.now ≡ Some found.now) }
{
    match key {
        Some(key) if key.number() == number => Some(key),
        _ => None,
    }
}
