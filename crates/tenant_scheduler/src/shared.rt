//! What the threads that serve tenants share.
use crate::caller::Caller;
use crate::pump::drop_closed;
use crate::tenants::{ServedTenant, TenantTerms, Tenants};
use crossbeam_channel::{Receiver, RecvTimeoutError};
use etcd_types::Mem;
use etcd_types::limits::MAX_TENANTS;
use fair_turns::{Beats, PARTS, Scheduler, Turn, Turns, Work};
use pending_calls::{Entrances, Jobs};
use std::alloc::Global;
use std::rt::Clock;
use std::sync::{Arc, Wait};
use std::time::Duration;
use tenant_calls::{TenantCalls, TenantKey};

/// The part of the directory and of counts for the threads which have no event loop; those of the loops come before it.
pub(crate) const SHARD: usize = PARTS - 1;

/// How many seconds a thread waits for a turn before it shows that it moves.
const SECONDS_A_BEAT: u64 = 1;

/// Whose turn it is, where the turns arrive, and the tenants.
pub struct Shared<R: Wait + Drop, K: TenantKey> {
    pub(crate) scheduler: Arc<Scheduler>,
    pub(crate) turns: Turns,
    pub(crate) beats: Beats,
    tenants: Arc<Tenants<R, K>>,
}

impl<R: Wait + Drop, K: TenantKey> Drop for Shared<R, K> {
    fn drop(self) {
        let Shared {
            scheduler: _,
            turns: _,
            beats: _,
            tenants: _,
        } = self;
    }
}

impl<R: Wait + Drop, K: TenantKey> Shared<R, K> {
    /// Work is due on all tenants.
    pub(crate) fn schedule_all(&self, rt: &R, work: Work) {
        self.tenants.schedule_all(rt, SHARD, work);
    }

    /// The tenants, for whoever takes some in or out.
    pub fn tenants(&self) -> &Arc<Tenants<R, K>> {
        &self.tenants
    }
}

impl<R: Wait + Clock + Drop, K: TenantKey> Shared<R, K> {
    /// The tenant whose turn comes next, for the thread at a place; none once there are no more turns. The thread moves
    /// at least once a second, whether a turn comes or not.
    pub(crate) fn next_turn(&self, rt: &R, place: usize, turns: &Receiver<Turn>) -> Option<u64> {
        for _ in rt.forever() {
            self.beats.beat(rt, place);
            match turns.recv_timeout(rt, Duration::from_secs(SECONDS_A_BEAT)) {
                Ok(Turn::On(tenant)) => return Some(tenant),
                Ok(Turn::Over) | Err(RecvTimeoutError::Disconnected) => return None,
                Err(RecvTimeoutError::Timeout) => {}
            }
        }
        unreachable!()
    }

    /// The tenant of that number, on which the turn came that begins now, if it is still there.
    pub(crate) fn begin_turn(&self, rt: &R, number: u64) -> Option<Arc<ServedTenant<R, K>>> {
        let tenant = self.tenants.numbered(rt, SHARD, number)?;
        Scheduler::take_up(rt, tenant.turns());
        Some(tenant)
    }

    /// Each thread has moved within so many seconds.
    pub fn have_moved(&self, rt: &R, seconds: u64) -> bool {
        self.beats.are_within(rt, seconds)
    }
}

impl<R: Wait + Clock + Copy + Drop, K: TenantKey> Shared<R, K> {
    /// Ends the turns of so many threads, once no more calls come.
    pub fn stop(&self, rt: &R, threads: usize) {
        self.scheduler.stop(rt, threads);
    }

    /// Frees the slots of watches that ended after the pump did.
    pub(crate) fn free_slots<C: TenantCalls<Key = K>>(&self, rt: &R, caller: &mut Caller<R, C>) {
        for place in 0..MAX_TENANTS {
            let Some(tenant) = self.tenants.at(rt, SHARD, place) else {
                break;
            };
            drop_closed(caller, &mut *tenant.clients.lock(rt));
        }
    }
}

/// The tenants that have these keys, with nothing under way, on these terms in the order of the keys, or by
/// default: where calls go in, and what so many threads share that serve them, of which so many are workers.
pub fn open<R: Wait + Clock + Drop, K: TenantKey>(
    rt: &R,
    alloc: Global,
    keys: Vec<K>,
    terms: &[TenantTerms],
    threads: usize,
    workers: usize,
) -> Mem<(Jobs<R>, Arc<Shared<R, K>>)> {
    let beats = Beats::new(rt, alloc, threads)?;
    let (scheduler, turns) = Scheduler::new(alloc, threads, workers)?;
    let scheduler = Arc::new(alloc, scheduler)?;
    let (entrances, tenants) = admitted(rt, alloc, &scheduler, keys, terms)?;
    let shared = Shared {
        scheduler,
        turns,
        beats,
        tenants,
    };
    Ok((Jobs::new(entrances), Arc::new(alloc, shared)?))
}

/// Tenants by their keys and terms, and where their calls go in.
fn admitted<R: Wait + Clock + Drop, K: TenantKey>(
    rt: &R,
    alloc: Global,
    scheduler: &Arc<Scheduler>,
    keys: Vec<K>,
    terms: &[TenantTerms],
) -> Mem<(Arc<Entrances<R>>, Arc<Tenants<R, K>>)> {
    let entrances = Entrances::new(alloc, Arc::try_clone(scheduler)?)?;
    let entrances = Arc::new(alloc, entrances)?;
    let tenants = Tenants::new(alloc, Arc::try_clone(&entrances)?)?;
    tenants.admit_all(rt, alloc, keys, terms)?;
    Ok((entrances, Arc::new(alloc, tenants)?))
}
