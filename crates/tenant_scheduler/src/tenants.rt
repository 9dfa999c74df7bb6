//! The tenants that are served, found by number where a turn comes in.
//!
//! A tenant's number is the registry's, which gives it once: no other tenant has it before or after. What a call, a turn or a watch keeps of
//! a tenant is that number, or its turns, and the tenant is called by the key that lies with them. So nothing that was
//! begun for a tenant reaches another one, also where the tenant was removed and others came since.
//!
//! A removal ends the tenant in this order: no request finds it by its name; no turn begins, and the last one has ended;
//! its key is gone, the jobs that wait are answered that it is not there, and its watches end; its number finds nothing.
use crate::clients::Clients;
use auto_compaction::{Retention, StandingOrder};
use crossbeam_utils::sync::{ShardedLock, ShardedLockReadGuard};
use etcd_types::Mem;
use etcd_types::limits::MAX_TENANTS;
use fair_turns::{DEFAULT_BUDGET, Scheduler, TenantCounts, TenantTurns, Work};
use indexmap::IndexMap;
use pending_calls::{Entrance, Entrances, NamedInParts};
use std::alloc::Global;
use std::rt::Clock;
use std::sync::{Arc, Mutex, Wait};
use tenant_calls::TenantKey;

/// What a tenant is served by.
#[derive(Clone, Copy)]
pub struct TenantTerms {
    /// How many bytes its clients may have under way.
    pub budget: usize,
    /// What of its history is kept.
    pub retention: Retention,
}

impl TenantTerms {
    /// Those of a tenant of which nothing is told.
    pub const DEFAULT: TenantTerms = TenantTerms {
        budget: DEFAULT_BUDGET,
        retention: Retention::All,
    };
}

/// A tenant as it is served.
pub struct ServedTenant<R: Wait + Drop, K: TenantKey> {
    pub(crate) entrance: Arc<Entrance<R>>,
    pub(crate) clients: Mutex<Clients<K>>,
}

impl<R: Wait + Drop, K: TenantKey> Drop for ServedTenant<R, K> {
    fn drop(self) {
        let ServedTenant {
            entrance: _,
            clients: _,
        } = self;
    }
}

impl<R: Wait + Drop, K: TenantKey> ServedTenant<R, K> {
    /// The tenant with these turns, on these terms. It has no key: it is not there yet.
    fn new(
        alloc: Global,
        number: u64,
        turns: TenantTurns,
        terms: TenantTerms,
    ) -> Mem<ServedTenant<R, K>> {
        let entrance = Entrance::new(alloc, number, turns, terms.budget)?;
        let clients = Clients::new(alloc, &entrance, terms.retention)?;
        Ok(ServedTenant {
            entrance: Arc::new(alloc, entrance)?,
            clients: Mutex::new(clients),
        })
    }

    /// Its number, which no other tenant ever has.
    pub fn number(&self) -> u64 {
        self.turns().number()
    }

    pub(crate) fn turns(&self) -> &Arc<TenantTurns> {
        &self.entrance.turns
    }

    /// How many bytes of its budget are left.
    pub fn budget_left(&self) -> usize {
        self.entrance.budget.left()
    }

    /// How many watches its clients have open. It waits until the turn that somebody may have there has ended.
    pub fn open_watches(&self, rt: &R) -> usize {
        self.clients.lock(rt).watches.len()
    }

    /// The same at once; none where somebody has the turn there.
    pub fn open_watches_now(&self) -> Option<usize> {
        let clients = self.clients.try_lock()?;
        Some(clients.watches.len())
    }

    /// What is counted of it.
    pub fn counts(&self) -> &TenantCounts {
        &self.entrance.counts
    }

    /// The same, for whoever keeps it.
    pub fn share_counts(&self) -> Mem<Arc<TenantCounts>> {
        Arc::try_clone(&self.entrance.counts)
    }

    /// Has another standing order from now on.
    pub fn change_order(&self, rt: &R, order: StandingOrder) {
        self.clients.lock(rt).standing = order;
    }

    /// Gives its clients another budget. What they have under way beyond it is owed.
    pub fn change_budget(&self, bytes: usize) {
        self.entrance.budget.change(bytes);
    }
}

/// The tenants by their numbers.
pub(crate) type Served<R, K> = IndexMap<u64, Arc<ServedTenant<R, K>>>;

/// All tenants that are served. They are read by every turn, and written where a tenant comes or goes.
pub struct Tenants<R: Wait + Drop, K: TenantKey> {
    entrances: Arc<Entrances<R>>,
    served: ShardedLock<Served<R, K>>,
}

impl<R: Wait + Drop, K: TenantKey> Drop for Tenants<R, K> {
    fn drop(self) {
        let Tenants {
            entrances: _,
            served: _,
        } = self;
    }
}

/// A tenant for which all memory is taken, and which only needs its key.
pub struct NewTenant<R: Wait + Drop, K: TenantKey> {
    name: Vec<u8>,
    named: NamedInParts,
    tenant: Arc<ServedTenant<R, K>>,
}

impl<R: Wait + Drop, K: TenantKey> Drop for NewTenant<R, K> {
    fn drop(self) {
        let NewTenant {
            name: _,
            named: _,
            tenant: _,
        } = self;
    }
}

impl<R: Wait + Drop, K: TenantKey> NewTenant<R, K> {
    /// The number that it will have.
    pub fn number(&self) -> u64 {
        self.tenant.number()
    }

    fn into_parts(self) -> (Vec<u8>, NamedInParts, Arc<ServedTenant<R, K>>) {
        let NewTenant {
            name,
            named,
            tenant,
        } = self;
        (name, named, tenant)
    }
}

impl<R: Wait + Drop, K: TenantKey> Tenants<R, K> {
    /// None, with where their calls go in.
    pub(crate) fn new(alloc: Global, entrances: Arc<Entrances<R>>) -> Mem<Tenants<R, K>> {
        Ok(Tenants {
            entrances,
            served: ShardedLock::new(alloc, IndexMap::new(alloc))?,
        })
    }

    /// Serves tenants by their keys, each on its terms.
    pub(crate) fn admit_all(
        &self,
        rt: &R,
        alloc: Global,
        keys: Vec<K>,
        terms: &[TenantTerms],
    ) -> Mem<()> {
        for (place, key) in keys.into_iter().enumerate() {
            let own = terms.get(place).copied().unwrap_or(TenantTerms::DEFAULT);
            let new = self.prepare(rt, alloc, key.number(), key.name(), own)?;
            self.admit(rt, new, key);
        }
        Ok(())
    }

    /// The tenant of that name.
    pub fn named(&self, rt: &R, shard: usize, name: &[u8]) -> Option<Arc<ServedTenant<R, K>>> {
        let tenant = self.entrances.named(rt, shard, name).ok()??;
        self.numbered(rt, shard, tenant.number)
    }

    /// The tenant of that number. Threads with different shards don't disturb each other.
    pub(crate) fn numbered(
        &self,
        rt: &R,
        shard: usize,
        number: u64,
    ) -> Option<Arc<ServedTenant<R, K>>> {
        let served = self.served.read(rt, shard);
        Arc::try_clone(served.get(&number)?).ok()
    }

    /// The tenants by their numbers. None comes or goes as long as they are looked at.
    pub(crate) fn by_number(&self, rt: &R, shard: usize) -> ShardedLockReadGuard<'_, Served<R, K>> {
        self.served.read(rt, shard)
    }

    /// Work is due on all tenants.
    pub(crate) fn schedule_all(&self, rt: &R, shard: usize, work: Work) {
        let served = self.served.read(rt, shard);
        for tenant in served.values() {
            self.entrances.schedule(rt, &tenant.entrance, work);
        }
    }

    /// The tenant at a place, as long as none comes or goes.
    pub(crate) fn at(&self, rt: &R, shard: usize, place: usize) -> Option<Arc<ServedTenant<R, K>>> {
        let served = self.served.read(rt, shard);
        let (_, tenant) = served.get_index(place)?;
        Arc::try_clone(tenant).ok()
    }

    /// Ends all watches that are open, since the server ends.
    pub fn end_watches(&self, rt: &R, shard: usize) {
        for place in 0..MAX_TENANTS {
            let Some(tenant) = self.at(rt, shard, place) else {
                break;
            };
            tenant.clients.lock(rt).watches.clear();
        }
    }

    /// Takes all memory that a tenant of that number and name needs, which is served on these terms.
    pub fn prepare(
        &self,
        rt: &R,
        alloc: Global,
        number: u64,
        name: &[u8],
        terms: TenantTerms,
    ) -> Mem<NewTenant<R, K>> {
        self.entrances.make_room(rt)?;
        self.served.write(rt).reserve(1)?;
        let turns = self.entrances.turns_of(number)?;
        let tenant = ServedTenant::new(alloc, number, turns, terms)?;
        Ok(NewTenant {
            tenant: Arc::new(alloc, tenant)?,
            named: NamedInParts::new(alloc, name, number)?,
            name: Vec::from_slice(alloc, name)?,
        })
    }

    /// Serves a new tenant, which has this key; a key of another number opens nothing.
    pub fn admit(&self, rt: &R, new: NewTenant<R, K>, key: K) {
        let (name, named, tenant) = new.into_parts();
        let number = tenant.number();
        if key.number() != number {
            return;
        }
        tenant.clients.lock(rt).key = Some(key);
        // There is room for both.
        if let Ok(entrance) = Arc::try_clone(&tenant.entrance) {
            let _ = self.served.write(rt).insert(number, tenant);
            let _ = self.entrances.insert(rt, name, named, entrance);
        }
    }
}

impl<R: Wait + Clock + Copy + Drop, K: TenantKey> Tenants<R, K> {
    /// Serves a tenant no more that was removed. It waits until the turn that somebody may have there has ended.
    pub fn retire(&self, rt: &R, alloc: Global, shard: usize, name: &[u8]) {
        let Some(number) = self.entrances.remove(rt, name) else {
            return;
        };
        let Some(tenant) = self.numbered(rt, shard, number) else {
            return;
        };
        Scheduler::retire(rt, tenant.turns());
        tenant.clients.lock(rt).end();
        tenant.entrance.queue.close(rt, alloc);
        let _ = self.served.write(rt).swap_remove(&number);
    }
}
