//! Where the calls of each tenant go in: found by the tenant's name once, and then by its number.
//!
//! It knows no tenant's key: what connections hold reaches queues alone.
ghost use Rattle.std.specs.Prelude.{◌≡◌, IfOk, IfSome};

use crate::job_queue::{Job, JobQueue};
use crate::request::NamedTenant;
use crossbeam_utils::sync::ShardedLock;
use etcd_types::{Mem, Refusal};
use fair_turns::{Budget, PARTS, Scheduler, TenantCounts, TenantTurns, Work};
use indexmap::IndexMap;
use std::alloc::Global;
use std::sync::{Arc, Wait};

/// Where the calls of a tenant go in.
#[derive(Drop)]
pub struct Entrance<R: Wait + Drop> {
    /// The tenant's number.
    pub number: u64,
    /// Whose turn it is there.
    pub turns: Arc<TenantTurns>,
    /// The calls that wait there for a worker.
    pub queue: JobQueue<R>,
    /// What its clients may have under way.
    pub budget: Budget,
    /// What is counted of it.
    pub counts: Arc<TenantCounts>,
}

impl<R: Wait + Drop> Entrance<R> {
    /// That of the tenant of this number with these turns and so large a budget, of which nothing waits.
    pub fn new(alloc: Global, number: u64, turns: TenantTurns, budget: usize) -> Mem<Entrance<R>> {
        Ok(Entrance {
            number,
            turns: Arc::new(alloc, turns)?,
            queue: JobQueue::new(alloc),
            budget: Budget::new(alloc, budget)?,
            counts: Arc::new(alloc, TenantCounts::new())?,
        })
    }
}

/// A tenant as requests name it, for each part of a directory: so event loops don't take turns on the count of its shares.
#[derive(Drop)]
pub struct NamedInParts {
    parts: Vec<Arc<NamedTenant>>,
}

impl NamedInParts {
    /// The tenant of that name and number.
    pub fn new(alloc: Global, name: &[u8], number: u64) -> Mem<NamedInParts> {
        let mut parts = Vec::new(alloc);
        parts.reserve_exact(PARTS)?;
        for _ in 0..PARTS {
            let name = Vec::from_slice(alloc, name)?;
            parts.push(Arc::new(alloc, NamedTenant { name, number })?)?;
        }
        Ok(NamedInParts { parts })
    }

    /// The tenant for a request that names it so, read in this part of the directory.
    fn named(&self, part: usize, name: &[u8]) -> Mem<Option<Arc<NamedTenant>>>
        ensures { IfOk result (λ found. IfSome found (λ tenant. tenant.value.name.items ≡ name.now)) }
    {
        // What lies under a lock is known by its type alone.
        match self.parts.get(part % PARTS) {
            Some(tenant) if tenant.name.as_slice() == name => Ok(Some(Arc::try_clone(tenant)?)),
            _ => Ok(None),
        }
    }

    fn number(&self) -> Option<u64> {
        let tenant = self.parts.first()?;
        Some(tenant.number)
    }
}

/// The tenants by their names, and their entrances by their numbers.
#[derive(Drop)]
struct Directory<R: Wait + Drop> {
    tenants: IndexMap<Vec<u8>, NamedInParts>,
    entrances: IndexMap<u64, Arc<Entrance<R>>>,
}

/// The entrances of all tenants. They are read by every call, and written where a tenant comes or goes.
pub struct Entrances<R: Wait + Drop> {
    scheduler: Arc<Scheduler>,
    directory: ShardedLock<Directory<R>>,
}

impl<R: Wait + Drop> Drop for Entrances<R> {
    fn drop(self) {
        let Entrances {
            scheduler: _,
            directory: _,
        } = self;
    }
}

impl<R: Wait + Drop> Entrances<R> {
    /// None, with the scheduler of their turns.
    pub fn new(alloc: Global, scheduler: Arc<Scheduler>) -> Mem<Entrances<R>> {
        let directory = Directory {
            tenants: IndexMap::new(alloc),
            entrances: IndexMap::new(alloc),
        };
        Ok(Entrances {
            scheduler,
            directory: ShardedLock::new(alloc, directory)?,
        })
    }

    /// The tenant of that name. Threads with different shards don't disturb each other.
    pub fn named(&self, rt: &R, shard: usize, name: &[u8]) -> Mem<Option<Arc<NamedTenant>>>
        ensures { IfOk result (λ found. IfSome found (λ tenant. tenant.value.name.items ≡ name.now)) }
    {
        let directory = self.directory.read(rt, shard);
        match directory.tenants.get(name) {
            Some(tenant) => tenant.named(shard, name),
            None => Ok(None),
        }
    }

    /// The entrance of the tenant of that number, unless it was removed.
    pub fn numbered(&self, rt: &R, shard: usize, number: u64) -> Mem<Option<Arc<Entrance<R>>>>
        ensures { IfOk result (λ found. IfSome found (λ entrance. entrance.value.number ≡ number)) }
    {
        let directory = self.directory.read(rt, shard);
        match directory.entrances.get(&number) {
            Some(entrance) if entrance.number == number => { Ok(Some(Arc::try_clone(entrance)?)) }
            _ => Ok(None),
        }
    }

    /// Leaves a job in its tenant's queue, and has a worker serve it. It is refused if the tenant was removed, and else
    /// only for want of memory.
    pub fn queue(&self, rt: &R, alloc: Global, shard: usize, job: Job<R>) {
        let pushed = match self.numbered(rt, shard, job.unserved.request().tenant().number) {
            Ok(Some(entrance)) => {
                let pushed = entrance.queue.push(rt, alloc, job);
                if pushed.is_ok() {
                    self.schedule(rt, &entrance, Work::Jobs);
                }
                pushed
            }
            Ok(None) => Err(job.refused(alloc, Refusal::NoTenant)),
            Err(_) => Err(job.refused(alloc, Refusal::Memory)),
        };
        if let Err(refused) = pushed {
            refused.send();
        }
    }

    /// The turns of a new tenant that has this number.
    pub fn turns_of(&self, number: u64) -> Mem<TenantTurns> {
        self.scheduler.turns_of(number)
    }

    /// Work is due on a tenant.
    pub fn schedule(&self, rt: &R, entrance: &Entrance<R>, work: Work) {
        self.scheduler.schedule(rt, &entrance.turns, work);
    }

    /// Takes the memory that one more tenant needs here.
    pub fn make_room(&self, rt: &R) -> Mem<()> {
        let mut directory = self.directory.write(rt);
        directory.tenants.reserve(1)?;
        directory.entrances.reserve(1)
    }

    /// Takes a tenant in; where there is room for it, that takes no memory.
    pub fn insert(
        &self,
        rt: &R,
        name: Vec<u8>,
        named: NamedInParts,
        entrance: Arc<Entrance<R>>,
    ) -> Mem<()> {
        let mut directory = self.directory.write(rt);
        directory.entrances.insert(entrance.number, entrance)?;
        directory.tenants.insert(name, named)?;
        Ok(())
    }

    /// Takes a tenant out, and tells its number.
    pub fn remove(&self, rt: &R, name: &[u8]) -> Option<u64> {
        let mut directory = self.directory.write(rt);
        let number = directory.tenants.shift_remove(name)?.number()?;
        let _ = directory.entrances.swap_remove(&number);
        Some(number)
    }
}
