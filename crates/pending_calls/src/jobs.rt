//! Where the calls of a thread's connections wait: each in its tenant's queue.
ghost use Rattle.std.specs.Prelude.{◌≡◌, IfOk, IfSome};
ghost use Rattle.fair_turns.specs.Answers.{Refuses};
ghost use Rattle.pending_calls.specs.Requests.{IsReadAs};

use crate::entrances::{Entrance, Entrances};
use crate::job_queue::Job;
use crate::request::{NamedTenant, Route};
use crate::told::{Told, Unanswered};
use crate::unserved::Unserved;
use etcd_types::{Mem, Refusal, Step};
use fair_turns::{BodyShare, SHORT, Stopwatch};
use std::alloc::Global;
use std::rt::Clock;
use std::sync::{Arc, Wait};

/// The queues of all tenants, as the connections of one thread find them.
pub struct Jobs<R: Wait + Drop> {
    entrances: Arc<Entrances<R>>,
    /// The part of the directory that is read here.
    shard: usize,
}

impl<R: Wait + Drop> Drop for Jobs<R> {
    fn drop(self) {
        let Jobs {
            entrances: _,
            shard: _,
        } = self;
    }
}

impl<R: Wait + Drop> Jobs<R> {
    /// For connections without an event loop.
    pub fn new(entrances: Arc<Entrances<R>>) -> Jobs<R> {
        Jobs {
            entrances,
            shard: 0,
        }
    }

    /// The tenant of that name.
    pub fn tenant(&self, rt: &R, name: &[u8]) -> Mem<Option<Arc<NamedTenant>>>
        ensures { IfOk result (λ found. IfSome found (λ tenant. tenant.value.name.items ≡ name.now)) }
    {
        self.entrances.named(rt, self.shard, name)
    }

    /// The entrance of a tenant; none if it was removed, or where there is no memory to share it.
    fn entrance(&self, rt: &R, tenant: &NamedTenant) -> Option<Arc<Entrance<R>>> {
        self.entrances.numbered(rt, self.shard, tenant.number).ok()?
    }

    /// The share of a tenant's budget for a body of so many bytes at the most.
    pub fn body_share(&self, rt: &R, tenant: &NamedTenant, bytes: usize) -> BodyShare {
        if bytes <= SHORT {
            return BodyShare::None;
        }
        let Some(entrance) = self.entrance(rt, tenant) else {
            return BodyShare::None;
        };
        match entrance.budget.promise(bytes) {
            Some(awaited) => BodyShare::Awaited(awaited),
            None => BodyShare::None,
        }
    }

    /// What a call is told that is refused before it goes in, by a body of so many bytes; the call is counted.
    pub fn refused(
        &self,
        rt: &R,
        alloc: Global,
        unanswered: Unanswered,
        route: &Route,
        length: usize,
        refusal: Refusal,
    ) -> Told<R>
        ensures { Refuses refusal result.answer }
    {
        let told = unanswered.refused(alloc, refusal);
        if let Some(entrance) = self.entrance(rt, &*route.tenant) {
            let counts = entrance.counts.part(self.shard);
            counts.add(route.call, length, told.answer());
        }
        told
    }

    /// The same for another connection; none where there is no memory.
    pub fn share(&self) -> Option<Jobs<R>> {
        self.of_loop(self.shard)
    }

    /// The same for the connections of the event loop of that number; none where there is no memory.
    pub fn of_loop(&self, number: usize) -> Option<Jobs<R>> {
        Some(Jobs {
            entrances: Arc::try_clone(&self.entrances).ok()?,
            shard: number,
        })
    }
}

impl<R: Wait + Clock + Drop> Jobs<R> {
    /// Leaves a request in its tenant's queue; its step is none where a worker has to read it.
    pub fn queue(&self, rt: &R, alloc: Global, unserved: Unserved<R>, step: Option<Step>)
        requires { IsReadAs unserved.request.value step }
    {
        let job = Job {
            unserved,
            step,
            waiting: Stopwatch::start(rt),
        };
        self.entrances.queue(rt, alloc, self.shard, job);
    }
}
