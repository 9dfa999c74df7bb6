//! The requests of one tenant that wait for a worker.
//!
//! Each connection has one call under way, so no more wait than the tenant has connections, but for those whose clients have
//! gone meanwhile. These are let go whenever the queue has grown to twice what was left of it: so they never are more than the
//! others, or than a few hundred.
ghost use Rattle.tenant_calls.specs.Answers.{IsUncalled};
ghost use Rattle.pending_calls.specs.Requests.{IsReadAs};

use crate::unserved::{JobAnswer, Unserved};
use etcd_types::{Refusal, Step};
use fair_turns::Stopwatch;
use std::alloc::Global;
use std::collections::VecDeque;
use std::sync::{Mutex, Wait};

/// How many jobs may wait before those are looked for whose clients have gone.
const FEW: usize = 256;

/// A request that waits for a worker.
#[derive(Drop)]
pub struct Job<R: Wait + Drop> {
    /// The request.
    pub unserved: Unserved<R>,
    /// The step that its body is read as; none where a worker has to read it.
    pub step: Option<Step>,
    /// Since it was left in the queue.
    pub waiting: Stopwatch,
    pub ghost asked: { IsReadAs unserved.request.value step },
}

impl<R: Wait + Drop> Job<R> {
    /// It is not served, since its tenant was removed or there is no memory.
    pub fn refused(self, alloc: Global, refusal: Refusal) -> JobAnswer<R>
        requires { IsUncalled refusal }
    {
        let Job {
            unserved,
            step: _,
            waiting: _,
        } = self;
        unserved.refused(alloc, refusal)
    }
}

/// The jobs of a tenant, for who hands some in and for who has the turn there.
#[derive(Drop)]
pub struct JobQueue<R: Wait + Drop> {
    waiting: Mutex<Waiting<R>>,
}

#[derive(Drop)]
struct Waiting<R: Wait + Drop> {
    jobs: VecDeque<Box<Job<R>>>,
    /// At how many jobs those are looked for whose clients have gone.
    crowd: usize,
    is_closed: bool,
}

/// A job that can't wait.
#[derive(Drop)]
enum Unqueued<R: Wait + Drop> {
    /// The tenant was removed.
    Closed(Box<Job<R>>),
    OutOfMemory(Box<Job<R>>),
}

impl<R: Wait + Drop> Waiting<R> {
    fn push(&mut self, job: Box<Job<R>>) -> Result<(), Unqueued<R>> {
        if self.is_closed {
            return Err(Unqueued::Closed(job));
        }
        if self.jobs.len() >= self.crowd {
            self.jobs.retain(|job| job.unserved.is_awaited());
            self.crowd = self.jobs.len().saturating_mul(2).max(FEW);
        }
        match self.jobs.push_back(job) {
            Ok(()) => Ok(()),
            Err(failed) => Err(Unqueued::OutOfMemory(failed.value)),
        }
    }
}

impl<R: Wait + Drop> JobQueue<R> {
    /// None waits.
    pub fn new(alloc: Global) -> JobQueue<R> {
        let waiting = Waiting {
            jobs: VecDeque::new(alloc),
            crowd: FEW,
            is_closed: false,
        };
        JobQueue {
            waiting: Mutex::new(waiting),
        }
    }

    /// Leaves a job behind the others. It is refused if the tenant was removed, and else only for want of memory.
    pub fn push(&self, rt: &R, alloc: Global, job: Job<R>) -> Result<(), JobAnswer<R>> {
        let job = match Box::new(alloc, job) {
            Ok(job) => job,
            Err(failed) => return Err(failed.value.refused(alloc, Refusal::Memory)),
        };
        let pushed = self.waiting.lock(rt).push(job);
        match pushed {
            Ok(()) => Ok(()),
            Err(Unqueued::Closed(job)) => {
                Err(Box::into_inner(job).refused(alloc, Refusal::NoTenant))
            }
            Err(Unqueued::OutOfMemory(job)) => {
                Err(Box::into_inner(job).refused(alloc, Refusal::Memory))
            }
        }
    }

    /// The job that has waited for longest.
    pub fn pop(&self, rt: &R) -> Option<Job<R>> {
        let job = self.waiting.lock(rt).jobs.pop_front()?;
        Some(Box::into_inner(job))
    }

    /// The tenant was removed: no job comes any more, and those that wait are answered that it is not there.
    pub fn close(&self, rt: &R, alloc: Global) {
        self.waiting.lock(rt).is_closed = true;
        for _ in 0..u64::MAX {
            let Some(job) = self.pop(rt) else {
                return;
            };
            job.refused(alloc, Refusal::NoTenant).send();
        }
    }
}
