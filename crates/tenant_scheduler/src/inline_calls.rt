//! Brief calls, which an event loop serves itself.
//!
//! A call that goes to a worker wakes two threads, which takes longer than a brief call does. So an event loop takes the
//! turn on the tenant, if nobody has it, and answers, as soon as the call's body is read. What may take long is left to the
//! workers: a loop has many connections, which wait meanwhile.
ghost use Rattle.pending_calls.specs.Outcomes.{IsServed};
ghost use Rattle.tenant_scheduler.specs.Outcomes.{IsOutcome};

use crate::caller::Caller;
use crate::clients::Clients;
use crate::serving::ServingThread;
use crate::tenants::ServedTenant;
use etcd_types::{Refusal, Step};
use fair_turns::{Scheduler, Stopwatch};
use pending_calls::{BriefRequest, CallServer, Jobs, Request, StepReader, Told};
use std::alloc::Global;
use std::rt::Clock;
use std::sync::atomic::{AtomicBool, Ordering};
use std::sync::{Mutex, Wait};
use tenant_calls::TenantCalls;

/// The longest answer after which a loop goes on with its tenant.
const SHORT_ANSWER: usize = 16_384;

/// How many brief calls of a tenant are left to the workers after a longer one.
const CALLS_LEFT: u32 = 256;

/// An event loop's way to tenants, for the brief calls of all its connections. They take turns at the lock, and since one
/// thread polls them, none ever waits there.
pub struct InlineCalls<R: Wait + Drop, C: TenantCalls> {
    rt: R,
    alloc: Global,
    /// The part of the directory, and of what is counted, for its loop.
    shard: usize,
    /// Where calls wait that are not served here.
    jobs: Jobs<R>,
    thread: Mutex<ServingThread<R, C>>,
    /// What reads the short bodies of its connections, one after another.
    reader: Mutex<StepReader>,
    /// A short body was read in the poll at hand.
    has_read: AtomicBool,
}

impl<R: Wait + Drop, C: TenantCalls> Drop for InlineCalls<R, C> {
    fn drop(self) {
        let InlineCalls {
            rt: _,
            alloc: _,
            shard: _,
            jobs: _,
            thread: _,
            reader: _,
            has_read: _,
        } = self;
    }
}

impl<R: Wait + Clock + Copy + Drop, C: TenantCalls> InlineCalls<R, C> {
    /// That of the event loop of this number; its other calls go in there.
    pub fn new(
        rt: R,
        alloc: Global,
        number: usize,
        jobs: Jobs<R>,
        thread: ServingThread<R, C>,
        reader: StepReader,
    ) -> InlineCalls<R, C> {
        InlineCalls {
            rt,
            alloc,
            shard: number,
            jobs,
            thread: Mutex::new(thread),
            reader: Mutex::new(reader),
            has_read: AtomicBool::new(false),
        }
    }

    /// What the loop called tenants by.
    pub fn into_calls(self) -> C {
        let InlineCalls {
            rt: _,
            alloc: _,
            shard: _,
            jobs: _,
            thread,
            reader: _,
            has_read: _,
        } = self;
        thread.into_inner().into_calls()
    }
}

impl<R: Wait + Clock + Copy + Drop, C: TenantCalls> CallServer<R> for InlineCalls<R, C> {
    fn jobs(&self) -> &Jobs<R> {
        &self.jobs
    }

    fn beat(&self) {
        self.thread.lock(&self.rt).beat();
    }

    fn begin_poll(&self) {
        self.has_read.store(false, Ordering::Relaxed);
    }

    fn may_serve(&self) -> bool {
        !self.has_read.load(Ordering::Relaxed)
    }

    fn read(&self, alloc: Global, request: &Request) -> Result<Step, Refusal> {
        self.has_read.store(true, Ordering::Relaxed);
        let mut reader = self.reader.lock(&self.rt);
        request.read_by(alloc, &mut *reader)
    }

    fn serve(&self, brief: BriefRequest) -> Result<Told<R>, BriefRequest> {
        let mut thread = self.thread.lock(&self.rt);
        serve_brief(self.alloc, self.shard, &mut *thread, brief)
    }
}

/// Serves a request if nobody has the turn on its tenant.
fn serve_brief<R: Wait + Clock + Copy + Drop, C: TenantCalls>(
    alloc: Global,
    shard: usize,
    thread: &mut ServingThread<R, C>,
    brief: BriefRequest,
) -> Result<Told<R>, BriefRequest>
    ensures { IsServed brief result }
{
    let ServingThread {
        rt,
        place: _,
        caller,
        shared,
    } = thread;
    let number = brief.asked.request().tenant().number;
    // The tenant is looked at where it stands: to share it would disturb the other loops.
    let served = shared.tenants().by_number(rt, shard);
    match served.get(&number) {
        Some(tenant) if Scheduler::begin_in_loop(tenant.turns()) => {
            take_turn(rt, alloc, shard, caller, &shared.scheduler, tenant, brief)
        }
        _ => Err(brief),
    }
}

/// Serves a request on its tenant, on which the loop has the turn; it is left where the tenant's answers were long lately.
fn take_turn<R: Wait + Clock + Copy + Drop, C: TenantCalls>(
    rt: &R,
    alloc: Global,
    shard: usize,
    caller: &mut Caller<R, C>,
    scheduler: &Scheduler,
    tenant: &ServedTenant<R, C::Key>,
    brief: BriefRequest,
) -> Result<Told<R>, BriefRequest>
    ensures { IsServed brief result }
{
    let stopwatch = Stopwatch::start(rt);
    let request = brief.asked.request();
    let (call, length) = (request.route.call, request.len());
    let mut clients = tenant.clients.lock(rt);
    let outcome = answer(alloc, caller, &mut *clients, brief);
    if call.may_give() {
        clients.schedule_takes(rt, scheduler, tenant.turns());
    }
    drop(clients);
    scheduler.finish_in_loop(rt, tenant.turns());
    let counts = tenant.counts().part(shard);
    counts.turns().add(stopwatch.passed(rt));
    if let Ok(told) = &outcome {
        counts.add(call, length, told.answer());
    }
    outcome
}

/// What a tenant answers, unless its answers were long lately: then the request is left.
fn answer<R: Wait + Clock + Drop, C: TenantCalls>(
    alloc: Global,
    caller: &mut Caller<R, C>,
    clients: &mut Clients<C::Key>,
    brief: BriefRequest,
) -> Result<Told<R>, BriefRequest>
    ensures served { IsServed brief result }
    ensures made { IsOutcome C.Key.number_of C.Key.name_of C.gives brief result (C.made caller.old.calls) (C.made caller.new.calls) }
{
    if clients.left_to_workers > 0 {
        clients.left_to_workers -= 1;
        return Err(brief);
    }
    let BriefRequest { asked, step } = brief;
    let told = caller.answer_at_once(alloc, clients, asked, step);
    if told.answer().len() > SHORT_ANSWER {
        clients.left_to_workers = CALLS_LEFT;
    }
    Ok(told)
}
