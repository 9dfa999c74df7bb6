//! The workers: the calls of clients.
ghost use Rattle.std.specs.Prelude.{◌≡◌, ◌<◌, length, vec_capacity, IfErr, IfOk};
ghost use Rattle.tenant_scheduler.specs.Makes.{IsMadeAfterTakes, IsOpened, IsRequestMade};
ghost use Rattle.pending_calls.specs.Requests.{IsReadAs, IsStepOf, IsUnread};

use crate::caller::Caller;
use crate::clients::Clients;
use crate::pump::{serve_takes, take_all};
use crate::serving::ServingThread;
use crate::shared::SHARD;
use crate::tenants::ServedTenant;
use crossbeam_channel::Receiver;
use etcd_types::{Mem, Refusal, Step};
use fair_turns::{Scheduler, Stopwatch, Turn, WatchEnds, Work};
use pending_calls::{Job, JobAnswer, Request, Unserved};
use std::alloc::Global;
use std::rt::Clock;
use std::sync::{Arc, Wait};
use tenant_calls::TenantCalls;

/// How many jobs of a tenant are served in one turn.
const JOBS_A_TURN: usize = 8;

/// How many bytes end a turn, of bodies that a worker reads and of answers: a few large ones take as long as many
/// small ones.
const BYTES_A_TURN: usize = 65_536;

/// After how many milliseconds a turn ends, once the job at hand is served.
const MILLIS_A_TURN: u64 = 2;

/// How often a worker goes on with a tenant whose takes are long, where no other tenant waits for a worker. Each take would wake
/// another thread else, which begins with a whole slice of a processor: who is woken there meanwhile waits for its end.
const LONG_TAKES_A_TURN: u32 = 8;

/// Serves a few jobs of each tenant whose turn it is, until there are no more turns.
pub(crate) fn work<R: Wait + Clock + Copy + Drop, C: TenantCalls>(
    alloc: Global,
    thread: &mut ServingThread<R, C>,
) {
    let ServingThread {
        rt,
        place,
        caller,
        shared,
    } = thread;
    let (rt, place) = (*rt, *place);
    for _ in rt.forever() {
        let Some(tenant) = shared.next_turn(&rt, place, &shared.turns.workers) else {
            break;
        };
        let Some(tenant) = shared.begin_turn(&rt, tenant) else {
            continue;
        };
        let turn = WorkerTurn {
            rt,
            alloc,
            scheduler: &shared.scheduler,
            others: &shared.turns.workers,
            tenant: &tenant,
        };
        turn.run(caller);
    }
}

/// A worker's turn on a tenant.
#[derive(Clone, Copy)]
struct WorkerTurn<'s, 't, R: Wait + Drop, C: TenantCalls> {
    rt: R,
    alloc: Global,
    scheduler: &'s Arc<Scheduler>,
    /// The turns of the tenants that wait for a worker.
    others: &'s Receiver<Turn>,
    tenant: &'t ServedTenant<R, C::Key>,
}

impl<R: Wait + Clock + Copy + Drop, C: TenantCalls> WorkerTurn<'_, '_, R, C> {
    /// Serves a tenant's turn, which goes on to what is due next. A slow tenant may have to wait with it.
    fn run(&self, caller: &mut Caller<R, C>) {
        let mut clients = self.tenant.clients.lock(&self.rt);
        let turns = self.tenant.turns();
        let has_long_takes = clients.takes_left > 0 && Scheduler::are_takes_due(turns);
        let was_slow = clients.is_slow || has_long_takes;
        if was_slow && !self.scheduler.begin_slow(&self.rt, turns) {
            return;
        }
        let stopwatch = Stopwatch::start(&self.rt);
        for _ in 0..LONG_TAKES_A_TURN {
            self.serve_jobs(caller, &mut *clients);
            let has_taken = self.serve_long_takes(caller, &mut *clients);
            if !has_taken || !self.others.is_empty() {
                break;
            }
        }
        clients
            .counts
            .part(SHARD)
            .turns()
            .add(stopwatch.passed(&self.rt));
        clients.is_slow = stopwatch.is_past(&self.rt, MILLIS_A_TURN);
        if was_slow {
            self.scheduler.end_slow(&self.rt);
        }
        drop(clients);
        self.scheduler.finish(&self.rt, turns, Work::Jobs);
    }

    /// Serves the takes of a tenant where they are due and were long lately. It is `false` where they are not.
    fn serve_long_takes(&self, caller: &mut Caller<R, C>, clients: &mut Clients<C::Key>) -> bool {
        let turns = self.tenant.turns();
        let is_due = clients.takes_left > 0 && Scheduler::begins_takes(turns);
        if is_due {
            serve_takes(&self.rt, caller, self.scheduler, turns, clients);
        }
        is_due
    }

    /// Serves a few of a tenant's jobs. If there may be more, the tenant comes again behind the others.
    fn serve_jobs(&self, caller: &mut Caller<R, C>, clients: &mut Clients<C::Key>) {
        let stopwatch = Stopwatch::start(&self.rt);
        let mut bytes = 0usize;
        for _ in 0..JOBS_A_TURN {
            if bytes > BYTES_A_TURN || stopwatch.is_past(&self.rt, MILLIS_A_TURN) {
                break;
            }
            let Some(job) = self.tenant.entrance.queue.pop(&self.rt) else {
                return;
            };
            bytes = bytes.saturating_add(self.serve_job(caller, clients, job));
        }
        self.scheduler
            .schedule(&self.rt, self.tenant.turns(), Work::Jobs);
    }

    /// Serves a job. How many bytes were read and written is told.
    fn serve_job(
        &self,
        caller: &mut Caller<R, C>,
        clients: &mut Clients<C::Key>,
        job: Job<R>,
    ) -> usize {
        let Job {
            unserved,
            step,
            waiting,
        } = job;
        clients
            .counts
            .part(SHARD)
            .waits()
            .add(waiting.passed(&self.rt));
        let (call, length) = (unserved.request().route.call, unserved.request().len());
        let read = if step.is_some() { 0 } else { length };
        let answer = self.answer(caller, clients, unserved, step);
        answer.count(clients.counts.part(SHARD));
        let bytes = read.saturating_add(answer.answer().len());
        answer.send();
        if call.may_give() {
            clients.schedule_takes(&self.rt, self.scheduler, self.tenant.turns());
        }
        bytes
    }

    /// Answers a request, whose step may have been read already.
    fn answer(
        &self,
        caller: &mut Caller<R, C>,
        clients: &mut Clients<C::Key>,
        unserved: Unserved<R>,
        step: Option<Step>,
    ) -> JobAnswer<R>
        requires { IsReadAs unserved.request.value step }
        ensures request { result.own.request ≡ unserved.request }
        ensures made { IsRequestMade C.Key.number_of C.Key.name_of C.gives clients.old.key unserved.request.value result.own.answer
            (C.made caller.old.calls) (C.made caller.new.calls) }
    {
        match self.step_of(clients, unserved.request(), step) {
            Ok(step) => self.serve(caller, clients, unserved, step),
            Err(refusal) => unserved.unread(self.alloc, refusal),
        }
    }

    /// The step of a request, or why there is none.
    fn step_of(
        &self,
        clients: &Clients<C::Key>,
        request: &Request,
        step: Option<Step>,
    ) -> Result<Step, Refusal>
        requires { IsReadAs request.now step }
        ensures step { IfOk result (λ step. IsStepOf request.now step) }
        ensures refused { IfErr result (λ r. IsUnread request.now r) }
    {
        match step {
            Some(step) => Ok(step),
            None => self.read(clients, request),
        }
    }

    /// Answers a request by its step.
    fn serve(
        &self,
        caller: &mut Caller<R, C>,
        clients: &mut Clients<C::Key>,
        unserved: Unserved<R>,
        step: Step,
    ) -> JobAnswer<R>
        requires { IsStepOf unserved.request.value step }
        ensures request { result.own.request ≡ unserved.request }
        ensures made { IsMadeAfterTakes C.Key.number_of C.Key.name_of C.gives clients.old.key
            unserved.request.value.route.tenant.value step result.own.answer (C.made caller.old.calls) (C.made caller.new.calls) }
    {
        match &step {
            Step::Watch(_) => self.open(caller, clients, unserved, step),
            Step::Compact(_) => {
                // A watch with nothing to tell moves on by being taken; else it would be cancelled for what it
                // has only not been asked about.
                if !take_all(caller, clients) {
                    return unserved.refused(self.alloc, Refusal::Memory);
                }
                caller.answer(self.alloc, clients, unserved, step)
            }
            _ => caller.answer(self.alloc, clients, unserved, step),
        }
    }

    /// The step of a long body. It is refused where the tree that is made of it is large, and the tenant's budget has no
    /// room for it.
    fn read(&self, clients: &Clients<C::Key>, request: &Request) -> Result<Step, Refusal>
        ensures step { IfOk result (λ step. IsStepOf request.now step) }
        ensures refused { IfErr result (λ r. IsUnread request.now r) }
    {
        let tree = request.tree();
        if tree.is_small() {
            return request.read(self.alloc);
        }
        let Some(share) = clients.budget.reserve(tree.bytes()) else {
            return Err(Refusal::Memory);
        };
        let step = request.read(self.alloc);
        drop(share);
        step
    }

    /// Creates a watch that stays open. Its memory is taken before.
    fn open(
        &self,
        caller: &mut Caller<R, C>,
        clients: &mut Clients<C::Key>,
        unserved: Unserved<R>,
        step: Step,
    ) -> JobAnswer<R>
        requires { IsStepOf unserved.request.value step }
        ensures request { result.own.request ≡ unserved.request }
        ensures made { IsOpened C.Key.number_of C.Key.name_of C.gives unserved.request.value.route.tenant.value step
            result.own.answer clients.old.watches.items clients.new.watches.items (C.made caller.old.calls) (C.made caller.new.calls) }
    {
        match self.make_room(clients) {
            Ok(ends) => caller.open(self.alloc, clients, unserved, step, ends),
            Err(_) => unserved.refused(self.alloc, Refusal::Memory),
        }
    }

    /// Takes what memory one more watch needs here.
    fn make_room(&self, clients: &mut Clients<C::Key>) -> Mem<WatchEnds<R>>
        ensures room { IfOk result (λ _. length clients.new.watches.items < vec_capacity clients.new.watches) }
        ensures watches { clients.new.watches.items ≡ clients.old.watches.items }
        ensures key { clients.new.key ≡ clients.old.key }
    {
        clients.watches.reserve(1)?;
        WatchEnds::new(self.rt, self.alloc, self.tenant.turns())
    }
}
