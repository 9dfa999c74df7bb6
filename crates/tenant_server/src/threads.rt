//! The threads of the server: the event loops, and those that serve tenants beside them.
ghost use Rattle.std.specs.Prelude.{◌≡◌, ◌+◌, ◌-◌};
ghost use Rattle.tenant_server.specs.Threads.{are_too_few};

use crate::arrivals::Arrivals;
use crate::connections::{SocketLoop, serve_connections};
use crate::fault::ServeFault;
use fair_turns::BESIDE_WORKERS;
use pending_calls::Jobs;
use std::alloc::{AllocGlobal, Global};
use std::random::RandomSource;
use std::sync::{Arc, Wait};
use std::thread;
use std::thread::{JoinHandle, SpawnError, Threads};
use std::time::Clock;
use tenant_calls::TenantCalls;
use tenant_scheduler::{Service, ServingThread, Shared};

/// How many of so many threads are workers, beside so many loops.
pub(crate) fn workers_of(threads: usize, loops: usize) -> usize
    ensures { result ≡ threads - (loops + BESIDE_WORKERS) }
{
    threads.saturating_sub(loops.saturating_add(BESIDE_WORKERS))
}

/// Whether so many threads, beside so many loops, leave fewer workers than are wanted, or none.
pub(crate) fn are_too_few(threads: usize, loops: usize, wanted: usize) -> bool
    ensures { result ≡ are_too_few threads loops wanted }
{
    workers_of(threads, loops) < wanted.max(1)
}

/// What serving leaves.
#[derive(Drop)]
pub struct Ended<C> {
    /// How many connections were accepted, up to 4,294,967,295.
    pub connections: u32,
    /// What the threads called tenants by.
    pub calls: Vec<C>,
}

/// Runs a function that brings connections, or their calls, and says how many; they are served by a thread for each way
/// to call tenants: the clock, the pump, the catch-up worker, the event loops that are given, and workers. It gives these
/// ways back. Where connections are accepted beside it, the function does other work until the loops have ended.
pub(crate) fn run_threads<R, C, B>(
    rt: R,
    opened: (Jobs<R>, Arc<Shared<R, C::Key>>),
    calls: Vec<C>,
    loops: Vec<SocketLoop>,
    beside: Option<Arrivals<R, C::Key>>,
    bring: B,
) -> Result<Ended<C>, ServeFault>
where
    R: Wait + Threads + Clock + RandomSource + AllocGlobal + Copy + Drop + Send + Sync + 'static,
    C: TenantCalls + Send,
    C::Key: Send,
    C::Hint: Send,
    C::Receipt: Send,
    B: FnOnce(Jobs<R>) -> Result<u32, ServeFault> + Drop,
    requires { B.IsAlwaysCallable bring }
{
    let alloc = rt.alloc();
    let roles = calls.len();
    let mut loops = loops;
    let (jobs, shared) = opened;
    thread::scope(
        thread::scope_env(),
        &rt,
        |scope|
            requires brings { B.IsAlwaysCallable bring }
        {
            let mut group = ThreadGroup::new(alloc);
            for (place, own_calls) in calls.into_iter().enumerate() {
                let Ok(own) = Arc::try_clone(&shared) else {
                    break;
                };
                let Some(role) = Role::at(place, &mut loops, &jobs) else {
                    break;
                };
                let ends = role.ends();
                let thread = ServingThread::new(rt, place, own_calls, own);
                let made = scope.spawn(move || serve(rt, alloc, role, thread));
                if !group.keep(ends, made) {
                    break;
                }
            }
            let mut is_whole = group.is_whole(roles) && loops.is_empty();
            let mut acceptor = None;
            if let Some(arrivals) = beside {
                if is_whole {
                    acceptor = scope.spawn(move || arrivals.accept(rt)).ok();
                } else {
                    drop(arrivals);
                }
                is_whole = acceptor.is_some();
            }
            let brought = if is_whole {
                bring(jobs)
            } else {
                drop(jobs);
                drop(bring);
                Err(ServeFault::Memory)
            };
            let accepted = match acceptor {
                Some(thread) => thread.join(&rt),
                None => Ok(0),
            };
            let (mut calls, served) = group.join(&rt, alloc, &shared, roles);
            let connections = brought?.saturating_add(accepted?);
            served?;
            free_slots(rt, shared, &mut calls);
            Ok(Ended { connections, calls })
        },
    )
}

/// What a thread called tenants by, which it gives back unless a connection still has it, and how its work ended.
pub(crate) type ThreadEnd<C> = (Option<C>, Result<(), ServeFault>);

/// When a thread ends.
#[derive(Clone, Copy)]
enum Ends {
    /// With its last connection.
    WithConnections,
    /// When there are no more turns.
    WithTurns,
}

/// The threads that are at work.
#[derive(Drop)]
struct ThreadGroup<C> {
    loops: Vec<JoinHandle<ThreadEnd<C>>>,
    others: Vec<JoinHandle<ThreadEnd<C>>>,
}

impl<C: TenantCalls> ThreadGroup<C> {
    fn new(alloc: Global) -> ThreadGroup<C> {
        ThreadGroup {
            loops: Vec::new(alloc),
            others: Vec::new(alloc),
        }
    }

    /// Keeps a thread that could be made.
    fn keep<F: Drop>(
        &mut self,
        ends: Ends,
        made: Result<JoinHandle<ThreadEnd<C>>, SpawnError<F>>,
    ) -> bool {
        match (made, ends) {
            (Ok(thread), Ends::WithConnections) => self.loops.push(thread).is_ok(),
            (Ok(thread), Ends::WithTurns) => self.others.push(thread).is_ok(),
            (Err(_), _) => false,
        }
    }

    /// Waits for the event loops, ends the turns, and waits for the others. It gives back what they called tenants by, and
    /// how the loops ended.
    fn join<R: Threads + Wait + Clock + Copy + Drop>(
        self,
        rt: &R,
        alloc: Global,
        shared: &Shared<R, C::Key>,
        roles: usize,
    ) -> (Vec<C>, Result<(), ServeFault>) {
        let ThreadGroup { loops, others } = self;
        let mut calls = Vec::new(alloc);
        let mut served = Ok(());
        for thread in loops {
            let (own, end) = thread.join(rt);
            keep(&mut calls, own);
            served = served.and(end);
        }
        shared.stop(rt, roles);
        for thread in others {
            let (own, _) = thread.join(rt);
            keep(&mut calls, own);
        }
        (calls, served)
    }

    /// There is a thread for each role.
    fn is_whole(&self, roles: usize) -> bool {
        self.loops.len().saturating_add(self.others.len()) == roles
    }
}

/// One more thread's way to call tenants is given back.
fn keep<C: Drop>(calls: &mut Vec<C>, own: Option<C>) {
    if let Some(own) = own {
        let _ = calls.push(own);
    }
}

/// What a thread does.
#[derive(Drop)]
enum Role<R: Wait + Drop> {
    Loop(SocketLoop, Jobs<R>),
    Service(Service),
}

impl<R: Wait + Drop> Role<R> {
    /// The role of the thread at a place; behind the first three come the event loops. None where there is no memory.
    fn at(place: usize, loops: &mut Vec<SocketLoop>, jobs: &Jobs<R>) -> Option<Role<R>> {
        if place >= BESIDE_WORKERS
            && let Some(own) = loops.pop()
        {
            let jobs = jobs.of_loop(own.number())?;
            return Some(Role::Loop(own, jobs));
        }
        Some(Role::Service(Service::at(place)))
    }

    fn ends(&self) -> Ends {
        match self {
            Role::Loop(_, _) => Ends::WithConnections,
            Role::Service(_) => Ends::WithTurns,
        }
    }
}

/// A thread's work, until there are no more turns or connections.
fn serve<R, C>(rt: R, alloc: Global, role: Role<R>, thread: ServingThread<R, C>) -> ThreadEnd<C>
where
    R: Wait + Clock + RandomSource + AllocGlobal + Copy + Drop,
    C: TenantCalls,
{
    match role {
        Role::Loop(own, jobs) => serve_connections(rt, alloc, own, jobs, thread),
        Role::Service(service) => {
            let mut thread = thread;
            service.run(alloc, &mut thread);
            (Some(thread.into_calls()), Ok(()))
        }
    }
}

/// Frees the slots of watches that ended after the pump did, by what one of the threads called tenants by.
fn free_slots<R, C>(rt: R, shared: Arc<Shared<R, C::Key>>, calls: &mut Vec<C>)
where
    R: Wait + Clock + Copy + Drop,
    C: TenantCalls,
{
    let Some(own) = calls.pop() else {
        return;
    };
    let mut thread = ServingThread::new(rt, 0, own, shared);
    thread.free_slots();
    let _ = calls.push(thread.into_calls());
}
