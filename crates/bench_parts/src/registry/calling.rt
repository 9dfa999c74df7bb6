//! One run: some threads, each with a seat, make their calls.
use crate::registry::tenants::{Asked, NAMES, opened};
use anyhow::{Result, bail};
use etcd_types::Step;
use std::alloc::Global;
use std::rt::Clock;
use std::sync::Wait;
use std::thread::{self, Threads};
use std::time::{Duration, Instant};
use tenant_registry::{OpenGate, Registry, Seat};

/// Calls of each thread.
pub(crate) const CALLS: u32 = 20_000;

/// The tenants that the threads call.
#[derive(Clone, Copy)]
pub(crate) enum Spread {
    /// Each its own.
    Apart,
    /// All the first.
    Together,
}

impl Spread {
    /// The tenant of the thread that may have this one for itself.
    fn tenant(self, own: &'static [u8]) -> &'static [u8] {
        match self {
            Spread::Apart => own,
            Spread::Together => NAMES[0],
        }
    }
}

/// A thread's seat, and the tenant that it calls.
#[derive(Drop)]
struct Caller {
    seat: Seat,
    tenant: &'static [u8],
}

/// How long so many threads, four at most, take for their calls, by the clock on the wall. The registry is
/// made for this run, and each tenant has the key before it begins.
pub(crate) fn time_of_run<R: Threads + Wait + Clock + Sync>(
    rt: &R,
    alloc: Global,
    asked: Asked,
    spread: Spread,
    threads: usize,
) -> Result<Duration> {
    let mut registry = opened(alloc)?;
    let callers = callers_of(rt, alloc, &mut registry, spread, threads)?;
    time_of_calls(rt, alloc, &registry, callers, asked)
}

/// How long a thread for each caller takes for its calls.
fn time_of_calls<R: Threads + Wait + Clock + Sync>(
    rt: &R,
    alloc: Global,
    registry: &Registry,
    callers: Vec<Caller>,
    asked: Asked,
) -> Result<Duration> {
    let begin = Instant::now(rt)?;
    let told = thread::map_vec(
        rt,
        callers,
        &|caller| { make_calls(rt, alloc, registry, caller, asked) },
    )?;
    let spent = begin.elapsed(rt)?;
    if told.iter().any(|all| !*all) {
        bail!("a call is refused");
    }
    Ok(spent)
}

/// The threads' seats. Each has made its tenant's first put.
fn callers_of<R: Wait + Clock>(
    rt: &R,
    alloc: Global,
    registry: &mut Registry,
    spread: Spread,
    threads: usize,
) -> Result<Vec<Caller>> {
    let mut callers = Vec::new(alloc);
    for name in NAMES.iter().take(threads) {
        callers.push(caller_of(rt, alloc, registry, spread.tenant(name))?)?;
    }
    Ok(callers)
}

/// A thread that calls a tenant, whose first put it has made.
fn caller_of<R: Wait + Clock>(
    rt: &R,
    alloc: Global,
    registry: &mut Registry,
    tenant: &'static [u8],
) -> Result<Caller> {
    let Ok(seat) = registry.seat() else {
        bail!("no seat is left");
    };
    let mut caller = Caller { seat, tenant };
    if !is_answered(rt, alloc, registry, &mut caller, Asked::Put) {
        bail!("a put is refused");
    }
    Ok(caller)
}

/// Makes the calls of a thread. All are answered.
fn make_calls<R: Wait + Clock>(
    rt: &R,
    alloc: Global,
    registry: &Registry,
    mut caller: Caller,
    asked: Asked,
) -> bool {
    for _ in 0..CALLS {
        if !is_answered(rt, alloc, registry, &mut caller, asked) {
            return false;
        }
    }
    true
}

/// Makes a call, and says whether its status is 200.
fn is_answered<R: Wait + Clock>(
    rt: &R,
    alloc: Global,
    registry: &Registry,
    caller: &mut Caller,
    asked: Asked,
) -> bool {
    let Ok(step) = asked.step(alloc) else {
        return false;
    };
    is_done(rt, registry, &mut caller.seat, caller.tenant, step)
}

/// Whether the status of a call is 200. It stands by itself, since what a call promises is long.
fn is_done<R: Wait + Clock>(
    rt: &R,
    registry: &Registry,
    seat: &mut Seat,
    tenant: &[u8],
    step: Step,
) -> bool {
    match registry.call(rt, seat, &OpenGate, tenant, step) {
        Ok(receipt) => receipt.status() == 200,
        Err(_) => false,
    }
}
