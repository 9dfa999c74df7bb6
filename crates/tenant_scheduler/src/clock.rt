//! The clock: a tick a second to each tenant.
mod run_time;
mod running;
mod server_clock;

use crate::caller::Caller;
use crate::serving::ServingThread;
use crate::shared::Shared;
use crate::tenants::ServedTenant;
use crossbeam_channel::RecvTimeoutError;
use fair_turns::{Scheduler, Turn, Work};
pub(crate) use running::{Moment, Running};
use server_clock::{ServerClock, ServerMoment};
use std::rt::Clock;
use std::sync::Wait;
use std::time::Duration;
use tenant_calls::TenantCalls;

/// How many seconds lie between two ticks of a tenant that is not busy.
const SECONDS_A_TICK: u64 = 1;

/// Schedules each tenant's tick every second, and steps those whose turn it is, until there are no more turns.
/// A tenant that is busy gets its tick when its turn comes; the others don't wait for it.
pub(crate) fn keep_time<R: Wait + Clock + Copy + Drop, C: TenantCalls>(
    thread: &mut ServingThread<R, C>,
) {
    let ServingThread {
        rt,
        place,
        caller,
        shared,
    } = thread;
    let (rt, place) = (*rt, *place);
    let Some(mut clock) = ServerClock::start(&rt) else {
        return;
    };
    let mut due = Duration::from_secs(SECONDS_A_TICK);
    for _ in rt.forever() {
        let turn = shared.turns.clock.recv_timeout(&rt, clock.until(due));
        let now = clock.read(&rt);
        shared.beats.beat(&rt, place);
        match turn {
            Ok(Turn::On(tenant)) => serve_turn(&rt, caller, shared, tenant, now),
            Ok(Turn::Over) | Err(RecvTimeoutError::Disconnected) => break,
            Err(RecvTimeoutError::Timeout) => {
                shared.schedule_all(&rt, Work::Tick);
                due = next_due(due, now.since_start());
            }
        }
    }
}

/// Serves the tick of the tenant of a number, whose turn it is, if it is still there.
fn serve_turn<R: Wait + Clock + Drop, C: TenantCalls>(
    rt: &R,
    caller: &mut Caller<R, C>,
    shared: &Shared<R, C::Key>,
    number: u64,
    now: ServerMoment,
) {
    if let Some(tenant) = shared.begin_turn(rt, number) {
        tick(rt, caller, &shared.scheduler, &tenant, now);
        shared.scheduler.finish(rt, tenant.turns(), Work::Tick);
    }
}

/// When the ticks after those of now are due. What was missed in a pause is not made up for.
fn next_due(due: Duration, now: Duration) -> Duration {
    let second = Duration::from_secs(SECONDS_A_TICK);
    let next = due.saturating_add(second);
    if next > now {
        next
    } else {
        now.saturating_add(second)
    }
}

/// Steps a tenant's tick, and has the pump take for its watches, and the catch-up worker look at its standing order.
fn tick<R: Wait + Clock + Drop, C: TenantCalls>(
    rt: &R,
    caller: &mut Caller<R, C>,
    scheduler: &Scheduler,
    tenant: &ServedTenant<R, C::Key>,
    now: ServerMoment,
) {
    let mut clients = tenant.clients.lock(rt);
    let moment = clients.running.tick(now);
    let _ = caller.tick(&*clients, moment);
    clients.schedule_takes(rt, scheduler, tenant.turns());
    if clients.standing.is_due(clients.running.seconds()) {
        scheduler.schedule(rt, tenant.turns(), Work::CatchUp);
    }
}
