//! The catch-up worker: moves watches on that are behind, and compacts by standing orders.
ghost use Rattle.std.specs.Prelude.{◌≡◌, IfSome};
ghost use Rattle.tenant_scheduler.specs.OwnSteps.{IsNotedNow, IsOrdered};

use crate::caller::Caller;
use crate::clients::Clients;
use crate::pump::take_all;
use crate::serving::ServingThread;
use crate::shared::Shared;
use crate::tenants::ServedTenant;
use auto_compaction::DueRevision;
use fair_turns::{Scheduler, Stopwatch, Work};
use std::rt::Clock;
use std::sync::Wait;
use tenant_calls::{TakeHint, TenantCalls};

/// How many kept changes one step looks at.
const BUDGET: u32 = 256;

/// How many steps a turn has at the most.
const STEPS_A_TURN: u32 = 1024;

/// After how many milliseconds a turn ends, once the step at hand is done.
const MILLIS_A_TURN: u64 = 1;

/// Steps CatchUp on each tenant where that is due, and compacts it where its standing order says so, until there are no
/// more turns.
pub(crate) fn catch_up<R: Wait + Clock + Copy + Drop, C: TenantCalls>(
    thread: &mut ServingThread<R, C>,
) {
    let ServingThread {
        rt,
        place,
        caller,
        shared,
    } = thread;
    let (rt, place) = (*rt, *place);
    for _ in rt.forever() {
        let Some(tenant) = shared.next_turn(&rt, place, &shared.turns.catch_up) else {
            break;
        };
        serve_turn(&rt, caller, shared, tenant);
    }
}

/// Serves the tenant of a number, whose turn it is, if it is still there.
fn serve_turn<R: Wait + Clock + Drop, C: TenantCalls>(
    rt: &R,
    caller: &mut Caller<R, C>,
    shared: &Shared<R, C::Key>,
    number: u64,
) {
    let Some(tenant) = shared.begin_turn(rt, number) else {
        return;
    };
    keep_order(rt, caller, &shared.scheduler, &tenant);
    move_on(rt, caller, &tenant);
    shared.scheduler.finish(rt, tenant.turns(), Work::CatchUp);
}

/// Compacts a tenant where its standing order says so, and has the pump tell its watches.
fn keep_order<R: Wait + Clock + Drop, C: TenantCalls>(
    rt: &R,
    caller: &mut Caller<R, C>,
    scheduler: &Scheduler,
    tenant: &ServedTenant<R, C::Key>,
) {
    let mut clients = tenant.clients.lock(rt);
    if compact_as_ordered(caller, &mut *clients) {
        clients.schedule_takes(rt, scheduler, tenant.turns());
    }
}

/// Compacts a tenant if its standing order says so, and tells whether it did. As before a client's compaction, watches are
/// taken first.
#[tactic(auto, using(crate::proofs::OrderLemmas::still_ordered))]
fn compact_as_ordered<R: Wait + Clock + Drop, C: TenantCalls>(
    caller: &mut Caller<R, C>,
    clients: &mut Clients<C::Key>,
) -> bool
    ensures order { clients.new.standing.retention ≡ clients.old.standing.retention }
    ensures tenant { clients.new.standing.tenant ≡ clients.old.standing.tenant }
    ensures notes { IsNotedNow C.reads clients.old.standing clients.old.running clients.new.standing }
{
    let Some(due) = due_revision(caller, clients) else {
        return false;
    };
    if take_all(caller, clients) && caller.compact(clients, due).is_ok() {
        return true;
    }
    clients.standing.put_off();
    false
}

/// The revision at which a tenant is to be compacted now, if it is. Where its revision can't be read, the next tick tries
/// again.
fn due_revision<R: Wait + Clock + Drop, C: TenantCalls>(
    caller: &Caller<R, C>,
    clients: &mut Clients<C::Key>,
) -> Option<DueRevision>
    ensures ordered { IfSome result (λ due. IsOrdered C.reads clients.new.standing clients.new.running due) }
    ensures order { clients.new.standing.retention ≡ clients.old.standing.retention }
    ensures tenant { clients.new.standing.tenant ≡ clients.old.standing.tenant }
    ensures notes { IsNotedNow C.reads clients.old.standing clients.old.running clients.new.standing }
{
    let moment = clients.running.seconds();
    if !clients.standing.is_due(moment) {
        return None;
    }
    let number = clients.standing.tenant();
    let revision = caller.revision(&clients.key, number).ok()?;
    clients.standing.look(moment, revision)
}

/// Steps a tenant's CatchUp, and goes on for a while as long as a watch is far behind.
fn move_on<R: Wait + Clock + Drop, C: TenantCalls>(
    rt: &R,
    caller: &mut Caller<R, C>,
    tenant: &ServedTenant<R, C::Key>,
) {
    let clients = tenant.clients.lock(rt);
    let stopwatch = Stopwatch::start(rt);
    for _ in 0..STEPS_A_TURN {
        // What is behind stays right without it.
        if caller
            .catch_up(&clients.key, tenant.number(), BUDGET)
            .is_err()
        {
            return;
        }
        if !is_far_behind(caller, &*clients) || stopwatch.is_past(rt, MILLIS_A_TURN) {
            return;
        }
    }
}

/// A watch of the tenant is far behind.
fn is_far_behind<R: Wait + Clock + Drop, C: TenantCalls>(
    caller: &Caller<R, C>,
    clients: &Clients<C::Key>,
) -> bool {
    let Some(hint) = caller.hint(&clients.key) else {
        return false;
    };
    for watch in clients.watches.as_slice() {
        if hint.is_far_behind(watch.slot()) {
            return true;
        }
    }
    false
}
