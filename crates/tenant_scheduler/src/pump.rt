//! The pump: from a tenant's watches to their clients.
ghost use Rattle.std.specs.Prelude.{◌≡◌, true, IfOk, IfSome};
ghost use Rattle.etcd_types.specs.declared.step.Step.TheVariants.{Take};
ghost use Rattle.tenant_calls.specs.Answers.{IsTold};
ghost use Rattle.tenant_scheduler.specs.Makes.{IsOnlyOn};

use crate::caller::Caller;
use crate::clients::Clients;
use crate::serving::ServingThread;
use crate::shared::SHARD;
use crate::tenants::ServedTenant;
use fair_turns::{
    Budget, NoRoom, PartCounts, Scheduler, ServedWatch, Stopwatch, TenantTurns, WatchTake, Work,
};
use std::rt::Clock;
use std::sync::Wait;
use tenant_calls::{TakeHint, TenantCalls};

/// After how many milliseconds a turn ends, once the take at hand is served.
const MILLIS_A_TURN: u64 = 1;

/// How many milliseconds make a turn a long one.
const LONG: u64 = 2;

/// How many turns are left to the workers after a long one.
const TURNS_LEFT: u32 = 256;

/// Takes for the open watches of each tenant where that is due, until there are no more turns.
pub(crate) fn pump<R: Wait + Clock + Copy + Drop, C: TenantCalls>(
    thread: &mut ServingThread<R, C>,
) {
    let ServingThread {
        rt,
        place,
        caller,
        shared,
    } = thread;
    let (rt, place) = (*rt, *place);
    for _ in rt.forever() {
        let Some(tenant) = shared.next_turn(&rt, place, &shared.turns.pump) else {
            break;
        };
        if let Some(tenant) = shared.begin_turn(&rt, tenant) {
            take_turn(&rt, caller, &shared.scheduler, &tenant);
        }
    }
}

/// Serves the takes of a tenant whose turn it is, unless they were long lately: then a worker serves them.
fn take_turn<R: Wait + Clock + Drop, C: TenantCalls>(
    rt: &R,
    caller: &mut Caller<R, C>,
    scheduler: &Scheduler,
    tenant: &ServedTenant<R, C::Key>,
) {
    let turns = tenant.turns();
    let has_long_takes = tenant.clients.lock(rt).takes_left > 0;
    if has_long_takes && scheduler.hand_to_workers(rt, turns) {
        return;
    }
    let mut clients = tenant.clients.lock(rt);
    serve_takes(rt, caller, scheduler, turns, &mut *clients);
    drop(clients);
    scheduler.finish(rt, turns, Work::Takes);
}

/// Ends the watches whose clients have gone, and takes for the others.
pub(crate) fn serve_takes<R: Wait + Clock + Drop, C: TenantCalls>(
    rt: &R,
    caller: &mut Caller<R, C>,
    scheduler: &Scheduler,
    turns: &TenantTurns,
    clients: &mut Clients<C::Key>,
) {
    let stopwatch = Stopwatch::start(rt);
    drop_closed(caller, clients);
    if !clients.watches.is_empty() {
        take_and_schedule(rt, caller, scheduler, turns, clients, &stopwatch);
    }
    clients.takes_left = if stopwatch.is_past(rt, LONG) {
        TURNS_LEFT
    } else {
        clients.takes_left.saturating_sub(1)
    };
}

/// Takes once for each watch that may have something to give, and sees to it that it comes again where there is more.
fn take_and_schedule<R: Wait + Clock + Drop, C: TenantCalls>(
    rt: &R,
    caller: &mut Caller<R, C>,
    scheduler: &Scheduler,
    turns: &TenantTurns,
    clients: &mut Clients<C::Key>,
    stopwatch: &Stopwatch,
) {
    let Some(hint) = caller.hint(&clients.key) else {
        return;
    };
    let all_answered = take_hinted(rt, caller, clients, &hint, stopwatch);
    let Some(left) = caller.hint(&clients.key) else {
        return;
    };
    let mut has_more = false;
    for watch in clients.watches.as_slice() {
        if left.has(watch.slot()) {
            has_more = true;
            // Where a take found no memory, the clock schedules the next turn.
            if watch.promise_more() && all_answered {
                scheduler.schedule(rt, turns, Work::Takes);
            }
        }
    }
    // Also beside a watch that finds no budget: one that is far behind is told nothing before it is caught up.
    if has_more {
        scheduler.schedule(rt, turns, Work::CatchUp);
    }
}

/// Takes once for each watch that a hint tells and whose client waits for a text, as far as a turn's time and the
/// tenant's budget go. The next turn goes on behind the last one that this turn came to. It is `false` where a take
/// found no memory, or no budget.
fn take_hinted<R: Wait + Clock + Drop, C: TenantCalls>(
    rt: &R,
    caller: &mut Caller<R, C>,
    clients: &mut Clients<C::Key>,
    hint: &C::Hint,
    stopwatch: &Stopwatch,
) -> bool {
    let mut all_answered = true;
    let mut at = clients.next_take;
    for _ in 0..clients.watches.len() {
        if stopwatch.is_past(rt, MILLIS_A_TURN) {
            break;
        }
        if clients.budget.left() == 0 {
            all_answered = false;
            break;
        }
        if at >= clients.watches.len() {
            at = 0;
        }
        all_answered &= take_at(caller, clients, &mut at, hint, Meant::Waiting);
    }
    clients.next_take = at;
    all_answered
}

/// Takes once for each watch that has room for a text, before a compaction. Where the tenant's budget is spent, those
/// that have something to give are passed over, and the compaction may cancel them: their tenant's clients don't read.
/// It is `false` where a take found no memory.
pub(crate) fn take_all<R: Wait + Clock + Drop, C: TenantCalls>(
    caller: &mut Caller<R, C>,
    clients: &mut Clients<C::Key>,
) -> bool
    ensures others { IsOnlyOn C.Key.name_of clients.old.key (C.made caller.old.calls) (C.made caller.new.calls) }
    ensures order { clients.new.standing ≡ clients.old.standing }
    ensures time { clients.new.running ≡ clients.old.running }
{
    if clients.watches.is_empty() {
        return true;
    }
    let Some(hint) = caller.hint(&clients.key) else {
        return false;
    };
    let mut all_answered = true;
    let mut at = 0;
    for _ in 0..clients.watches.len() {
        all_answered &= take_at(caller, clients, &mut at, &hint, Meant::All);
    }
    all_answered
}

/// Takes for the watch at a place, if it is meant, and goes on to the next one. One that was cancelled ends, and leaves its
/// place to the last. It is `false` where the take found no memory, or a client that waits is not told for its tenant's budget.
fn take_at<R: Wait + Clock + Drop, C: TenantCalls>(
    caller: &mut Caller<R, C>,
    clients: &mut Clients<C::Key>,
    at: &mut usize,
    hint: &C::Hint,
    meant: Meant,
) -> bool
    ensures key { clients.new.key ≡ clients.old.key }
    ensures order { clients.new.standing ≡ clients.old.standing }
    ensures time { clients.new.running ≡ clients.old.running }
    ensures others { IsOnlyOn C.Key.name_of clients.old.key (C.made caller.old.calls) (C.made caller.new.calls) }
{
    let Some(watch) = clients.watches.get(*at) else {
        return true;
    };
    if !meant.has(hint, &clients.budget, watch) {
        *at = at.saturating_add(1);
        return true;
    }
    match take(
        caller,
        &clients.key,
        &clients.budget,
        clients.counts.part(SHARD),
        watch,
    ) {
        Ok(Some(canceled)) => {
            let watch = clients.watches.swap_remove(*at);
            let bytes = watch.end(canceled, &clients.budget);
            clients.counts.part(SHARD).add_out(bytes);
            true
        }
        Ok(None) => {
            *at = at.saturating_add(1);
            true
        }
        Err(why) => {
            *at = at.saturating_add(1);
            meant.is_met_without(why)
        }
    }
}

/// Why a watch is not taken for.
#[derive(Clone, Copy)]
enum NoTake {
    /// Its tenant's budget has no room for its text now.
    Spent,
    Memory,
}

/// Which watches are taken for.
#[derive(Clone, Copy)]
enum Meant {
    /// Those that may have something to give and whose clients have read what they were told. One that is far behind is
    /// caught up first.
    Waiting,
    /// All, as far as the budget goes; one that has nothing to give takes none.
    All,
}

impl Meant {
    fn has<H: TakeHint>(self, hint: &H, budget: &Budget, watch: &ServedWatch) -> bool {
        let may_give = hint.has(watch.slot());
        match self {
            Meant::Waiting => { may_give && !hint.is_far_behind(watch.slot()) && watch.is_read() }
            Meant::All => !may_give || budget.left() > 0,
        }
    }

    /// Whether all is done that is meant, although a watch was not taken for.
    fn is_met_without(self, why: NoTake) -> bool {
        matches!((self, why), (Meant::All, NoTake::Spent))
    }
}

/// Takes once, if the watch has room for a text and its tenant's budget has its share, and puts it in. A take that found the
/// watch cancelled comes back: the watch ends by it.
#[tactic(auto, using(crate::proofs::MakeLemmas::only_own, crate::proofs::MakeLemmas::only_none))]
fn take<R: Wait + Clock + Drop, C: TenantCalls>(
    caller: &mut Caller<R, C>,
    key: &Option<C::Key>,
    budget: &Budget,
    counts: &PartCounts,
    watch: &ServedWatch,
) -> Result<Option<WatchTake<C::Receipt>>, NoTake>
    ensures others { IsOnlyOn C.Key.name_of key.now (C.made caller.old.calls) (C.made caller.new.calls) }
    ensures told { IfOk result (λ told. IfSome told (λ take.
        IsTold watch.now.tenant (Take watch.now.slot) (C.Receipt.slip_of take.receipt))) }
    ensures canceled { IfOk result (λ told. IfSome told (λ take. (C.Receipt.slip_of take.receipt).canceled ≡ true)) }
{
    let room = match watch.room() {
        Ok(room) => room,
        Err(NoRoom::Unread) => return Ok(None),
        Err(NoRoom::Memory) => return Err(NoTake::Memory),
    };
    let share = match caller.reserve_text(key, budget, watch) {
        Ok(Some(share)) => share,
        Ok(None) => return Err(NoTake::Spent),
        Err(_) => return Err(NoTake::Memory),
    };
    let Ok(take) = caller.take(key, watch.tenant(), watch.slot()) else {
        return Err(NoTake::Memory);
    };
    if take.is_cancel() {
        return Ok(Some(take));
    }
    if take.is_quiet() {
        take.end();
    } else {
        counts.add_out(room.put(take, budget, share));
    }
    Ok(None)
}

/// Frees the slots of the watches whose clients have gone. Where one finds no memory, it stays for the next
/// turn.
pub(crate) fn drop_closed<R: Wait + Clock + Drop, C: TenantCalls>(
    caller: &mut Caller<R, C>,
    clients: &mut Clients<C::Key>,
) {
    let key = &clients.key;
    let watches = &mut clients.watches;
    let mut at = 0;
    for _ in 0..watches.len() {
        if at >= watches.len() {
            break;
        }
        if !watches[at].is_closed() {
            at += 1;
        } else if let Err(watch) = caller.end_watch(key, watches.swap_remove(at)) {
            // There is room: it stood here.
            let _ = watches.push(watch);
        }
    }
}
