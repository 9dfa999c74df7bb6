//! Whose turn it is on each tenant.
//!
//! A tenant is served by one thread at a time, which has the *turn* there. Work that becomes due meanwhile is marked,
//! and the tenant goes through the channels of the threads that do it: it is in one of them at most, once, so no
//! channel is ever full. A turn ends by handing the tenant to the work that is due next, in a fixed round, behind all
//! other tenants there.
//!
//! An event loop takes a turn for one brief call, where nobody has it, or where it lies in a channel: so no loop waits
//! until a thread wakes. What takes a turn out of its channel waits until no loop is in it.
use crate::slow_tenants::SlowTenants;
use crossbeam_channel::{Receiver, Sender, bounded};
use crossbeam_utils::CachePadded;
use etcd_types::Mem;
use etcd_types::limits::MAX_TENANTS;
use std::alloc::Global;
use std::rt::Clock;
use std::sync::Wait;
use std::sync::atomic::{AtomicU64, Ordering};
use std::time::Duration;
use std::{hint, thread};

/// How often an event loop looks whether another one has ended its turn: for as long as it takes to wake a worker.
const LOOKS: u32 = 2048;

/// How often it looks whether any other turn has ended: for as long as a brief call takes.
const BRIEF_LOOKS: u32 = 128;

/// How often a thread looks, before it rests, whether an event loop is still in the turn that it was given.
const LOOKS_A_REST: u32 = 512;

/// What may be due on a tenant, in the order of the round.
#[derive(Clone, Copy)]
pub enum Work {
    /// The clock's step.
    Tick,
    /// What its watches have to give, and the end of those whose clients have gone.
    Takes,
    /// Watches that are behind.
    CatchUp,
    /// Calls of its clients.
    Jobs,
}

impl Work {
    fn following(self) -> Work {
        match self {
            Work::Tick => Work::Takes,
            Work::Takes => Work::CatchUp,
            Work::CatchUp => Work::Jobs,
            Work::Jobs => Work::Tick,
        }
    }

    /// The bit that says that it is due.
    fn mark(self) -> u64 {
        match self {
            Work::Tick => 2,
            Work::Takes => 4,
            Work::CatchUp => 8,
            Work::Jobs => 16,
        }
    }

    /// The first work of the round after this one that is marked.
    fn next_of(self, marks: u64) -> Option<Work> {
        let mut work = self;
        for _ in 0..4 {
            work = work.following();
            if marks & work.mark() != 0 {
                return Some(work);
            }
        }
        None
    }
}

/// What a thread that serves tenants is told.
#[derive(Clone, Copy)]
pub enum Turn {
    /// It has the turn on the tenant of this number.
    On(u64),
    /// There are no more turns.
    Over,
}

/// The marks of a tenant's due work, and `RUNNING` while somebody has the turn there or it lies in a channel. Only who
/// has the turn takes a mark of work off, and an idle tenant has none. They lie on cache lines of their own, since tenants
/// have nothing to do with each other.
type Marks = CachePadded<AtomicU64>;

/// The turns on one tenant.
pub struct TenantTurns {
    /// The tenant's. No other tenant ever has it.
    number: u64,
    marks: Marks,
    /// The pump's channel, for the watches of its clients.
    pump: Sender<Turn>,
}

impl Drop for TenantTurns {
    fn drop(self) {
        let TenantTurns {
            number: _,
            marks: _,
            pump: _,
        } = self;
    }
}

impl TenantTurns {
    /// The watches of its clients may have something to give, or one has gone.
    pub fn schedule_takes<R: Wait>(&self, rt: &R) {
        if Scheduler::mark_or_begin(&self.marks, Work::Takes) {
            self.offer();
            let _ = self.pump.send(rt, Turn::On(self.number));
        }
    }

    /// Who has the turn is about to leave it in a channel.
    fn offer(&self) {
        self.marks.fetch_or(OFFERED, Ordering::SeqCst);
    }

    /// The tenant's number, which no other tenant ever has.
    pub fn number(&self) -> u64 {
        self.number
    }
}

/// Nobody has the turn, and nothing is due.
const IDLE: u64 = 0;

/// Somebody has the turn, and nothing else is due.
const RUNNING: u64 = 1;

/// The tenant was removed: no turn begins there any more.
const RETIRED: u64 = 32;

/// An event loop is in the turn.
const IN_LOOP: u64 = 64;

/// The turn lies in a channel: nobody has it but the event loop that is in it, if one is.
const OFFERED: u64 = 128;

/// How many milliseconds lie between two looks whether the last turn on a tenant has ended.
const MILLIS_A_LOOK: u64 = 1;

/// For how many microseconds a thread rests that waits for an event loop which does not run at the moment.
const MICROS_A_REST: u64 = 50;

/// How many threads serve neither clients nor connections: the clock, the pump, the catch-up worker.
pub const BESIDE_WORKERS: usize = 3;

/// The channels to the threads that wait for turns.
pub struct Scheduler {
    clock: Sender<Turn>,
    pump: Sender<Turn>,
    catch_up: Sender<Turn>,
    workers: Sender<Turn>,
    slow: SlowTenants,
}

impl Drop for Scheduler {
    fn drop(self) {
        let Scheduler {
            clock: _,
            pump: _,
            catch_up: _,
            workers: _,
            slow: _,
        } = self;
    }
}

/// Where the turns arrive.
pub struct Turns {
    /// Those of the clock.
    pub clock: Receiver<Turn>,
    /// Those of the pump.
    pub pump: Receiver<Turn>,
    /// Those of the catch-up worker.
    pub catch_up: Receiver<Turn>,
    /// Those of all workers.
    pub workers: Receiver<Turn>,
}

impl Drop for Turns {
    fn drop(self) {
        let Turns {
            clock: _,
            pump: _,
            catch_up: _,
            workers: _,
        } = self;
    }
}

impl Scheduler {
    /// A scheduler of so many threads, with nothing due. So many of the threads are workers.
    pub fn new(alloc: Global, threads: usize, workers: usize) -> Mem<(Scheduler, Turns)> {
        // A tenant is in one channel at most, one that is being removed too, and each thread is told once that there are
        // no more turns.
        let tenants = MAX_TENANTS + 1;
        let room = threads.saturating_add(tenants);
        let (clock, clock_turns) = bounded(alloc, room)?;
        let (pump, pump_turns) = bounded(alloc, room)?;
        let (catch_up, catch_up_turns) = bounded(alloc, room)?;
        let (jobs, job_turns) = bounded(alloc, room)?;
        let scheduler = Scheduler {
            clock,
            pump,
            catch_up,
            workers: jobs,
            slow: SlowTenants::new(alloc, tenants, workers)?,
        };
        let turns = Turns {
            clock: clock_turns,
            pump: pump_turns,
            catch_up: catch_up_turns,
            workers: job_turns,
        };
        Ok((scheduler, turns))
    }

    /// The turns of the tenant that has this number, with nothing due.
    pub fn turns_of(&self, number: u64) -> Mem<TenantTurns> {
        Ok(TenantTurns {
            number,
            marks: CachePadded::new(AtomicU64::new(IDLE)),
            pump: self.pump.clone()?,
        })
    }

    /// Work is due on a tenant. Where nobody has the turn, it is given now.
    pub fn schedule<R: Wait>(&self, rt: &R, turns: &TenantTurns, work: Work) {
        if Scheduler::mark_or_begin(&turns.marks, work) {
            turns.offer();
            self.give(rt, turns.number, work);
        }
    }

    /// Marks what is due, or begins the turn for it where nobody has it.
    fn mark_or_begin(marks: &Marks, work: Work) -> bool {
        let before = marks.fetch_or(RUNNING | work.mark(), Ordering::SeqCst);
        if before & RUNNING != 0 {
            return false;
        }
        if before & RETIRED != 0 {
            marks.fetch_and(!RUNNING, Ordering::SeqCst);
            return false;
        }
        // The turn that begins now is for all that was left until here.
        marks.fetch_and(!work.mark(), Ordering::SeqCst);
        true
    }

    /// An event loop takes the turn on a tenant, for one brief call. Where another loop is in it, it waits a little: such a
    /// one ends sooner than a worker wakes. Where a thread has it, it waits for as long as a brief call takes.
    pub fn begin_in_loop(turns: &TenantTurns) -> bool {
        for look in 0..LOOKS {
            let now = turns.marks.load(Ordering::SeqCst);
            if Scheduler::is_free(now) {
                if Scheduler::moves(&turns.marks, now, now | RUNNING | IN_LOOP) {
                    return true;
                }
            } else if now & IN_LOOP == 0 && look >= BRIEF_LOOKS {
                return false;
            }
            hint::spin_loop();
        }
        false
    }

    /// No thread has the turn that these marks tell, and no event loop is in it.
    fn is_free(marks: u64) -> bool {
        marks == IDLE || marks & (OFFERED | IN_LOOP | RETIRED) == OFFERED
    }

    /// Ends the turn of an event loop. One that lies in a channel stays there; else the tenant goes on to the work that is
    /// due next.
    pub fn finish_in_loop<R: Wait>(&self, rt: &R, turns: &TenantTurns) {
        if Scheduler::moves(&turns.marks, RUNNING | IN_LOOP, IDLE) {
            return;
        }
        let marks = turns.marks.fetch_and(!IN_LOOP, Ordering::SeqCst);
        if marks & OFFERED == 0 {
            self.finish(rt, turns, Work::Jobs);
        }
    }

    /// A thread begins a turn that came out of a channel. It waits until no event loop is in it.
    pub fn take_up<R: Wait + Clock>(rt: &R, turns: &TenantTurns) {
        for _ in rt.forever() {
            for _ in 0..LOOKS_A_REST {
                let now = turns.marks.load(Ordering::SeqCst);
                if now & IN_LOOP == 0 && Scheduler::moves(&turns.marks, now, now & !OFFERED) {
                    return;
                }
                hint::spin_loop();
            }
            thread::sleep(rt, Duration::from_micros(MICROS_A_REST));
        }
    }

    fn moves(marks: &Marks, from: u64, to: u64) -> bool {
        marks
            .compare_exchange(from, to, Ordering::SeqCst, Ordering::SeqCst)
            .is_ok()
    }

    /// Ends a turn; the tenant goes on to the work that is due next.
    pub fn finish<R: Wait>(&self, rt: &R, turns: &TenantTurns, done: Work) {
        if let Some(work) = Scheduler::end_or_go_on(&turns.marks, done) {
            turns.offer();
            self.give(rt, turns.number, work);
        }
    }

    /// The work that is due next, or none where the turn has ended.
    fn end_or_go_on(marks: &Marks, done: Work) -> Option<Work> {
        if Scheduler::moves(marks, RUNNING, IDLE) {
            return None;
        }
        let due = marks.load(Ordering::SeqCst);
        if due & RETIRED != 0 {
            marks.fetch_and(!RUNNING, Ordering::SeqCst);
            return None;
        }
        let next = done.next_of(due)?;
        marks.fetch_and(!next.mark(), Ordering::SeqCst);
        Some(next)
    }

    /// Lets no more turns begin on a tenant, and waits until the last one has ended.
    pub fn retire<R: Wait + Clock>(rt: &R, turns: &TenantTurns) {
        turns.marks.fetch_or(RETIRED, Ordering::SeqCst);
        for _ in rt.forever() {
            if turns.marks.load(Ordering::SeqCst) & RUNNING == 0 {
                return;
            }
            thread::sleep(rt, Duration::from_millis(MILLIS_A_LOOK));
        }
    }

    /// Hands the turn for takes that are long on to the workers, so that the watches of other tenants don't wait for
    /// them. It is `false` where no worker would be left for the others.
    pub fn hand_to_workers<R: Wait>(&self, rt: &R, turns: &TenantTurns) -> bool {
        if !self.slow.leaves_one() {
            return false;
        }
        turns.marks.fetch_or(Work::Takes.mark(), Ordering::SeqCst);
        turns.offer();
        self.give(rt, turns.number, Work::Jobs);
        true
    }

    /// The takes of a tenant are due.
    pub fn are_takes_due(turns: &TenantTurns) -> bool {
        turns.marks.load(Ordering::SeqCst) & Work::Takes.mark() != 0
    }

    /// Whoever has the turn on a tenant begins with its takes, if they are due.
    pub fn begins_takes(turns: &TenantTurns) -> bool {
        let mark = Work::Takes.mark();
        turns.marks.fetch_and(!mark, Ordering::SeqCst) & mark != 0
    }

    /// A worker that has the turn on a slow tenant may serve it; else the tenant waits with its turn until it may.
    pub fn begin_slow<R: Wait>(&self, rt: &R, turns: &TenantTurns) -> bool {
        let may_begin = self.slow.begin(rt, turns.number);
        if !may_begin {
            self.give_waiting(rt);
        }
        may_begin
    }

    /// A worker has served a slow tenant.
    pub fn end_slow<R: Wait>(&self, rt: &R) {
        self.slow.end();
        self.give_waiting(rt);
    }

    fn give_waiting<R: Wait>(&self, rt: &R) {
        if let Some(tenant) = self.slow.next(rt) {
            self.give(rt, tenant, Work::Jobs);
        }
    }

    fn give<R: Wait>(&self, rt: &R, tenant: u64, work: Work) {
        let to = match work {
            Work::Tick => &self.clock,
            Work::Takes => &self.pump,
            Work::CatchUp => &self.catch_up,
            Work::Jobs => &self.workers,
        };
        // It can't be sent only after the last turn, when nobody is left to take it.
        let _ = to.send(rt, Turn::On(tenant));
    }

    /// Tells all threads that there are no more turns.
    pub fn stop<R: Wait>(&self, rt: &R, threads: usize) {
        let _ = self.clock.send(rt, Turn::Over);
        let _ = self.pump.send(rt, Turn::Over);
        let _ = self.catch_up.send(rt, Turn::Over);
        for _ in 0..threads {
            let _ = self.workers.send(rt, Turn::Over);
        }
    }
}
