//! A call that waits in its tenant's queue while another one of the tenant is held, and the workers that stop meanwhile.
use crate::held::wait_for;
use crate::peer::{Peer, Seen};
use crate::streams::revision_in;
use crate::tenants::{PUT_REQUEST, ask, seats, two_tenants};
use etcd_types::Call;
use host_sessions::{Jobs, Sessions};
use std::alloc::AllocGlobal;
use std::random::RandomSource;
use std::sync::atomic::{AtomicBool, AtomicU32, AtomicU64, Ordering};
use std::sync::{Arc, Wait};
use std::test::Fail;
use std::thread::{self, Threads};
use std::time::{Clock, Duration};
use tenant_registry::{Gate, Registry, Seat};

/// The seats of one worker, and of the clock, the pump and the catch-up worker.
const ONE_WORKER: usize = 4;

/// How often a peer that waits has been asked for more once its call waits too.
const WAITS: u64 = 10;

/// Holds calls on the first tenant until it is let go, and some milliseconds longer: for more than a worker's turn, and so
/// that the workers are told to stop meanwhile.
#[derive(Drop)]
struct Held {
    /// A call is held, under its tenant's lock.
    held: AtomicBool,
    is_let_go: AtomicBool,
    longer: AtomicU32,
}

impl Held {
    fn new(longer: u32) -> Held {
        Held {
            held: AtomicBool::new(false),
            is_let_go: AtomicBool::new(false),
            longer: AtomicU32::new(longer),
        }
    }
}

impl Gate for Held {
    fn wait_more(&self, tenant: &[u8], _asked: u32) -> bool {
        if tenant != b"one".as_slice() {
            return false;
        }
        self.held.store(true, Ordering::SeqCst);
        if !self.is_let_go.load(Ordering::SeqCst) {
            return true;
        }
        let left = self.longer.load(Ordering::SeqCst);
        self.longer.store(left.saturating_sub(1), Ordering::SeqCst);
        left > 0
    }
}

/// What became of the two calls.
#[derive(Clone, Copy)]
struct Told {
    was_held: bool,
    /// How many bytes each connection was written.
    written: (u64, u64),
    revision: Option<u64>,
}

/// Waits until the peer's call was handed in, ten seconds at most.
fn wait_until_asked<R: Clock>(rt: &R, waits: &AtomicU64) {
    for _ in 0..10_000 {
        if waits.load(Ordering::SeqCst) >= WAITS {
            return;
        }
        thread::sleep(rt, Duration::from_millis(1));
    }
}

/// Serves a second connection once the first one's call is held. While its call waits, the first one is let go, or both
/// peers leave.
fn serve_second<R>(
    rt: R,
    jobs: &Jobs<R>,
    gate: &Held,
    two: Peer,
    first: &Seen,
    second: &Seen,
    stops: bool,
)
where
    R: Wait + Threads + Clock + RandomSource + AllocGlobal + Copy + Drop + Send + Sync + 'static,
{
    wait_for(&rt, &gate.held);
    let _ = thread::join(
        &rt,
        || Sessions::serve_one(rt, jobs, two),
        || {
            wait_until_asked(&rt, &second.waits);
            if stops {
                second.leaves.store(true, Ordering::SeqCst);
            } else {
                gate.is_let_go.store(true, Ordering::SeqCst);
            }
        },
    );
    if stops {
        first.leaves.store(true, Ordering::SeqCst);
    }
}

/// Both connections.
fn serve_both<R>(
    rt: R,
    jobs: &Jobs<R>,
    gate: &Held,
    peers: (Peer, Peer),
    first: &Seen,
    second: &Seen,
    stops: bool,
)
where
    R: Wait + Threads + Clock + RandomSource + AllocGlobal + Copy + Drop + Send + Sync + 'static,
{
    let (one, two) = peers;
    let _ = thread::join(
        &rt,
        || Sessions::serve_one(rt, jobs, one),
        || serve_second(rt, jobs, gate, two, first, second, stops),
    );
    // From here on no connection comes, and the workers are told to stop.
    gate.is_let_go.store(true, Ordering::SeqCst);
}

/// Serves two puts on the first tenant by one worker, and says what became of them.
fn told_of<R>(rt: R, gate: &Held, stops: bool) -> Result<Told, Fail>
where
    R: Wait + Threads + Clock + RandomSource + AllocGlobal + Copy + Drop + Send + Sync + 'static,
{
    let alloc = rt.alloc();
    let mut registry = two_tenants(alloc)?;
    let seats = seats(alloc, &mut registry, ONE_WORKER)?;
    let one = Peer::new(alloc, PUT_REQUEST)?;
    let two = Peer::new(alloc, PUT_REQUEST)?;
    let first = Arc::try_clone(&one.seen)?;
    let second = Arc::try_clone(&two.seen)?;
    serve(
        rt,
        &registry,
        seats,
        gate,
        (one, two),
        (&*first, &*second),
        stops,
    )?;
    let mut seat = registry.seat()?;
    let status = ask(&rt, alloc, &registry, &mut seat, Call::Status, "{}")?;
    Ok(Told {
        was_held: gate.held.load(Ordering::SeqCst),
        written: (
            first.written.load(Ordering::SeqCst),
            second.written.load(Ordering::SeqCst),
        ),
        revision: revision_in(status.body()),
    })
}

/// The same in this registry.
fn serve<R>(
    rt: R,
    registry: &Registry,
    seats: Vec<Seat>,
    gate: &Held,
    peers: (Peer, Peer),
    seen: (&Seen, &Seen),
    stops: bool,
) -> Result<(), Fail>
where
    R: Wait + Threads + Clock + RandomSource + AllocGlobal + Copy + Drop + Send + Sync + 'static,
{
    let (first, second) = seen;
    let _ = Sessions::serve_with(rt, registry, seats, gate, |jobs| {
        serve_both(rt, &jobs, gate, peers, first, second, stops);
        Ok(())
    })?;
    Ok(())
}

#[test]
fn a_call_that_no_worker_took_is_not_made(rt: HostRuntime) -> Result<(), Fail> {
    let gate = Held::new(1_000);
    let told = told_of(rt, &gate, true)?;
    // The worker ended the call that was held, and then stopped.
    assert!(rt; told.was_held && told.revision == Some(2));
    assert!(rt; told.written == (0, 0));
    Ok(())
}

#[test]
fn a_call_that_waited_is_made_where_workers_go_on(rt: HostRuntime) -> Result<(), Fail> {
    let gate = Held::new(10);
    let told = told_of(rt, &gate, false)?;
    assert!(rt; told.was_held && told.revision == Some(3));
    assert!(rt; told.written.0 > 0 && told.written.1 > 0);
    Ok(())
}
