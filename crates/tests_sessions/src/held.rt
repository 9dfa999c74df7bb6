//! A call that is held under its tenant's lock, until a later one on another tenant was answered.
use crate::peer::Peer;
use crate::tenants::{PUT_REQUEST, SEATS, seats, two_tenants};
use host_sessions::{End, Jobs, Sessions};
use std::alloc::AllocGlobal;
use std::random::RandomSource;
use std::sync::Wait;
use std::sync::atomic::{AtomicBool, Ordering};
use std::test::Fail;
use std::thread::{self, Threads};
use std::time::{Clock, Duration};
use tenant_registry::{Gate, Registry, Seat};

const PUT_TWO: &'static [u8] =
    b"POST /t/two/v3/kv/put HTTP/1.1\r\nhost: h\r\ncontent-length: 29\r\nconnection: close\r\n\r\n{\"key\":\"Zm9v\",\"value\":\"YmFy\"}";

/// Holds calls on the first tenant until another call was answered.
#[derive(Drop)]
struct Until {
    /// A call on the first tenant is held, under its lock.
    held: AtomicBool,
    answered: AtomicBool,
    /// It was held as often as a call may be.
    last: AtomicBool,
}

impl Gate for Until {
    fn wait_more(&self, tenant: &[u8], asked: u32) -> bool {
        if asked >= 9_999 {
            self.last.store(true, Ordering::SeqCst);
        }
        if tenant != b"one".as_slice() {
            return false;
        }
        self.held.store(true, Ordering::SeqCst);
        !self.answered.load(Ordering::SeqCst)
    }
}

/// Waits until this is so, ten seconds at most.
pub(crate) fn wait_for<R: Clock>(rt: &R, so: &AtomicBool) {
    for _ in 0..10_000 {
        if so.load(Ordering::SeqCst) {
            return;
        }
        thread::sleep(rt, Duration::from_millis(1));
    }
}

/// A connection on the first tenant, and one on the second that begins once the first one's call is held.
fn two_connections<R>(rt: R, jobs: &Jobs<R>, gate: &Until, one: Peer, two: Peer) -> bool
where
    R: Wait + Threads + Clock + RandomSource + AllocGlobal + Copy + Drop + Send + Sync + 'static,
{
    let (first, second) = thread::join(
        &rt,
        || Sessions::serve_one(rt, jobs, one),
        || {
            wait_for(&rt, &gate.held);
            let end = Sessions::serve_one(rt, jobs, two);
            gate.answered.store(true, Ordering::SeqCst);
            end
        },
    );
    first == End::Finished && second == End::Finished
}

/// Serves a put on each tenant, the first of which the gate holds, and says whether both connections are finished.
fn are_finished<R>(rt: R, registry: &Registry, seats: Vec<Seat>, gate: &Until) -> Result<bool, Fail>
where
    R: Wait + Threads + Clock + RandomSource + AllocGlobal + Copy + Drop + Send + Sync + 'static,
{
    let one = Peer::new(rt.alloc(), PUT_REQUEST)?;
    let two = Peer::new(rt.alloc(), PUT_TWO)?;
    let told = AtomicBool::new(false);
    let are_finished = &told;
    let _ = Sessions::serve_with(rt, registry, seats, gate, |jobs| {
        are_finished.store(two_connections(rt, &jobs, gate, one, two), Ordering::SeqCst);
        Ok(())
    })?;
    Ok(told.load(Ordering::SeqCst))
}

/// The same, in a new registry.
fn are_finished_in_new<R>(rt: R, gate: &Until) -> Result<bool, Fail>
where
    R: Wait + Threads + Clock + RandomSource + AllocGlobal + Copy + Drop + Send + Sync + 'static,
{
    let mut registry = two_tenants(rt.alloc())?;
    let seats = seats(rt.alloc(), &mut registry, SEATS)?;
    are_finished(rt, &registry, seats, gate)
}

#[test]
fn a_call_on_another_tenant_does_not_wait(rt: HostRuntime) -> Result<(), Fail> {
    let gate = Until {
        held: AtomicBool::new(false),
        answered: AtomicBool::new(false),
        last: AtomicBool::new(false),
    };
    let are_finished = are_finished_in_new(rt, &gate)?;
    assert!(rt; are_finished);
    assert!(rt; gate.held.load(Ordering::SeqCst) && !gate.last.load(Ordering::SeqCst));
    Ok(())
}
