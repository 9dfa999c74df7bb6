//! Streams that fail at each of their reads and writes.
use crate::peer::Peer;
use crate::tenants::{PUT_REQUEST, SEATS, ask, seats, two_tenants};
use etcd_types::Call;
use host_sessions::{End, Sessions};
use std::alloc::{AllocGlobal, Global};
use std::random::RandomSource;
use std::sync::atomic::{AtomicBool, Ordering};
use std::sync::{Arc, Wait};
use std::test::Fail;
use std::thread::Threads;
use std::time::Clock;
use tenant_registry::{OpenGate, Registry, Seat};

const WATCH: &'static [u8] =
    b"POST /t/one/v3/watch HTTP/1.1\r\nhost: h\r\ncontent-length: 33\r\n\r\n{\"create_request\":{\"key\":\"Zm9v\"}}";

const NEW_WATCH: &str = "{\"create_request\":{\"key\":\"Zm9v\"}}";

/// What a peer is told of its watch, and of its put.
const CREATED: &'static [u8] = b"created\":true";

const PUT: &'static [u8] = b"revision\":\"2\"";

/// More reads and writes than a connection of these tests makes.
const ENOUGH: u32 = 1000;

/// What a connection left.
#[derive(Clone, Copy)]
struct Left {
    had_fault: bool,
    /// What the peer waits for was written.
    is_told: bool,
    is_finished: bool,
    /// The slot that a new watch gets.
    slot: Option<u8>,
    /// The tenant's revision, if it is 1, as at its opening, or 2, as after a put.
    revision: Option<u64>,
}

/// Serves one connection that fails after so many reads and writes, and looks at the tenant afterwards.
fn round<R>(
    rt: R,
    says: &'static [u8],
    wanted: &'static [u8],
    reads_left: u32,
    writes_left: u32,
) -> Result<Left, Fail>
where
    R: Wait + Threads + Clock + RandomSource + AllocGlobal + Copy + Drop + Send + Sync + 'static,
{
    let peer = Peer::failing(rt.alloc(), says, wanted, reads_left, writes_left)?;
    let seen = Arc::try_clone(&peer.seen)?;
    let mut left = left_by(rt, peer)?;
    left.had_fault = seen.fault.load(Ordering::SeqCst);
    left.is_told = seen.leaves.load(Ordering::SeqCst);
    Ok(left)
}

/// What a peer leaves, but for its fault.
fn left_by<R>(rt: R, peer: Peer) -> Result<Left, Fail>
where
    R: Wait + Threads + Clock + RandomSource + AllocGlobal + Copy + Drop + Send + Sync + 'static,
{
    let mut registry = two_tenants(rt.alloc())?;
    left_in(rt, &mut registry, peer)
}

/// The same, in this registry.
fn left_in<R>(rt: R, registry: &mut Registry, peer: Peer) -> Result<Left, Fail>
where
    R: Wait + Threads + Clock + RandomSource + AllocGlobal + Copy + Drop + Send + Sync + 'static,
{
    let alloc = rt.alloc();
    let seats = seats(alloc, registry, SEATS)?;
    let is_finished = is_finished_by(rt, registry, seats, peer)?;
    let mut seat = registry.seat()?;
    left_on(&rt, alloc, registry, &mut seat, is_finished)
}

/// Serves a peer, and says whether its connection is finished.
fn is_finished_by<R>(rt: R, registry: &Registry, seats: Vec<Seat>, peer: Peer) -> Result<bool, Fail>
where
    R: Wait + Threads + Clock + RandomSource + AllocGlobal + Copy + Drop + Send + Sync + 'static,
{
    let is_finished = AtomicBool::new(false);
    let told = &is_finished;
    let _ = Sessions::serve_with(rt, registry, seats, &OpenGate, |jobs| {
        let end = Sessions::serve_one(rt, &jobs, peer);
        told.store(end == End::Finished, Ordering::SeqCst);
        Ok(())
    })?;
    Ok(is_finished.load(Ordering::SeqCst))
}

/// What is left on the first tenant.
fn left_on<R: Wait + Clock>(
    rt: &R,
    alloc: Global,
    registry: &Registry,
    seat: &mut Seat,
    is_finished: bool,
) -> Result<Left, Fail> {
    let status = ask(rt, alloc, registry, seat, Call::Status, "{}")?;
    let watch = ask(rt, alloc, registry, seat, Call::Watch, NEW_WATCH)?;
    Ok(Left {
        had_fault: false,
        is_told: false,
        is_finished,
        slot: watch.slot(),
        revision: revision_in(status.body()),
    })
}

/// The revision in the text of a status, if it is 1, 2 or 3.
pub(crate) fn revision_in(status: &[u8]) -> Option<u64> {
    if status.ends_with(b"\"revision\":\"1\"}}") {
        return Some(1);
    }
    if status.ends_with(b"\"revision\":\"2\"}}") {
        return Some(2);
    }
    if status.ends_with(b"\"revision\":\"3\"}}") {
        return Some(3);
    }
    None
}

#[test]
fn a_put_is_made_or_not_whatever_is_not_read(rt: HostRuntime) -> Result<(), Fail> {
    let mut had_none = false;
    for k in 0..ENOUGH {
        let left = round(rt, PUT_REQUEST, PUT, k, ENOUGH)?;
        assert!(rt; left.slot == Some(0));
        if !left.had_fault {
            assert!(rt; k > 0 && left.is_finished && left.is_told && left.revision == Some(2));
            had_none = true;
            break;
        }
        // The body can't be read to its end: no call.
        assert!(rt; left.revision == Some(1) && !left.is_finished && !left.is_told);
    }
    assert!(rt; had_none);
    Ok(())
}

#[test]
fn a_put_is_made_whatever_is_not_written(rt: HostRuntime) -> Result<(), Fail> {
    let mut had_none = false;
    for k in 0..ENOUGH {
        let left = round(rt, PUT_REQUEST, PUT, ENOUGH, k)?;
        assert!(rt; left.slot == Some(0) && left.revision == Some(2));
        if !left.had_fault {
            assert!(rt; k > 0 && left.is_finished && left.is_told);
            had_none = true;
            break;
        }
        assert!(rt; !left.is_finished);
    }
    assert!(rt; had_none);
    Ok(())
}

#[test]
fn a_watch_frees_its_slot_whatever_is_not_read(rt: HostRuntime) -> Result<(), Fail> {
    let mut had_none = false;
    for k in 0..ENOUGH {
        let left = round(rt, WATCH, CREATED, k, ENOUGH)?;
        assert!(rt; left.slot == Some(0) && left.revision == Some(1));
        if !left.had_fault {
            // It was open.
            assert!(rt; k > 0 && left.is_told);
            had_none = true;
            break;
        }
    }
    assert!(rt; had_none);
    Ok(())
}

#[test]
fn a_watch_frees_its_slot_whatever_is_not_written(rt: HostRuntime) -> Result<(), Fail> {
    let mut had_none = false;
    for k in 0..ENOUGH {
        let left = round(rt, WATCH, CREATED, ENOUGH, k)?;
        assert!(rt; left.slot == Some(0) && left.revision == Some(1));
        if !left.had_fault {
            assert!(rt; k > 0 && left.is_told);
            had_none = true;
            break;
        }
    }
    assert!(rt; had_none);
    Ok(())
}
