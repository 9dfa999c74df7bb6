//! Several threads call one registry.
use super::live::{is_replayed, is_text};
use super::{call, close, put, seat_of, told_to, two_tenants};
use etcd_types::Mem;
use std::alloc::Global;
use std::process::Abort;
use std::rt::Clock;
use std::sync::Wait;
use std::sync::atomic::{AtomicBool, Ordering};
use std::thread::{self, Threads};
use std::time::Duration;
use tenant_registry::{CloseFault, Closed, Entry, Gate, Receipt, Registry, Seat};

/// A caller's seat, with the receipts of its calls.
#[derive(Drop)]
struct Work {
    seat: Seat,
    receipts: Vec<Receipt>,
}

/// 100 calls of one seat, on two tenants in turn.
fn make_calls<R: Wait + Clock + Abort>(
    rt: &R,
    alloc: Global,
    registry: &Registry,
    mut seat: Seat,
) -> Work {
    let mut receipts = Vec::new(alloc);
    for _ in 0..50 {
        for tenant in [b"one", b"two"] {
            let receipt = call(rt, alloc, registry, &mut seat, tenant);
            receipts.push(receipt).expect(rt, "memory");
        }
    }
    Work { seat, receipts }
}

fn four_seats(rt: &impl Abort, alloc: Global, registry: &mut Registry) -> Vec<Seat> {
    let mut seats = Vec::new(alloc);
    for _ in 0..4 {
        seats.push(seat_of(rt, registry)).expect(rt, "memory");
    }
    seats
}

/// A thread for each seat, which makes 100 calls.
fn work_of<R: Threads + Wait + Clock + Abort + Sync>(
    rt: &R,
    alloc: Global,
    registry: &Registry,
    seats: Vec<Seat>,
) -> Vec<Work> {
    thread::map_vec(rt, seats, &|seat| make_calls(rt, alloc, registry, seat)).expect(rt, "memory")
}

/// A registry that seats have called, with their receipts.
#[derive(Drop)]
struct Called {
    registry: Registry,
    seats: Vec<Seat>,
    receipts: Vec<Vec<Receipt>>,
}

/// The seats and the receipts of such work, apart.
fn parted(rt: &impl Abort, alloc: Global, registry: Registry, work: Vec<Work>) -> Called {
    let mut seats = Vec::new(alloc);
    let mut all = Vec::new(alloc);
    for Work { seat, receipts } in work {
        assert_eq!(rt; (seat.made(b"one"), seat.made(b"two")), (50, 50));
        seats.push(seat).expect(rt, "memory");
        all.push(receipts).expect(rt, "memory");
    }
    Called {
        registry,
        seats,
        receipts: all,
    }
}

/// A registry of two tenants that four threads have called.
fn called_by_four<R: Threads + Wait + Clock + Abort + Sync>(rt: &R, alloc: Global) -> Called {
    let mut registry = two_tenants(rt, alloc, 1000);
    let seats = four_seats(rt, alloc, &mut registry);
    let work = work_of(rt, alloc, &registry, seats);
    parted(rt, alloc, registry, work)
}

/// The entry at a receipt's turn, in its tenant's audit.
fn entry_of<'a>(closed: &'a Closed, receipt: &Receipt) -> Option<&'a Entry> {
    let place = receipt.number().checked_sub(1)?;
    let (_, audit) = closed.audits.get(place as usize)?;
    audit.entries().get(receipt.turn()? as usize)
}

/// Each receipt of a seat has its entry at its turn, with its text, and no other entry is the seat's.
fn told_at_turns(alloc: Global, closed: &Closed, number: usize, receipts: &[Receipt]) -> Mem<bool> {
    for receipt in receipts {
        match entry_of(closed, receipt) {
            Some(entry) if usize::from(entry.seat) == number => {
                if !is_text(alloc, &entry.reply, receipt)? {
                    return Ok(false);
                }
            }
            _ => return Ok(false),
        }
    }
    let mut entries = 0usize;
    for (_, audit) in &closed.audits {
        for entry in audit.entries() {
            if usize::from(entry.seat) == number {
                entries = entries.saturating_add(1);
            }
        }
    }
    Ok(entries == receipts.len())
}

/// The turns of a seat's receipts of one tenant rise, so that its entries there, which are as many, are these in order.
fn turns_rise(receipts: &[Receipt], tenant: u64) -> bool {
    let mut next = 0u32;
    for receipt in receipts {
        if receipt.number() == tenant {
            match receipt.turn() {
                Some(turn) if turn >= next => next = turn.saturating_add(1),
                _ => return false,
            }
        }
    }
    true
}

/// Each tenant's audit has the calls of four seats, and the machine run over them gives the replies.
fn assert_lawful(rt: &impl Abort, alloc: Global, closed: &Closed) {
    for (_, audit) in &closed.audits {
        assert_eq!(rt; audit.entries().len(), 200);
        assert!(rt; is_replayed(rt, alloc, audit).expect(rt, "memory"));
    }
}

fn assert_told(rt: &impl Abort, alloc: Global, closed: &Closed, receipts: &[Vec<Receipt>]) {
    for (number, told) in receipts.iter().enumerate() {
        let so = told_at_turns(alloc, closed, number, told.as_slice());
        assert!(rt; so.expect(rt, "memory"));
        assert!(rt; turns_rise(told.as_slice(), 1) && turns_rise(told.as_slice(), 2));
    }
}

#[test]
fn four_threads_close(rt: HostRuntime) {
    let Called {
        registry,
        seats,
        receipts,
    } = called_by_four(&rt, rt.alloc());
    let closed = close(&rt, registry, seats);
    assert_lawful(&rt, rt.alloc(), &closed);
    assert_told(&rt, rt.alloc(), &closed, receipts.as_slice());
}

/// The audit of a tenant has so many entries, and the seats have so many calls of it.
fn is_mismatch(told: &Result<Closed, CloseFault>, name: &[u8], entries: u32, calls: u64) -> bool {
    match told {
        Err(
            CloseFault::Mismatch {
                tenant,
                audit,
                seats,
            },
        ) => tenant.as_slice() == name && *audit == entries && *seats == calls,
        _ => false,
    }
}

#[test]
fn a_seat_that_is_kept_back_is_missed(rt: HostRuntime) {
    let Called {
        registry,
        mut seats,
        receipts: _,
    } = called_by_four(&rt, rt.alloc());
    let _kept_back = seats.pop();
    assert!(rt; is_mismatch(&registry.close(seats), b"one", 200, 150));
}

/// Holds calls on the first tenant until another call was answered.
#[derive(Drop)]
struct Until<'a> {
    /// A call on the first tenant is held, under its lock.
    held: &'a AtomicBool,
    answered: &'a AtomicBool,
    last: &'a AtomicBool,
}

impl Gate for Until<'_> {
    fn wait_more(&self, tenant: &[u8], asked: u32) -> bool {
        if asked >= 9_999 {
            self.last.store(true, Ordering::SeqCst);
        }
        if tenant != b"one".as_slice() {
            return false;
        }
        self.held.store(true, Ordering::SeqCst);
        !self.answered.load(Ordering::SeqCst)
    }
}

/// Waits until this is so, ten seconds at most.
fn wait_for<R: Clock>(rt: &R, so: &AtomicBool) {
    for _ in 0..10_000 {
        if so.load(Ordering::SeqCst) {
            return;
        }
        thread::sleep(rt, Duration::from_millis(1));
    }
}

fn held_call<R: Wait + Clock + Abort>(
    rt: &R,
    alloc: Global,
    registry: &Registry,
    mut seat: Seat,
    gate: &Until,
    tenant: &[u8],
) -> bool {
    let step = put(alloc).expect(rt, "memory");
    told_to(rt, registry, &mut seat, gate, tenant, step).is_ok()
}

/// Two calls on two tenants: the first is held under its lock until the second, which begins later, was
/// answered.
fn overlap<R: Threads + Wait + Clock + Abort + Sync>(
    rt: &R,
    alloc: Global,
    registry: &Registry,
    one: Seat,
    two: Seat,
) -> bool {
    let held = AtomicBool::new(false);
    let answered = AtomicBool::new(false);
    let last = AtomicBool::new(false);
    let gate = Until {
        held: &held,
        answered: &answered,
        last: &last,
    };
    let (first, second) = thread::join(
        rt,
        || held_call(rt, alloc, registry, one, &gate, b"one"),
        || {
            wait_for(rt, &held);
            let told = held_call(rt, alloc, registry, two, &gate, b"two");
            answered.store(true, Ordering::SeqCst);
            told
        },
    );
    let was_held = held.load(Ordering::SeqCst) && !last.load(Ordering::SeqCst);
    first && second && was_held
}

#[test]
fn two_tenants_overlap(rt: HostRuntime) {
    let mut registry = two_tenants(&rt, rt.alloc(), 1);
    let one = seat_of(&rt, &mut registry);
    let two = seat_of(&rt, &mut registry);
    assert!(rt; overlap(&rt, rt.alloc(), &registry, one, two));
}

/// 100 quotas for the first tenant, which its cells in use come to pass.
fn resize_often<R: Wait>(rt: &R, registry: &Registry) -> bool {
    for turn in 0..100 {
        let quota = if turn % 2 == 0 { 100 } else { 1024 };
        if registry.resize(rt, b"one", quota).is_err() {
            return false;
        }
    }
    true
}

/// Threads that make calls, and one that resizes meanwhile.
fn work_beside_resizes<R: Threads + Wait + Clock + Abort + Sync>(
    rt: &R,
    alloc: Global,
    registry: &Registry,
    seats: Vec<Seat>,
) -> Vec<Work> {
    let (work, resized) = thread::join(
        rt,
        || work_of(rt, alloc, registry, seats),
        || resize_often(rt, registry),
    );
    assert!(rt; resized);
    work
}

/// A registry of two tenants that four threads have called, while another one resized the first.
fn called_beside_resizes<R: Threads + Wait + Clock + Abort + Sync>(
    rt: &R,
    alloc: Global,
) -> Called {
    let mut registry = two_tenants(rt, alloc, 1000);
    let seats = four_seats(rt, alloc, &mut registry);
    let work = work_beside_resizes(rt, alloc, &registry, seats);
    parted(rt, alloc, registry, work)
}

#[test]
fn four_threads_close_beside_resizes(rt: HostRuntime) {
    let Called {
        registry,
        seats,
        receipts: _,
    } = called_beside_resizes(&rt, rt.alloc());
    let closed = close(&rt, registry, seats);
    assert_replayed(&rt, rt.alloc(), &closed);
}

/// The first tenant's audit has all calls and quotas, and the machine run over them gives the replies.
fn assert_replayed(rt: &impl Abort, alloc: Global, closed: &Closed) {
    let (_, audit) = closed.audits.first().expect(rt, "an audit");
    assert_eq!(rt; (audit.entries().len(), audit.quotas().len()), (200, 100));
    assert!(rt; is_replayed(rt, alloc, audit).expect(rt, "memory"));
}
