//! What may lack memory, with enough of it.
use super::{alone, config, put, put_request, seat_of, two_tenants};
use etcd_types::Step;
use std::alloc::Global;
use std::process::Abort;
use std::rt::Clock;
use std::sync::Wait;
use tenant_registry::{Key, OpenGate, Registry, Seat, SeatedCalls};

/// What a key tells of a tenant at its opening.
fn assert_key<R: Wait + Clock + Abort>(rt: &R, alloc: Global, key: &Key, seat: &mut Seat) {
    assert_eq!(rt; key.revision(rt).ok(), Some(1));
    assert_weighs(rt, alloc, key);
    assert_told(rt, key, seat);
}

/// What a put, one that asks for the row before it, and a take may take until they are answered.
fn assert_weighs<R: Wait + Abort>(rt: &R, alloc: Global, key: &Key) {
    let step = put(alloc).expect(rt, "memory");
    assert!(rt; key.weight(rt, &step, 1).is_ok());
    let mut request = put_request(alloc).expect(rt, "memory");
    request.prev_kv = true;
    assert!(rt; key.weight(rt, &Step::Put(request), 1).is_ok());
    assert!(rt; key.weight(rt, &Step::Take(0), 1).is_ok());
}

/// A call by a key, and what its tenant uses then.
fn assert_told<R: Wait + Clock + Abort>(rt: &R, key: &Key, seat: &mut Seat) {
    let told = key.call(rt, seat, &OpenGate, Step::Defragment);
    assert_eq!(rt; told.expect(rt, "memory").status(), 200);
    let usage = key.usage(rt).expect(rt, "memory");
    assert_eq!(rt; (usage.keys, usage.revision), (0, 1));
    assert!(rt; matches!(key.usage_if_idle(), Some(Ok(_))));
}

/// The keys of all tenants, in their order.
fn assert_keys<R: Wait + Clock + Abort>(
    rt: &R,
    alloc: Global,
    registry: &Registry,
    seat: &mut Seat,
) {
    let keys = registry.keys(alloc).expect(rt, "memory");
    assert_eq!(rt; keys.len(), 2);
    for (key, name) in keys.iter().zip(["one", "two"]) {
        assert!(rt; key.name() == name.as_bytes());
        assert_key(rt, alloc, key, seat);
    }
}

/// One tenant more, while the others are there.
fn assert_adds(rt: &impl Abort, alloc: Global, registry: &mut Registry) {
    let three = config(alloc, "three", 9, 1024, 8).expect(rt, "memory");
    assert!(rt; registry.add(&three).is_ok());
    assert!(rt; registry.has(b"three"));
}

/// The seats of some callers come back as they were given.
fn assert_calls(rt: &impl Abort, alloc: Global, seat: Seat) -> Vec<Seat> {
    let seats = alone(rt, alloc, seat);
    let calls = SeatedCalls::all(alloc, seats, &OpenGate).expect(rt, "memory");
    let seats = SeatedCalls::into_seats(alloc, calls).expect(rt, "memory");
    assert_eq!(rt; seats.len(), 1);
    for seat in seats.iter() {
        assert_eq!(rt; seat.number(), 0);
    }
    seats
}

#[test]
fn memory_is_there(rt: HostRuntime) {
    let alloc = rt.alloc();
    let mut registry = two_tenants(&rt, alloc, 8);
    assert!(rt; registry.add_segments(1).is_ok());
    assert_eq!(rt; registry.segments(), 65);
    let mut seat = seat_of(&rt, &mut registry);
    assert_keys(&rt, alloc, &registry, &mut seat);
    assert_adds(&rt, alloc, &mut registry);
    let seats = assert_calls(&rt, alloc, seat);
    assert!(rt; registry.close(seats).is_ok());
}
