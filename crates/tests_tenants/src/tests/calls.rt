//! Calls, turns, seats and closing, by worked examples.
mod ample;
mod live;
mod removed;
mod threads;

use etcd_types::limits::MAX_SEATS;
use etcd_types::{List, Mem, PutReq, Refusal, Step};
use std::alloc::Global;
use std::process::Abort;
use std::rt::Clock;
use std::sync::Wait;
use tenant_registry::{
    CloseFault, Closed, Gate, OpenGate, Receipt, Registry, Seat, SeatFault, TenantConfig,
};

/// The status and body of the first put of a tenant of cluster 7.
const FIRST_PUT: &str =
    r#"{"header":{"cluster_id":"7","member_id":"1","raft_term":"1","revision":"2"}}"#;

fn put(alloc: Global) -> Mem<Step> {
    Ok(Step::Put(put_request(alloc)?))
}

fn put_request(alloc: Global) -> Mem<PutReq> {
    Ok(PutReq {
        key: List::from_slice(alloc, b"foo")?,
        value: List::from_slice(alloc, b"bar")?,
        lease: 0,
        prev_kv: false,
        ignore_value: false,
        ignore_lease: false,
    })
}

fn config(alloc: Global, name: &str, cluster: u64, quota: u64, audit: u32) -> Mem<TenantConfig> {
    Ok(TenantConfig {
        name: Vec::from_slice(alloc, name.as_bytes())?,
        cluster,
        quota,
        first: 1,
        audit,
    })
}

/// A tenant's name, cluster and quota.
type Tenant = (&'static str, u64, u64);

const TWO: [Tenant; 2] = [("one", 7, 1024), ("two", 8, 2048)];

fn configs_of(alloc: Global, tenants: &[Tenant], audit: u32) -> Mem<Vec<TenantConfig>> {
    let mut configs = Vec::new(alloc);
    for (name, cluster, quota) in tenants {
        configs.push(config(alloc, name, *cluster, *quota, audit)?)?;
    }
    Ok(configs)
}

/// A registry of these tenants, in 64 segments.
fn registry_of(rt: &impl Abort, alloc: Global, tenants: &[Tenant], audit: u32) -> Registry {
    let configs = configs_of(alloc, tenants, audit).expect(rt, "memory");
    Registry::new(alloc, configs, 64).expect(rt, "the tenants are taken")
}

/// Two tenants: one of cluster 7 and 1,024 cells, two of cluster 8 and 2,048.
fn two_tenants(rt: &impl Abort, alloc: Global, audit: u32) -> Registry {
    registry_of(rt, alloc, &TWO, audit)
}

fn seat_of(rt: &impl Abort, registry: &mut Registry) -> Seat {
    registry.seat().expect(rt, "a seat")
}

fn close(rt: &impl Abort, registry: Registry, seats: Vec<Seat>) -> Closed {
    registry.close(seats).expect(rt, "the audits close")
}

/// What a seat is told. It stands by itself, since what a call promises is long.
fn told_to<R: Wait + Clock, G: Gate>(
    rt: &R,
    registry: &Registry,
    seat: &mut Seat,
    gate: &G,
    tenant: &[u8],
    step: Step,
) -> Result<Receipt, Refusal> {
    registry.call(rt, seat, gate, tenant, step)
}

/// A put on a tenant, which has a receipt.
fn call<R: Wait + Clock + Abort>(
    rt: &R,
    alloc: Global,
    registry: &Registry,
    seat: &mut Seat,
    tenant: &[u8],
) -> Receipt {
    let step = put(alloc).expect(rt, "memory");
    told_to(rt, registry, seat, &OpenGate, tenant, step).expect(rt, "the tenant is there")
}

/// The seats of a caller who is alone.
fn alone(rt: &impl Abort, alloc: Global, seat: Seat) -> Vec<Seat> {
    let mut seats = Vec::new(alloc);
    seats.push(seat).expect(rt, "memory");
    seats
}

/// A put on the first tenant has this place in its audit, and is answered as ever.
fn assert_turn<R: Wait + Clock + Abort>(
    rt: &R,
    alloc: Global,
    registry: &Registry,
    seat: &mut Seat,
    turn: Option<u32>,
) {
    let receipt = call(rt, alloc, registry, seat, b"one");
    assert_eq!(rt; (receipt.turn(), receipt.status()), (turn, 200));
}

/// Three puts over an audit that takes two.
fn fill_audit<R: Wait + Clock + Abort>(
    rt: &R,
    alloc: Global,
    registry: &Registry,
    seat: &mut Seat,
) {
    let first = call(rt, alloc, registry, seat, b"one");
    assert_eq!(rt; (first.turn(), first.status()), (Some(0), 200));
    assert!(rt; first.body() == FIRST_PUT.as_bytes());
    assert_turn(rt, alloc, registry, seat, Some(1));
    assert_turn(rt, alloc, registry, seat, None);
    assert_eq!(rt; (seat.made(b"one"), seat.missed(b"one")), (2, 1));
    assert_eq!(rt; (seat.made(b"two"), seat.missed(b"two")), (0, 0));
}

#[test]
fn a_full_audit_serves_on(rt: HostRuntime) {
    let mut registry = two_tenants(&rt, rt.alloc(), 2);
    let mut seat = seat_of(&rt, &mut registry);
    fill_audit(&rt, rt.alloc(), &registry, &mut seat);
    let seats = alone(&rt, rt.alloc(), seat);
    let Closed { audits } = close(&rt, registry, seats);
    assert_eq!(rt; audits.len(), 2);
    assert_eq!(rt; audits[0].1.entries().len(), 2);
    assert_eq!(rt; (audits[1].1.cluster(), audits[1].1.quota()), (8, 2048));
}

/// A call on a tenant that is not there is refused, and no seat counts it.
fn assert_nobody<R: Wait + Clock + Abort>(
    rt: &R,
    alloc: Global,
    registry: &Registry,
    seat: &mut Seat,
) {
    let step = put(alloc).expect(rt, "memory");
    let refused = told_to(rt, registry, seat, &OpenGate, b"three", step);
    assert!(rt; matches!(&refused, Err(Refusal::NoTenant)));
    assert_eq!(rt; seat.missed(b"three"), 0);
}

#[test]
fn who_is_there(rt: HostRuntime) {
    let mut registry = two_tenants(&rt, rt.alloc(), 0);
    assert!(rt; registry.has(b"two") && !registry.has(b"three"));
    let mut seat = seat_of(&rt, &mut registry);
    assert_nobody(&rt, rt.alloc(), &registry, &mut seat);
}

#[test]
fn seats_are_64(rt: HostRuntime) {
    let mut registry = two_tenants(&rt, rt.alloc(), 0);
    for _ in 0..MAX_SEATS {
        assert!(rt; registry.seat().is_ok());
    }
    assert!(rt; matches!(&registry.seat(), Err(SeatFault::Full)));
}

/// A seat of a registry of its own.
fn seat_of_another(rt: &impl Abort, alloc: Global) -> Seat {
    let mut other = two_tenants(rt, alloc, 8);
    seat_of(rt, &mut other)
}

#[test]
fn seats_of_two_registries(rt: HostRuntime) {
    let mut registry = two_tenants(&rt, rt.alloc(), 8);
    let seat = seat_of(&rt, &mut registry);
    let mut seats = alone(&rt, rt.alloc(), seat);
    let other = seat_of_another(&rt, rt.alloc());
    seats.push(other).expect(&rt, "memory");
    assert!(rt; matches!(&registry.close(seats), Err(CloseFault::Double(0))));
}

/// A registry is not closed while a key to its first tenant is out.
fn is_lent(rt: &impl Abort, alloc: Global, registry: Registry) -> bool {
    let name = Vec::from_slice(alloc, b"one").expect(rt, "memory");
    let key = registry.key(name).expect(rt, "memory");
    let told = registry.close(Vec::new(alloc));
    drop(key);
    matches!(told, Err(CloseFault::Lent { .. }))
}

#[test]
fn a_registry_with_a_key_out_is_not_closed(rt: HostRuntime) {
    let registry = two_tenants(&rt, rt.alloc(), 0);
    assert!(rt; is_lent(&rt, rt.alloc(), registry));
}
