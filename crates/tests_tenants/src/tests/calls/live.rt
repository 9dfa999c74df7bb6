//! Quotas that a tenant is given between its calls. What else an operator does is asked in `registry`.
use super::{alone, call, close, seat_of, two_tenants};
use etcd_types::{Mem, Reply};
use gateway_text::write_reply;
use std::alloc::Global;
use std::process::Abort;
use std::rt::Clock;
use std::sync::Wait;
use steps_core::Host;
use tenant_registry::{Audit, Closed, Receipt, Registry, Seat};

/// A machine that is opened as an audit says, given its quotas and asked its steps, each in its place, gives the replies
/// that the audit has. No registry is asked: it would repeat its own faults.
pub(super) fn is_replayed(rt: &impl Abort, alloc: Global, audit: &Audit) -> Mem<bool> {
    let mut host = opened_as(rt, alloc, audit)?;
    for (place, entry) in audit.entries().iter().enumerate() {
        give_quotas(rt, &mut host, audit, place);
        let reply = host.step(alloc, b"again", &entry.step);
        if !reply.same_as(&entry.reply) {
            return Ok(false);
        }
    }
    Ok(true)
}

/// A host of one tenant, with an audit's opening.
fn opened_as(rt: &impl Abort, alloc: Global, audit: &Audit) -> Mem<Host> {
    let mut host = Host::new(alloc, 64)?;
    let quota = u64::from(audit.quota());
    let told = host.add(
        alloc,
        b"again",
        audit.cluster(),
        quota,
        u64::try_from(audit.first()).expect(rt, "a revision"),
    );
    assert!(rt; told.is_ok());
    Ok(host)
}

/// Gives the quotas that an audit has after so many entries.
fn give_quotas(rt: &impl Abort, host: &mut Host, audit: &Audit, place: usize) {
    for (before, quota) in audit.quotas() {
        if *before as usize == place {
            assert!(rt; host.resize(b"again", u64::from(*quota)).is_ok());
        }
    }
}

/// The receipt has the text of a reply.
pub(super) fn is_text(alloc: Global, reply: &Reply, receipt: &Receipt) -> Mem<bool> {
    let (status, text) = write_reply(alloc, reply)?;
    Ok(receipt.status() == status && receipt.body() == text.as_slice())
}

/// A tenant takes a put, refuses one below what it uses, and has room again; its alarm stays on.
fn put_and_resize<R: Wait + Clock + Abort>(
    rt: &R,
    alloc: Global,
    registry: &Registry,
    seat: &mut Seat,
) {
    assert_status(rt, alloc, registry, seat, 200);
    assert!(rt; registry.resize(rt, b"one", 4).is_ok());
    assert_status(rt, alloc, registry, seat, 429);
    assert!(rt; registry.resize(rt, b"one", 1024).is_ok());
    assert_status(rt, alloc, registry, seat, 429);
}

/// A put on the first tenant is answered with this status.
fn assert_status<R: Wait + Clock + Abort>(
    rt: &R,
    alloc: Global,
    registry: &Registry,
    seat: &mut Seat,
    wanted: u16,
) {
    assert_eq!(rt; call(rt, alloc, registry, seat, b"one").status(), wanted);
}

/// The first tenant's audit, after these calls on a registry whose audits take so many entries.
fn audit_of_resizes<R: Wait + Clock + Abort>(rt: &R, alloc: Global, cap: u32) -> Audit {
    let mut registry = two_tenants(rt, alloc, cap);
    let mut seat = seat_of(rt, &mut registry);
    put_and_resize(rt, alloc, &registry, &mut seat);
    let seats = alone(rt, alloc, seat);
    let Closed { audits } = close(rt, registry, seats);
    let (_, audit) = audits.into_iter().next().expect(rt, "an audit");
    audit
}

#[test]
fn a_resize_is_kept_and_replayed(rt: HostRuntime) {
    let audit = audit_of_resizes(&rt, rt.alloc(), 8);
    assert_eq!(rt; (audit.quota(), audit.entries().len()), (1024, 3));
    assert!(rt; audit.quotas() == [(1, 4), (2, 1024)].as_slice());
    assert!(rt; is_replayed(&rt, rt.alloc(), &audit).expect(&rt, "memory"));
}

#[test]
fn a_full_audit_keeps_no_quota(rt: HostRuntime) {
    let audit = audit_of_resizes(&rt, rt.alloc(), 1);
    assert_eq!(rt; (audit.entries().len(), audit.quotas().len()), (1, 0));
}
