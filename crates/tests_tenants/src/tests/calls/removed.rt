//! What becomes of the second of three tenants after calls on all, and what the other two keep.
use super::live::is_text;
use super::{Tenant, alone, close, put, registry_of, seat_of, told_to};
use etcd_types::{CopyOf, List, Mem, RangeReq, SortOrder, SortTarget, Step};
use std::alloc::Global;
use std::mem;
use std::process::Abort;
use std::rt::Clock;
use std::sync::Wait;
use tenant_registry::{Audit, Closed, Entry, OpenGate, Receipt, Registry, Seat, Usage};

/// Of the registry's 64 segments these take one, two and one. Their audits take all calls.
const THREE: [Tenant; 3] = [("one", 7, 64), ("two", 8, 128), ("three", 9, 64)];

/// A call that was made, and its receipt.
#[derive(Drop)]
struct Made {
    step: Step,
    receipt: Receipt,
}

/// A registry with two seats that call in turn, and all calls that they made.
#[derive(Drop)]
struct Caller {
    registry: Registry,
    next: Seat,
    other: Seat,
    made: Vec<Made>,
}

/// What a tenant uses, and the text of its rows.
#[derive(Drop)]
struct Has {
    usage: Usage,
    rows: Vec<u8>,
}

impl Caller {
    fn new(rt: &impl Abort, alloc: Global) -> Caller {
        let mut registry = registry_of(rt, alloc, &THREE, 100);
        let next = seat_of(rt, &mut registry);
        let other = seat_of(rt, &mut registry);
        Caller {
            registry,
            next,
            other,
            made: Vec::new(alloc),
        }
    }

    /// A put on each tenant, and a read of its rows.
    fn call_all<R: Wait + Clock + Abort>(&mut self, rt: &R, alloc: Global) {
        for name in ["one", "two", "three"] {
            let step = put(alloc).expect(rt, "memory");
            self.call(rt, alloc, name, step);
            let step = rows(alloc).expect(rt, "memory");
            self.call(rt, alloc, name, step);
        }
    }

    /// A call of the seat whose turn it is, and the text that it is answered.
    fn call<R: Wait + Clock + Abort>(
        &mut self,
        rt: &R,
        alloc: Global,
        name: &str,
        step: Step,
    ) -> Vec<u8> {
        let asked = step.copy_of(alloc).expect(rt, "memory");
        let told = told_to(
            rt,
            &self.registry,
            &mut self.next,
            &OpenGate,
            name.as_bytes(),
            step,
        );
        let receipt = told.expect(rt, "the tenant is there");
        mem::swap(&mut self.next, &mut self.other);
        let text = Vec::from_slice(alloc, receipt.body()).expect(rt, "memory");
        let made = Made {
            step: asked,
            receipt,
        };
        self.made.push(made).expect(rt, "memory");
        text
    }

    fn has<R: Wait + Clock + Abort>(&mut self, rt: &R, alloc: Global, name: &str) -> Has {
        let usage = usage_of(rt, alloc, &self.registry, name);
        let step = rows(alloc).expect(rt, "memory");
        let rows = self.call(rt, alloc, name, step);
        Has { usage, rows }
    }

    /// The audits of the tenants that are left are of all calls that were made on them.
    fn assert_closes(self, rt: &impl Abort, alloc: Global) {
        let Caller {
            registry,
            next,
            other,
            made,
        } = self;
        let mut seats = alone(rt, alloc, next);
        seats.push(other).expect(rt, "memory");
        let Closed { audits } = close(rt, registry, seats);
        assert_eq!(rt; audits.len(), 2);
        for (_, audit) in &audits {
            assert_audit(rt, alloc, audit, made.as_slice());
            assert!(rt; audit.quotas().is_empty());
        }
    }
}

/// Asks for all rows.
fn rows(alloc: Global) -> Mem<Step> {
    Ok(Step::Range(RangeReq {
        key: List::from_slice(alloc, &[0])?,
        range_end: List::from_slice(alloc, &[0])?,
        limit: 0,
        revision: 0,
        sort_order: SortOrder::Unsorted,
        sort_target: SortTarget::Key,
        serializable: true,
        keys_only: false,
        count_only: false,
        min_mod_revision: 0,
        max_mod_revision: 0,
        min_create_revision: 0,
        max_create_revision: 0,
    }))
}

fn usage_of<R: Wait + Abort>(rt: &R, alloc: Global, registry: &Registry, name: &str) -> Usage {
    let name = Vec::from_slice(alloc, name.as_bytes()).expect(rt, "memory");
    let told = registry.key(name).expect(rt, "memory");
    let key = told.expect(rt, "the tenant is there");
    key.usage(rt).expect(rt, "memory")
}

/// The audit has the calls that were made on its tenant, and no others, in their order.
fn assert_audit(rt: &impl Abort, alloc: Global, audit: &Audit, made: &[Made]) {
    let mut count = 0usize;
    for call in made {
        if call.receipt.number() == audit.number() {
            let entry = audit.entries().get(count).expect(rt, "an entry");
            assert_eq!(rt; call.receipt.turn().map(u64::from), Some(count as u64));
            assert_entry(rt, alloc, entry, call);
            count += 1;
        }
    }
    assert_eq!(rt; audit.entries().len(), count);
}

/// The entry is of that call.
fn assert_entry(rt: &impl Abort, alloc: Global, entry: &Entry, call: &Made) {
    assert_eq!(rt; entry.seat, call.receipt.seat());
    assert!(rt; entry.step.same_as(&call.step));
    assert!(rt; is_text(alloc, &entry.reply, &call.receipt).expect(rt, "memory"));
}

fn assert_same(rt: &impl Abort, before: &Has, after: &Has) {
    assert_eq!(rt; before.usage, after.usage);
    assert!(rt; before.rows == after.rows);
}

/// Removes the second tenant, which was given another quota after its first four calls. Its three segments are free.
fn remove_second(rt: &impl Abort, alloc: Global, caller: &mut Caller) {
    assert_eq!(rt; caller.registry.free_segments(), 59);
    let ended = caller.registry.remove(b"two").expect(rt, "it is there");
    assert_eq!(rt; caller.registry.free_segments(), 62);
    assert_audit(rt, alloc, ended.audit(), caller.made.as_slice());
    assert_eq!(rt; ended.audit().entries().len(), 6);
    assert!(rt; ended.audit().quotas() == [(4, 192)].as_slice());
}

#[test]
fn the_second_of_three_is_removed(rt: HostRuntime) {
    let alloc = rt.alloc();
    let mut caller = Caller::new(&rt, alloc);
    caller.call_all(&rt, alloc);
    caller.call_all(&rt, alloc);
    assert!(rt; caller.registry.resize(&rt, b"two", 192).is_ok());
    caller.call_all(&rt, alloc);
    let one = caller.has(&rt, alloc, "one");
    let three = caller.has(&rt, alloc, "three");
    remove_second(&rt, alloc, &mut caller);
    assert_same(&rt, &one, &caller.has(&rt, alloc, "one"));
    assert_same(&rt, &three, &caller.has(&rt, alloc, "three"));
    caller.assert_closes(&rt, alloc);
}
