//! What of a tenant's machine no script can ask: the hints at its watches, a first put's whole reply, copies of steps and of
//! replies.
ghost use Rattle.std.specs.Prelude.{◌≡◌, ◌+◌, ◌≤◌};
ghost use Rattle.etcd_types.specs.Limits.{max_quota, min_quota};
ghost use Rattle.cell_arena.specs.Loan.{IsLent};
ghost use Rattle.test_segments.specs.Shelf.{loan_of};

mod copies;
mod quota;
mod scripts;
mod steps;

use etcd_types::{Header, Mem, Reply, Step};
use scripts::{Ask, DUE, HINTED, Line, PUT};
use std::alloc::Global;
use std::process::Abort;
use steps::step_of;
use tenant_machine::{Hint, Machine, segments_for};
use test_segments::{Shelf, Source};

/// A machine with the segments that it is lent, which are its own, and come filled with what is not.
#[derive(Drop)]
struct Tenant {
    machine: Machine,
    segments: Shelf,
    ghost lent: { IsLent machine.store.share (loan_of segments) },
}

impl Tenant {
    /// A new tenant of cluster 7 at revision 1, of which the segments are those of its quota.
    fn new(alloc: Global, quota: u32) -> Mem<Tenant>
        requires quota { (min_quota ≤ quota) × (quota ≤ max_quota) }
    {
        Ok(Tenant {
            segments: Shelf::new(alloc, Source::Filled, segments_for(quota))?,
            machine: Machine::new(alloc, 7, quota, 1)?,
        })
    }

    fn answer(&mut self, alloc: Global, ask: Ask) -> Mem<Reply> {
        Ok(self.step(alloc, &step_of(alloc, ask)?))
    }

    fn step(&mut self, alloc: Global, step: &Step) -> Reply {
        self.machine.step(alloc, &mut self.segments, step)
    }

    /// Takes a step; what it is answered is not looked at.
    fn take(&mut self, alloc: Global, ask: Ask) -> Mem<()> {
        let _reply = self.answer(alloc, ask)?;
        Ok(())
    }

    /// Whether a put is answered by the whole of the reply to a first one.
    fn puts_first(&mut self, alloc: Global) -> Mem<bool> {
        let reply = self.answer(alloc, PUT)?;
        Ok(is_put_at(&reply, 7, 2))
    }

    fn first_told(&mut self, alloc: Global) -> Mem<(bool, u32)> {
        let is_put = self.puts_first(alloc)?;
        Ok((is_put, self.machine.filled_cells()))
    }
}

fn is_put_at(reply: &Reply, cluster: u64, revision: i64) -> bool {
    match reply {
        Reply::Put {
            header,
            prev_kv: None,
        } => { *header == Header { cluster, revision } }
        _ => false,
    }
}

/// The slots of a hint, each with a space behind it.
fn slots_of(alloc: Global, hint: &Hint) -> Mem<String> {
    let mut text = String::new(alloc);
    for slot in 0..=u8::MAX {
        if hint.has(slot) {
            write!(text, "{slot} ")?;
        }
    }
    Ok(text)
}

fn assert_hint(
    rt: &impl Abort,
    alloc: Global,
    tenant: &Tenant,
    number: usize,
    wanted: &str,
) -> Mem<()> {
    let hinted = slots_of(alloc, &tenant.machine.hint())?;
    assert!(rt; hinted.as_str() == wanted, "{hinted} after line {number}");
    Ok(())
}

fn assert_hints(rt: &impl Abort, alloc: Global, tenant: &mut Tenant, lines: &[Line]) -> Mem<()> {
    for (number, (ask, hinted)) in lines.iter().enumerate() {
        tenant.take(alloc, *ask)?;
        assert_hint(rt, alloc, tenant, number, hinted)?;
    }
    Ok(())
}

/// A new tenant hints at watches as each line says.
fn assert_hinted(rt: &impl Abort, alloc: Global, lines: &[Line]) -> Mem<()> {
    let mut tenant = Tenant::new(alloc, 64)?;
    let told = assert_hints(rt, alloc, &mut tenant, lines);
    let_go(tenant);
    told
}

/// One function lets a tenant go: that is long to prove.
fn let_go(_tenant: Tenant) {}

/// Whether a first put is answered by the whole of its reply, and the cells that are used then.
fn first_put(alloc: Global) -> Mem<(bool, u32)> {
    let mut tenant = Tenant::new(alloc, 1024)?;
    let told = tenant.first_told(alloc);
    let_go(tenant);
    told
}

// With ample memory a step is made: no clause says so.
#[test]
fn puts(rt: HostRuntime) -> Mem<()> {
    let (is_put, used) = first_put(rt.alloc())?;
    assert!(rt; is_put);
    assert_eq!(rt; used, 2);
    Ok(())
}

#[test]
fn hints_leave_no_watch_out(rt: HostRuntime) -> Mem<()> {
    assert_hinted(&rt, rt.alloc(), &HINTED)
}

#[test]
fn hints_tell_what_is_due(rt: HostRuntime) -> Mem<()> {
    assert_hinted(&rt, rt.alloc(), &DUE)
}
