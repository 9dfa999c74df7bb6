//! Tenants with segments of their own, each from any source, which are answered as a host answers them.
ghost use Rattle.std.specs.Prelude.{◌≡◌, ◌≤◌, true};
ghost use Rattle.etcd_types.specs.Limits.{last_revision, max_quota, min_quota};

use etcd_types::limits::{DEFAULT_SEGMENTS, LAST_REVISION, MAX_QUOTA, MIN_QUOTA};
use etcd_types::{Mem, Refusal, Reply, Step};
use gateway_json::{read_posted, target_of};
use gateway_text::write_reply;
use host_front::{LentEvent, LentLine};
use std::alloc::Global;
use std::marker::Model;
use tenant_machine::{Machine, segments_for};
use test_segments::{Shelf, Source};

/// A tenant that has its segments for itself.
#[derive(Drop)]
struct Single {
    name: Vec<u8>,
    machine: Machine,
    segments: Shelf,
    /// How many segments it takes, drawn or not.
    reserved: u32,
}

impl Model for Single {
    ghost use Rattle.cell_arena.specs.Loan.{IsLent};
    ghost use Rattle.tenant_machine.specs.Tenants.{MachineState, machine_code};
    ghost use Rattle.test_segments.specs.Shelf.{loan_of};

    ghost Value = { MachineState };

    ghost coded = { machine_code };

    ghost view = { λ t. t.machine };

    ghost invariant = { λ t. IsLent t.machine.store.share (loan_of t.segments) };
}

impl Single {
    fn new(
        alloc: Global,
        source: Source,
        name: &[u8],
        cluster: u64,
        quota: u32,
        first: u64,
    ) -> Mem<Single>
        requires cluster { 1 ≤ cluster }
        requires least { min_quota ≤ quota }
        requires greatest { quota ≤ max_quota }
        requires first { 1 ≤ first }
        requires last { first ≤ last_revision }
    {
        let reserved = segments_for(quota);
        Ok(Single {
            name: Vec::from_slice(alloc, name)?,
            segments: Shelf::new(alloc, source, reserved)?,
            reserved,
            machine: Machine::new(alloc, cluster, quota, first as i64)?,
        })
    }

    /// The status and the body that an event is answered.
    fn answer(&mut self, alloc: Global, event: LentEvent<'_>) -> Mem<(u16, Vec<u8>)> {
        match step_of(alloc, event) {
            Ok(step) => self.step(alloc, &step),
            Err(refusal) => refuse(alloc, refusal),
        }
    }

    fn step(&mut self, alloc: Global, step: &Step) -> Mem<(u16, Vec<u8>)> {
        let planned = self.machine.plan(alloc, step)?;
        let answer = write_reply(alloc, planned.reply());
        let _ = self.machine.commit(&mut self.segments, planned);
        answer
    }
}

/// The step of an event, or the refusal of a call that is none.
pub(super) fn step_of(alloc: Global, event: LentEvent<'_>) -> Result<Step, Refusal> {
    match event {
        LentEvent::Call {
            method,
            target,
            body,
        } => match target_of(target) {
            Some(target) => read_posted(alloc, method, target.path, body),
            None => Err(Refusal::NoPath),
        },
        LentEvent::Take { slot, .. } => Ok(Step::Take(slot)),
        LentEvent::DropWatch { slot, .. } => Ok(Step::DropWatch(slot)),
        LentEvent::Tick { moment, .. } => Ok(Step::Tick(moment)),
        LentEvent::CatchUp { budget, .. } => Ok(Step::CatchUp(budget)),
    }
}

fn is_quota(quota: u64) -> bool
    ensures least { result ≡ true → min_quota ≤ quota }
    ensures greatest { result ≡ true → quota ≤ max_quota }
{
    quota >= MIN_QUOTA && quota <= MAX_QUOTA
}

/// Tenants by name.
#[derive(Drop)]
pub(super) struct Singles {
    source: Source,
    tenants: Vec<Single>,
    /// How many all of them may take.
    pub(super) segments: u32,
}

impl Singles {
    pub(super) fn new(alloc: Global, source: Source) -> Singles {
        Singles {
            source,
            tenants: Vec::new(alloc),
            segments: DEFAULT_SEGMENTS,
        }
    }

    /// What the operator is told of a tenant that comes.
    pub(super) fn operate(&mut self, alloc: Global, line: LentLine<'_>) -> Mem<&'static str> {
        match line {
            LentLine::Add {
                name,
                cluster,
                quota,
                first,
            } => self.add(alloc, name, cluster, quota, first),
            _ => Ok(""),
        }
    }

    fn add(
        &mut self,
        alloc: Global,
        name: &[u8],
        cluster: u64,
        quota: u64,
        first: u64,
    ) -> Mem<&'static str> {
        if cluster == 0 || !is_quota(quota) || first == 0 || first > LAST_REVISION {
            return Ok("no limits");
        }
        let quota = quota as u32;
        if self.place_of(name).is_some() {
            return Ok("no taken");
        }
        if segments_for(quota) > self.unreserved() {
            return Ok("no short");
        }
        let single = Single::new(alloc, self.source, name, cluster, quota, first)?;
        self.tenants.push(single)?;
        Ok("ok")
    }

    fn place_of(&self, name: &[u8]) -> Option<usize> {
        self.tenants
            .iter()
            .position(|single| single.name.as_slice() == name)
    }

    fn unreserved(&self) -> u32 {
        let mut left = self.segments;
        for single in &self.tenants {
            left = left.saturating_sub(single.reserved);
        }
        left
    }

    /// The status and the body that an event is answered.
    pub(super) fn answer(&mut self, alloc: Global, event: LentEvent<'_>) -> Mem<(u16, Vec<u8>)> {
        for single in self.tenants.iter_mut() {
            if is_of(event, single.name.as_slice()) {
                return single.answer(alloc, event);
            }
        }
        refuse_unknown(alloc, event)
    }
}

/// No tenant has the name. A path that names no call is told first.
fn refuse_unknown(alloc: Global, event: LentEvent<'_>) -> Mem<(u16, Vec<u8>)> {
    if let LentEvent::Call {
        method,
        target,
        body,
    } = event
    {
        let path = target_of(target).map_or(b"".as_slice(), |it| it.path);
        if let Err(Refusal::NoPath) = read_posted(alloc, method, path, body) {
            return refuse(alloc, Refusal::NoPath);
        }
    }
    refuse(alloc, Refusal::NoTenant)
}

/// Whether an event is of this tenant.
fn is_of(event: LentEvent<'_>, name: &[u8]) -> bool {
    match event {
        LentEvent::Call { target, .. } => target_of(target).is_some_and(|it| it.tenant == name),
        LentEvent::Take { tenant, .. }
        | LentEvent::DropWatch { tenant, .. }
        | LentEvent::Tick { tenant, .. }
        | LentEvent::CatchUp { tenant, .. } => tenant == name,
    }
}

fn refuse(alloc: Global, refusal: Refusal) -> Mem<(u16, Vec<u8>)> {
    write_reply(alloc, &Reply::Refused(refusal))
}
