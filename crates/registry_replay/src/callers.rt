//! Two callers of a registry, who take turns.
use crate::steps::{refused, step_of, tenant_of};
use etcd_types::{Mem, Refusal, Step};
use host_front::{Answer, Body, LentEvent, LentLine, LineAnswer};
use script_replay::{Asked, ReplayFault};
use std::alloc::Global;
use std::mem;
use std::rt::Clock;
use std::sync::Wait;
use tenant_registry::{Key, OpenGate, Receipt, Registry, Seat, TenantConfig};
use tenant_rules::OperatorFault;

/// How tenants are called.
#[derive(Clone, Copy)]
pub(crate) struct Way {
    /// How many entries each audit takes.
    pub(crate) entries: u32,
    pub(crate) by_key: bool,
}

/// A registry with two seats.
#[derive(Drop)]
pub(crate) struct Callers {
    registry: Registry,
    way: Way,
    /// All keys that were used.
    keys: Vec<Key>,
    /// The seat that calls next.
    next: Seat,
    other: Seat,
}

impl Callers {
    pub(crate) fn new(alloc: Global, segments: u32, way: Way) -> Result<Callers, ReplayFault> {
        let Ok(mut registry) = Registry::new(alloc, Vec::new(alloc), segments) else {
            return Err(ReplayFault::Memory);
        };
        let (Ok(next), Ok(other)) = (registry.seat(), registry.seat()) else {
            return Err(ReplayFault::Memory);
        };
        Ok(Callers {
            registry,
            way,
            keys: Vec::new(alloc),
            next,
            other,
        })
    }

    /// Ends the registry, with both seats. Says whether the audits closed.
    pub(crate) fn close(self, alloc: Global) -> Result<bool, ReplayFault> {
        let Callers {
            registry,
            way: _,
            keys,
            next,
            other,
        } = self;
        drop(keys);
        match two_of(alloc, next, other) {
            Ok(seats) => Ok(registry.close(seats).is_ok()),
            Err(_) => Err(ReplayFault::Memory),
        }
    }

    /// What a line is answered.
    pub(crate) fn answer<R: Wait + Clock>(
        &mut self,
        rt: &R,
        alloc: Global,
        asked: &Asked<'_>,
    ) -> Result<LineAnswer, ReplayFault> {
        let told = match *asked {
            Asked::Pool { .. } => Ok(LineAnswer::Done),
            Asked::Live(line) => self.answer_live(rt, alloc, line),
        };
        match told {
            Ok(answer) => Ok(answer),
            Err(_) => Err(ReplayFault::Memory),
        }
    }

    fn answer_live<R: Wait + Clock>(
        &mut self,
        rt: &R,
        alloc: Global,
        line: LentLine<'_>,
    ) -> Mem<LineAnswer> {
        match line {
            LentLine::Event(event) => Ok(LineAnswer::Event(self.answer_event(rt, alloc, event)?)),
            LentLine::Add {
                name,
                cluster,
                quota,
                first,
            } => self.add(alloc, name, cluster, quota, first),
            LentLine::Resize { name, quota } => {
                let told = self.registry.resize(rt, name, quota);
                Ok(told_of(told.map(|_| ())))
            }
            LentLine::Remove { name } => Ok(self.remove(rt, name)),
        }
    }

    fn add(
        &mut self,
        alloc: Global,
        name: &[u8],
        cluster: u64,
        quota: u64,
        first: u64,
    ) -> Mem<LineAnswer> {
        let config = TenantConfig {
            name: Vec::from_slice(alloc, name)?,
            cluster,
            quota,
            first,
            audit: self.way.entries,
        };
        Ok(told_of(self.registry.add(&config)))
    }

    /// The keys to a tenant that was removed find nothing. Where one does, the line is not answered as it is to be.
    fn remove<R: Wait + Clock>(&mut self, rt: &R, name: &[u8]) -> LineAnswer {
        let told = self.registry.remove(name);
        if told.is_ok() && self.finds(rt, name) {
            return LineAnswer::No(OperatorFault::Taken);
        }
        told_of(told.map(|_| ()))
    }

    /// Whether a key finds a tenant of this name.
    fn finds<R: Wait + Clock>(&mut self, rt: &R, name: &[u8]) -> bool {
        let mut found = false;
        for key in self.keys.as_slice() {
            if key.name() == name {
                let told = key_told_to(rt, key, &mut self.next, Step::Status);
                found = found || !matches!(told, Err(Refusal::NoTenant));
            }
        }
        found
    }

    /// The path, the tenant and the body of a call are looked at in this order.
    fn answer_event<R: Wait + Clock>(
        &mut self,
        rt: &R,
        alloc: Global,
        event: LentEvent<'_>,
    ) -> Mem<Answer> {
        let tenant = tenant_of(event);
        match step_of(alloc, event) {
            Err(Refusal::NoPath) => refused(alloc, Refusal::NoPath),
            _ if !self.registry.has(tenant) => refused(alloc, Refusal::NoTenant),
            Err(refusal) => refused(alloc, refusal),
            Ok(step) => self.call(rt, alloc, tenant, step),
        }
    }

    /// A call of the seat whose turn it is.
    fn call<R: Wait + Clock>(
        &mut self,
        rt: &R,
        alloc: Global,
        tenant: &[u8],
        step: Step,
    ) -> Mem<Answer> {
        let told = if self.way.by_key {
            self.told_by_key(rt, alloc, tenant, step)?
        } else {
            told_to(rt, &self.registry, &mut self.next, tenant, step)
        };
        mem::swap(&mut self.next, &mut self.other);
        match told {
            Ok(receipt) => Ok(Answer {
                status: receipt.status(),
                body: Body::Made(receipt.into_body()),
            }),
            Err(refusal) => refused(alloc, refusal),
        }
    }

    fn told_by_key<R: Wait + Clock>(
        &mut self,
        rt: &R,
        alloc: Global,
        tenant: &[u8],
        step: Step,
    ) -> Mem<Result<Receipt, Refusal>> {
        let Some(key) = self.registry.key(Vec::from_slice(alloc, tenant)?)? else {
            return Ok(Err(Refusal::NoTenant));
        };
        let told = key_told_to(rt, &key, &mut self.next, step);
        self.keys.push(key)?;
        Ok(told)
    }
}

fn two_of(alloc: Global, one: Seat, other: Seat) -> Mem<Vec<Seat>> {
    let mut seats = Vec::new(alloc);
    seats.push(one)?;
    seats.push(other)?;
    Ok(seats)
}

/// What the operator is told.
fn told_of(told: Result<(), OperatorFault>) -> LineAnswer {
    match told {
        Ok(()) => LineAnswer::Done,
        Err(fault) => LineAnswer::No(fault),
    }
}

/// What a seat is told. It stands by itself, since what a call promises is long.
fn told_to<R: Wait + Clock>(
    rt: &R,
    registry: &Registry,
    seat: &mut Seat,
    tenant: &[u8],
    step: Step,
) -> Result<Receipt, Refusal> {
    registry.call(rt, seat, &OpenGate, tenant, step)
}

/// The same by a key.
fn key_told_to<R: Wait + Clock>(
    rt: &R,
    key: &Key,
    seat: &mut Seat,
    step: Step,
) -> Result<Receipt, Refusal> {
    key.call(rt, seat, &OpenGate, step)
}
