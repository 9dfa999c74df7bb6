//! All tenants, by name, over one pool.
ghost use Rattle.std.specs.Prelude.{◌≡◌, ◌≤◌, false, IfOk, IfErr, IfSome, IsOk, OnErr, is_some, length, vec_len, []};
ghost use Rattle.tenant_machine.specs.Finding.{found_plan};
ghost use Rattle.steps_core.specs.Hosts.{finds_at, has_tenant, unplanned, IsSureAt};
ghost use Rattle.steps_core.specs.Hosts.{FitsAt, PlansAt, CommitsAt, StepsAt};
ghost use Rattle.steps_core.specs.Isolation.{step_turns, IsIsolated};

use crate::tenant::{Tenant, serve};
use etcd_types::limits::MAX_SEGMENTS;
use etcd_types::{Mem, Refusal, Reply, Step};
use indexmap::IndexMap;
use segment_pool::{Desk, Pool, Ticket};
use std::alloc::Global;
use std::marker::Model;
use tenant_machine::{FoundAnswer, Planned};

/// Many tenants over one pool of segments.
#[derive(Drop)]
pub struct Host {
    pub(crate) tenants: IndexMap<Vec<u8>, Tenant>,
    pub(crate) desk: Desk,
}

impl Model for Host {
    ghost use Rattle.steps_core.specs.Hosts.{HostState, host_code};
    ghost use Rattle.steps_core.specs.Sound.{IsHost, host_of};

    ghost Value = { HostState };

    ghost coded = { host_code };

    ghost view = { λ h. host_of h.tenants.entries h.desk };

    ghost invariant = { λ h. IsHost h.tenants.entries h.desk };
}

impl Host {
    /// A host of so many segments, and of no tenants.
    pub fn new(alloc: Global, segments: u32) -> Mem<Host>
        requires some { 1 ≤ segments }
        requires most { segments ≤ MAX_SEGMENTS }
        ensures { IfOk result (λ host. host ≡ record { tenants = []; segments = segments }) }
    {
        Ok(Host {
            tenants: IndexMap::new(alloc),
            desk: Desk {
                pool: Pool::new(alloc, segments)?,
                ticket: Ticket::idle(),
            },
        })
    }

    /// A tenant of this name is there.
    pub fn has(&self, tenant: &[u8]) -> bool
        ensures { result ≡ has_tenant self.now tenant.now }
    {
        self.tenants.contains_key(tenant)
    }

    /// Plans a step of a tenant. It is refused if no such tenant is there, or for want of memory; every
    /// other refusal is a reply that is planned.
    pub fn plan(&self, alloc: Global, tenant: &[u8], step: &Step) -> Result<Planned, Refusal>
        ensures ok { IfOk result (λ p. PlansAt self.now tenant.now step.now p) }
        ensures err { IfErr result (λ r. r ≡ unplanned self.now tenant.now) }
        ensures sure { IsSureAt self.now tenant.now step.now → IsOk result }
    {
        match self.tenants.get(tenant) {
            Some(tenant) => match tenant.machine.plan(alloc, step) {
                Ok(planned) => Ok(planned),
                Err(_) => Err(Refusal::Memory),
            },
            None => Err(Refusal::NoTenant),
        }
    }

    /// A tenant's answer to a step whose rows lie in their cells; none if the step has to be planned, or no such tenant is
    /// there. An error is want of memory.
    pub fn find(&self, alloc: Global, tenant: &[u8], step: &Step) -> Mem<Option<FoundAnswer<'_>>>
        ensures found { IfOk result (λ found. is_some found ≡ finds_at self.now tenant.now step.now) }
        ensures plan { IfOk result (λ found. IfSome found
            (λ answer. PlansAt self.now tenant.now step.now (found_plan answer))) }
        ensures sure { finds_at self.now tenant.now step.now ≡ false → IsOk result }
    {
        match self.tenants.get(tenant) {
            Some(found) => found.machine.find(alloc, step),
            None => Ok(None),
        }
    }

    /// Makes what was planned for a tenant, of the host as it was then. It takes no memory and cannot
    /// fail.
    pub fn commit(&mut self, tenant: &[u8], planned: Planned) -> Reply
        requires { FitsAt self.old tenant.now planned }
        ensures reply { result ≡ planned.reply }
        ensures after { CommitsAt self.old tenant.now planned self.new }
    {
        match self.tenants.get_mut(tenant) {
            Some(tenant) => serve(&mut self.desk, tenant, planned),
            None => unreachable!(),
        }
    }

    /// One step of a tenant: planned and committed, or refused.
    pub fn step(&mut self, alloc: Global, tenant: &[u8], step: &Step) -> Reply
        ensures { StepsAt self.old tenant.now step.now result self.new }
    {
        match self.plan(alloc, tenant, step) {
            Ok(planned) => self.commit(tenant, planned),
            Err(refusal) => Reply::Refused(refusal),
        }
    }

    /// Steps of any tenants in any order, each with its reply. If the replies can't be held, no step is
    /// made.
    pub fn run(&mut self, alloc: Global, calls: &[(Vec<u8>, Step)]) -> Mem<Vec<Reply>>
        ensures isolated { IfOk result
            (λ replies. IsIsolated self.old (step_turns calls.now replies.items) self.new) }
        ensures each { IfOk result (λ replies. vec_len replies ≡ length calls.now) }
        ensures err { OnErr result (self.new ≡ self.old) }
    {
        let mut replies = Vec::with_capacity(alloc, calls.len())?;
        for call in calls {
            let reply = self.step(alloc, call.0.as_slice(), &call.1);
            replies.push_reserved(reply);
        }
        Ok(replies)
    }
}
