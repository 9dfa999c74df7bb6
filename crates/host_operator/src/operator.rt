//! Tenants come, change and go while the server runs.
//!
//! The registry is the operator's alone. The threads that serve tenants have their keys, so nobody waits for a change
//! but the tenant that changes. How they serve them is not known here: a `TenantDirectory` does what is asked of it, so that the
//! threads' types stay out of these proofs. How a tenant is added is in `adding`, what is told of tenants in `showing`, and
//! what a dashboard is told of them in `sampling`.
ghost use Rattle.std.specs.Prelude.{◌≡◌, ◌⊎◌, IfOk, OnErr, OnOk};
ghost use Rattle.tenant_registry.specs.Removing.{without};
ghost use Rattle.host_operator.specs.Asking.{IsDone};

mod adding;
mod sampling;
mod showing;

use crate::answer::OperatorAnswer;
use crate::calls::{OperatorCall, OperatorRefusal};
use crate::directory::TenantDirectory;
use auto_compaction::{Retention, StandingOrder};
use connection_table::{Allowance, Stopping, TenantBounds};
use etcd_types::Mem;
use host_config::{Changes, changes_of, more_segments_of, object_of, retention_change_of};
use indexmap::IndexMap;
use serde_json::Value;
use std::alloc::{AllocGlobal, Global};
use std::rt::{Clock, Files};
use std::sync::{Arc, Wait};
use tenant_registry::{Registry, Usage};
use tenant_rules::OperatorFault;

/// Within how many seconds each thread has to have moved, for a server that is ready.
const LATELY: u64 = 5;

/// What the operator was told of a tenant.
#[derive(Clone, Copy, Drop)]
struct Told {
    /// By which its connections are counted.
    number: u64,
    allowance: Allowance,
    /// What it used when a dashboard was told last without waiting for it.
    usage: Option<Usage>,
    open_watches: usize,
}

impl Told {
    /// What was told of a tenant at first.
    fn new(number: u64, allowance: Allowance) -> Told {
        Told {
            number,
            allowance,
            usage: None,
            open_watches: 0,
        }
    }
}

/// Other terms that a body asks for.
#[derive(Clone, Copy)]
struct NewTerms {
    /// What was told of the tenant before.
    told: Told,
    changes: Changes,
    /// What of its history the tenant is to keep, if the body says so.
    retention: Option<Retention>,
}

impl NewTerms {
    /// What the tenant's clients may take under these terms.
    fn allowance(self) -> Allowance {
        let before = self.told.allowance;
        let connections = self.changes.open_connections;
        Allowance {
            budget: self.changes.budget.unwrap_or(before.budget),
            open_connections: connections.or(before.open_connections),
            retention: self.retention.unwrap_or(before.retention),
        }
    }
}

/// What of its history a tenant is to keep that kept this, if a body says so.
fn retention_in(object: &Value, before: Retention) -> Result<Option<Retention>, OperatorRefusal> {
    match retention_change_of(object, before) {
        Ok(retention) => Ok(retention),
        Err(_) => Err(OperatorFault::Limits.into()),
    }
}

/// How many segments a body asks for.
fn segments_in(alloc: Global, body: &[u8]) -> Result<u32, OperatorRefusal> {
    let object = object_of(alloc, body)?;
    match u32::try_from(more_segments_of(&object)?) {
        Ok(count) => Ok(count),
        Err(_) => Err(OperatorFault::Limits.into()),
    }
}

/// What serves the operator.
pub struct Operator<'x, R: Wait + Drop, D: TenantDirectory> {
    rt: R,
    alloc: Global,
    registry: &'x mut Registry,
    directory: D,
    bounds: TenantBounds,
    told: IndexMap<Vec<u8>, Told>,
    /// How many connections a tenant may have where nothing is told.
    part: usize,
    stopping: Arc<Stopping>,
}

impl<'x, R: Wait + Drop, D: TenantDirectory> Drop for Operator<'x, R, D> {
    fn drop(self) {
        let Operator {
            rt: _,
            alloc: _,
            registry: _,
            directory: _,
            bounds: _,
            told: _,
            part: _,
            stopping: _,
        } = self;
    }
}

impl<'x, R, D> Operator<'x, R, D>
where
    R: Wait + Clock + Files + AllocGlobal + Copy + Drop,
    D: TenantDirectory,
{
    /// The operator of a registry whose tenants are served, by what was told of these at the start.
    pub fn new(
        rt: R,
        alloc: Global,
        registry: &'x mut Registry,
        directory: D,
        bounds: TenantBounds,
        part: usize,
        stopping: Arc<Stopping>,
    ) -> Operator<'x, R, D> {
        Operator {
            rt,
            alloc,
            registry,
            directory,
            bounds,
            told: IndexMap::new(alloc),
            part,
            stopping,
        }
    }

    /// Remembers what was told of the tenants that are there from the start, in their order.
    pub fn remember(&mut self, allowances: &[Allowance]) -> Mem<()> {
        for (place, allowance) in allowances.iter().enumerate() {
            let Some(name) = self.registry.name_at(place) else {
                break;
            };
            let Some(number) = self.directory.number(name) else {
                break;
            };
            let told = Told::new(number, *allowance);
            self.told.insert(Vec::from_slice(self.alloc, name)?, told)?;
        }
        Ok(())
    }

    /// Does what is asked.
    pub(crate) fn answer(
        &mut self,
        call: OperatorCall<'_>,
        body: &[u8],
    ) -> Result<OperatorAnswer, OperatorRefusal>
        ensures { IfOk result (λ answer. IsDone call.entry answer.status) }
    {
        match call {
            OperatorCall::List => self.list(),
            OperatorCall::Show(name) => self.show(200, name),
            OperatorCall::Add => self.add(body),
            OperatorCall::Change(name) => self.change(name, body),
            OperatorCall::Remove(name) => self.remove(name),
            OperatorCall::Grow => self.grow(body),
            OperatorCall::Metrics => self.metrics(),
            OperatorCall::Health => Ok(OperatorAnswer::empty(200)),
            OperatorCall::Ready => self.ready(),
            OperatorCall::Stop => {
                self.stopping.tell();
                Ok(OperatorAnswer::empty(202))
            }
        }
    }

    /// Connections are accepted, and each thread that serves tenants has moved lately.
    fn ready(&self) -> Result<OperatorAnswer, OperatorRefusal>
        ensures { IfOk result (λ answer. answer.status ≡ 200) }
    {
        if self.stopping.has_ended() {
            return Err(OperatorRefusal::Stopping);
        }
        if !self.stopping.has_begun() {
            return Err(OperatorRefusal::Starting);
        }
        if !self.directory.have_moved(LATELY) {
            return Err(OperatorRefusal::Stuck);
        }
        Ok(OperatorAnswer::empty(200))
    }

    /// Makes more segments. They are made, also where there is no memory to tell how many there are.
    fn grow(&mut self, body: &[u8]) -> Result<OperatorAnswer, OperatorRefusal>
        ensures { IfOk result (λ answer. (answer.status ≡ 200) ⊎ (answer.status ≡ 204)) }
    {
        let count = segments_in(self.alloc, body)?;
        self.registry.add_segments(count)?;
        match self.show_pool() {
            Ok(answer) => Ok(answer),
            Err(_) => Ok(OperatorAnswer::empty(204)),
        }
    }

    /// Bounds the connections of a tenant.
    fn bound(&self, number: u64, allowance: Allowance) {
        let most = allowance.open_connections.unwrap_or(self.part);
        self.bounds.set(number, most);
    }

    /// Gives a tenant another quota, and then other bounds. After a fault nothing changed.
    fn change(&mut self, name: &[u8], body: &[u8]) -> Result<OperatorAnswer, OperatorRefusal>
        ensures { IfOk result (λ answer. (answer.status ≡ 200) ⊎ (answer.status ≡ 204)) }
    {
        let terms = self.terms_in(name, body)?;
        let number = terms.told.number;
        let order = match terms.retention {
            Some(retention) => Some(StandingOrder::new(self.alloc, number, retention)?),
            None => None,
        };
        if let Some(quota) = terms.changes.quota {
            self.registry.resize(&self.rt, name, quota)?;
        }
        self.tell_terms(name, terms.changes.budget, order);
        let allowance = terms.allowance();
        if terms.changes.open_connections.is_some() {
            self.bound(number, allowance);
        }
        if let Some(place) = self.told.get_mut(name) {
            place.allowance = allowance;
        }
        Ok(self.done(200, name, 204))
    }

    /// The other terms of a tenant that a body asks for.
    fn terms_in(&self, name: &[u8], body: &[u8]) -> Result<NewTerms, OperatorRefusal> {
        let object = object_of(self.alloc, body)?;
        self.terms_of(name, &object)
    }

    /// The same by the members of the body's object. That it can't be read is told before that the tenant is not there.
    fn terms_of(&self, name: &[u8], object: &Value) -> Result<NewTerms, OperatorRefusal> {
        let changes = changes_of(object)?;
        let Some(told) = self.told.get(name) else {
            return Err(OperatorFault::NoTenant.into());
        };
        Ok(NewTerms {
            told: *told,
            changes,
            retention: retention_in(object, told.allowance.retention)?,
        })
    }

    /// Serves a tenant by another budget and another standing order from now on.
    fn tell_terms(&self, name: &[u8], budget: Option<usize>, order: Option<StandingOrder>) {
        if let Some(budget) = budget {
            self.directory.change_budget(name, budget);
        }
        if let Some(order) = order {
            self.directory.change_order(name, order);
        }
    }

    /// Removes a tenant: its segments are free, and requests for it are answered that it is not there.
    fn remove(&mut self, name: &[u8]) -> Result<OperatorAnswer, OperatorRefusal>
        ensures status { IfOk result (λ answer. answer.status ≡ 204) }
        ensures removes { OnOk result (self.new.registry.now ≡ without self.old.registry.now name.now) }
        ensures err { OnErr result (self.new.registry.now ≡ self.old.registry.now) }
    {
        let audit = self.registry.remove(name)?;
        drop(audit);
        self.directory.retire(name);
        if let Some(told) = self.told.shift_remove(name) {
            self.bounds.remove(told.number);
        }
        Ok(OperatorAnswer::empty(204))
    }

    /// A tenant that was added or changed. Where there is no memory for its text, the answer has another status and no text: it
    /// is done, and no fault may be told.
    fn done(&self, status: u16, name: &[u8], without_text: u16) -> OperatorAnswer
        ensures { (result.status ≡ status) ⊎ (result.status ≡ without_text) }
    {
        match self.show(status, name) {
            Ok(answer) => answer,
            Err(_) => OperatorAnswer::empty(without_text),
        }
    }
}
