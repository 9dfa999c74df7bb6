//! A tenant's lock by itself: who has its key calls the tenant, and holds no registry.
//!
//! A key is to one tenant for as long as it lives. Where the tenant was removed it finds nothing, also if another
//! tenant was added since.
ghost use Rattle.std.specs.Prelude.{◌≡◌, IfErr, IfOk, IfSome, OnErr};
ghost use Rattle.tenant_calls.specs.Answers.{IsUncalled};
ghost use Rattle.tenant_registry.specs.Calling.{shown};
ghost use Rattle.tenant_registry.specs.Registries.{tenants_of};
ghost use Rattle.tenant_registry.specs.Serving.{IsReceipt, IsRevisionOf};
ghost use Rattle.tenant_registry.specs.Using.{IsUsage};
ghost use Rattle.tenant_audit.specs.Seats.{Keeps, KeepsLists};

use crate::gate::Gate;
use crate::kept::{Kept, Receipt};
use crate::registry::serve;
use crate::tenant::{Lock, Tenant};
use crate::usage::Usage;
use etcd_types::{Mem, Refusal, Step};
use indexmap::IndexMap;
use std::alloc::Global;
use std::marker::Model;
use std::rt::Clock;
use std::sync::{Arc, Wait};
use tenant_audit::{Opening, Seat};
use tenant_calls::TenantKey;
use tenant_machine::Hint;

/// The key to a tenant of a registry. A contract sees it as the tenant's name and opening.
pub struct Key {
    name: Vec<u8>,
    opening: Opening,
    kept: Arc<Lock>,
}

impl Drop for Key {
    fn drop(self) {
        let Key {
            name: _,
            opening: _,
            kept: _,
        } = self;
    }
}

impl Model for Key {
    ghost use Rattle.tenant_registry.specs.Calling.{KeyState};

    ghost Value = { KeyState };

    ghost view = { λ k. record { name = k.name.items; opening = k.opening } };
}

impl Key {
    /// The key to this tenant, which has that name.
    pub(crate) fn new(name: Vec<u8>, tenant: &Tenant) -> Mem<Key>
        ensures { IfOk result (λ key. key ≡ record { name = name.items; opening = tenant.now.opening }) }
    {
        let kept = Arc::try_clone(&tenant.kept)?;
        Ok(Key {
            name,
            opening: tenant.opening,
            kept,
        })
    }

    /// The tenant's name.
    pub fn name(&self) -> &[u8]
        ensures { result.now ≡ self.now.name }
    {
        self.name.as_slice()
    }

    /// The tenant's number, which no other tenant of its registry ever has.
    pub fn number(&self) -> u64
        ensures { result ≡ self.now.opening.number }
    {
        self.opening.number
    }

    /// One step of the tenant under its lock, as by `Registry::call`. It is refused if the tenant was removed, and
    /// else only for want of memory.
    pub fn call<R: Wait + Clock, G: Gate>(
        &self,
        rt: &R,
        seat: &mut Seat,
        gate: &G,
        step: Step,
    ) -> Result<Receipt, Refusal>
        ensures receipt { IfOk result (λ receipt. IsReceipt self.now.opening seat.old.number step receipt) }
        ensures keeps { IfOk result
            (λ receipt. Keeps receipt.turn self.now.name step receipt seat.old seat.new) }
        ensures refused { IfErr result (λ r. IsUncalled r) }
        ensures err { OnErr result (KeepsLists seat.old seat.new) }
    {
        let name = self.name.as_slice();
        serve(rt, seat, gate, &self.kept, self.opening, name, step)
    }

    /// Which takes of its watches may not be quiet, read under its lock; none if it was removed. It promises nothing: a
    /// call that comes between may change it.
    pub fn hint<R: Wait>(&self, rt: &R) -> Option<Hint> {
        match there(&*self.kept.lock(rt), self.opening) {
            Some(kept) => Some(kept.hint()),
            None => None,
        }
    }

    /// How many bytes a step may take until its answer is sent, read under the lock: a bound that need not be more exact
    /// than to be no more than `enough`. It promises nothing beyond its refusals, which are those of `call`: a call that
    /// comes between may change it.
    pub fn weight<R: Wait>(&self, rt: &R, step: &Step, enough: u64) -> Result<u64, Refusal>
        ensures { IfErr result (λ r. IsUncalled r) }
    {
        weight_there(&*self.kept.lock(rt), self.opening, step, enough)
    }

    /// The tenant's current revision, read under its lock. It is refused as `call` is.
    pub fn revision<R: Wait>(&self, rt: &R) -> Result<i64, Refusal>
        ensures is { IfOk result (λ revision. IsRevisionOf self.now.opening revision) }
        ensures refused { IfErr result (λ r. IsUncalled r) }
    {
        revision_there(&*self.kept.lock(rt), self.opening)
    }

    /// What the tenant uses, read under its lock. It is refused as `call` is.
    pub fn usage<R: Wait>(&self, rt: &R) -> Result<Usage, Refusal>
        ensures is { IfOk result (λ usage. IsUsage self.now.opening usage) }
        ensures refused { IfErr result (λ r. IsUncalled r) }
    {
        usage_there(&*self.kept.lock(rt), self.opening)
    }

    /// The same for who can't wait; none where a call is under way.
    pub fn usage_if_idle(&self) -> Option<Result<Usage, Refusal>>
        ensures is { IfSome result (λ told. IfOk told (λ usage. IsUsage self.now.opening usage)) }
        ensures refused { IfSome result (λ told. IfErr told (λ r. IsUncalled r)) }
    {
        let kept = self.kept.try_lock()?;
        Some(usage_there(&*kept, self.opening))
    }
}

/// A key to each of some tenants, in their order.
pub(crate) fn keys_to(alloc: Global, tenants: &IndexMap<Vec<u8>, Tenant>) -> Mem<Vec<Key>>
    ensures { IfOk result (λ keys. shown keys.items ≡ tenants_of tenants.now.entries) }
{
    let mut keys = Vec::with_capacity(alloc, tenants.len())?;
    for (name, tenant) in tenants.iter() {
        let name = Vec::from_slice(alloc, name.as_slice())?;
        keys.push(Key::new(name, tenant)?)?;
    }
    Ok(keys)
}

impl TenantKey for Key {
    ghost number_of = { λ key. key.opening.number };

    ghost name_of = { λ key. key.name };

    fn name(&self) -> &[u8] {
        self.name()
    }

    fn number(&self) -> u64 {
        self.number()
    }
}

/// What is under a lock, if it is the tenant that was opened so.
fn there(kept: &Option<Kept>, opening: Opening) -> Option<&Kept>
    ensures { IfSome result (λ kept. kept.now.audit.opening ≡ opening) }
{
    match kept {
        Some(kept) if kept.is_of(opening) => Some(kept),
        _ => None,
    }
}

/// The current revision of the tenant that was opened so, if it is under the lock.
fn revision_there(kept: &Option<Kept>, opening: Opening) -> Result<i64, Refusal>
    ensures is { IfOk result (λ revision. IsRevisionOf opening revision) }
    ensures refused { IfErr result (λ r. IsUncalled r) }
{
    let Some(kept) = there(kept, opening) else {
        return Err(Refusal::NoTenant);
    };
    match kept.revision() {
        Ok(revision) => Ok(revision),
        Err(_) => Err(Refusal::Memory),
    }
}

/// What the tenant that was opened so uses, if it is under the lock.
fn usage_there(kept: &Option<Kept>, opening: Opening) -> Result<Usage, Refusal>
    ensures is { IfOk result (λ usage. IsUsage opening usage) }
    ensures refused { IfErr result (λ r. IsUncalled r) }
{
    let Some(kept) = there(kept, opening) else {
        return Err(Refusal::NoTenant);
    };
    match kept.usage() {
        Ok(usage) => Ok(usage),
        Err(_) => Err(Refusal::Memory),
    }
}

/// The weight of a step of the tenant that was opened so, if it is under the lock.
fn weight_there(
    kept: &Option<Kept>,
    opening: Opening,
    step: &Step,
    enough: u64,
) -> Result<u64, Refusal>
    ensures { IfErr result (λ r. IsUncalled r) }
{
    let Some(kept) = there(kept, opening) else {
        return Err(Refusal::NoTenant);
    };
    match kept.weight(step, enough) {
        Ok(weight) => Ok(weight),
        Err(_) => Err(Refusal::Memory),
    }
}
