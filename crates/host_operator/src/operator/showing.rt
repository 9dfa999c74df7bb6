//! What the operator is told of tenants and of the pool, as JSON.
ghost use Rattle.std.specs.Prelude.{◌≡◌, IfOk};

use crate::answer::OperatorAnswer;
use crate::calls::OperatorRefusal;
use crate::directory::TenantDirectory;
use crate::operator::{Operator, Told};
use crate::shown::ShownTenant;
use crate::values::{JsonList, JsonObject, JsonValue};
use etcd_types::{Mem, Refusal};
use std::alloc::AllocGlobal;
use std::rt::{Clock, Files};
use std::sync::Wait;
use tenant_registry::{Key, Usage};
use tenant_rules::OperatorFault;

/// What the tenant of a key uses.
fn usage_of<R: Wait>(rt: &R, key: &Key) -> Result<Usage, OperatorRefusal> {
    match key.usage(rt) {
        Ok(usage) => Ok(usage),
        Err(Refusal::Memory) => Err(OperatorRefusal::MEMORY),
        Err(_) => Err(OperatorFault::NoTenant.into()),
    }
}

impl<'x, R, D> Operator<'x, R, D>
where
    R: Wait + Clock + Files + AllocGlobal + Copy + Drop,
    D: TenantDirectory,
{
    /// How many segments there are, and how many are free.
    pub(super) fn show_pool(&mut self) -> Result<OperatorAnswer, OperatorRefusal>
        ensures { IfOk result (λ answer. answer.status ≡ 200) }
    {
        let pool = self.pool()?;
        OperatorAnswer::of(self.alloc, 200, &pool)
    }

    fn pool(&mut self) -> Mem<JsonValue> {
        let mut pool = JsonObject::new(self.alloc);
        pool.add_number("segments", self.registry.segments().into())?;
        pool.add_number("free", self.registry.free_segments().into())?;
        Ok(pool.finish())
    }

    /// A tenant and what it uses.
    pub(super) fn show(&self, status: u16, name: &[u8]) -> Result<OperatorAnswer, OperatorRefusal>
        ensures { IfOk result (λ answer. answer.status ≡ status) }
    {
        let Some(told) = self.told.get(name) else {
            return Err(OperatorFault::NoTenant.into());
        };
        let tenant = self.tenant(name, told)?;
        OperatorAnswer::of(self.alloc, status, &tenant)
    }

    /// All tenants and what they use, in the order in which they came.
    pub(super) fn list(&self) -> Result<OperatorAnswer, OperatorRefusal>
        ensures { IfOk result (λ answer. answer.status ≡ 200) }
    {
        let tenants = self.tenants()?;
        let value = JsonObject::of(self.alloc, "tenants", tenants)?;
        OperatorAnswer::of(self.alloc, 200, &value)
    }

    fn tenants(&self) -> Result<JsonValue, OperatorRefusal> {
        let mut tenants = JsonList::new(self.alloc);
        for (name, told) in self.told.iter() {
            tenants.add(self.tenant(name.as_slice(), told)?)?;
        }
        Ok(tenants.finish())
    }

    /// What is told of a tenant.
    fn tenant(&self, name: &[u8], told: &Told) -> Result<JsonValue, OperatorRefusal> {
        let tenant = self.shown(name, told)?;
        tenant.to_json(self.alloc, name)
    }

    /// A tenant as it is now.
    fn shown(&self, name: &[u8], told: &Told) -> Result<ShownTenant, OperatorRefusal> {
        let Told {
            number,
            allowance,
            ..
        } = *told;
        Ok(ShownTenant {
            usage: self.usage(name)?,
            open_watches: self
                .directory
                .open_watches(name)
                .unwrap_or(told.open_watches),
            retention: allowance.retention,
            budget: allowance.budget,
            budget_left: self.directory.budget_left(name).unwrap_or(allowance.budget),
            open_connections: self.bounds.open(number),
            most_connections: allowance.open_connections.unwrap_or(self.part),
        })
    }

    /// What a tenant uses. It waits for a call that is under way there.
    fn usage(&self, name: &[u8]) -> Result<Usage, OperatorRefusal> {
        match self.registry.key(Vec::from_slice(self.alloc, name)?)? {
            Some(key) => usage_of(&self.rt, &key),
            None => Err(OperatorFault::NoTenant.into()),
        }
    }
}
