//! How a tenant is added while the server runs.
ghost use Rattle.std.specs.Prelude.{◌≡◌, IfOk, OnOk};
ghost use Rattle.host_operator.specs.Registering.{HasAdded, IsTold};
ghost use Rattle.tenant_registry.specs.Adding.{with_tenant};

use crate::answer::OperatorAnswer;
use crate::calls::OperatorRefusal;
use crate::directory::TenantDirectory;
use crate::operator::{Operator, Told, retention_in};
use auto_compaction::Retention;
use connection_table::Allowance;
use etcd_types::Mem;
use host_config::{allowance_of, object_of, tenant_of};
use serde_json::Value;
use std::alloc::{AllocGlobal, Global};
use std::rt::{Clock, Files};
use std::sync::Wait;
use tenant_registry::TenantConfig;

/// A tenant that a body asks for.
struct WantedTenant {
    config: TenantConfig,
    allowance: Allowance,
}

impl Drop for WantedTenant {
    fn drop(self) {
        let WantedTenant {
            config: _,
            allowance: _,
        } = self;
    }
}

impl WantedTenant {
    /// The tenant of a body.
    fn of(alloc: Global, body: &[u8]) -> Result<WantedTenant, OperatorRefusal>
        ensures { IfOk result (λ wanted. IsTold body.now wanted.config) }
    {
        let object = object_of(alloc, body)?;
        let config = tenant_of(alloc, &object)?;
        let allowance = allowance_in(&object, config.quota)?;
        Ok(WantedTenant { config, allowance })
    }
}

/// What the clients of a tenant of that quota may take. What it is to keep is looked at first.
fn allowance_in(object: &Value, quota: u64) -> Result<Allowance, OperatorRefusal> {
    retention_in(object, Retention::All)?;
    Ok(allowance_of(object, quota)?)
}

/// All that a new tenant needs beside the registry.
struct Prepared<N> {
    number: u64,
    new: N,
    /// Its name, for the key to it.
    key_name: Vec<u8>,
    /// The same, for what the operator was told of it.
    told_name: Vec<u8>,
}

impl<N: Drop> Drop for Prepared<N> {
    fn drop(self) {
        let Prepared {
            number: _,
            new: _,
            key_name: _,
            told_name: _,
        } = self;
    }
}

impl<N: Drop> Prepared<N> {
    fn into_parts(self) -> (N, Vec<u8>, Vec<u8>) {
        let Prepared {
            number: _,
            new,
            key_name,
            told_name,
        } = self;
        (new, key_name, told_name)
    }
}

impl<'x, R, D> Operator<'x, R, D>
where
    R: Wait + Clock + Files + AllocGlobal + Copy + Drop,
    D: TenantDirectory,
{
    /// Adds a tenant and serves it. All memory but the registry's own is taken before.
    pub(super) fn add(&mut self, body: &[u8]) -> Result<OperatorAnswer, OperatorRefusal>
        ensures status { IfOk result (λ answer. answer.status ≡ 201) }
        ensures adds { OnOk result (HasAdded body.now self.old.registry.now self.new.registry.now) }
    {
        let wanted = WantedTenant::of(self.alloc, body)?;
        self.add_wanted(&wanted)?;
        Ok(self.done(201, wanted.config.name.as_slice(), 201))
    }

    fn add_wanted(&mut self, wanted: &WantedTenant) -> Result<(), OperatorRefusal>
        ensures { OnOk result
            (self.new.registry.now ≡ with_tenant self.old.registry.now wanted.now.config) }
    {
        self.told.reserve(1)?;
        self.bounds.make_room()?;
        let prepared = self.prepare(wanted)?;
        self.registry.add(&wanted.config)?;
        self.admit(prepared, wanted.allowance)
    }

    /// Takes the memory that a new tenant needs.
    fn prepare(&self, wanted: &WantedTenant) -> Mem<Prepared<D::New>> {
        let number = self.registry.next_number();
        let name = wanted.config.name.as_slice();
        let key_name = Vec::from_slice(self.alloc, name)?;
        let told_name = Vec::from_slice(self.alloc, name)?;
        let new = self.directory.prepare(number, name, wanted.allowance)?;
        Ok(Prepared {
            number,
            new,
            key_name,
            told_name,
        })
    }

    /// Serves a tenant that was added just now.
    fn admit(
        &mut self,
        prepared: Prepared<D::New>,
        allowance: Allowance,
    ) -> Result<(), OperatorRefusal>
        ensures { self.new.registry.now ≡ self.old.registry.now }
    {
        let told = Told::new(prepared.number, allowance);
        let (new, key_name, told_name) = prepared.into_parts();
        let Ok(Some(key)) = self.registry.key(key_name) else {
            // It was added just now, and a key takes no memory.
            return Err(OperatorRefusal::MEMORY);
        };
        self.bound(told.number, allowance);
        self.directory.admit(new, key);
        let _ = self.told.insert(told_name, told);
        Ok(())
    }
}
