//! Adding a tenant.
ghost use Rattle.std.specs.Prelude.{◌≡◌, None, OnErr, OnOk, IfErr};
ghost use Rattle.steps_core.specs.Adding.{Adds, add_fault};
ghost use Rattle.tenant_rules.specs.Rules.{reason};

use crate::host::Host;
use crate::tenant::{Tenant, append};
use etcd_types::Mem;
use etcd_types::limits::MAX_TENANTS;
use std::alloc::Global;
use tenant_machine::{Machine, segments_for};
use tenant_rules::{OperatorFault, is_name, within_limits};

impl Host {
    /// Adds a tenant, whose empty store is at the first revision, and reserves the segments that its quota
    /// takes. After a fault nothing changed.
    pub fn add(
        &mut self,
        alloc: Global,
        name: &[u8],
        cluster: u64,
        quota: u64,
        first: u64,
    ) -> Result<(), OperatorFault>
        ensures adds { OnOk result (Adds self.old name.now cluster quota first self.new) }
        ensures free { OnOk result (add_fault self.old name.now cluster quota first ≡ None) }
        ensures fault { IfErr result (λ f. add_fault self.old name.now cluster quota first ≡ reason f) }
        ensures err { OnErr result (self.new ≡ self.old) }
    {
        if let Some(fault) = self.add_fault(name, cluster, quota, first) {
            return Err(fault);
        }
        match self.admit(alloc, name, cluster, quota, first) {
            Ok(()) => Ok(()),
            Err(_) => Err(OperatorFault::Memory),
        }
    }

    /// The first reason not to add a tenant.
    fn add_fault(&self, name: &[u8], cluster: u64, quota: u64, first: u64) -> Option<OperatorFault>
        ensures { result ≡ add_fault self.now name.now cluster quota first }
    {
        if !is_name(name) {
            return Some(OperatorFault::Name);
        }
        if !within_limits(cluster, quota, first) || self.tenants.len() >= MAX_TENANTS {
            return Some(OperatorFault::Limits);
        }
        if self.tenants.contains_key(name) {
            return Some(OperatorFault::Taken);
        }
        if self.desk.pool.unreserved() < segments_for(quota as u32) {
            return Some(OperatorFault::Short);
        }
        None
    }

    /// Takes in a tenant that nothing speaks against.
    fn admit(&mut self, alloc: Global, name: &[u8], cluster: u64, quota: u64, first: u64) -> Mem<()>
        requires { add_fault self.old name.now cluster quota first ≡ None }
        ensures adds { OnOk result (Adds self.old name.now cluster quota first self.new) }
        ensures err { OnErr result (self.new ≡ self.old) }
    {
        let quota = quota as u32;
        let key = Vec::from_slice(alloc, name)?;
        self.tenants.reserve(1)?;
        let machine = Machine::new(alloc, cluster, quota, first as i64)?;
        // From here on no memory is taken, so nothing has to be undone.
        let Ok(ticket) = self.desk.pool.reserve(segments_for(quota)) else {
            unreachable!()
        };
        append(&mut self.tenants, key, Tenant { machine, ticket });
        Ok(())
    }
}
