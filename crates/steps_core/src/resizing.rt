//! Another quota for a tenant.
ghost use Rattle.std.specs.Prelude.{◌≡◌, None, OnErr, OnOk, IfErr};
ghost use Rattle.tenant_rules.specs.Rules.{reason};
ghost use Rattle.steps_core.specs.Resizing.{Resizes, resize_fault};

use crate::host::Host;
use crate::tenant::{more_wanted, resize};
use etcd_types::Mem;
use tenant_rules::{OperatorFault, is_name, is_quota};

impl Host {
    /// Gives a tenant another quota, also one below what it uses, and reserves the segments that it takes
    /// with it. No alarm is raised or cleared, and no revision is made. After a fault nothing changed.
    pub fn resize(&mut self, name: &[u8], quota: u64) -> Result<(), OperatorFault>
        ensures resizes { OnOk result (Resizes self.old name.now quota self.new) }
        ensures free { OnOk result (resize_fault self.old name.now quota ≡ None) }
        ensures fault { IfErr result (λ f. resize_fault self.old name.now quota ≡ reason f) }
        ensures err { OnErr result (self.new ≡ self.old) }
    {
        if let Some(fault) = self.resize_fault(name, quota) {
            return Err(fault);
        }
        match self.change_quota(name, quota as u32) {
            Ok(()) => Ok(()),
            Err(_) => Err(OperatorFault::Memory),
        }
    }

    /// The first reason not to give a tenant another quota.
    fn resize_fault(&self, name: &[u8], quota: u64) -> Option<OperatorFault>
        ensures { result ≡ resize_fault self.now name.now quota }
    {
        if !is_name(name) {
            return Some(OperatorFault::Name);
        }
        if !is_quota(quota) {
            return Some(OperatorFault::Limits);
        }
        let Some(tenant) = self.tenants.get(name) else {
            return Some(OperatorFault::NoTenant);
        };
        if self.desk.pool.unreserved() < more_wanted(tenant, quota as u32) {
            return Some(OperatorFault::Short);
        }
        None
    }

    /// Gives a tenant a quota that nothing speaks against.
    fn change_quota(&mut self, name: &[u8], quota: u32) -> Mem<()>
        requires { resize_fault self.old name.now quota ≡ None }
        ensures resizes { OnOk result (Resizes self.old name.now quota self.new) }
        ensures err { OnErr result (self.new ≡ self.old) }
    {
        match self.tenants.get_mut(name) {
            Some(tenant) => resize(&mut self.desk.pool, tenant, quota),
            None => unreachable!(),
        }
    }
}
