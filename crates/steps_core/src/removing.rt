//! The end of a tenant.
ghost use Rattle.std.specs.Prelude.{◌≡◌, None, Some, OnErr, OnOk, IfErr};
ghost use Rattle.steps_core.specs.Removing.{Removes, remove_fault};

use crate::host::Host;
use crate::tenant::retire;
use tenant_rules::{OperatorFault, is_name};

impl Host {
    /// Removes a tenant with all that it holds: its segments are free again, unwiped, and no other tenant
    /// is touched. It takes no memory. After a fault nothing changed.
    pub fn remove(&mut self, name: &[u8]) -> Result<(), OperatorFault>
        ensures removes { OnOk result (Removes self.old name.now self.new) }
        ensures free { OnOk result (remove_fault self.old name.now ≡ None) }
        ensures fault { IfErr result (λ f. remove_fault self.old name.now ≡ Some f) }
        ensures err { OnErr result (self.new ≡ self.old) }
    {
        if !is_name(name) {
            return Err(OperatorFault::Name);
        }
        match self.tenants.shift_remove(name) {
            Some(tenant) => {
                retire(&mut self.desk, tenant);
                Ok(())
            }
            None => Err(OperatorFault::NoTenant),
        }
    }
}
