//! What is read of a tenant under its lock, without a step.
ghost use Rattle.std.specs.Prelude.{◌≡◌, IfOk};
ghost use Rattle.tenant_machine.specs.Tenants.{IsHintOf};
ghost use Rattle.tenant_registry.specs.Serving.{IsRevisionIn};
ghost use Rattle.tenant_registry.specs.Using.{HasSegments, IsUsageIn};

use super::Kept;
use crate::replies::told_revision;
use crate::usage::Usage;
use etcd_types::{Mem, Step};
use std::alloc::AllocError;
use tenant_machine::Hint;

impl Kept {
    /// Its current revision.
    pub(crate) fn revision(&self) -> Mem<i64>
        ensures { IfOk result (λ revision. IsRevisionIn self.now.audit revision) }
    {
        let planned = self.machine.plan(self.alloc, &Step::Status)?;
        let told = told_revision(planned.reply());
        drop(planned);
        match told {
            Some(revision) => Ok(revision),
            // A status tells it always.
            None => Err(AllocError),
        }
    }

    /// Which takes of its watches may not be quiet.
    pub(crate) fn hint(&self) -> Hint
        ensures { IsHintOf self.now.machine result }
    {
        self.machine.hint()
    }

    /// How many bytes a step may take until its answer is sent, as far as is enough to know.
    pub(crate) fn weight(&self, step: &Step, enough: u64) -> Mem<u64> {
        self.machine.weight(self.alloc, step, enough)
    }

    /// What it uses.
    pub(crate) fn usage(&self) -> Mem<Usage>
        ensures is { IfOk result (λ usage. IsUsageIn self.now.audit usage) }
        ensures segments { IfOk result (λ usage.
            HasSegments self.now.machine.store.share.reserved self.now.machine.store.share.drawn usage) }
    {
        let drawn = self.reserved.saturating_sub(self.left.held());
        Usage::of(
            self.alloc,
            self.audit.opening(),
            &self.machine,
            self.reserved,
            drawn,
        )
    }
}
