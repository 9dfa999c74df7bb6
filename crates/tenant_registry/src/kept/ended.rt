//! What shows that a tenant was ended.
ghost use Rattle.std.specs.Prelude.{◌≡◌};

use tenant_audit::Audit;

/// A tenant was ended. Only `Kept::end` makes one, and nobody can change its audit.
pub struct Ended {
    pub(super) audit: Audit,
    /// How many segments went to the free ones.
    pub(super) segments: u32,
}

impl Drop for Ended {
    fn drop(self) {
        let Ended {
            audit: _,
            segments: _,
        } = self;
    }
}

impl Ended {
    /// The tenant's audit, as it was under its lock.
    pub fn audit(&self) -> &Audit
        ensures { result.now ≡ self.now.audit }
    {
        &self.audit
    }
}
