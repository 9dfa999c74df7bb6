//! What shows that a tenant got another quota.
ghost use Rattle.std.specs.Prelude.{◌≡◌};

use std::marker::Model;

/// A tenant got another quota. Only `Kept::resize` makes one.
#[derive(Drop)]
pub struct Resized {
    pub(super) number: u64,
    pub(super) quota: u32,
}

impl Model for Resized {
    ghost use Rattle.tenant_registry.specs.Resizing.{ResizedState};

    ghost Value = { ResizedState };

    ghost view = { λ r. record { number = r.number; quota = r.quota } };
}

impl Resized {
    /// The number of the tenant that got it.
    pub fn number(&self) -> u64
        ensures { result ≡ self.now.number }
    {
        self.number
    }

    /// The cells that the tenant may use since.
    pub fn quota(&self) -> u32
        ensures { result ≡ self.now.quota }
    {
        self.quota
    }
}
