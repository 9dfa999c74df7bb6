//! A tenant of a registry.
use crate::kept::Kept;
use std::sync::{Arc, Mutex};
use tenant_audit::Opening;

/// What a tenant was opened with, beside the lock on all else, which its keys share.
#[derive(Drop)]
pub(crate) struct Tenant {
    pub(crate) opening: Opening,
    pub(crate) kept: Arc<Lock>,
}

/// A tenant's lock. It is empty while the tenant is taken in or out.
pub(crate) type Lock = Mutex<Option<Kept>>;
