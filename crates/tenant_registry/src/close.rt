//! Closing a registry.
ghost use Rattle.std.specs.Prelude.{◌≡◌, ◌≤◌, ◌⊎◌, [], length, true, IfErr, IfOk, IfSome, vec_capacity};
ghost use Rattle.tenant_audit.specs.Audits.{IsLawful};
ghost use Rattle.tenant_audit.specs.Closed.{AreClosed, AreLawful, HasFault, audits_of, given_of};
ghost use Rattle.tenant_registry.specs.Registries.{HasKeyOut, is_among, tenants_of};

use crate::tenant::{Lock, Tenant};
use indexmap::IndexMap;
use std::alloc::Global;
use std::sync::Arc;
use tenant_audit::{Audit, CloseFault, Closed, Seat, Sheet, settle};

/// Closes tenants, whatever their locks kept. The list of sheets is empty, and has room for one of each.
pub(crate) fn close(
    alloc: Global,
    tenants: IndexMap<Vec<u8>, Tenant>,
    sheets: Vec<Sheet>,
    seats: Vec<Seat>,
) -> Result<Closed, CloseFault>
    requires none { sheets.items ≡ [] }
    requires room { length tenants.entries ≤ vec_capacity sheets }
    ensures ok { IfOk result
        (λ closed. AreClosed (tenants_of tenants.entries) seats.items (audits_of closed.audits.items)) }
    ensures fault { IfErr result (λ f. HasFault (tenants_of tenants.entries) seats.items f
        ⊎ HasKeyOut (tenants_of tenants.entries) f) }
{
    match sheets_of(tenants, sheets) {
        Ok(sheets) => settle(alloc, sheets, seats),
        Err(tenant) => Err(CloseFault::Lent { tenant }),
    }
}

/// What the locks kept, beside what was given, in a list with room for it; or the first tenant of which somebody has a
/// key.
fn sheets_of(
    tenants: IndexMap<Vec<u8>, Tenant>,
    mut sheets: Vec<Sheet>,
) -> Result<Vec<Sheet>, Vec<u8>>
    requires none { sheets.items ≡ [] }
    requires room { length tenants.entries ≤ vec_capacity sheets }
    ensures given { IfOk result (λ sheets. given_of sheets.items ≡ tenants_of tenants.entries) }
    ensures lawful { IfOk result (λ sheets. AreLawful sheets.items) }
    ensures lent { IfErr result (λ name. is_among (tenants_of tenants.entries) name.items ≡ true) }
{
    for (name, tenant) in tenants {
        let Tenant { opening, kept } = tenant;
        let Some(audit) = audit_of(kept) else {
            return Err(name);
        };
        sheets.push_reserved(Sheet {
            name,
            opening,
            audit,
        });
    }
    Ok(sheets)
}

/// The audit under a lock, unless somebody has a key to it.
fn audit_of(lock: Arc<Lock>) -> Option<Audit>
    ensures { IfSome result (λ audit. IsLawful audit) }
{
    let Ok(lock) = Arc::try_unwrap(lock) else {
        return None;
    };
    match lock.into_inner() {
        Some(kept) => Some(kept.into_audit()),
        None => None,
    }
}
