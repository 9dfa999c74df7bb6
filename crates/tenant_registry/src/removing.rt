//! How a tenant is taken out of a registry.
ghost use Rattle.std.specs.Prelude.{◌≡◌, ◌+◌, true, map, Some, IfOk, OnErr, OnOk};
ghost use Rattle.std.specs.List.{list_any};
ghost use Rattle.std.specs.Map.{lookup, remove_entry};
ghost use Rattle.std.specs.Str.{bytes_eq};
ghost use Rattle.tenant_audit.specs.Audits.{IsLawful};
ghost use Rattle.tenant_registry.specs.Registries.{is_among, tenants_of};

use crate::kept::{Ended, Kept};
use crate::tenant::Tenant;
use etcd_types::Mem;
use futures::spin;
use indexmap::IndexMap;
use segment_pool::Stock;
use std::alloc::AllocError;
use tenant_audit::Opening;

/// One of these names is the name.
pub(crate) fn is_one_of(names: &[Vec<u8>], name: &[u8]) -> bool
    ensures { result ≡ list_any (bytes_eq name.now) (map (λ one. one.items) names.now) }
{
    for one in names {
        if name == one.as_slice() {
            return true;
        }
    }
    false
}

/// Takes out a tenant that is there, whose segments are free then, and hands out its name and what was ended.
/// If the free stock finds no memory for them, nothing changed.
pub(crate) fn take_out(
    tenants: &mut IndexMap<Vec<u8>, Tenant>,
    free: &mut Stock,
    name: &[u8],
) -> Mem<(Vec<u8>, Ended)>
    requires there { is_among (tenants_of tenants.old.entries) name.now ≡ true }
    ensures gone { OnOk result (tenants_of tenants.new.entries
        ≡ remove_entry (bytes_eq name.now) (tenants_of tenants.old.entries)) }
    ensures name { IfOk result (λ out. out.0.items ≡ name.now) }
    ensures opening { IfOk result
        (λ out. lookup (bytes_eq name.now) (tenants_of tenants.old.entries) ≡ Some out.1.audit.opening) }
    ensures lawful { IfOk result (λ out. IsLawful out.1.audit) }
    ensures back { IfOk result (λ out. free.new.held ≡ free.old.held + out.1.segments) }
    ensures err { OnErr result (tenants_of tenants.new.entries ≡ tenants_of tenants.old.entries) }
    ensures free { OnErr result (free.new ≡ free.old) }
{
    let Some(tenant) = tenants.get(name) else {
        unreachable!()
    };
    let ended = end(tenant, free)?;
    let Some((_, name, _)) = tenants.shift_remove_full(name) else {
        unreachable!()
    };
    Ok((name, ended))
}

/// Ends what a tenant's lock keeps, once the call that is under way there has ended. Who has a key finds nothing from
/// then on. If there is no memory for its segments, nothing changed.
fn end(tenant: &Tenant, free: &mut Stock) -> Mem<Ended>
    ensures opening { IfOk result (λ ended. ended.audit.opening ≡ tenant.now.opening) }
    ensures lawful { IfOk result (λ ended. IsLawful ended.audit) }
    ensures back { IfOk result (λ ended. free.new.held ≡ free.old.held + ended.segments) }
    ensures err { OnErr result (free.new ≡ free.old) }
{
    let Some(mut place) = spin::lock(&tenant.kept) else {
        return Err(AllocError);
    };
    end_there(&mut *place, tenant.opening, free)
}

/// Ends what is under a lock, if it is the tenant that was opened so.
fn end_there(place: &mut Option<Kept>, opening: Opening, free: &mut Stock) -> Mem<Ended>
    ensures opening { IfOk result (λ ended. ended.audit.opening ≡ opening) }
    ensures lawful { IfOk result (λ ended. IsLawful ended.audit) }
    ensures back { IfOk result (λ ended. free.new.held ≡ free.old.held + ended.segments) }
    ensures err { OnErr result (free.new ≡ free.old) }
{
    let Some(kept) = place.take() else {
        return Err(AllocError);
    };
    match end_if_of(kept, opening, free) {
        Ok(ended) => Ok(ended),
        Err(kept) => {
            *place = Some(kept);
            Err(AllocError)
        }
    }
}

/// Ends the tenant, if it was opened so. Else it comes back.
fn end_if_of(kept: Kept, opening: Opening, free: &mut Stock) -> Result<Ended, Kept>
    ensures opening { IfOk result (λ ended. ended.audit.opening ≡ opening) }
    ensures lawful { IfOk result (λ ended. IsLawful ended.audit) }
    ensures back { IfOk result (λ ended. free.new.held ≡ free.old.held + ended.segments) }
    ensures err { OnErr result (free.new ≡ free.old) }
{
    if kept.opening() != opening {
        return Err(kept);
    }
    kept.end(free)
}
