//! The tenants that a registry is made of: what speaks against them, and how each is taken in.
ghost use Rattle.std.specs.Prelude.{◌≡◌, ◌≤◌, ◌+◌, ◌++◌, ◌∷◌, [], map, None, Some, true};
ghost use Rattle.std.specs.Prelude.{IfErr, IfOk, OnErr, OnOk};
ghost use Rattle.cell_arena.specs.Loan.{segments_for};
ghost use Rattle.tenant_audit.specs.Audits.{IsAllowed};
ghost use Rattle.tenant_rules.specs.Rules.{within_limits};
ghost use Rattle.tenant_registry.specs.Adding.{config_fault, fault_beside, is_one_of, name_of, new_fault};
ghost use Rattle.tenant_registry.specs.Adding.{opened, opening_for};
ghost use Rattle.tenant_registry.specs.Registries.{names_in, tenants_of};

use crate::kept::Kept;
use crate::tenant::{Lock, Tenant};
use etcd_types::Mem;
use etcd_types::limits::{MAX_AUDIT, MAX_SEGMENTS, MAX_TENANTS};
use indexmap::IndexMap;
use segment_pool::Stock;
use std::alloc::{AllocError, Global};
use std::sync::{Arc, Mutex};
use tenant_audit::Opening;
use tenant_machine::segments_for;
use tenant_rules::{OperatorFault, is_name, within_limits};

/// What a tenant is to be.
#[derive(Drop)]
pub struct TenantConfig {
    /// 1 to 64 bytes of `a-z0-9-`.
    pub name: Vec<u8>,
    /// The cluster's ID, which is not 0.
    pub cluster: u64,
    /// The cells that it may use, from 4 to 1,048,576.
    pub quota: u64,
    /// The revision of the empty store, from 1 to 2^62.
    pub first: u64,
    /// How many entries its audit takes, up to 65,536.
    pub audit: u32,
}

impl TenantConfig {
    /// What the tenant is opened with, under a number.
    fn opening(&self, number: u64) -> Opening
        requires { within_limits self.now.cluster self.now.quota self.now.first ≡ true }
        ensures { result ≡ opening_for number self.now }
    {
        Opening {
            number,
            cluster: self.cluster,
            quota: self.quota as u32,
            first: self.first as i64,
            cap: self.audit,
        }
    }
}

/// Whether a registry of so many segments can be made of these tenants, or the first reason that it can't.
pub fn check(segments: u32, configs: &[TenantConfig]) -> Result<(), OperatorFault>
    ensures ok { OnOk result (new_fault segments configs.now ≡ None) }
    ensures fault { IfErr result (λ f. new_fault segments configs.now ≡ Some f) }
{
    if segments == 0 || segments > MAX_SEGMENTS {
        return Err(OperatorFault::Limits);
    }
    let mut free = segments;
    for (place, config) in configs.iter().enumerate() {
        free = left_beside(free, &configs[..place], config)?;
    }
    Ok(())
}

/// How many of the free segments a tenant leaves, beside those that are there, or the first reason not to
/// add it.
fn left_beside(
    free: u32,
    there: &[TenantConfig],
    config: &TenantConfig,
) -> Result<u32, OperatorFault>
    ensures ok { OnOk result (config_fault free (map name_of there.now) config.now ≡ None) }
    ensures left { IfOk result (λ left. left + segments_for config.now.quota ≡ free) }
    ensures fault { IfErr result (λ f. config_fault free (map name_of there.now) config.now ≡ Some f) }
{
    let taken = is_taken(there, config.name.as_slice());
    left_of(free, there.len(), taken, config)
}

/// How many of the free segments a tenant leaves, or the first reason not to add it, where so many are there
/// and its name is taken or not.
pub(crate) fn left_of(
    free: u32,
    count: usize,
    taken: bool,
    config: &TenantConfig,
) -> Result<u32, OperatorFault>
    ensures ok { OnOk result (fault_beside free count taken config.now ≡ None) }
    ensures left { IfOk result (λ left. left + segments_for config.now.quota ≡ free) }
    ensures fault { IfErr result (λ f. fault_beside free count taken config.now ≡ Some f) }
{
    if !is_name(config.name.as_slice()) {
        return Err(OperatorFault::Name);
    }
    if !within_limits(config.cluster, config.quota, config.first) {
        return Err(OperatorFault::Limits);
    }
    if config.audit > MAX_AUDIT || count >= MAX_TENANTS {
        return Err(OperatorFault::Limits);
    }
    if taken {
        return Err(OperatorFault::Taken);
    }
    let reserved = segments_for(config.quota as u32);
    if free < reserved {
        return Err(OperatorFault::Short);
    }
    Ok(free - reserved)
}

/// One of these tenants has the name.
fn is_taken(there: &[TenantConfig], name: &[u8]) -> bool
    ensures { result ≡ is_one_of (map name_of there.now) name.now }
{
    for config in there {
        if name == config.name.as_slice() {
            return true;
        }
    }
    false
}

/// Takes in a tenant that nothing speaks against, under a number, with the segments that its quota takes. If
/// it finds no memory, nothing changed.
pub(crate) fn admit(
    alloc: Global,
    tenants: &mut IndexMap<Vec<u8>, Tenant>,
    free: &mut Stock,
    number: u64,
    config: &TenantConfig,
) -> Mem<()>
    requires { config_fault free.old.held (names_in (tenants_of tenants.old.entries)) config.now ≡ None }
    ensures adds { OnOk result
        (tenants_of tenants.new.entries ≡ tenants_of tenants.old.entries ++ opened number config.now ∷ []) }
    ensures moved { OnOk result (free.new.held + segments_for config.now.quota ≡ free.old.held) }
    ensures tenants { OnErr result (tenants_of tenants.new.entries ≡ tenants_of tenants.old.entries) }
    ensures free { OnErr result (free.new ≡ free.old) }
{
    let opening = config.opening(number);
    let name = Vec::from_slice(alloc, config.name.as_slice())?;
    tenants.reserve(1)?;
    // The segments are moved last: a tenant that is dropped would take its own with it.
    let kept = lock_on(alloc, opening, free)?;
    let Ok(_) = tenants.insert(name, Tenant { opening, kept }) else {
        unreachable!()
    };
    Ok(())
}

/// A lock on a tenant at its opening, with the segments that its quota takes. If it finds no memory, none was moved.
fn lock_on(alloc: Global, opening: Opening, free: &mut Stock) -> Mem<Arc<Lock>>
    requires allowed { IsAllowed opening }
    requires enough { segments_for opening.quota ≤ free.old.held }
    ensures moved { OnOk result (free.new.held + segments_for opening.quota ≡ free.old.held) }
    ensures err { OnErr result (free.new ≡ free.old) }
{
    let mut lock = Arc::new(alloc, Mutex::new(None))?;
    let Some(place) = Arc::get_mut(&mut lock) else {
        // Nobody else has it.
        return Err(AllocError);
    };
    let opened = Kept::open(alloc, opening, free)?;
    *place.get_mut() = Some(opened);
    Ok(lock)
}
