//! A tenant, and how it is served over the pool.
ghost use Rattle.std.specs.Prelude.{◌≡◌, ◌-◌, ◌<◌, ◌≤◌, ◌++◌, ◌∷◌, [], None, OnErr, OnOk};
ghost use Rattle.std.specs.Map.{lookup};
ghost use Rattle.std.specs.Str.{bytes_eq};
ghost use Rattle.indexmap.specs.IndexMap.{spare};
ghost use Rattle.etcd_types.specs.Limits.{max_quota};
ghost use Rattle.tenant_machine.specs.Plans.{Fits, IsAfter};
ghost use Rattle.tenant_machine.specs.Reserving.{reservation};
ghost use Rattle.steps_core.specs.Sound.{CanReserve, CanServe, Leaves, LeavesNone, Reserves};

use etcd_types::{Mem, Reply};
use indexmap::IndexMap;
use segment_pool::{Desk, Pool, Ticket};
use std::mem;
use tenant_machine::{Machine, Planned};

/// A tenant's machine, and the ticket that reserves its segments.
#[derive(Drop)]
pub(crate) struct Tenant {
    pub(crate) machine: Machine,
    pub(crate) ticket: Ticket,
}

/// Puts a tenant behind the others, where there is room and none has its name.
pub(crate) fn append(tenants: &mut IndexMap<Vec<u8>, Tenant>, name: Vec<u8>, tenant: Tenant)
    requires room { 0 < spare tenants.old }
    requires new { lookup (λ k. bytes_eq name.items k.items) tenants.old.entries ≡ None }
    ensures { tenants.new.entries ≡ tenants.old.entries ++ (name, tenant) ∷ [] }
{
    let Ok(_) = tenants.insert(name, tenant) else {
        unreachable!()
    };
}

/// Commits what was planned, with the tenant's ticket on the desk.
pub(crate) fn serve(desk: &mut Desk, tenant: &mut Tenant, planned: Planned) -> Reply
    requires can { CanServe desk.old tenant.old }
    requires fits { Fits tenant.old.machine planned }
    ensures reply { result ≡ planned.reply }
    ensures after { IsAfter tenant.old.machine planned tenant.new.machine }
    ensures leaves { Leaves desk.old tenant.old desk.new tenant.new }
{
    mem::swap(&mut desk.ticket, &mut tenant.ticket);
    let reply = tenant.machine.commit(desk, planned);
    mem::swap(&mut tenant.ticket, &mut desk.ticket);
    reply
}

/// How many more segments a tenant would reserve with a quota of so many cells.
pub(crate) fn more_wanted(tenant: &Tenant, quota: u32) -> u32
    requires quota { quota ≤ max_quota }
    ensures { result ≡ reservation tenant.now.machine quota - tenant.now.ticket.reserved }
{
    let wanted = tenant.machine.reservation(quota);
    wanted.saturating_sub(tenant.ticket.reserved())
}

/// Gives a tenant another quota, with rooms and a reservation for it. Where no memory is found, nothing
/// changed.
pub(crate) fn resize(pool: &mut Pool, tenant: &mut Tenant, quota: u32) -> Mem<()>
    requires quota { quota ≤ max_quota }
    requires can { CanReserve pool.old tenant.old (reservation tenant.old.machine quota) }
    ensures ok { OnOk result (Reserves pool.old tenant.old quota pool.new tenant.new) }
    ensures err { OnErr result ((pool.new ≡ pool.old) × (tenant.new ≡ tenant.old)) }
{
    let reserved = tenant.ticket.reserved();
    let wanted = tenant.machine.reservation(quota);
    tenant.machine.grow_rooms(quota)?;
    // From here on no memory is taken, so nothing has to be undone.
    if reserved < wanted {
        let Ok(()) = pool.grow(&mut tenant.ticket, wanted - reserved) else {
            unreachable!()
        };
    } else {
        pool.shrink(&mut tenant.ticket, reserved - wanted);
    }
    tenant.machine.set_quota(quota);
    Ok(())
}

/// Gives all that a tenant has drawn back, and ends its ticket.
pub(crate) fn retire(desk: &mut Desk, tenant: Tenant)
    requires can { CanServe desk.old tenant }
    ensures { LeavesNone desk.old tenant desk.new }
{
    let Tenant {
        machine,
        mut ticket,
    } = tenant;
    mem::swap(&mut desk.ticket, &mut ticket);
    machine.give_up(desk);
    mem::swap(&mut desk.ticket, &mut ticket);
    desk.pool.end(ticket);
}
