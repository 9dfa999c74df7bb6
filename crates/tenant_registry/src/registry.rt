//! All tenants, by name, each under a lock of its own.
ghost use Rattle.std.specs.Prelude.{◌≡◌, ◌≢◌, ◌+◌, ◌≤◌, ◌⊎◌, [], true, false, map, None, Some, Err, IfErr, IfOk, IfSome};
ghost use Rattle.std.specs.Prelude.{OnErr, OnOk, Bool, if◌then◌else◌, is_some, option_map, slice_get};
ghost use Rattle.etcd_types.specs.Limits.{max_quota};
ghost use Rattle.tenant_rules.specs.declared.fault.OperatorFault.TheVariants.{Memory, Short};
ghost use Rattle.tenant_registry.specs.Adding.{CanAdd, IsUnadded, new_fault, new_registry, unmade, with_tenant};
ghost use Rattle.tenant_registry.specs.Adding.{segments_fault, with_segments};
ghost use Rattle.tenant_audit.specs.Audits.{IsLawful};
ghost use Rattle.tenant_audit.specs.Closed.{AreClosed, HasFault, audits_of};
ghost use Rattle.tenant_registry.specs.Calling.{shown};
ghost use Rattle.tenant_registry.specs.Registries.{HasKeyOut, has_tenant, is_taken, names_of, no_seat, number_in};
ghost use Rattle.tenant_registry.specs.Registries.{opening_in, unserved};
ghost use Rattle.tenant_registry.specs.Removing.{remove_fault, without};
ghost use Rattle.tenant_registry.specs.Resizing.{CanResize, IsUnresized};
ghost use Rattle.tenant_audit.specs.Seats.{Keeps, KeepsLists};
ghost use Rattle.tenant_registry.specs.Serving.{IsReceipt, IsReceiptOf, IsServed, ServesThere};
ghost use Rattle.tenant_calls.specs.Answers.{IsUncalled};

use crate::adding::{TenantConfig, admit, check, left_of};
use crate::close::close;
use crate::gate::{Gate, pass};
use crate::kept::{Ended, Kept, Receipt, Resized, Served};
use crate::key::{Key, keys_to};
use crate::removing::{is_one_of, take_out};
use crate::tenant::{Lock, Tenant};
use etcd_types::limits::{MAX_SEATS, MAX_SEGMENTS};
use etcd_types::{Mem, Refusal, Step};
use indexmap::IndexMap;
use segment_pool::{Stock, Supply};
use std::alloc::Global;
use std::marker::Model;
use std::rt::Clock;
use std::sync::{Mutex, Wait};
use tenant_audit::{CloseFault, Closed, Opening, Seat, Sheet};
use tenant_rules::{OperatorFault, is_name, is_quota};

/// Why no seat is given.
#[derive(Clone, Copy, Debug, PartialEq, Eq)]
pub enum SeatFault {
    /// 64 were given.
    Full,
    /// A growth was refused.
    Memory,
}

/// Many tenants, each under a lock of its own.
pub struct Registry {
    tenants: IndexMap<Vec<u8>, Tenant>,
    /// The number of the next tenant.
    next: u64,
    /// How many seats were given.
    given: u8,
    /// The names of the tenants that were removed. No other gets them, since seats keep calls by names.
    gone: Vec<Vec<u8>>,
    /// The segments that no tenant reserved.
    free: Mutex<Stock>,
    /// Makes all segments, the tenants' too.
    supply: Supply,
    /// Empty, with room for each tenant: closing compares without memory.
    sheets: Vec<Sheet>,
    alloc: Global,
}

impl Drop for Registry {
    fn drop(self) {
        let Registry {
            tenants: _,
            next: _,
            given: _,
            gone: _,
            free: _,
            supply: _,
            sheets: _,
            alloc: _,
        } = self;
    }
}

impl Model for Registry {
    ghost use Rattle.tenant_registry.specs.Registries.{RegistryState};

    ghost Value = { RegistryState };

    ghost use Rattle.tenant_registry.specs.RegistryInside.{CanClose, registry_of};

    ghost view = { registry_of };

    ghost invariant = { CanClose };
}

impl Registry {
    /// A registry of so many segments and of these tenants, each at its opening. It is refused for the first
    /// reason that speaks against them, in their order; if there is none, for want of memory.
    pub fn new(
        alloc: Global,
        configs: Vec<TenantConfig>,
        segments: u32,
    ) -> Result<Registry, OperatorFault>
        ensures opens { IfOk result (λ registry. registry ≡ new_registry segments configs.items) }
        ensures none { OnOk result (new_fault segments configs.items ≡ None) }
        ensures fault { IfErr result (λ f. f ≡ unmade (new_fault segments configs.items)) }
    {
        check(segments, configs.as_slice())?;
        match Registry::open(alloc, configs.as_slice(), segments) {
            Ok(registry) => Ok(registry),
            Err(_) => Err(OperatorFault::Memory),
        }
    }

    /// A registry of tenants that nothing speaks against.
    fn open(alloc: Global, configs: &[TenantConfig], segments: u32) -> Mem<Registry>
        requires { new_fault segments configs.now ≡ None }
        ensures { IfOk result (λ registry. registry ≡ new_registry segments configs.now) }
    {
        let mut supply = Supply::new();
        let mut free = supply.make(alloc, segments)?;
        let mut tenants = IndexMap::new(alloc);
        let sheets = Vec::with_capacity(alloc, configs.len())?;
        let mut next = 1u64;
        for config in configs {
            admit(alloc, &mut tenants, &mut free, next, config)?;
            next += 1;
        }
        Ok(Registry {
            tenants,
            next,
            given: 0,
            gone: Vec::new(alloc),
            free: Mutex::new(free),
            supply,
            sheets,
            alloc,
        })
    }

    /// Adds a tenant at its opening, under the next number, with the segments that its quota takes. A name that a
    /// tenant had which was removed is taken. After a fault nothing changed.
    pub fn add(&mut self, config: &TenantConfig) -> Result<(), OperatorFault>
        ensures adds { OnOk result (self.new ≡ with_tenant self.old config.now) }
        ensures none { OnOk result (CanAdd self.old config.now) }
        ensures fault { IfErr result (λ f. IsUnadded self.old config.now f) }
        ensures err { OnErr result (self.new ≡ self.old) }
    {
        let name = config.name.as_slice();
        let taken = self.is_taken(name);
        let free = self.free.get_mut();
        let count = self.tenants.len();
        left_of(free.held(), count, taken, config)?;
        // No memory holds the names of so many tenants.
        let Some(next) = self.next.checked_add(1) else {
            return Err(OperatorFault::Memory);
        };
        if self.sheets.reserve(count + 1).is_err() {
            return Err(OperatorFault::Memory);
        }
        match admit(self.alloc, &mut self.tenants, free, self.next, config) {
            Ok(()) => {
                self.next = next;
                Ok(())
            }
            Err(_) => Err(OperatorFault::Memory),
        }
    }

    /// The number that the next tenant gets: 1, and one more for each that was ever added.
    pub fn next_number(&self) -> u64
        ensures { result ≡ self.now.next }
    {
        self.next
    }

    /// No tenant can get this name: one has it, or one had it that was removed.
    fn is_taken(&self, name: &[u8]) -> bool
        ensures { result ≡ is_taken self.now name.now }
    {
        self.tenants.contains_key(name) || is_one_of(self.gone.as_slice(), name)
    }

    /// Gives a tenant another quota, also one below what it uses, and reserves the segments that it takes with
    /// it, under its lock and then the free segments'. No alarm is raised or cleared, and no revision is made.
    /// After a fault nothing changed.
    pub fn resize<R: Wait>(&self, rt: &R, name: &[u8], quota: u64) -> Result<Resized, OperatorFault>
        ensures tenant { IfOk result (λ told. number_in self.now name.now ≡ Some told.number) }
        ensures quota { IfOk result (λ told. told.quota ≡ quota) }
        ensures none { OnOk result (CanResize self.now name.now quota) }
        ensures fault { IfErr result (λ f. IsUnresized self.now name.now quota f) }
    {
        if !is_name(name) {
            return Err(OperatorFault::Name);
        }
        if !is_quota(quota) {
            return Err(OperatorFault::Limits);
        }
        match self.tenants.get(name) {
            Some(held) => resize(rt, held, &self.free, quota as u32),
            None => Err(OperatorFault::NoTenant),
        }
    }

    /// Removes a tenant with all that it has, and hands out what was ended, with its audit. Its segments are free
    /// again, and its name stays taken. After a fault nothing changed.
    pub fn remove(&mut self, name: &[u8]) -> Result<Ended, OperatorFault>
        ensures removes { OnOk result (self.new ≡ without self.old name.now) }
        ensures tenant { IfOk result (λ ended. opening_in self.old name.now ≡ Some ended.audit.opening) }
        ensures lawful { IfOk result (λ ended. IsLawful ended.audit) }
        ensures none { OnOk result (remove_fault self.old name.now ≡ None) }
        ensures fault { IfErr result (λ f. f ≡ unmade (remove_fault self.old name.now)) }
        ensures err { OnErr result (self.new ≡ self.old) }
    {
        if !is_name(name) {
            return Err(OperatorFault::Name);
        }
        if !self.tenants.contains_key(name) {
            return Err(OperatorFault::NoTenant);
        }
        if self.gone.reserve(1).is_err() {
            return Err(OperatorFault::Memory);
        }
        match take_out(&mut self.tenants, self.free.get_mut(), name) {
            Ok((name, ended)) => {
                self.gone.push_reserved(name);
                Ok(ended)
            }
            Err(_) => Err(OperatorFault::Memory),
        }
    }

    /// A tenant of this name is there.
    pub fn has(&self, tenant: &[u8]) -> bool
        ensures { result ≡ has_tenant self.now tenant.now }
    {
        self.tenants.contains_key(tenant)
    }

    /// The name of the tenant at this place, in the order in which they were added.
    pub fn name_at(&self, place: usize) -> Option<&[u8]>
        ensures { option_map (λ name. name.now) result ≡ slice_get (names_of self.now) place }
    {
        match self.tenants.get_index(place) {
            Some((name, _)) => Some(name.as_slice()),
            None => None,
        }
    }

    /// How many segments were made, those of tenants among them.
    pub fn segments(&self) -> u32
        ensures { result ≡ self.now.made }
    {
        self.supply.made()
    }

    /// How many segments no tenant reserved.
    pub fn free_segments(&mut self) -> u32
        ensures { self.new ≡ self.old }
    {
        self.free.get_mut().held()
    }

    /// Makes so many more segments, free for whoever is added or grows. There are to be some, and no more with those that
    /// were made before than a host may have. After a fault none was made.
    pub fn add_segments(&mut self, count: u32) -> Result<(), OperatorFault>
        ensures adds { OnOk result (self.new ≡ with_segments self.old count) }
        ensures none { OnOk result (segments_fault self.old count ≡ None) }
        ensures fault { IfErr result (λ f. f ≡ unmade (segments_fault self.old count)) }
        ensures err { OnErr result (self.new ≡ self.old) }
    {
        if count == 0 || count > MAX_SEGMENTS.saturating_sub(self.supply.made()) {
            return Err(OperatorFault::Limits);
        }
        match supply_free(self.alloc, &mut self.supply, self.free.get_mut(), count) {
            Ok(()) => Ok(()),
            Err(_) => Err(OperatorFault::Memory),
        }
    }

    /// The key to a tenant, if it is there. It takes the name over.
    pub fn key(&self, tenant: Vec<u8>) -> Mem<Option<Key>>
        ensures name { IfOk result (λ told. IfSome told (λ key. key.name ≡ tenant.items)) }
        ensures there { IfOk result
            (λ told. option_map (λ key. key.opening) told ≡ opening_in self.now tenant.items) }
    {
        match self.tenants.get(tenant.as_slice()) {
            Some(held) => Ok(Some(Key::new(tenant, held)?)),
            None => Ok(None),
        }
    }

    /// A key to each tenant, in the order in which they were added.
    pub fn keys(&self, alloc: Global) -> Mem<Vec<Key>>
        ensures { IfOk result (λ keys. shown keys.items ≡ self.now.tenants) }
    {
        keys_to(alloc, &self.tenants)
    }

    /// A seat with no calls, under a number that no other of this registry has. There are 64.
    pub fn seat(&mut self) -> Result<Seat, SeatFault>
        ensures seat { IfOk result (λ seat. seat ≡ record { number = self.old.given; tallies = [] }) }
        ensures ok { OnOk result (self.new ≡ record self.old { given = self.old.given + 1 }) }
        ensures fault { IfErr result (λ f. f ≡ no_seat self.old) }
        ensures err { OnErr result (self.new ≡ self.old) }
    {
        if usize::from(self.given) >= MAX_SEATS {
            return Err(SeatFault::Full);
        }
        let Ok(seat) = Seat::new(self.alloc, self.given, self.tenants.len()) else {
            return Err(SeatFault::Memory);
        };
        self.given += 1;
        Ok(seat)
    }

    /// One step of a tenant under its lock, once the gate lets it pass. No other lock is taken. It is refused
    /// if no such tenant is there, and else only for want of memory; every other refusal has a receipt.
    pub fn call<R: Wait + Clock, G: Gate>(
        &self,
        rt: &R,
        seat: &mut Seat,
        gate: &G,
        tenant: &[u8],
        step: Step,
    ) -> Result<Receipt, Refusal>
        ensures receipt { IfOk result
            (λ receipt. IsReceiptOf self.now tenant.now seat.old.number step receipt) }
        ensures keeps { IfOk result
            (λ receipt. Keeps receipt.turn tenant.now step receipt seat.old seat.new) }
        ensures refused { IfErr result (λ r. r ≡ unserved self.now tenant.now) }
        ensures err { OnErr result (KeepsLists seat.old seat.new) }
        ensures nobody { has_tenant self.now tenant.now ≡ false → seat.new ≡ seat.old }
    {
        let Some(held) = self.tenants.get(tenant) else {
            drop(step);
            return Err(Refusal::NoTenant);
        };
        match serve(rt, seat, gate, &held.kept, held.opening, tenant, step) {
            Ok(receipt) => Ok(receipt),
            // A tenant that is there is under its lock.
            Err(_) => Err(Refusal::Memory),
        }
    }

    /// Ends the registry. It hands out the audits if they are the seats' lists and nothing else. Else it tells
    /// what differs first, which takes no memory.
    pub fn close(self, seats: Vec<Seat>) -> Result<Closed, CloseFault>
        ensures ok { IfOk result
            (λ closed. AreClosed self.tenants seats.items (audits_of closed.audits.items)) }
        ensures fault { IfErr result (λ f. HasFault self.tenants seats.items f ⊎ HasKeyOut self.tenants f) }
    {
        let Registry {
            tenants,
            next: _,
            given: _,
            gone: _,
            free: _,
            supply: _,
            sheets,
            alloc,
        } = self;
        close(alloc, tenants, sheets, seats)
    }
}

/// Makes so many segments and moves them to the free ones. If there is no memory, none was made.
fn supply_free(alloc: Global, supply: &mut Supply, free: &mut Stock, count: u32) -> Mem<()>
    requires few { supply.old + count ≤ MAX_SEGMENTS }
    ensures made { OnOk result (supply.new ≡ supply.old + count) }
    ensures moved { OnOk result (free.new.held ≡ free.old.held + count) }
    ensures err { OnErr result (supply.new ≡ supply.old) }
    ensures held { OnErr result (free.new.held ≡ free.old.held) }
{
    free.make_room(count)?;
    let mut more = supply.make(alloc, count)?;
    more.move_to(free, count);
    Ok(())
}

/// One step of the tenant that was opened so, which the seat keeps. The seat's memory is taken before the lock.
pub(crate) fn serve<R: Wait + Clock, G: Gate>(
    rt: &R,
    seat: &mut Seat,
    gate: &G,
    kept: &Lock,
    opening: Opening,
    tenant: &[u8],
    step: Step,
) -> Result<Receipt, Refusal>
    ensures receipt { IfOk result (λ receipt. IsReceipt opening seat.old.number step receipt) }
    ensures keeps { IfOk result (λ receipt. Keeps receipt.turn tenant.now step receipt seat.old seat.new) }
    ensures refused { IfErr result (λ r. IsUncalled r) }
    ensures err { OnErr result (KeepsLists seat.old seat.new) }
{
    if seat.prepare(tenant).is_err() {
        drop(step);
        return Err(Refusal::Memory);
    }
    let by = seat.number();
    let served = serve_locked(rt, gate, kept, opening, tenant, by, step)?;
    Ok(served.keep(seat, tenant))
}

/// Serves a step of the tenant that was opened so under its lock, once the gate lets it pass.
fn serve_locked<R: Wait + Clock, G: Gate>(
    rt: &R,
    gate: &G,
    kept: &Lock,
    opening: Opening,
    tenant: &[u8],
    seat: u8,
    step: Step,
) -> Result<Served, Refusal>
    ensures served { IfOk result (λ served. IsServed opening seat step served) }
    ensures refused { IfErr result (λ r. IsUncalled r) }
{
    let mut kept = kept.lock(rt);
    pass(rt, gate, tenant);
    serve_there(&mut *kept, opening, seat, step)
}

/// Serves a step of the tenant that was opened so, if it is under the lock.
fn serve_there(
    kept: &mut Option<Kept>,
    opening: Opening,
    seat: u8,
    step: Step,
) -> Result<Served, Refusal>
    ensures served { IfOk result
        (λ served. ServesThere kept.old opening seat step served kept.new) }
    ensures refused { IfErr result (λ r. IsUncalled r) }
    ensures err { OnErr result (kept.new ≡ kept.old) }
{
    let Some(kept) = kept else {
        drop(step);
        return Err(Refusal::NoTenant);
    };
    if kept.is_of(opening) {
        match kept.serve(seat, step) {
            Ok(served) => Ok(served),
            Err(_) => Err(Refusal::Memory),
        }
    } else {
        drop(step);
        Err(Refusal::NoTenant)
    }
}

/// Another quota of so many cells for a tenant: its lock is taken first, and under it that of the free
/// segments.
fn resize<R: Wait>(
    rt: &R,
    tenant: &Tenant,
    free: &Mutex<Stock>,
    quota: u32,
) -> Result<Resized, OperatorFault>
    requires { quota ≤ max_quota }
    ensures told { IfOk result
        (λ told. told ≡ record { number = tenant.now.opening.number; quota = quota }) }
    ensures fault { IfErr result (λ f. (short : Bool) × (f ≡ (if short then Short else Memory))) }
{
    let mut kept = tenant.kept.lock(rt);
    let mut free = free.lock(rt);
    // A tenant that is there is under its lock.
    let Some(kept) = &mut *kept else {
        return Err(OperatorFault::Memory);
    };
    if kept.opening() != tenant.opening {
        return Err(OperatorFault::Memory);
    }
    kept.resize(quota, &mut free)
}
