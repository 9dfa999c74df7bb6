//! A caller's own lists of its calls.
ghost use Rattle.std.specs.Prelude.{◌≡◌, ◌-◌, ◌^◌, [], length, min, true, IfOk, OnOk};
ghost use Rattle.tenant_audit.specs.Seats.{AddsCall, AddsMissed, HasRoomOn, KeepsLists, call, calls_on};
ghost use Rattle.tenant_audit.specs.Seats.{has_tally, missed_on};

use crate::audit::Entry;
use crate::tally::{MadeCall, Tally};
use etcd_types::Mem;
use indexmap::IndexMap;
use std::alloc::Global;
use std::marker::Model;

/// A caller of a registry, with a list of its calls on each tenant.
pub struct Seat {
    number: u8,
    tallies: IndexMap<Vec<u8>, Tally>,
    alloc: Global,
}

impl Drop for Seat {
    fn drop(self) {
        let Seat {
            number: _,
            tallies: _,
            alloc: _,
        } = self;
    }
}

impl Model for Seat {
    ghost use Rattle.tenant_audit.specs.Seats.{SeatState, seat_of};

    ghost Value = { SeatState };

    ghost view = { λ s. seat_of s.number s.tallies.entries };
}

impl Seat {
    /// A seat with no calls, and with room for lists on so many tenants.
    pub fn new(alloc: Global, number: u8, tenants: usize) -> Mem<Seat>
        ensures { IfOk result (λ seat. seat ≡ record { number = number; tallies = [] }) }
    {
        Ok(Seat {
            number,
            tallies: IndexMap::with_capacity(alloc, tenants)?,
            alloc,
        })
    }

    /// Its number.
    pub fn number(&self) -> u8
        ensures { result ≡ self.now.number }
    {
        self.number
    }

    /// How many calls on a tenant its list has.
    pub fn made(&self, tenant: &[u8]) -> u32
        ensures { result ≡ length (calls_on tenant.now self.now) }
    {
        match self.tallies.get(tenant) {
            Some(tally) => tally.made(),
            None => 0,
        }
    }

    /// How many calls on a tenant were answered and have no turn, up to 2^32 - 1.
    pub fn missed(&self, tenant: &[u8]) -> u32
        ensures { result ≡ min (missed_on tenant.now self.now) (2 ^ 32 - 1) }
    {
        self.all_missed(tenant).min(u32::MAX as u64) as u32
    }

    /// The same, up to 2^64 - 1.
    pub(crate) fn all_missed(&self, tenant: &[u8]) -> u64
        ensures { result ≡ missed_on tenant.now self.now }
    {
        match self.tallies.get(tenant) {
            Some(tally) => tally.missed(),
            None => 0,
        }
    }

    /// Its calls on a tenant.
    pub(crate) fn calls(&self, tenant: &[u8]) -> &[MadeCall]
        ensures { result.now ≡ calls_on tenant.now self.now }
    {
        match self.tallies.get(tenant) {
            Some(tally) => tally.calls(),
            None => &[],
        }
    }

    /// Takes the memory that keeping one more call on a tenant needs.
    pub fn prepare(&mut self, tenant: &[u8]) -> Mem<()>
        ensures keeps { KeepsLists self.old self.new }
        ensures room { OnOk result (HasRoomOn tenant.now self.new) }
    {
        self.begin(tenant)?;
        self.make_room(tenant)
    }

    /// Begins a list on a tenant, if there is none yet.
    fn begin(&mut self, tenant: &[u8]) -> Mem<()>
        ensures keeps { KeepsLists self.old self.new }
        ensures there { OnOk result (has_tally tenant.now self.new ≡ true) }
    {
        if self.tallies.contains_key(tenant) {
            return Ok(());
        }
        let name = Vec::from_slice(self.alloc, tenant)?;
        self.tallies.insert(name, Tally::new(self.alloc))?;
        Ok(())
    }

    /// Makes room for one more call on a tenant.
    fn make_room(&mut self, tenant: &[u8]) -> Mem<()>
        requires { has_tally tenant.now self.old ≡ true }
        ensures keeps { KeepsLists self.old self.new }
        ensures room { OnOk result (HasRoomOn tenant.now self.new) }
    {
        match self.tallies.get_mut(tenant) {
            Some(tally) => tally.make_room(),
            None => unreachable!(),
        }
    }

    /// Appends a call whose entry in the tenant's audit has this turn.
    pub fn record(&mut self, tenant: &[u8], turn: u32, entry: Entry)
        requires { HasRoomOn tenant.now self.old }
        ensures { AddsCall tenant.now (call turn entry.step entry.reply) self.old self.new }
    {
        match self.tallies.get_mut(tenant) {
            Some(tally) => tally.record(entry.into_call(turn)),
            None => unreachable!(),
        }
    }

    /// Counts a call that has no turn.
    pub fn miss(&mut self, tenant: &[u8])
        requires { HasRoomOn tenant.now self.old }
        ensures { AddsMissed tenant.now self.old self.new }
    {
        match self.tallies.get_mut(tenant) {
            Some(tally) => tally.miss(),
            None => unreachable!(),
        }
    }
}
