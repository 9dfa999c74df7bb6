//! Plans of the lease calls.
ghost use Rattle.std.specs.Prelude.{◌≡◌, ◌+◌, ◌<◌, ◌≤◌, map, pos, int_le, true, false, None, IfOk, IsOk, IsSome};
ghost use Rattle.std.specs.Prelude.{[], if◌then◌else◌};
ghost use Rattle.std.specs.List.{AllByRecursion};
ghost use Rattle.std.specs.Ordering.{int_eq};
ghost use Rattle.etcd_types.specs.declared.step.Step.TheVariants.{Grant, KeepAlive as Alive, Leases};
ghost use Rattle.etcd_types.specs.declared.step.Step.TheVariants.{Revoke, TimeToLive};
ghost use Rattle.etcd_types.specs.Limits.{max_ttl};
ghost use Rattle.etcd_types.specs.declared.refusal.Refusal.TheVariants.{NoSpace};
ghost use Rattle.etcd_types.specs.declared.reply.Reply.TheVariants.{KeptAlive, Quiet, Refused};
ghost use Rattle.etcd_model.specs.Leases.{attached};
ghost use Rattle.etcd_model.specs.Operations.{has_lease};
ghost use Rattle.etcd_model.specs.Store.{kept_store};
ghost use Rattle.etcd_model.specs.Tenant.{header};
ghost use Rattle.lease_book.specs.Granting.{Fits as FitsBook};
ghost use Rattle.model_laws.specs.Space.{finished};
ghost use Rattle.revision_store.specs.Plans.{key_at};
ghost use Rattle.revision_store.specs.Stored.{cells as cells_in, reads};
ghost use Rattle.tenant_machine.specs.Deciding.{Does, early_refusal, granted, holds_nothing, past_early};
ghost use Rattle.tenant_machine.specs.Tenants.{cells_used, tenant};
ghost use Rattle.tenant_machine.specs.Plans.{Fits};

use crate::machine::Machine;
use crate::planned::{Effect, Planned};
use chunk_list::Walk;
use etcd_types::{GrantReq, List, Mem, Refusal, Reply};
use lease_book::{Booked, Keys, NewLease};
use revision_store::Store;
use std::alloc::Global;

impl Machine {
    /// A grant takes a cell. It is refused if its ID is in use, and if more cells were in use then than the
    /// quota has, which raises the alarm.
    pub(crate) fn plan_grant(&self, request: &GrantReq) -> Planned
        requires { early_refusal (tenant self.now) (Grant request.now) ≡ None }
        ensures does { Does self.now result (past_early (tenant self.now) (Grant request.now)) }
        ensures fits { Fits self.now result }
    {
        match self.leases.plan_grant(self.moment, request) {
            Ok(new) => self.granting(new),
            Err(refusal) => Planned::refused(refusal),
        }
    }

    /// A lease that is granted, unless more cells were in use then than the quota has: that raises the alarm.
    fn granting(&self, new: NewLease) -> Planned
        requires book { FitsBook self.now.leases new }
        requires chosen { int_eq new.lease.id (pos 0) ≡ false }
        requires counter { 1 ≤ new.counter }
        requires end { new.lease.end ≡ self.now.moment + new.lease.ttl }
        ensures admitted { cells_used self.now.store.kept self.now.leases.leases + 1 ≤ self.now.quota
            → result ≡ record { effect = Effect.Grant new; reply = granted self.now new.lease } }
        ensures refused { self.now.quota < cells_used self.now.store.kept self.now.leases.leases + 1
            → result ≡ record { effect = Effect.Alarm true; reply = Refused NoSpace } }
        ensures fits { Fits self.now result }
    {
        if !self.quota.admit(self.quota.used + 1) {
            return Planned::no_space();
        }
        let reply = Reply::Granted {
            header: self.header(),
            id: new.lease.id,
            ttl: new.lease.ttl as i64,
        };
        Planned {
            effect: Effect::Grant(new),
            reply,
        }
    }

    /// A lease that is kept alive lives its granted time from now on. One that is not there has a time of 0.
    pub(crate) fn plan_keep_alive(&self, id: i64) -> Planned
        ensures does { Does self.now result (past_early (tenant self.now) (Alive id)) }
        ensures fits { Fits self.now result }
    {
        match self.leases.lease(id) {
            Some(lease) => Planned {
                effect: Effect::Renew(id),
                reply: self.kept_alive(id, lease.ttl),
            },
            None => Planned::told(self.kept_alive(id, 0)),
        }
    }

    fn kept_alive(&self, id: i64, ttl: u64) -> Reply
        requires { int_le (pos ttl) max_ttl ≡ true }
        ensures { result ≡ KeptAlive (header kept_store (tenant self.now)) id (pos ttl) }
    {
        Reply::KeptAlive {
            header: self.header(),
            id,
            ttl: ttl as i64,
        }
    }

    /// The end of a lease, with its keys. One that is not there is refused.
    pub(crate) fn plan_revoke(&self, id: i64) -> Planned
        ensures does { Does self.now result (past_early (tenant self.now) (Revoke id)) }
        ensures fits { Fits self.now result }
    {
        if !self.leases.has(id) {
            return Planned::refused(Refusal::LeaseNotFound);
        }
        Planned {
            effect: Effect::End(id),
            reply: Reply::Revoked(self.header_at(self.revision_after(id))),
        }
    }

    /// The current revision once a lease has ended: one more, if it has keys.
    fn revision_after(&self, id: i64) -> i64
        requires { has_lease self.now.leases.leases id ≡ true }
        ensures { result ≡ pos (finished self.now.store.kept id).current }
    {
        let current = self.store.current();
        if self.leases.keys_of(id).is_empty() {
            current as i64
        } else {
            (current + 1) as i64
        }
    }

    /// The seconds that a lease has left, of those that it was granted, with its keys if they are asked for.
    /// One that is not there has -1 seconds. Only keys take memory.
    pub(crate) fn plan_time_to_live(&self, alloc: Global, id: i64, asked: bool) -> Mem<Planned>
        ensures does { IfOk result (λ p. Does self.now p (past_early (tenant self.now) (TimeToLive id asked))) }
        ensures fits { IfOk result (λ p. Fits self.now p) }
        ensures sure { holds_nothing (tenant self.now) (TimeToLive id asked) ≡ true → IsOk result }
    {
        let header = self.header();
        let Some(lease) = self.leases.lease(id) else {
            return Ok(Planned::told(Reply::TimeToLive {
                header,
                id,
                ttl: -1,
                granted_ttl: 0,
                keys: List::new(alloc),
            }));
        };
        let keys = self.keys_asked(alloc, id, asked)?;
        Ok(Planned::told(Reply::TimeToLive {
            header,
            id,
            ttl: lease.end.saturating_sub(self.moment) as i64,
            granted_ttl: lease.ttl as i64,
            keys,
        }))
    }

    /// The keys of a lease that is there, if they are asked for.
    fn keys_asked(&self, alloc: Global, id: i64, asked: bool) -> Mem<List<List<u8>>>
        requires { has_lease self.now.leases.leases id ≡ true }
        ensures keys { IfOk result (λ keys. keys ≡ (if asked then attached (reads self.now.store) id else [])) }
        ensures sure { (asked ≡ true → attached (reads self.now.store) id ≡ []) → IsOk result }
    {
        if asked {
            self.keys_of(alloc, id)
        } else {
            Ok(List::new(alloc))
        }
    }

    /// The keys of a lease that is there, ascending.
    fn keys_of(&self, alloc: Global, id: i64) -> Mem<List<List<u8>>>
        requires { has_lease self.now.leases.leases id ≡ true }
        ensures keys { IfOk result (λ keys. keys ≡ attached (reads self.now.store) id) }
        ensures sure { attached (reads self.now.store) id ≡ [] → IsOk result }
    {
        self.store.use_invariant();
        keys_under(alloc, &self.store, self.leases.keys_of(id))
    }

    /// The IDs of all leases, ascending.
    pub(crate) fn plan_leases(&self, alloc: Global) -> Mem<Planned>
        ensures does { IfOk result (λ p. Does self.now p (past_early (tenant self.now) Leases)) }
        ensures fits { IfOk result (λ p. Fits self.now p) }
    {
        let ids = self.lease_ids(alloc)?;
        Ok(Planned::told(Reply::Leases {
            header: self.header(),
            ids,
        }))
    }

    fn lease_ids(&self, alloc: Global) -> Mem<List<i64>>
        ensures { IfOk result (λ ids. ids ≡ map (λ l. l.id) self.now.leases.leases) }
    {
        Ok(List::from_vec(ids_of(alloc, self.leases.walk())?))
    }
}

fn ids_of(alloc: Global, leases: Walk<'_, Booked>) -> Mem<Vec<i64>>
    ensures { IfOk result (λ ids. ids.items ≡ map (λ b. b.lease.id) leases.entry) }
{
    leases.map(|booked| booked.lease.id).collect(alloc)
}

/// The keys of the records under some cells.
fn keys_under(alloc: Global, store: &Store, cells: Keys<'_>) -> Mem<List<List<u8>>>
    requires { AllByRecursion (λ c. IsSome (cells_in store.now c)) cells }
    ensures keys { IfOk result (λ keys. keys ≡ map (key_at (cells_in store.now)) cells.entry) }
    ensures sure { cells.entry ≡ [] → IsOk result }
{
    let mut keys = Vec::new(alloc);
    'reading: for cell in cells {
        keys.push(store.key(alloc, cell)?)?;
    }
    Ok(List::from_vec(keys))
}

/// A tick.
pub(crate) fn plan_tick(moment: u64) -> Planned
    ensures { result ≡ record { effect = Effect.Tick moment; reply = Quiet } }
{
    Planned {
        effect: Effect::Tick(moment),
        reply: Reply::Quiet,
    }
}
