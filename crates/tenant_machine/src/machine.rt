//! One tenant's machine.
ghost use Rattle.std.specs.Prelude.{◌≡◌, ◌≢◌, ◌+◌, ◌-◌, ◌≤◌, ◌≤ℤ◌, ℕ, length, pos, true, IfOk};
ghost use Rattle.etcd_types.specs.Limits.{last_revision, max_quota, min_quota};
ghost use Rattle.etcd_types.specs.declared.reply.Reply.TheVariants.{Refused};
ghost use Rattle.etcd_types.specs.declared.refusal.Refusal.TheVariants.{Memory};
ghost use Rattle.cell_arena.specs.Loan.{Settles, returned, segments_for, undrawn};
ghost use Rattle.etcd_model.specs.Machine.{opening};
ghost use Rattle.etcd_model.specs.Held.{Holds};
ghost use Rattle.etcd_model.specs.Store.{kept_store, reserved_cells};
ghost use Rattle.etcd_model.specs.Tenant.{used};
ghost use Rattle.tenant_machine.specs.Deciding.{is_sure};
ghost use Rattle.tenant_machine.specs.Tenants.{IsLentTo, SettlesWith, tenant};
ghost use Rattle.tenant_machine.specs.Plans.{Fits, FitsCompaction, FitsGrant, FitsWrite, IsAfter, KeepsBudget, Steps};
ghost use Rattle.tenant_machine.specs.Plans.{with_lease, with_new_end, written};
ghost use Rattle.etcd_model.specs.Operations.{has_lease};

use crate::attaching::follow;
use crate::planned::{Effect, Planned};
use cell_arena::Segments;
use etcd_types::limits::SEGMENT_CELLS;
use etcd_types::{Mem, Refusal, Reply, Step};
use lease_book::{LeaseBook, NewLease};
use quota_alarm::Quota;
use revision_store::{Plan, Store};
use std::alloc::Global;
use std::marker::Model;
use watch_sync::Watchers;

/// One tenant's cluster.
pub struct Machine {
    cluster: u64,
    pub(crate) store: Store,
    pub(crate) leases: LeaseBook,
    pub(crate) watchers: Watchers,
    /// The seconds of its clock.
    pub(crate) moment: u64,
    /// The cells of what the store keeps, room for a delete of each live key, and one a lease are in use.
    pub(crate) quota: Quota,
}

impl Drop for Machine {
    fn drop(self) {
        let Machine {
            cluster: _,
            store: _,
            leases: _,
            watchers: _,
            moment: _,
            quota: _,
        } = self;
    }
}

impl Model for Machine {
    ghost use Rattle.watch_sync.specs.Slots.{AllAgree};
    ghost use Rattle.tenant_machine.specs.Tenants.{MachineState, IsMachine, machine_code, machine_of};

    ghost Value = { MachineState };

    ghost coded = { machine_code };

    ghost view = { λ m. machine_of m.cluster m.store m.leases m.watchers m.moment m.quota };

    ghost invariant = { λ m. IsMachine m.store m.leases m.moment m.quota × AllAgree m.watchers m.store };
}

/// The segments that a quota of so many cells takes.
pub fn segments_for(quota: u32) -> u32
    ensures { result ≡ segments_for quota }
{
    quota.div_ceil(SEGMENT_CELLS)
}

impl Machine {
    /// A new tenant, whose empty store is at the first revision. Takes all memory that commits
    /// need, but for their segments: these are lent to each commit.
    pub fn new(alloc: Global, cluster: u64, quota: u32, first: i64) -> Mem<Machine>
        requires cluster { 1 ≤ cluster }
        requires quota { (min_quota ≤ quota) × (quota ≤ max_quota) }
        requires first { (pos 1 ≤ℤ first) × (first ≤ℤ pos last_revision) }
        ensures holds { (n : ℕ) → first ≡ pos n
            → IfOk result (λ m. Holds (opening cluster quota n) (tenant m)) }
        ensures share { IfOk result (λ m. m.store.share ≡ undrawn (segments_for quota)) }
    {
        let cells = segments_for(quota) * SEGMENT_CELLS;
        Ok(Machine {
            cluster,
            store: Store::new(alloc, cells, first as u64)?,
            leases: LeaseBook::new(alloc, cells)?,
            watchers: Watchers::new(alloc)?,
            moment: 0,
            quota: Quota::new(quota),
        })
    }

    /// Gives all segments back, with whatever they hold. It takes no memory and cannot fail.
    pub fn give_up<S: Segments>(self, segments: &mut S)
        requires lent { IsLentTo self (S.loan segments.old) }
        ensures settles { Settles self.store.share (S.loan segments.old)
            (returned self.store.share) (S.loan segments.new) }
    {
        let Machine {
            cluster: _,
            store,
            leases: _,
            watchers: _,
            moment: _,
            quota: _,
        } = self;
        store.give_up(segments);
    }

    /// Makes what was planned, of the machine as it was then. It is lent the segments that the
    /// store may draw and give back. It takes no memory and cannot fail.
    pub fn commit<S: Segments>(&mut self, segments: &mut S, planned: Planned) -> Reply
        requires fits { Fits self.old planned }
        requires lent { IsLentTo self.old (S.loan segments.old) }
        ensures reply { result ≡ planned.reply }
        ensures after { IsAfter self.old planned self.new }
        ensures budget { KeepsBudget self.old planned.effect self.new }
        ensures settles { SettlesWith self.old (S.loan segments.old) self.new (S.loan segments.new) }
    {
        let Planned { effect, reply } = planned;
        match effect {
            Effect::Nothing => {}
            Effect::Alarm(true) => self.quota.raise(),
            Effect::Alarm(false) => self.quota.clear(),
            Effect::Write { plan, used } => self.write(segments, plan, used),
            Effect::Compact(revision) => self.compact(segments, revision),
            Effect::Grant(new) => self.grant(segments, new),
            Effect::Renew(id) => self.renew(id),
            Effect::End(id) => self.end_lease(segments, id),
            Effect::Tick(moment) => self.tick(segments, moment),
            Effect::Watch(new) => self.open_watch(new),
            Effect::Take(taken) => self.take(taken),
            Effect::DropWatch(slot) => self.drop_watch(slot),
            Effect::CatchUp(budget) => self.catch_up(budget),
        }
        reply
    }

    /// One step: planned and committed, or for want of memory neither.
    pub fn step<S: Segments>(&mut self, alloc: Global, segments: &mut S, step: &Step) -> Reply
        requires lent { IsLentTo self.old (S.loan segments.old) }
        ensures steps { Steps self.old step.now result self.new }
        ensures sure { is_sure (tenant self.old) step.now ≡ true → result ≢ Refused Memory }
        ensures settles { SettlesWith self.old (S.loan segments.old) self.new (S.loan segments.new) }
    {
        match self.plan(alloc, step) {
            Ok(planned) => self.commit(segments, planned),
            Err(_) => Reply::Refused(Refusal::Memory),
        }
    }

    /// The cluster's ID.
    pub fn cluster(&self) -> u64
        ensures { result ≡ self.now.cluster }
    {
        self.cluster
    }

    /// The cells that records take: those that count against the quota, without the room that is
    /// held for deletes.
    pub fn filled_cells(&self) -> u32
        ensures { result
            ≡ used kept_store (tenant self.now) - reserved_cells self.now.store.kept.current
            self.now.store.kept.changes }
    {
        self.store.filled_cells()
    }

    /// The revision of the last compaction, 0 before the first.
    pub fn compacted(&self) -> u64
        ensures { result ≡ self.now.store.kept.compacted }
    {
        self.store.compacted()
    }

    /// How many leases there are.
    pub fn lease_count(&self) -> usize
        ensures { result ≡ length self.now.leases.leases }
    {
        self.leases.len()
    }

    /// Makes changes one more revision, after which so many cells are in use.
    fn write<S: Segments>(&mut self, segments: &mut S, plan: Plan, used: u64)
        requires fits { FitsWrite self.old plan used }
        requires lent { IsLentTo self.old (S.loan segments.old) }
        ensures tenant { tenant self.new ≡ record (tenant self.old) { store = written self.old.store plan } }
        ensures settles { SettlesWith self.old (S.loan segments.old) self.new (S.loan segments.new) }
    {
        let revision = self.store.current() + 1;
        self.store.commit(segments, plan);
        self.watchers.note(&self.store);
        follow(&mut self.leases, &self.store, revision);
        self.quota.used = used;
    }

    /// Forgets what reads below a revision need. The cells that this frees are in use no more.
    fn compact<S: Segments>(&mut self, segments: &mut S, revision: u64)
        requires fits { FitsCompaction self.old.store revision }
        requires lent { IsLentTo self.old (S.loan segments.old) }
        ensures tenant { tenant self.new
            ≡ record (tenant self.old) { store = kept_store.compact self.old.store.kept revision } }
        ensures settles { SettlesWith self.old (S.loan segments.old) self.new (S.loan segments.new) }
    {
        self.store.use_invariant();
        let before = self.store.filled_cells();
        self.store.compact(segments, revision);
        self.watchers.cut(&self.store);
        let freed = before - self.store.filled_cells();
        self.quota.used -= u64::from(freed);
    }

    /// Takes up a lease, with a record of it in a cell, which is in use then.
    fn grant<S: Segments>(&mut self, segments: &mut S, new: NewLease)
        requires fits { FitsGrant self.old new }
        requires lent { IsLentTo self.old (S.loan segments.old) }
        ensures tenant { tenant self.new ≡ with_lease self.old new }
        ensures settles { SettlesWith self.old (S.loan segments.old) self.new (S.loan segments.new) }
    {
        self.store.use_invariant();
        self.leases.use_invariant();
        let cell = self
            .store
            .place_lease(segments, new.lease.id, new.lease.ttl);
        self.leases.grant(new, cell);
        self.quota.used += 1;
    }

    /// Gives a lease that is there the end that it would have if it was granted now.
    fn renew(&mut self, id: i64)
        requires { has_lease self.old.leases.leases id ≡ true }
        ensures tenant { tenant self.new ≡ with_new_end self.old id }
        ensures store { self.new.store ≡ self.old.store }
    {
        self.leases.use_invariant();
        self.leases.renew(id, self.moment);
    }
}
