//! How a step is decided.
ghost use Rattle.std.specs.Prelude.{◌≡◌, None, true, false, is_some, IfOk, IsOk};
ghost use Rattle.etcd_model.specs.Store.{kept_store};
ghost use Rattle.etcd_model.specs.Fields.{refused_if};
ghost use Rattle.etcd_model.specs.Stepping.{look_up, used_up};
ghost use Rattle.etcd_types.specs.declared.refusal.Refusal.TheVariants.{UsedUp};
ghost use Rattle.tenant_machine.specs.Deciding.{Does, early_refusal, holds_nothing, is_sure, past_early};
ghost use Rattle.tenant_machine.specs.Tenants.{tenant};
ghost use Rattle.tenant_machine.specs.Plans.{Fits, Plans, takes_memory};

use crate::leasing::plan_tick;
use crate::machine::Machine;
use crate::planned::Planned;
use etcd_types::limits::{LAST_LEASE_ID, LAST_REVISION};
use etcd_types::{Mem, Refusal, Step};
use request_checks::fields;
use std::alloc::Global;

impl Machine {
    /// Decides a step. Where it finds no memory, nothing is decided. Compactions, alarms, ticks and others
    /// need none, nor does an answer without events or keys, or a step that is refused before the quota is asked.
    pub fn plan(&self, alloc: Global, step: &Step) -> Mem<Planned>
        ensures plans { IfOk result (λ p. Plans self.now step.now p) }
        ensures fits { IfOk result (λ p. Fits self.now p) }
        ensures sure { is_sure (tenant self.now) step.now ≡ true → IsOk result }
    {
        match self.early_refusal(step) {
            Some(refusal) => Ok(Planned::refused(refusal)),
            None => self.decide(alloc, step),
        }
    }

    /// What refuses a step before anything is looked up: its fields, then numbers that are used up, then
    /// the alarm.
    pub(crate) fn early_refusal(&self, step: &Step) -> Option<Refusal>
        ensures { result ≡ early_refusal (tenant self.now) step.now }
    {
        if let Some(refusal) = fields(step) {
            Some(refusal)
        } else if self.is_used_up(step) {
            Some(Refusal::UsedUp)
        } else if self.quota.alarm() && step.may_add() {
            Some(Refusal::NoSpace)
        } else {
            None
        }
    }

    /// Whether the revisions, or the IDs that a grant chooses from, are used up for a step.
    fn is_used_up(&self, step: &Step) -> bool
        ensures { used_up kept_store (tenant self.now) step.now ≡ refused_if result UsedUp }
    {
        (self.store.current() >= LAST_REVISION && step.writes())
            || (self.leases.counter() >= LAST_LEASE_ID && step.chooses_id())
    }

    /// Decides a step that nothing refuses early. What takes no memory is lent no allocator.
    fn decide(&self, alloc: Global, step: &Step) -> Mem<Planned>
        requires early { early_refusal (tenant self.now) step.now ≡ None }
        ensures does { IfOk result (λ p. Does self.now p (past_early (tenant self.now) step.now)) }
        ensures fits { IfOk result (λ p. Fits self.now p) }
        ensures sure { takes_memory step.now ≡ false → IsOk result }
        ensures nothing { holds_nothing (tenant self.now) step.now ≡ true → IsOk result }
        ensures stopped { is_some (look_up kept_store (tenant self.now) step.now) ≡ true → IsOk result }
    {
        match step {
            Step::Range(request) => self.plan_range(alloc, request),
            Step::Put(request) => self.plan_put(alloc, request),
            Step::Delete(request) => self.plan_delete(alloc, request),
            Step::Txn(request) => self.plan_txn(alloc, request),
            Step::Compact(revision) => Ok(self.plan_compaction(*revision)),
            Step::Watch(request) => self.plan_watch(alloc, request),
            Step::Take(slot) => self.plan_take(alloc, *slot),
            Step::DropWatch(slot) => Ok(self.plan_drop(*slot)),
            Step::Grant(request) => Ok(self.plan_grant(request)),
            Step::Revoke(id) => Ok(self.plan_revoke(*id)),
            Step::KeepAlive(id) => Ok(self.plan_keep_alive(*id)),
            Step::TimeToLive { id, keys } => self.plan_time_to_live(alloc, *id, *keys),
            Step::Leases => self.plan_leases(alloc),
            Step::Alarm(request) => Ok(self.plan_alarm(request)),
            Step::Status => Ok(self.plan_status()),
            Step::Defragment => Ok(self.plan_defragment()),
            Step::Tick(moment) => Ok(plan_tick(*moment)),
            Step::CatchUp(budget) => Ok(self.plan_catch_up(*budget)),
        }
    }
}
