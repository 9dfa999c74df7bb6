//! Plans of what reads or changes the store.
ghost use Rattle.std.specs.Prelude.{◌≡◌, ◌<◌, ◌≤◌, ◌*◌, pos, true, false, None, is_some, IfOk, IsOk};
ghost use Rattle.etcd_types.specs.Limits.{last_revision};
ghost use Rattle.etcd_types.specs.declared.step.Step.TheVariants.{Range, Put, Delete, Txn, Compact};
ghost use Rattle.etcd_types.specs.declared.refusal.Refusal.TheVariants.{NoSpace};
ghost use Rattle.etcd_types.specs.declared.reply.Reply.TheVariants.{Refused};
ghost use Rattle.etcd_types.specs.Steps.{writes};
ghost use Rattle.etcd_model.specs.Fields.{is_empty, txn_fields};
ghost use Rattle.etcd_model.specs.Stepping.{look_up};
ghost use Rattle.etcd_model.specs.Store as kept;
ghost use Rattle.revision_store.specs.Stored.{IsPlanFor};
ghost use Rattle.tenant_machine.specs.Deciding.{Does, answer, header_at, past_early, txn_outcome};
ghost use Rattle.tenant_machine.specs.Tenants.{tenant};
ghost use Rattle.tenant_machine.specs.Plans.{Fits, used_after, written};

use crate::machine::Machine;
use crate::planned::{Effect, Planned};
use etcd_types::{DeleteReq, Header, Mem, OpReply, PutReq, RangeReq, Reply, TxnReq};
use revision_store::{Plan, PlannedOp};
use std::alloc::Global;
use txn_plan::{PlannedTxn, lease_refusal};

impl Machine {
    pub(crate) fn plan_range(&self, alloc: Global, request: &RangeReq) -> Mem<Planned>
        ensures does { IfOk result (λ p. Does self.now p (past_early (tenant self.now) (Range request.now))) }
        ensures sure { is_some (look_up kept.kept_store (tenant self.now) (Range request.now)) ≡ true
            → IsOk result }
        ensures sure_count { request.now.count_only ≡ true → IsOk result }
        ensures fits { IfOk result (λ p. Fits self.now p) }
    {
        Ok(match self.store.plan_range(alloc, request)? {
            Ok(reply) => Planned::told(self.answer(reply)),
            Err(refusal) => Planned::refused(refusal),
        })
    }

    /// A put, unless the lease that it names refuses it.
    pub(crate) fn plan_put(&self, alloc: Global, request: &PutReq) -> Mem<Planned>
        requires { self.now.store.kept.current < last_revision }
        ensures does { IfOk result (λ p. Does self.now p (past_early (tenant self.now) (Put request.now))) }
        ensures sure { is_some (look_up kept.kept_store (tenant self.now) (Put request.now)) ≡ true
            → IsOk result }
        ensures fits { IfOk result (λ p. Fits self.now p) }
    {
        if let Some(refusal) = lease_refusal(&self.leases, request.lease) {
            return Ok(Planned::refused(refusal));
        }
        Ok(match self.store.plan_put(alloc, request)? {
            Ok(PlannedOp { plan, reply }) => self.within_quota(plan, self.answer(reply)),
            Err(refusal) => Planned::refused(refusal),
        })
    }

    /// A delete of an interval. It takes the room that was held for it, and so as many cells are in
    /// use as before.
    pub(crate) fn plan_delete(&self, alloc: Global, request: &DeleteReq) -> Mem<Planned>
        requires { self.now.store.kept.current < last_revision }
        ensures does { IfOk result (λ p. Does self.now p (past_early (tenant self.now) (Delete request.now))) }
        ensures fits { IfOk result (λ p. Fits self.now p) }
    {
        self.store.use_invariant();
        let PlannedOp { plan, reply } = self.store.plan_delete(alloc, request)?;
        Ok(self.writing(plan, self.answer(reply), self.quota.used))
    }

    pub(crate) fn plan_compaction(&self, revision: i64) -> Planned
        ensures does { Does self.now result (past_early (tenant self.now) (Compact revision)) }
        ensures fits { Fits self.now result }
    {
        match self.store.compact_refusal(revision) {
            Some(refusal) => Planned::refused(refusal),
            None => Planned {
                effect: Effect::Compact(revision as u64),
                reply: Reply::Compacted(self.header()),
            },
        }
    }

    /// A transaction. One that changes nothing writes no revision.
    pub(crate) fn plan_txn(&self, alloc: Global, request: &TxnReq) -> Mem<Planned>
        requires fields { txn_fields request.now ≡ None }
        requires revisions { writes (Txn request.now) ≡ true → self.now.store.kept.current < last_revision }
        ensures does { IfOk result (λ p. Does self.now p (past_early (tenant self.now) (Txn request.now))) }
        ensures sure { is_some (look_up kept.kept_store (tenant self.now) (Txn request.now)) ≡ true
            → IsOk result }
        ensures fits { IfOk result (λ p. Fits self.now p) }
    {
        self.store.use_invariant();
        Ok(
            match txn_plan::plan(alloc, &self.store, &self.leases, request)? {
                Ok(planned) => self.transaction(planned),
                Err(refusal) => Planned::refused(refusal),
            },
        )
    }

    /// What comes of a transaction that is not refused. The quota is asked where the branch that is
    /// taken has a put: deletes take the room that was held for them.
    fn transaction(&self, planned: PlannedTxn) -> Planned
        requires plan { IsPlanFor self.now.store planned.plan }
        requires adds { planned.adds ≡ true → self.now.store.kept.current < last_revision }
        requires writes { is_empty planned.plan ≡ false → self.now.store.kept.current < last_revision }
        requires keeps { planned.adds ≡ false → kept.counted_cells (written self.now.store planned.plan)
            ≡ kept.counted_cells self.now.store.kept }
        ensures does { Does self.now result (txn_outcome self.now planned) }
        ensures fits { Fits self.now result }
    {
        let PlannedTxn {
            plan,
            succeeded,
            adds,
            revision,
            responses,
        } = planned;
        let reply = Reply::Txn {
            header: self.header_at(revision),
            succeeded,
            responses,
        };
        if adds {
            self.within_quota(plan, reply)
        } else if plan.is_empty() {
            Planned::told(reply)
        } else {
            self.writing(plan, reply, self.quota.used)
        }
    }

    /// Writes of which one at least adds, unless more cells were in use then than the quota has:
    /// that raises the alarm.
    fn within_quota(&self, plan: Plan, reply: Reply) -> Planned
        requires plan { IsPlanFor self.now.store plan }
        requires revisions { self.now.store.kept.current < last_revision }
        ensures admitted { used_after self.now plan ≤ self.now.quota
            → result ≡ record { effect = Effect.Write plan (used_after self.now plan); reply = reply } }
        ensures refused { self.now.quota < used_after self.now plan
            → result ≡ record { effect = Effect.Alarm true; reply = Refused NoSpace } }
        ensures fits { Fits self.now result }
    {
        let growth = self.store.growth(&plan);
        let used = self.quota.used.saturating_add(growth);
        if self.quota.admit(used) {
            self.writing(plan, reply, used)
        } else {
            Planned::no_space()
        }
    }

    /// Writes after which so many cells are in use.
    fn writing(&self, plan: Plan, reply: Reply, used: u64) -> Planned
        requires plan { IsPlanFor self.now.store plan }
        requires revisions { self.now.store.kept.current < last_revision }
        requires used { used ≡ used_after self.now plan }
        requires within { used ≤ 64 * self.now.store.share.reserved }
        ensures planned { result ≡ record { effect = Effect.Write plan used; reply = reply } }
        ensures fits { Fits self.now result }
    {
        self.store.use_invariant();
        Planned {
            effect: Effect::Write { plan, used },
            reply,
        }
    }

    /// An operation's answer, as that of its step.
    fn answer(&self, reply: OpReply) -> Reply
        ensures { result ≡ answer self.now reply }
    {
        match reply {
            OpReply::Range {
                revision,
                count,
                kvs,
                more,
            } => Reply::Range {
                header: self.header_at(revision),
                count,
                kvs,
                more,
            },
            OpReply::Put { revision, prev_kv } => Reply::Put {
                header: self.header_at(revision),
                prev_kv,
            },
            OpReply::Delete {
                revision,
                deleted,
                prev_kvs,
            } => Reply::Delete {
                header: self.header_at(revision),
                deleted,
                prev_kvs,
            },
        }
    }

    pub(crate) fn header_at(&self, revision: i64) -> Header
        ensures { result ≡ header_at self.now revision }
    {
        Header {
            cluster: self.cluster(),
            revision,
        }
    }

    /// The header of an answer to what writes no revision.
    pub(crate) fn header(&self) -> Header
        ensures { result ≡ header_at self.now (pos self.now.store.kept.current) }
    {
        self.header_at(self.store.current() as i64)
    }
}
