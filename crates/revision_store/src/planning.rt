//! Plans of one operation.
ghost use Rattle.std.specs.Prelude.{◌≡◌, ◌+◌, ◌<◌, ◌^◌, true, None, Some, IfOk, IfSome, IsOk, IsSome, MatchResult};
ghost use Rattle.std.specs.Prelude.{is_some, option_and_then};
ghost use Rattle.etcd_types.specs.declared.txn.Op.TheVariants.{Put as PutOp, Delete as DeleteOp};
ghost use Rattle.etcd_model.specs.Operations.{changes, op_reply, put_refusal};
ghost use Rattle.revision_store.specs.Stored.{cells, look, reads, row_at};
ghost use Rattle.revision_store.specs.Pending.{IsPlanOf};

use crate::pending::Pending;
use crate::plan::{Plan, Write};
use crate::putting::DecidedPut;
use crate::store::Store;
use etcd_types::{CellNo, DeleteReq, Mem, OpReply, PutReq, Refusal};
use std::alloc::Global;

/// An operation that is decided, with all memory that its commit needs.
#[derive(Drop)]
pub struct PlannedOp {
    /// What it changes.
    pub plan: Plan,
    /// What it is answered, once that is committed.
    pub reply: OpReply,
}

impl Store {
    /// Why a put is refused: its key is absent, and its value or its lease is to stay. Which leases
    /// there are is not asked.
    pub fn put_refusal(&self, request: &PutReq) -> Option<Refusal>
        ensures { result ≡ put_refusal (reads self.now) request.now }
    {
        if (request.ignore_value || request.ignore_lease) && !self.has_key(request.key.as_slice()) {
            Some(Refusal::KeyNotFound)
        } else {
            None
        }
    }

    /// Decides a put, or tells why it is refused, which takes no memory.
    pub fn plan_put(&self, alloc: Global, request: &PutReq) -> Mem<Result<PlannedOp, Refusal>>
        requires { self.now.kept.current + 1 < 2 ^ 63 }
        ensures refusal { IfOk result
            (λ answer. MatchResult answer (λ planned. put_refusal (reads self.now) request.now ≡ None)
            (λ refusal. put_refusal (reads self.now) request.now ≡ Some refusal)) }
        ensures sure { is_some (put_refusal (reads self.now) request.now) ≡ true → IsOk result }
        ensures plan { IfOk result
            (λ answer. IfOk answer (λ planned. IsPlanOf self.now (PutOp request.now) planned.plan)) }
        ensures reply { IfOk result
            (λ answer. IfOk answer
            (λ planned. planned.reply
            ≡ op_reply (reads self.now) (self.now.kept.current + 1) (PutOp request.now))) }
    {
        let live = self.live(request.key.as_slice());
        if (request.ignore_value || request.ignore_lease) && live.is_none() {
            return Ok(Err(Refusal::KeyNotFound));
        }
        let DecidedPut { row, reply } = self.decide_put(alloc, request, live)?;
        let mut plan = Plan::new(alloc);
        plan.push(Write::Put(row))?;
        Ok(Ok(PlannedOp { plan, reply }))
    }

    /// Decides a delete of the live keys of an interval.
    pub fn plan_delete(&self, alloc: Global, request: &DeleteReq) -> Mem<PlannedOp>
        requires { self.now.kept.current + 1 < 2 ^ 63 }
        ensures plan { IfOk result (λ planned. IsPlanOf self.now (DeleteOp request.now) planned.plan) }
        ensures reply { IfOk result
            (λ planned. planned.reply
            ≡ op_reply (reads self.now)
            (look self.now (changes (reads self.now) (DeleteOp request.now))).current
            (DeleteOp request.now)) }
    {
        let mut pending = Pending::new(alloc, self);
        let reply = pending.add_delete(alloc, request)?;
        Ok(PlannedOp {
            plan: pending.finish(),
            reply,
        })
    }

    /// The cell of the row of a key, if it is live.
    pub(crate) fn live(&self, key: &[u8]) -> Option<CellNo>
        ensures row { option_and_then (row_at (cells self.now)) result ≡ (reads self.now).row key.now }
        ensures there { IfSome result (λ c. IsSome (row_at (cells self.now) c)) }
    {
        self.use_invariant();
        self.log.newest_cells(key, &[]).next()
    }

    /// Whether the key is live.
    fn has_key(&self, key: &[u8]) -> bool
        ensures { result ≡ is_some ((reads self.now).row key.now) }
    {
        self.live(key).is_some()
    }
}
