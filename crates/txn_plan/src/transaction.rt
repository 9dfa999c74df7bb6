//! Plans of transactions.
ghost use Rattle.std.specs.Prelude.{◌≡◌, ◌+◌, ◌<◌, ◌^◌, ◌++◌, true, None, Some, is_some, IfOk, IsOk};
ghost use Rattle.std.specs.Prelude.{MatchResult};
ghost use Rattle.etcd_model.specs.Fields.{txn_fields};
ghost use Rattle.etcd_types.specs.Steps.{writes_any};
ghost use Rattle.txn_plan.specs.Planned.{IsTxn, txn_refusal};

use crate::branch::{Branch, taken};
use crate::folding::{Folded, fold};
use crate::refusal::ops_refusal;
use etcd_types::{List, Mem, Op, OpReply, Refusal, TxnReq};
use lease_book::LeaseBook;
use revision_store::{Plan, Store};
use std::alloc::Global;

/// A transaction that is decided, with all memory that its commit needs.
#[derive(Drop)]
pub struct PlannedTxn {
    /// What it changes, in one revision.
    pub plan: Plan,
    /// All compares hold, and so the first branch is taken.
    pub succeeded: bool,
    /// The branch that is taken has a put.
    pub adds: bool,
    /// The current revision, once the plan is committed.
    pub revision: i64,
    /// What the operations of the branch are answered, in their order.
    pub responses: List<OpReply>,
}

/// Decides a transaction that its fields don't refuse. It is refused by the first operation of the branch
/// that is taken which the store refuses as it is before all of them, and that takes no memory. Nothing
/// changes.
pub fn plan(
    alloc: Global,
    store: &Store,
    leases: &LeaseBook,
    request: &TxnReq,
) -> Mem<Result<PlannedTxn, Refusal>>
    requires fields { txn_fields request.now ≡ None }
    requires revisions { writes_any (request.now.success ++ request.now.failure) ≡ true
        → store.now.kept.current + 1 < 2 ^ 63 }
    ensures refusal { IfOk result (λ answer. MatchResult answer
        (λ planned. txn_refusal leases.now.leases store.now request.now ≡ None)
        (λ refusal. txn_refusal leases.now.leases store.now request.now ≡ Some refusal)) }
    ensures sure { is_some (txn_refusal leases.now.leases store.now request.now) ≡ true → IsOk result }
    ensures planned { IfOk result (λ answer. IfOk answer (λ planned. IsTxn store.now request.now planned)) }
{
    let Branch { succeeded, ops } = taken(store, request);
    if let Some(refusal) = ops_refusal(store, leases, ops) {
        return Ok(Err(refusal));
    }
    let Folded { pending, replies } = fold(alloc, store, ops)?;
    Ok(Ok(PlannedTxn {
        succeeded,
        adds: Op::any_adds(ops),
        revision: pending.current() as i64,
        plan: pending.finish(),
        responses: replies,
    }))
}
