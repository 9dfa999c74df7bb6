//! Transactions that read alone, whose rows are found, and not made.
ghost use Rattle.std.specs.Prelude.{◌≡◌, ◌≤◌, true, length, map, vec_capacity, is_some, IfOk, IfSome};
ghost use Rattle.std.specs.List.{list_all};
ghost use Rattle.etcd_types.specs.Rows.{op_reply_of};
ghost use Rattle.etcd_types.specs.declared.txn.TxnReq.{TxnReq};
ghost use Rattle.etcd_model.specs.Operations.{op_reply};
ghost use Rattle.revision_store.specs.Stored.{reads};
ghost use Rattle.txn_plan.specs.Finding.{found_plan, is_found_op, is_found_txn};
ghost use Rattle.txn_plan.specs.Planned.{IsTaken, IsTxn};

use crate::branch::{Branch, reads_alone, taken};
use etcd_types::{List, Mem, Op, TxnReq};
use revision_store::{FoundRange, Store};
use std::alloc::Global;

/// A transaction's answer whose rows lie in their cells.
#[derive(Drop)]
pub struct FoundTxn<'a> {
    /// All compares hold, and so the first branch is taken.
    pub succeeded: bool,
    /// What the ranges of the branch that is taken are answered, in their order.
    pub responses: List<FoundRange<'a>>,
}

/// The branch that a transaction takes, if it has ranges alone, each of which gives rows in the order of their keys at a
/// revision that can be read.
pub fn finds<'a>(store: &Store, request: &'a TxnReq) -> Option<Branch<'a>>
    ensures found { is_some result ≡ is_found_txn store.now request.now }
    ensures taken { IfSome result (λ branch. IsTaken store.now request.now branch) }
{
    if !reads_alone(request) {
        return None;
    }
    let branch = taken(store, request);
    if branch.ops.is_empty() || !all_found(store, branch.ops) {
        return None;
    }
    Some(branch)
}

/// Finds what a transaction is answered that takes such a branch. It fails only for want of memory.
pub fn find<'a>(alloc: Global, store: &'a Store, branch: Branch<'_>) -> Mem<FoundTxn<'a>>
    requires { list_all (is_found_op store.now) branch.ops.now ≡ true }
    ensures { (t : TxnReq) → IsTaken store.now t branch.entry
        → IfOk result (λ txn. IsTxn store.now t (found_plan store.now txn)) }
{
    let responses = List::from_vec(find_ranges(alloc, store, branch.ops)?);
    Ok(FoundTxn {
        succeeded: branch.succeeded,
        responses,
    })
}

/// Whether some operations are ranges alone, whose rows can be found.
fn all_found(store: &Store, ops: &[Op]) -> bool
    ensures { result ≡ list_all (is_found_op store.now) ops.now }
{
    ops.iter().all(|op| is_found(store, op))
}

fn is_found(store: &Store, op: &Op) -> bool
    ensures { result ≡ is_found_op store.now op.now }
{
    match op {
        Op::Range(request) => store.finds(request),
        Op::Put(_) | Op::Delete(_) | Op::Nested => false,
    }
}

/// The answers to such ranges, in a list with room for no more.
fn find_ranges<'a>(alloc: Global, store: &'a Store, ops: &[Op]) -> Mem<Vec<FoundRange<'a>>>
    requires { list_all (is_found_op store.now) ops.now ≡ true }
    ensures replies { IfOk result (λ found. map (op_reply_of (λ rows. rows)) found.items
        ≡ map (op_reply (reads store.now) store.now.kept.current) ops.now) }
    ensures room { IfOk result (λ found. vec_capacity found ≤ length ops.now) }
{
    let mut found = Vec::with_capacity(alloc, ops.len())?;
    for op in ops {
        let range = find_range(alloc, store, op)?;
        found.push_reserved(range);
    }
    Ok(found)
}

fn find_range<'a>(alloc: Global, store: &'a Store, op: &Op) -> Mem<FoundRange<'a>>
    requires { is_found_op store.now op.now ≡ true }
    ensures { IfOk result (λ range. op_reply_of (λ rows. rows) range
        ≡ op_reply (reads store.now) store.now.kept.current op.now) }
{
    match op {
        Op::Range(request) => store.find_rows(alloc, request),
        Op::Put(_) | Op::Delete(_) | Op::Nested => unreachable!("each is a range"),
    }
}
