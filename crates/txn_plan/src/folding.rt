//! Operations one after another, each over what the ones before it change.
ghost use Rattle.std.specs.Prelude.{◌≡◌, ◌+◌, ◌<◌, ◌^◌, [], true, false, IfOk, OnOk};
ghost use Rattle.std.specs.List.{AllByRecursion, list_any};
ghost use Rattle.etcd_model.specs.Fields.{has_duplicate, is_nested};
ghost use Rattle.etcd_model.specs.Operations.{and_changes, op_reply, pending_after, replies};
ghost use Rattle.etcd_types.specs.Steps.{writes_any, writes_op};
ghost use Rattle.revision_store.specs.Stored.{look, reads};
ghost use Rattle.txn_plan.specs.Planned.{IsApart, IsReadable};

use etcd_types::{List, Mem, Op, OpReply};
use revision_store::{Pending, Store};
use std::alloc::Global;

/// Some operations with what they change, which is not yet written, and what each of them is answered.
#[derive(Drop)]
pub(crate) struct Folded<'a> {
    pub(crate) pending: Pending<'a>,
    pub(crate) replies: List<OpReply>,
}

/// Runs operations of a branch one after another over a store.
pub(crate) fn fold<'a>(alloc: Global, store: &'a Store, ops: &'a [Op]) -> Mem<Folded<'a>>
    requires distinct { has_duplicate ops.now ≡ false }
    requires offered { list_any is_nested ops.now ≡ false }
    requires readable { AllByRecursion (IsReadable (reads store.now)) ops.now }
    requires revisions { writes_any ops.now ≡ true → store.now.kept.current + 1 < 2 ^ 63 }
    ensures changes { IfOk result (λ folded. folded.pending ≡
        record { store = store.now; changes = pending_after (look store.now) [] ops.now }) }
    ensures replies { IfOk result (λ folded. folded.replies ≡ replies (look store.now) [] ops.now) }
{
    store.use_invariant();
    let mut pending = Pending::new(alloc, store);
    let mut replies = List::new(alloc);
    for op in ops {
        replies.push(add(alloc, &mut pending, op)?)?;
    }
    Ok(Folded { pending, replies })
}

/// Runs one more operation, and answers as if it was done.
fn add<'a>(alloc: Global, pending: &mut Pending<'a>, op: &'a Op) -> Mem<OpReply>
    requires apart { IsApart op.now pending.old.changes }
    requires offered { is_nested op.now ≡ false }
    requires readable { IsReadable (reads pending.old.store) op.now }
    requires revisions { writes_op op.now ≡ true → pending.old.store.kept.current + 1 < 2 ^ 63 }
    ensures changes { OnOk result (pending.new ≡ record {
      store = pending.old.store;
      changes = and_changes (look pending.old.store) pending.old.changes op.now;
    }) }
    ensures reply { IfOk result (λ reply. reply ≡ op_reply
        (look pending.old.store pending.old.changes)
        (look pending.old.store (and_changes (look pending.old.store) pending.old.changes op.now)).current
        op.now) }
{
    match op {
        Op::Range(request) => pending.range(alloc, request),
        Op::Put(request) => pending.add_put(alloc, request),
        Op::Delete(request) => pending.add_delete(alloc, request),
        Op::Nested => unreachable!("the fields of a transaction refuse one that has this"),
    }
}
