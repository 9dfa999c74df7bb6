//! What the operations of a transaction are refused for.
ghost use Rattle.std.specs.Prelude.{◌≡◌};
ghost use Rattle.etcd_model.specs.Operations.{op_refusal, ops_refusal};
ghost use Rattle.revision_store.specs.Stored.{reads};
ghost use Rattle.txn_plan.specs.Planned.{lease_refusal};
ghost use Rattle.etcd_types.specs.declared.txn.Op.TheVariants.{Put as PutOp};

use etcd_types::{Op, PutReq, Refusal};
use lease_book::LeaseBook;
use revision_store::Store;

/// The first refusal of some operations, each of which is looked up in the store before any of them.
pub(crate) fn ops_refusal(store: &Store, leases: &LeaseBook, ops: &[Op]) -> Option<Refusal>
    ensures { result ≡ ops_refusal leases.now.leases (reads store.now) ops.now }
{
    for op in ops {
        if let Some(refusal) = op_refusal(store, leases, op) {
            return Some(refusal);
        }
    }
    None
}

/// Why one operation is refused.
fn op_refusal(store: &Store, leases: &LeaseBook, op: &Op) -> Option<Refusal>
    ensures { result ≡ op_refusal leases.now.leases (reads store.now) op.now }
{
    match op {
        Op::Range(request) => store.unreadable(request.revision),
        Op::Put(request) => put_refusal(store, leases, request),
        Op::Delete(_) | Op::Nested => None,
    }
}

/// Why a put is refused.
fn put_refusal(store: &Store, leases: &LeaseBook, request: &PutReq) -> Option<Refusal>
    ensures { result ≡ op_refusal leases.now.leases (reads store.now) (PutOp request.now) }
{
    match lease_refusal(leases, request.lease) {
        None => store.put_refusal(request),
        refused => refused,
    }
}

/// Why a put that names this lease is refused for it: 0 names none, and any other has to be there.
pub fn lease_refusal(leases: &LeaseBook, lease: i64) -> Option<Refusal>
    ensures { result ≡ lease_refusal leases.now.leases lease }
{
    if lease == 0 || leases.has(lease) {
        None
    } else {
        Some(Refusal::LeaseNotFound)
    }
}
