//! Compares, and the branch that they take.
ghost use Rattle.std.specs.Prelude.{◌≡◌, ◌==◌, ◌&&◌, if◌then◌else◌, length, not, true};
ghost use Rattle.etcd_types.specs.Steps.{writes_any};
ghost use Rattle.etcd_model.specs.Compares as model;
ghost use Rattle.revision_store.specs.Stored.{StoreState, reads};
ghost use Rattle.txn_plan.specs.Finding.{is_found_txn};
ghost use Rattle.txn_plan.specs.Planned.{IsTaken};

use etcd_types::{Compare, Op, TxnReq};
use revision_store::{Store, holds};

/// The branch that a transaction takes.
#[derive(Clone, Copy)]
pub struct Branch<'a> {
    /// All compares hold, and so it is the first.
    pub succeeded: bool,
    /// Its operations.
    pub ops: &'a [Op],
}

/// Looks at the compares of a transaction, for the branch that it takes.
pub(crate) fn taken<'a>(store: &Store, request: &'a TxnReq) -> Branch<'a>
    ensures { IsTaken store.now request.now result }
{
    let succeeded = all_hold(store, request.compare.as_slice());
    let ops = branch_of(request, succeeded);
    Branch { succeeded, ops }
}

/// Whether all compares of a transaction hold.
fn all_hold(store: &Store, compares: &[Compare]) -> bool
    ensures { result ≡ model.all_hold (reads store.now) compares.now }
{
    compares.iter().all(|compare| holds(store, compare))
}

/// The operations of the branch that is taken: the first where all compares hold.
fn branch_of(request: &TxnReq, succeeded: bool) -> &[Op]
    ensures { result.now ≡ (if succeeded then request.now.success else request.now.failure) }
{
    if succeeded {
        request.success.as_slice()
    } else {
        request.failure.as_slice()
    }
}

/// Whether a branch of a transaction has operations, none of which writes. What is not one takes no branch whose rows are
/// found.
pub(crate) fn reads_alone(request: &TxnReq) -> bool
    ensures { (store : StoreState) → is_found_txn store request.now ≡ true → result ≡ true }
{
    is_of_reads(request.success.as_slice()) || is_of_reads(request.failure.as_slice())
}

fn is_of_reads(ops: &[Op]) -> bool
    ensures { result ≡ (not (length ops.now == 0) && not (writes_any ops.now)) }
{
    !ops.is_empty() && !Op::any_writes(ops)
}
