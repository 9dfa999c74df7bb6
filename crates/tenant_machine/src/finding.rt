//! Answers whose rows are found, and not made.
ghost use Rattle.std.specs.Prelude.{◌≡◌, false, true, IfOk, IfSome, IsOk, is_some};
ghost use Rattle.std.specs.List.{list_all};
ghost use Rattle.etcd_types.specs.declared.step.Step.TheVariants.{Range, Txn};
ghost use Rattle.etcd_types.specs.declared.txn.TxnReq.{TxnReq};
ghost use Rattle.txn_plan.specs.Finding.{is_found_op};
ghost use Rattle.txn_plan.specs.Planned.{IsTaken};
ghost use Rattle.tenant_machine.specs.Finding.{finds, found_plan};
ghost use Rattle.tenant_machine.specs.Plans.{Plans};

use crate::machine::Machine;
use etcd_types::{Mem, RangeReq, ReplyInPlace, Step, TxnReq};
use revision_store::FoundRows;
use std::alloc::Global;
use txn_plan::{Branch, FoundTxn};

/// An answer whose rows lie in their cells.
pub type FoundAnswer<'a> = ReplyInPlace<FoundRows<'a>>;

impl Machine {
    /// What a step is answered that gives rows in the order of their keys and changes nothing: a range, or a transaction
    /// whose branch has such ranges alone. Any other step, and one that is refused, is `None`, which takes no memory: `plan`
    /// answers it.
    pub fn find(&self, alloc: Global, step: &Step) -> Mem<Option<FoundAnswer<'_>>>
        ensures found { IfOk result (λ found. is_some found ≡ finds self.now step.now) }
        ensures plan { IfOk result
            (λ found. IfSome found (λ answer. Plans self.now step.now (found_plan answer))) }
        ensures sure { finds self.now step.now ≡ false → IsOk result }
    {
        match step {
            Step::Range(request) if self.finds_range(request) => {
                Ok(Some(self.find_range(alloc, request)?))
            }
            Step::Txn(request) => match self.finds_txn(step, request) {
                Some(branch) => Ok(Some(self.find_txn(alloc, branch)?)),
                None => Ok(None),
            },
            _ => Ok(None),
        }
    }

    /// Whether a range is answered so.
    fn finds_range(&self, request: &RangeReq) -> bool
        ensures { result ≡ finds self.now (Range request.now) }
    {
        !request.key.as_slice().is_empty() && self.store.finds(request)
    }

    fn find_range(&self, alloc: Global, request: &RangeReq) -> Mem<FoundAnswer<'_>>
        requires { finds self.now (Range request.now) ≡ true }
        ensures { IfOk result (λ answer. Plans self.now (Range request.now) (found_plan answer)) }
    {
        let range = self.store.find_rows(alloc, request)?;
        let header = self.header();
        Ok(ReplyInPlace::Range { header, range })
    }

    /// The branch that a transaction takes, if it is answered so. What refuses it early is asked last: most take a branch that
    /// writes.
    fn finds_txn<'a>(&self, step: &Step, request: &'a TxnReq) -> Option<Branch<'a>>
        requires { step.now ≡ Txn request.now }
        ensures found { is_some result ≡ finds self.now step.now }
        ensures taken { IfSome result (λ branch. IsTaken self.now.store request.now branch) }
    {
        let branch = txn_plan::finds(&self.store, request)?;
        if self.early_refusal(step).is_some() {
            return None;
        }
        Some(branch)
    }

    fn find_txn(&self, alloc: Global, branch: Branch<'_>) -> Mem<FoundAnswer<'_>>
        requires { list_all (is_found_op self.now.store) branch.ops.now ≡ true }
        ensures { (t : TxnReq) → IsTaken self.now.store t branch.entry → finds self.now (Txn t) ≡ true
            → IfOk result (λ answer. Plans self.now (Txn t) (found_plan answer)) }
    {
        let found = txn_plan::find(alloc, &self.store, branch)?;
        let FoundTxn {
            succeeded,
            responses,
        } = found;
        Ok(ReplyInPlace::Txn {
            header: self.header(),
            succeeded,
            responses,
        })
    }
}
