//! A step that is answered from its cells, of which no entry is kept.
ghost use Rattle.std.specs.Prelude.{◌≡◌, None, IfOk, IfSome, is_some};
ghost use Rattle.tenant_audit.specs.Audits.{turn_of};
ghost use Rattle.tenant_audit.specs.Receipts.{slip_of};
ghost use Rattle.tenant_machine.specs.Finding.{found_plan, found_reply};
ghost use Rattle.tenant_machine.specs.Plans.{Plans};
ghost use Rattle.tenant_registry.specs.Keeping.{finds_in};

use super::{Kept, Receipt, Served};
use etcd_types::{Mem, Step};
use gateway_text::write_in_place;
use std::alloc::{AllocError, Global};
use tenant_machine::FoundAnswer;

impl Receipt {
    /// That of a step whose rows lie in their cells, with its text. It has no turn.
    fn of_found(
        alloc: Global,
        number: u64,
        seat: u8,
        step: Step,
        found: &FoundAnswer<'_>,
    ) -> Mem<Receipt>
        ensures { IfOk result
            (λ receipt. receipt ≡ slip_of number seat None step (found_reply found.now)) }
    {
        let Ok((status, body)) = write_in_place(alloc, found) else {
            drop(step);
            return Err(AllocError);
        };
        Ok(Receipt {
            number,
            seat,
            turn: None,
            step,
            status,
            body,
            slot: None,
            canceled: false,
            refusal: None,
        })
    }
}

impl Served {
    /// What a seat's call is given of such a step.
    pub(super) fn of_found(
        alloc: Global,
        number: u64,
        seat: u8,
        step: Step,
        found: &FoundAnswer<'_>,
    ) -> Mem<Served>
        ensures receipt { IfOk result
            (λ served. served.receipt ≡ slip_of number seat None step (found_reply found.now)) }
        ensures mine { IfOk result (λ served. served.mine ≡ None) }
    {
        let receipt = Receipt::of_found(alloc, number, seat, step, found)?;
        Ok(Served {
            receipt,
            mine: None,
        })
    }
}

impl Kept {
    /// A step's answer whose rows lie in their cells, where no entry is kept of the step; none if it has to be planned.
    pub(super) fn find(&self, step: &Step) -> Mem<Option<FoundAnswer<'_>>>
        ensures found { IfOk result (λ found. is_some found ≡ finds_in self.now step.now) }
        ensures plan { IfOk result (λ found. IfSome found
            (λ answer. Plans self.now.machine step.now (found_plan answer))) }
        ensures full { IfOk result (λ found. IfSome found (λ _. turn_of self.now.audit ≡ None)) }
    {
        if self.audit.next_turn().is_none() {
            self.machine.find(self.alloc, step)
        } else {
            Ok(None)
        }
    }
}
