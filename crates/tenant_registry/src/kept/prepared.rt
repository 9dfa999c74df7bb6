//! What is kept of a step before it is made.
ghost use Rattle.std.specs.Prelude.{◌≡◌, IfOk};
ghost use Rattle.tenant_audit.specs.Audits.{entry_at, step_at, turn_of};
ghost use Rattle.tenant_audit.specs.Receipts.{slip_of};

use super::Served;
use etcd_types::{Mem, Reply, Step};
use std::alloc::{AllocError, Global};
use tenant_audit::Audit;

/// A copy of a seat's step for the audit, and what the seat's call is given of the reply.
pub(super) fn prepared(
    alloc: Global,
    audit: &Audit,
    seat: u8,
    step: Step,
    told: &Reply,
) -> Mem<(Option<Step>, Served)>
    ensures kept { IfOk result (λ p. p.0 ≡ step_at (turn_of audit.now) step) }
    ensures receipt { IfOk result
        (λ p. p.1.receipt ≡ slip_of audit.now.opening.number seat (turn_of audit.now) step told.now) }
    ensures mine { IfOk result (λ p. p.1.mine ≡ entry_at (turn_of audit.now) seat step told.now) }
{
    let number = audit.number();
    let turn = audit.next_turn();
    let Ok(kept) = audit.copy_of_step(alloc, &step) else {
        drop(step);
        return Err(AllocError);
    };
    let Ok(served) = Served::of(alloc, number, seat, turn, step, told) else {
        drop(kept);
        return Err(AllocError);
    };
    Ok((kept, served))
}
