//! What an event asks, of whom, and the answer of what is not asked.
use etcd_types::{Mem, Refusal, Reply, Step};
use gateway_json::{read_posted, target_of};
use gateway_text::write_reply;
use host_front::{Answer, Body, LentEvent};
use std::alloc::Global;

/// Whom an event asks: nobody, if a call's target names no tenant.
pub(crate) fn tenant_of(event: LentEvent<'_>) -> &[u8] {
    match event {
        LentEvent::Call { target, .. } => target_of(target).map_or(b"".as_slice(), |it| it.tenant),
        LentEvent::Take { tenant, .. }
        | LentEvent::DropWatch { tenant, .. }
        | LentEvent::Tick { tenant, .. }
        | LentEvent::CatchUp { tenant, .. } => tenant,
    }
}

/// The step of an event, or the refusal of a call that is none.
pub(crate) fn step_of(alloc: Global, event: LentEvent<'_>) -> Result<Step, Refusal> {
    match event {
        LentEvent::Call {
            method,
            target,
            body,
        } => match target_of(target) {
            Some(target) => read_posted(alloc, method, target.path, body),
            None => Err(Refusal::NoPath),
        },
        LentEvent::Take { slot, .. } => Ok(Step::Take(slot)),
        LentEvent::DropWatch { slot, .. } => Ok(Step::DropWatch(slot)),
        LentEvent::Tick { moment, .. } => Ok(Step::Tick(moment)),
        LentEvent::CatchUp { budget, .. } => Ok(Step::CatchUp(budget)),
    }
}

pub(crate) fn refused(alloc: Global, refusal: Refusal) -> Mem<Answer> {
    let (status, body) = write_reply(alloc, &Reply::Refused(refusal))?;
    Ok(Answer {
        status,
        body: Body::Made(body),
    })
}
