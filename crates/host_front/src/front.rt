//! All tenants, spoken to in bytes.
ghost use Rattle.std.specs.Prelude.{◌≡◌, IfOk, IfSome, OnErr, length, vec_len};
ghost use Rattle.std.specs.Borrow.{sem};
ghost use Rattle.etcd_model.specs.Alone.{Called, Stepped};
ghost use Rattle.etcd_model.specs.Calls.{call_of};
ghost use Rattle.host_front.specs.Events.{event_of, lent_event, turns_of};
ghost use Rattle.host_front.specs.Answering.{refused_call, Answers};
ghost use Rattle.host_front.specs.Isolation.{AllAlone};
ghost use Rattle.host_front.specs.Lending.{LendsHost};

use crate::answer::Answer;
use crate::event::{HostEvent, LentEvent};
use etcd_types::{Mem, Refusal, Step};
use gateway_json::{call_of, read_posted, target_of};
use std::alloc::Global;
use steps_core::Host;

/// A host that is spoken to in bytes.
#[derive(Drop)]
pub struct Front {
    pub(crate) host: Host,
}

impl Front {
    /// Bytes in front of a host.
    pub fn new(host: Host) -> Front
        ensures { result.host ≡ host }
    {
        Front { host }
    }

    /// The host, for its operator.
    pub fn host(&mut self) -> &mut Host
        ensures* lends { sem 𝓛 (LendsHost self.entry result) }
        ensures value { result.now ≡ self.old.host }
    {
        &mut self.host
    }

    /// Answers one event. Its tenant's machine has then made the step that the event asks for, or for want of
    /// memory nothing changed; if no such tenant is there, that is told.
    pub fn answer(&mut self, alloc: Global, event: &HostEvent) -> Answer
        ensures { Answers self.old.host (event_of event.now) result self.new.host }
    {
        self.answer_lent(alloc, event.lend())
    }

    /// The same of an event whose bytes are lent.
    pub fn answer_lent(&mut self, alloc: Global, event: LentEvent<'_>) -> Answer
        ensures { Answers self.old.host (lent_event event.entry) result self.new.host }
    {
        match event {
            LentEvent::Call {
                method,
                target,
                body,
            } => self.call(alloc, method, target, body),
            LentEvent::Take { tenant, slot } => self.step(alloc, tenant, &Step::Take(slot)),
            LentEvent::DropWatch { tenant, slot } => {
                self.step(alloc, tenant, &Step::DropWatch(slot))
            }
            LentEvent::Tick { tenant, moment } => self.step(alloc, tenant, &Step::Tick(moment)),
            LentEvent::CatchUp { tenant, budget } => {
                self.step(alloc, tenant, &Step::CatchUp(budget))
            }
        }
    }

    /// Answers events of any tenants in any order. If the answers can't be held, none is asked for.
    pub fn answer_all(&mut self, alloc: Global, events: &[HostEvent]) -> Mem<Vec<Answer>>
        ensures alone { IfOk result
            (λ answers. AllAlone self.old.host (turns_of events.now answers.items) self.new.host) }
        ensures each { IfOk result (λ answers. vec_len answers ≡ length events.now) }
        ensures err { OnErr result (self.new.host ≡ self.old.host) }
    {
        let mut answers = Vec::with_capacity(alloc, events.len())?;
        for event in events {
            let answer = self.answer(alloc, event);
            answers.push_reserved(answer);
        }
        Ok(answers)
    }

    /// A call: the path, the tenant and the method are looked at in this order, before the body.
    fn call(&mut self, alloc: Global, method: &[u8], target: &[u8], body: &[u8]) -> Answer
        ensures { Answers self.old.host (Called method.now target.now body.now) result self.new.host }
    {
        let Some(found) = target_of(target) else {
            return Answer::refused(alloc, Refusal::NoPath);
        };
        if !self.host.has(found.tenant) {
            return Answer::refused(alloc, refused_call(found.path));
        }
        match read_posted(alloc, method, found.path, body) {
            Ok(step) => self.step(alloc, found.tenant, &step),
            Err(refusal) => Answer::refused(alloc, refusal),
        }
    }

    /// Makes a step and answers it. Rows are written from their cells, where that can be.
    fn step(&mut self, alloc: Global, tenant: &[u8], step: &Step) -> Answer
        ensures { Answers self.old.host (Stepped tenant.now step.now) result self.new.host }
    {
        match self.found(alloc, tenant, step) {
            Some(answer) => answer,
            None => self.plan_step(alloc, tenant, step),
        }
    }

    /// Plans a step, writes its reply, and only then commits it: what finds no memory has changed nothing.
    fn plan_step(&mut self, alloc: Global, tenant: &[u8], step: &Step) -> Answer
        ensures { Answers self.old.host (Stepped tenant.now step.now) result self.new.host }
    {
        let planned = match self.host.plan(alloc, tenant, step) {
            Ok(planned) => planned,
            Err(refusal) => return Answer::refused(alloc, refusal),
        };
        let Ok(answer) = Answer::to(alloc, planned.reply()) else {
            return Answer::no_memory();
        };
        let _ = self.host.commit(tenant, planned);
        answer
    }

    /// The answer to a step whose rows lie in their cells, or want of memory for it; none if the step has to be planned.
    fn found(&self, alloc: Global, tenant: &[u8], step: &Step) -> Option<Answer>
        ensures { IfSome result
            (λ answer. Answers self.now.host (Stepped tenant.now step.now) answer self.now.host) }
    {
        let found = match self.host.find(alloc, tenant, step) {
            Ok(Some(found)) => found,
            Ok(None) => return None,
            Err(_) => return Some(Answer::no_memory()),
        };
        match Answer::of_found(alloc, &found) {
            Ok(answer) => Some(answer),
            Err(_) => Some(Answer::no_memory()),
        }
    }
}

/// Why a call of a tenant that is not there is refused.
fn refused_call(path: &[u8]) -> Refusal
    ensures { result ≡ refused_call (call_of path.now) }
{
    match call_of(path) {
        None => Refusal::NoPath,
        Some(_) => Refusal::NoTenant,
    }
}
