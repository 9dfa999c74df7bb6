//! How a call begins, once its body was read.
ghost use Rattle.pending_calls.specs.Begins.{IsBegun};
ghost use Rattle.pending_calls.specs.Requests.{IsReadAs};

use crate::brief_request::BriefRequest;
use crate::call_server::CallServer;
use crate::jobs::Jobs;
use crate::request::{RequestBody, Route};
use crate::told::{OpenRequest, Told, Unanswered};
use crate::unserved::{PendingCall, Unserved};
use etcd_types::{Refusal, Step};
use fair_turns::SHORT;
use std::alloc::Global;
use std::rt::Clock;
use std::sync::Wait;

/// A call that was begun, or what it is told where that is known at once.
#[derive(Drop)]
pub enum Begun<R: Wait + Drop> {
    Pending(PendingCall<R>),
    Answered(Told<R>),
}

impl<R: Wait + Clock + Drop> Begun<R> {
    /// Begins a call by the body that was read: a brief one is served at once, if it can be, any other is left in its tenant's
    /// queue, and one whose body can't be read is refused.
    pub fn new<S: CallServer<R>>(
        rt: &R,
        alloc: Global,
        server: &S,
        unanswered: Unanswered,
        route: Route,
        body: RequestBody,
    ) -> Begun<R>
        ensures { IsBegun result route body.bytes.items }
    {
        let jobs = server.jobs();
        let asked = OpenRequest::new(unanswered, route, body);
        if asked.request().len() > SHORT {
            return wait(rt, alloc, jobs, asked, None);
        }
        match server.read(alloc, asked.request()) {
            Ok(step) if step.is_brief() => match server.serve(BriefRequest { asked, step }) {
                Ok(told) => Begun::Answered(told),
                Err(left) => wait_for_turn(rt, alloc, jobs, left),
            },
            Ok(step) => wait(rt, alloc, jobs, asked, Some(step)),
            Err(refusal) => {
                let (request, unanswered) = asked.into_parts();
                let (route, length) = (&request.route, request.len());
                Begun::Answered(jobs.refused(rt, alloc, unanswered, route, length, refusal))
            }
        }
    }
}

/// A brief call waits for its tenant's turn like any other.
fn wait_for_turn<R: Wait + Clock + Drop>(
    rt: &R,
    alloc: Global,
    jobs: &Jobs<R>,
    brief: BriefRequest,
) -> Begun<R>
    ensures { IsBegun result brief.asked.request.route brief.asked.request.body.bytes.items }
{
    let BriefRequest { asked, step } = brief;
    wait(rt, alloc, jobs, asked, Some(step))
}

/// Leaves a request in its tenant's queue; its step is none where a worker has to read it.
fn wait<R: Wait + Clock + Drop>(
    rt: &R,
    alloc: Global,
    jobs: &Jobs<R>,
    asked: OpenRequest,
    step: Option<Step>,
) -> Begun<R>
    requires { IsReadAs asked.request step }
    ensures { IsBegun result asked.request.route asked.request.body.bytes.items }
{
    match Unserved::new(alloc, asked) {
        Ok((unserved, pending)) => {
            jobs.queue(rt, alloc, unserved, step);
            Begun::Pending(pending)
        }
        Err(unanswered) => Begun::Answered(unanswered.refused(alloc, Refusal::Memory)),
    }
}
