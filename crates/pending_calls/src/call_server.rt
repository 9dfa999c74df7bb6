//! How the calls of a connection are served: brief ones at once where that can be, all others by workers.
ghost use Rattle.std.specs.Prelude.{IfErr, IfOk};
ghost use Rattle.pending_calls.specs.Outcomes.{IsServed};
ghost use Rattle.pending_calls.specs.Requests.{IsStepOf, IsUnread};

use crate::brief_request::BriefRequest;
use crate::jobs::Jobs;
use crate::request::Request;
use crate::told::Told;
use etcd_types::{Refusal, Step};
use std::alloc::Global;
use std::sync::Wait;

/// What serves the calls of a thread's connections, however it comes by its tenants: so whoever holds a connection proves nothing
/// of them. No method gives one of its kind: the prover can't compare such a one where the kind is known.
pub trait CallServer<R: Wait + Drop>: Drop {
    /// Where calls wait for a worker.
    fn jobs(&self) -> &Jobs<R>;

    /// The thread moves.
    fn beat(&self);

    /// A connection is polled: one short body may be read, and its call served, until the next poll.
    fn begin_poll(&self);

    /// None was read yet since then. Who sends many calls in a row gives way to the others behind each.
    fn may_serve(&self) -> bool;

    /// The step that the short body of a request is read as, or why there is none. It is the one body that is read until the next
    /// poll, also where it is refused: to read it may take as long as to serve it.
    fn read(&self, alloc: Global, request: &Request) -> Result<Step, Refusal>
        ensures step { IfOk result (λ step. IsStepOf request.now step) }
        ensures refused { IfErr result (λ r. IsUnread request.now r) };

    /// Serves a brief call at once, or hands it back as it is: a worker serves it then.
    fn serve(&self, brief: BriefRequest) -> Result<Told<R>, BriefRequest>
        ensures { IsServed brief result };
}

/// They leave all calls to the workers, as a connection needs it that no event loop polls.
impl<R: Wait + Drop> CallServer<R> for Jobs<R> {
    fn jobs(&self) -> &Jobs<R> {
        self
    }

    fn beat(&self) {}

    fn begin_poll(&self) {}

    fn may_serve(&self) -> bool {
        true
    }

    fn read(&self, alloc: Global, request: &Request) -> Result<Step, Refusal> {
        request.read(alloc)
    }

    fn serve(&self, brief: BriefRequest) -> Result<Told<R>, BriefRequest> {
        Err(brief)
    }
}
