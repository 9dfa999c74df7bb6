//! A request from where it is handed in to its answer.
//!
//! Where its answer goes is made with what is handed in, and known here alone. So nobody can send it the answer of another one.
ghost use Rattle.std.specs.Prelude.{◌≡◌, IfOk, IfSome};
ghost use Rattle.futures.specs.Task.{IsArmed, Keeps};
ghost use Rattle.futures.specs.Poll.{IfReady, OnPending};
ghost use Rattle.fair_turns.specs.Answers.{Refuses};
ghost use Rattle.tenant_calls.specs.Answers.{IsUncalled};
ghost use Rattle.pending_calls.specs.Requests.{IsAnswerOf, IsUnread};

use crate::request::Request;
use crate::told::{OpenRequest, OwnAnswer, Told, Unanswered, refusal_of};
use etcd_types::{Mem, Refusal};
use fair_turns::{Answer, PartCounts};
use futures::channel::oneshot;
use futures::task::{Context, Poll};
use futures::{Future, ready};
use std::alloc::Global;
use std::sync::{Arc, Wait};

/// A request that was handed in, for who serves it.
#[derive(Drop)]
pub struct Unserved<R: Wait + Drop> {
    request: Arc<Request>,
    unanswered: Unanswered,
    reply: oneshot::Sender<OwnAnswer<R>>,
}

impl<R: Wait + Drop> Unserved<R> {
    /// A request, for who serves it and for who waits for its answer. Without memory it is as unanswered as before.
    pub fn new(
        alloc: Global,
        asked: OpenRequest,
    ) -> Result<(Unserved<R>, PendingCall<R>), Unanswered>
        ensures served { IfOk result (λ it. it.0.request.value ≡ asked.request) }
        ensures asked { IfOk result (λ it. it.1.request.value ≡ asked.request) }
    {
        let (request, unanswered) = asked.into_parts();
        match Ends::new(alloc, request) {
            Ok(ends) => {
                let Ends {
                    served,
                    asked,
                    reply,
                    answer,
                } = ends;
                let unserved = Unserved {
                    request: served,
                    unanswered,
                    reply,
                };
                let pending = PendingCall {
                    request: asked,
                    answer,
                };
                Ok((unserved, pending))
            }
            Err(_) => Err(unanswered),
        }
    }

    /// The request that was handed in.
    pub fn request(&self) -> &Request
        ensures { result.now ≡ self.now.request.value }
    {
        &*self.request
    }

    /// Its client is still there.
    pub fn is_awaited(&self) -> bool {
        !self.reply.is_canceled()
    }

    /// Its answer.
    pub fn answered(self, answer: Answer<R>) -> JobAnswer<R>
        requires { ∥ IsAnswerOf self.request.value answer ∥₁ }
        ensures request { result.own.request ≡ self.request }
        ensures answer { result.own.answer ≡ answer }
    {
        let Unserved {
            request,
            unanswered,
            reply,
        } = self;
        JobAnswer {
            own: OwnAnswer::new(unanswered, request, answer),
            reply,
        }
    }

    /// Its call is not made, since its tenant was removed or there is no memory.
    pub fn refused(self, alloc: Global, refusal: Refusal) -> JobAnswer<R>
        requires { IsUncalled refusal }
        ensures request { result.own.request ≡ self.request }
        ensures answer { Refuses refusal result.own.answer }
    {
        self.answered(refusal_of(alloc, refusal))
    }

    /// Its call is not made, since its body is not read as a step.
    pub fn unread(self, alloc: Global, refusal: Refusal) -> JobAnswer<R>
        requires { IsUnread self.request.value refusal }
        ensures request { result.own.request ≡ self.request }
        ensures answer { Refuses refusal result.own.answer }
    {
        self.answered(refusal_of(alloc, refusal))
    }
}

/// What both sides of a request have of it, which is made at once.
#[derive(Drop)]
struct Ends<R: Wait + Drop> {
    served: Arc<Request>,
    asked: Arc<Request>,
    reply: oneshot::Sender<OwnAnswer<R>>,
    answer: oneshot::Receiver<OwnAnswer<R>>,
}

impl<R: Wait + Drop> Ends<R> {
    fn new(alloc: Global, request: Request) -> Mem<Ends<R>>
        ensures served { IfOk result (λ ends. ends.served.value ≡ request) }
        ensures asked { IfOk result (λ ends. ends.asked.value ≡ request) }
    {
        let served = Arc::new(alloc, request)?;
        let asked = Arc::try_clone(&served)?;
        let (reply, answer) = oneshot::channel(alloc)?;
        Ok(Ends {
            served,
            asked,
            reply,
            answer,
        })
    }
}

/// The answer of a request that was handed in, and where it goes.
#[derive(Drop)]
pub struct JobAnswer<R: Wait + Drop> {
    own: OwnAnswer<R>,
    reply: oneshot::Sender<OwnAnswer<R>>,
}

impl<R: Wait + Drop> JobAnswer<R> {
    /// The request that is answered.
    pub fn request(&self) -> &Request {
        self.own.request()
    }

    /// What it is answered.
    pub fn answer(&self) -> &Answer<R> {
        self.own.answer()
    }

    /// Counts its call, as answered so.
    pub fn count(&self, counts: &PartCounts) {
        let request = self.request();
        counts.add(request.route.call, request.len(), self.answer());
    }

    /// Tells it to who waits for it. Where the client has gone, the call stays made.
    pub fn send(self) {
        let JobAnswer { own, reply } = self;
        drop(reply.send(own));
    }
}

/// A call that waits for its answer.
pub struct PendingCall<R: Wait + Drop> {
    request: Arc<Request>,
    answer: oneshot::Receiver<OwnAnswer<R>>,
}

impl<R: Wait + Drop> Drop for PendingCall<R> {
    fn drop(self) {
        let PendingCall {
            request: _,
            answer: _,
        } = self;
    }
}

impl<R: Wait + Drop> PendingCall<R> {
    /// What it is told, which is of this very request; none where the server ended before the call was served.
    pub fn poll_told(&mut self, cx: &mut Context<'_>) -> Poll<Option<Told<R>>>
        ensures answered { IfReady result (λ it. IfSome it (λ told.
            ∥ IsAnswerOf self.old.request.value told.answer ∥₁)) }
        ensures request { self.new.request ≡ self.old.request }
        ensures registered { OnPending result (IsArmed cx.new) }
        ensures kept { Keeps cx.old cx.new }
    {
        match ready!(self.answer.poll(cx)) {
            Ok(answer) => Poll::Ready(answer.of(&*self.request)),
            Err(_) => Poll::Ready(None),
        }
    }
}
