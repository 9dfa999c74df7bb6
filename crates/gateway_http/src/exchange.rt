//! One exchange of a connection: a request is read, its call is begun, and its answer is awaited.
ghost use Rattle.std.specs.Prelude.{IfOk, IfSome};
ghost use Rattle.futures.specs.Task.{IsArmed, Keeps};
ghost use Rattle.futures.specs.Poll.{IfReady, OnPending};
ghost use Rattle.http.specs.Request.{head_of};
ghost use Rattle.http_uri.specs.Uri.{uri_path};
ghost use Rattle.gateway_http.specs.Exchanges.{Exchanges, GoesOn, IsResponseOf, IsStageAnswer, TakesUp};
ghost use Rattle.gateway_http.specs.Requests.{IsRouteOf};
ghost use Rattle.gateway_http.specs.Responses.{Sends};

use crate::reading::{BodyTerms, Reading, WholeBody, bound_of, loss_of};
use crate::response::{ResponseBody, respond, room_for_fields};
use crate::routing::route;
use connection_table::{Requests, UnderWay};
use etcd_types::Refusal;
use event_loop::{BodyTimer, Stall};
use fair_turns::BodyShare;
use futures::task::{Context, Poll};
use futures::{Future, ready};
use http::request::Parts;
use hyper::body::Incoming;
use hyper::service::Service;
use hyper::{HeaderMap, Request, Response};
use pending_calls::{Begun, CallServer, PendingCall, Route, Told, Unanswered};
use std::alloc::{AllocError, Global};
use std::mem;
use std::rt::Clock;
use std::sync::{Arc, Wait};
use std::time::Duration;
use tokio::time;

/// Begins an exchange for each request of a connection.
pub struct Gateway<R: Wait + Clock + Drop, S: CallServer<R>> {
    /// The runtime.
    pub rt: R,
    /// What takes memory.
    pub alloc: Global,
    /// What serves calls.
    pub server: Arc<S>,
    /// None where the connection is in no table.
    pub requests: Option<Requests<R>>,
    /// None where a body is waited for however long it takes.
    pub timers: Option<time::Handle>,
    /// How long the next piece of a body is waited for.
    pub body_patience: Duration,
}

impl<R: Wait + Clock + Drop, S: CallServer<R>> Drop for Gateway<R, S> {
    fn drop(self) {
        let Gateway {
            rt: _,
            alloc: _,
            server: _,
            requests: _,
            timers: _,
            body_patience: _,
        } = self;
    }
}

/// The exchange of one request.
pub struct Exchange<I, R: Wait + Clock + Drop, S: CallServer<R>> {
    rt: R,
    alloc: Global,
    /// None where there was no memory to share it.
    server: Option<Arc<S>>,
    standing: Standing<R>,
    /// The room of the request's fields, for those of its response.
    fields: HeaderMap,
    stage: Stage<I, R>,
}

impl<I: Drop, R: Wait + Clock + Drop, S: CallServer<R>> Drop for Exchange<I, R, S> {
    fn drop(self) {
        let Exchange {
            rt: _,
            alloc: _,
            server: _,
            standing: _,
            fields: _,
            stage: _,
        } = self;
    }
}

/// How a request's connection stands to its tenant.
#[derive(Drop)]
pub(crate) enum Standing<R: Clock + Drop> {
    /// It is in no table, or the request names no tenant.
    Free,
    /// It is one of the tenant's.
    Owned(UnderWay<R>),
    /// The tenant has as many as it may. The request is refused, and the connection ends with its answer.
    OneTooMany,
}

#[derive(Drop)]
enum Stage<I, R: Wait + Drop> {
    Reading(Reading<I, R>),
    Pending(PendingCall<R>),
    Over,
}

impl<I, R, S> Service<Request<Incoming<I>>> for Gateway<R, S>
where
    I: Drop,
    R: Wait + Clock + Copy + Drop,
    S: CallServer<R>,
{
    type Response = Response<ResponseBody<R>>;

    type Error = hyper::Error;

    type Future = Exchange<I, R, S>;

    ghost calls = { λ _ request exchange. Exchanges request exchange.stage };

    fn call(&self, req: Request<Incoming<I>>) -> Exchange<I, R, S> {
        let (route, standing) = self.route(&req);
        let bound = bound_of(req.body());
        let lost = loss_of(req.headers(), bound);
        let share = match (&route, lost) {
            (Ok(route), None) => {
                let jobs = self.server.jobs();
                jobs.body_share(&self.rt, &*route.tenant, bound)
            }
            _ => BodyShare::None,
        };
        let terms = BodyTerms {
            bound,
            share,
            stall: Stall::new(self.rt, self.body_timer()),
        };
        let (head, body) = req.into_parts();
        let Parts {
            method: _,
            uri: _,
            version: _,
            headers,
        } = head;
        let unanswered = Unanswered::new();
        let reading = Reading::new(self.alloc, unanswered, route, body, terms, lost);
        Exchange {
            rt: self.rt,
            alloc: self.alloc,
            server: Arc::try_clone(&self.server).ok(),
            standing,
            fields: room_for_fields(self.alloc, headers),
            stage: Stage::Reading(reading),
        }
    }
}

impl<R: Wait + Clock + Copy + Drop, S: CallServer<R>> Gateway<R, S> {
    /// The route of a request, and how the connection stands to its tenant.
    fn route<B>(&self, req: &Request<B>) -> (Result<Route, Refusal>, Standing<R>)
        ensures { IsRouteOf (head_of req.now).method (uri_path (head_of req.now).uri) result.0 }
    {
        let method = req.method().as_str().as_bytes();
        let path = req.uri().path().as_bytes();
        let route = match route(&self.rt, self.server.jobs(), method, path) {
            Ok(route) => route,
            Err(refusal) => return (Err(refusal), Standing::Free),
        };
        let Some(requests) = &self.requests else {
            return (Ok(route), Standing::Free);
        };
        match requests.begin(route.tenant.number()) {
            Some(under_way) => (Ok(route), Standing::Owned(under_way)),
            None => (Err(Refusal::Memory), Standing::OneTooMany),
        }
    }

    /// The timer of a body; none where there is no memory to share it.
    fn body_timer(&self) -> Option<BodyTimer> {
        let timers = self.timers.as_ref()?.clone().ok()?;
        Some(BodyTimer {
            timers,
            patience: self.body_patience,
        })
    }
}

impl<I: Drop, R: Wait + Clock + Copy + Drop, S: CallServer<R>> Future for Exchange<I, R, S> {
    type Output = Result<Response<ResponseBody<R>>, hyper::Error>;

    ghost gives = { λ exchange told. IfOk told (λ response. ∥ IsResponseOf exchange.stage response ∥₁) };

    fn poll(
        &mut self,
        cx: &mut Context<'_>,
    ) -> Poll<Result<Response<ResponseBody<R>>, hyper::Error>> {
        match ready!(self.poll_told(cx)) {
            Ok(told) => Poll::Ready(self.respond(told)),
            Err(e) => Poll::Ready(Err(e)),
        }
    }
}

impl<I: Drop, R: Wait + Clock + Copy + Drop, S: CallServer<R>> Exchange<I, R, S> {
    /// What the request is told. It fails where the peer breaks off, or the server ends.
    fn poll_told(&mut self, cx: &mut Context<'_>) -> Poll<Result<Told<R>, hyper::Error>>
        ensures answered { IfReady result (λ it. IfOk it (λ told. IsStageAnswer self.old.stage told.answer)) }
        ensures goes_on { GoesOn self.old.stage self.new.stage }
        ensures registered { OnPending result (IsArmed cx.new) }
        ensures kept { Keeps cx.old cx.new }
    {
        match ready!(self.poll_begun(cx)) {
            Ok(None) => self.poll_served(cx),
            Ok(Some(told)) => Poll::Ready(Ok(told)),
            Err(e) => Poll::Ready(Err(e)),
        }
    }

    /// Ready once the call has begun; with what the request is told, if that is known already.
    fn poll_begun(&mut self, cx: &mut Context<'_>) -> Poll<Result<Option<Told<R>>, hyper::Error>>
        ensures answered { IfReady result (λ it. IfOk it (λ begun.
            IfSome begun (λ told. IsStageAnswer self.old.stage told.answer))) }
        ensures goes_on { GoesOn self.old.stage self.new.stage }
        ensures registered { OnPending result (IsArmed cx.new) }
        ensures kept { Keeps cx.old cx.new }
    {
        let Stage::Reading(reading) = &mut self.stage else {
            return Poll::Ready(Ok(None));
        };
        if let Some(server) = &self.server
            && !server.may_serve()
        {
            return cx.yield_now();
        }
        match ready!(reading.poll_whole(cx)) {
            Ok(whole) => Poll::Ready(Ok(self.begin(whole))),
            Err(e) => {
                self.stage = Stage::Over;
                Poll::Ready(Err(e))
            }
        }
    }

    /// What a call that waits is told.
    fn poll_served(&mut self, cx: &mut Context<'_>) -> Poll<Result<Told<R>, hyper::Error>>
        ensures answered { IfReady result (λ it. IfOk it (λ told. IsStageAnswer self.old.stage told.answer)) }
        ensures goes_on { GoesOn self.old.stage self.new.stage }
        ensures registered { OnPending result (IsArmed cx.new) }
        ensures kept { Keeps cx.old cx.new }
    {
        let Stage::Pending(call) = &mut self.stage else {
            return Poll::Ready(Err(hyper::Error::from(AllocError)));
        };
        match ready!(call.poll_told(cx)) {
            Some(told) => Poll::Ready(Ok(told)),
            None => Poll::Ready(Err(hyper::Error::from(AllocError))),
        }
    }

    fn respond(&mut self, told: Told<R>) -> Result<Response<ResponseBody<R>>, hyper::Error>
        ensures { IfOk result (λ response. Sends response told.answer) }
    {
        respond(
            told,
            mem::replace(&mut self.standing, Standing::Free),
            mem::replace(&mut self.fields, HeaderMap::new(self.alloc)),
        )
    }

    /// Begins the call of a request that was read; what it is told, if that is known already.
    fn begin(&mut self, whole: WholeBody) -> Option<Told<R>>
        ensures { TakesUp self.old.stage result self.new.stage }
    {
        let Stage::Reading(reading) = mem::replace(&mut self.stage, Stage::Over) else {
            return None;
        };
        match reading.begin(self.rt, self.alloc, whole, &self.server) {
            Begun::Answered(told) => Some(told),
            Begun::Pending(call) => {
                self.stage = Stage::Pending(call);
                None
            }
        }
    }
}
