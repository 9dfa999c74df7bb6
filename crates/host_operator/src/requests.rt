//! The operator's requests, over HTTP/1.1.
ghost use Rattle.std.specs.Prelude.{◌≡◌, ◌↔◌, codes, IsTrue, Some, option_map};
ghost use Rattle.http_header.specs.HeaderMap.{get};
ghost use Rattle.host_operator.specs.Tokens.{bearer};
ghost use Rattle.futures.specs.Task.{IsArmed, Keeps};
ghost use Rattle.futures.specs.Poll.{OnPending};

use crate::answer::{OperatorAnswer, TextKind};
use crate::calls::OperatorRefusal;
use bytes::Bytes;
use etcd_types::Mem;
use etcd_types::limits::MAX_CONFIG;
use event_loop::{BodyTimer, Stall};
use futures::channel::oneshot;
use futures::task::{Context, Poll};
use futures::{Future, ready};
use http::request::Parts;
use http_body_util::{Full, Limited, LimitedError};
use hyper::body::{Body, Frame, Incoming};
use hyper::header::{self, HeaderMap, HeaderValue};
use hyper::service::Service;
use hyper::{Request, Response, StatusCode};
use std::alloc::{AllocError, Global};
use std::mem;
use std::rt::Clock;
use std::sync::Arc;
use tokio::sync::mpsc::error::SendError;
use tokio::sync::mpsc::{UnboundedReceiver, UnboundedSender, unbounded_channel};

/// How many pieces of a body are read in one poll.
const PIECES_A_POLL: usize = 128;

/// What a call of the operator comes to.
pub(crate) type OperatorOutcome = Result<OperatorAnswer, OperatorRefusal>;

/// A request that was read, and where its outcome goes.
pub(crate) struct OperatorRequest {
    pub(crate) method: String,
    pub(crate) path: String,
    pub(crate) body: Vec<u8>,
    reply: oneshot::Sender<OperatorOutcome>,
}

impl Drop for OperatorRequest {
    fn drop(self) {
        let OperatorRequest {
            method: _,
            path: _,
            body: _,
            reply: _,
        } = self;
    }
}

impl OperatorRequest {
    /// Tells its outcome. Whether somebody still waits for it is all one.
    pub(crate) fn reply(self, outcome: OperatorOutcome) {
        let OperatorRequest {
            method: _,
            path: _,
            body: _,
            reply,
        } = self;
        drop(reply.send(outcome));
    }
}

/// Where the operator's requests go in, and what each has to bring.
pub(crate) struct OperatorEntrance {
    requests: UnboundedSender<OperatorRequest>,
    token: Option<Vec<u8>>,
}

impl Drop for OperatorEntrance {
    fn drop(self) {
        let OperatorEntrance {
            requests: _,
            token: _,
        } = self;
    }
}

impl OperatorEntrance {
    /// One for requests that bring a token, and where they come out.
    pub(crate) fn open(
        alloc: Global,
        token: Option<Vec<u8>>,
    ) -> Mem<(OperatorEntrance, UnboundedReceiver<OperatorRequest>)> {
        let (requests, receiver) = unbounded_channel(alloc)?;
        Ok((OperatorEntrance { requests, token }, receiver))
    }

    /// The same for another connection; none where there is no memory.
    pub(crate) fn share(entrance: &Arc<OperatorEntrance>) -> Option<Arc<OperatorEntrance>> {
        Arc::try_clone(entrance).ok()
    }
}

impl OperatorEntrance {
    /// Whether a request of this head is let in.
    fn is_open_to(&self, headers: &HeaderMap) -> bool {
        match &self.token {
            Some(token) => brings(headers, token.as_slice()),
            None => true,
        }
    }

    /// Hands a request in: where its outcome comes out.
    fn hand_in(
        &self,
        alloc: Global,
        method: String,
        path: String,
        body: Vec<u8>,
    ) -> Result<oneshot::Receiver<OperatorOutcome>, OperatorRefusal> {
        let (reply, outcome) = oneshot::channel(alloc)?;
        let request = OperatorRequest {
            method,
            path,
            body,
            reply,
        };
        self.send(request)?;
        Ok(outcome)
    }

    fn send(&self, request: OperatorRequest) -> Result<(), OperatorRefusal> {
        match self.requests.send(request) {
            Ok(()) => Ok(()),
            Err(SendError::Closed(_)) => Err(OperatorRefusal::Stopping),
            Err(SendError::OutOfMemory(_)) => Err(OperatorRefusal::MEMORY),
        }
    }
}

/// Serves the requests of an operator's connection.
pub(crate) struct OperatorGateway<R: Drop> {
    pub(crate) rt: R,
    pub(crate) alloc: Global,
    /// None where there was no memory to share it.
    pub(crate) entrance: Option<Arc<OperatorEntrance>>,
    /// The same of what bodies are timed by.
    pub(crate) bodies: Option<BodyTimer>,
}

impl<R: Drop> Drop for OperatorGateway<R> {
    fn drop(self) {
        let OperatorGateway {
            rt: _,
            alloc: _,
            entrance: _,
            bodies: _,
        } = self;
    }
}

/// A request of the operator.
pub(crate) struct OperatorExchange<I, R: Drop> {
    rt: R,
    alloc: Global,
    entrance: Option<Arc<OperatorEntrance>>,
    parts: Parts,
    body: Limited<Incoming<I>>,
    stall: Stall<R>,
    read: Vec<u8>,
    /// The body is read on and thrown away.
    lost: Option<OperatorRefusal>,
    /// None while the body is read.
    outcome: Option<oneshot::Receiver<OperatorOutcome>>,
}

impl<I: Drop, R: Drop> Drop for OperatorExchange<I, R> {
    fn drop(self) {
        let OperatorExchange {
            rt: _,
            alloc: _,
            entrance: _,
            parts: _,
            body: _,
            stall: _,
            read: _,
            lost: _,
            outcome: _,
        } = self;
    }
}

impl<I: Drop, R: Clock + Eprint + Copy + Drop> Service<Request<Incoming<I>>>
    for OperatorGateway<R> {
    type Response = Response<Full<Bytes>>;

    type Error = hyper::Error;

    type Future = OperatorExchange<I, R>;

    fn call(&self, req: Request<Incoming<I>>) -> OperatorExchange<I, R> {
        let entrance = match &self.entrance {
            Some(entrance) => Arc::try_clone(entrance).ok(),
            None => None,
        };
        let bodies = match &self.bodies {
            Some(bodies) => bodies.share(),
            None => None,
        };
        let (parts, body) = req.into_parts();
        OperatorExchange {
            rt: self.rt,
            alloc: self.alloc,
            entrance,
            parts,
            body: Limited::new(body, MAX_CONFIG),
            stall: Stall::new(self.rt, bodies),
            read: Vec::new(self.alloc),
            lost: None,
            outcome: None,
        }
    }
}

impl<I: Drop, R: Clock + Eprint + Copy + Drop> Future for OperatorExchange<I, R> {
    type Output = Result<Response<Full<Bytes>>, hyper::Error>;

    fn poll(&mut self, cx: &mut Context<'_>) -> Poll<Result<Response<Full<Bytes>>, hyper::Error>> {
        if self.outcome.is_none() {
            // Who has no token is not waited for.
            if let Err(refusal) = self.admitted() {
                return Poll::Ready(self.respond(Err(refusal)));
            }
            ready!(self.poll_whole(cx));
            if let Err(refusal) = self.ask() {
                return Poll::Ready(self.respond(Err(refusal)));
            }
        }
        let outcome = ready!(self.poll_outcome(cx));
        Poll::Ready(self.respond(outcome))
    }
}

impl<I: Drop, R: Clock + Eprint + Copy + Drop> OperatorExchange<I, R> {
    /// Ready once the body is read, or can't be read on, or its next piece took too long: then it is lost.
    fn poll_whole(&mut self, cx: &mut Context<'_>) -> Poll<()>
        ensures registered { OnPending result (IsArmed cx.new) }
        ensures kept { Keeps cx.old cx.new }
    {
        for _ in 0..PIECES_A_POLL {
            let Poll::Ready(piece) = self.body.poll_frame(cx) else {
                ready!(self.stall.poll_over(cx));
                self.lost = Some(OperatorRefusal::Unreadable);
                return Poll::Ready(());
            };
            self.stall.relent();
            if self.take(piece) {
                return Poll::Ready(());
            }
        }
        cx.yield_now()
    }

    /// Takes a piece of the body. Whether no other one comes.
    fn take(&mut self, piece: Option<Result<Frame<Bytes>, LimitedError<hyper::Error>>>) -> bool {
        match piece {
            Some(Ok(frame)) => {
                self.keep(frame);
                false
            }
            Some(Err(_)) => {
                self.lost = Some(OperatorRefusal::Unreadable);
                true
            }
            None => true,
        }
    }

    /// Keeps what a frame has of the body.
    fn keep(&mut self, frame: Frame<Bytes>) {
        if let Ok(data) = frame.into_data()
            && self.read.extend_from_slice(data.as_slice()).is_err()
        {
            self.lost = Some(OperatorRefusal::MEMORY);
        }
    }

    /// Hands the request in that was read.
    fn ask(&mut self) -> Result<(), OperatorRefusal> {
        let body = mem::replace(&mut self.read, Vec::new(self.alloc));
        let entrance = self.admitted()?;
        let (method, path) = self.asked()?;
        let outcome = entrance.hand_in(self.alloc, method, path, body)?;
        self.outcome = Some(outcome);
        Ok(())
    }

    /// Ready once the request that was handed in is done.
    fn poll_outcome(&mut self, cx: &mut Context<'_>) -> Poll<OperatorOutcome>
        ensures registered { OnPending result (IsArmed cx.new) }
        ensures kept { Keeps cx.old cx.new }
    {
        let Some(outcome) = &mut self.outcome else {
            return Poll::Ready(Err(OperatorRefusal::MEMORY));
        };
        match ready!(outcome.poll(cx)) {
            Ok(outcome) => Poll::Ready(outcome),
            Err(_) => Poll::Ready(Err(OperatorRefusal::Stopping)),
        }
    }

    /// Where the request goes in, if it is let in.
    fn admitted(&self) -> Result<&OperatorEntrance, OperatorRefusal> {
        let Some(entrance) = &self.entrance else {
            return Err(OperatorRefusal::MEMORY);
        };
        if !entrance.is_open_to(&self.parts.headers) {
            return Err(OperatorRefusal::Token);
        }
        match self.lost {
            Some(refusal) => Err(refusal),
            None => Ok(entrance),
        }
    }

    /// Its method and its path.
    fn asked(&self) -> Mem<(String, String)> {
        let method = String::from_str(self.alloc, self.parts.method.as_str())?;
        let path = String::from_str(self.alloc, self.parts.uri.path())?;
        Ok((method, path))
    }

    /// The response, which is told on standard error in a line.
    fn respond(&self, outcome: OperatorOutcome) -> Result<Response<Full<Bytes>>, hyper::Error> {
        let Reply { status, text, kind } = reply_of(outcome)?;
        self.tell(status);
        response(self.alloc, status, text, kind)
    }

    /// Tells the call in a line. An operator is answered, whether that can be told or not.
    fn tell(&self, status: u16) {
        let method = self.parts.method.as_str();
        let path = self.parts.uri.path();
        let _ = eprintln!(self.rt; "operator: {method} {path} {status}");
    }
}

/// What is sent for an outcome.
struct Reply {
    status: u16,
    text: Bytes,
    kind: TextKind,
}

fn reply_of(outcome: OperatorOutcome) -> Mem<Reply> {
    match outcome {
        Ok(OperatorAnswer { status, text, kind }) => Ok(Reply {
            status,
            text: text_of(text)?,
            kind,
        }),
        Err(refusal) => Ok(Reply {
            status: refusal.status(),
            text: Bytes::from_static(refusal.text()),
            kind: TextKind::Json,
        }),
    }
}

fn response(
    alloc: Global,
    status: u16,
    text: Bytes,
    kind: TextKind,
) -> Result<Response<Full<Bytes>>, hyper::Error> {
    let mut response = Response::new(alloc, Full::new(text));
    if let Ok(status) = StatusCode::from_u16(status) {
        *response.status_mut() = status;
    }
    tell_kind(response.headers_mut(), kind)?;
    Ok(response)
}

/// Tells in the head what kind of text a response has.
fn tell_kind(headers: &mut HeaderMap, kind: TextKind) -> Mem<()> {
    let kind = match kind {
        TextKind::Json => HeaderValue::from_static("application/json"),
        TextKind::Prometheus => HeaderValue::from_static("text/plain; version=0.0.4"),
    };
    match headers.insert(header::CONTENT_TYPE, kind) {
        Ok(_) => Ok(()),
        Err(_) => Err(AllocError),
    }
}

fn text_of(text: Option<Vec<u8>>) -> Mem<Bytes> {
    match text {
        Some(text) => match Bytes::from_vec(text) {
            Ok(text) => Ok(text),
            Err(_) => Err(AllocError),
        },
        None => Ok(Bytes::from_static(b"")),
    }
}

/// The head has `authorization: Bearer` and the token.
fn brings(headers: &HeaderMap, token: &[u8]) -> bool
    ensures { IsTrue result ↔ (option_map (λ v. v.bytes) (get headers.now (codes "authorization"))
        ≡ Some (bearer token.now)) }
{
    match headers.get(header::AUTHORIZATION) {
        Some(value) => is_bearer(value.as_bytes(), token),
        None => false,
    }
}

/// What was brought is `Bearer` and the token.
fn is_bearer(brought: &[u8], token: &[u8]) -> bool
    ensures { IsTrue result ↔ (brought.now ≡ bearer token.now) }
{
    match brought.strip_prefix(b"Bearer ".as_slice()) {
        Some(brought) => is_same(brought, token),
        None => false,
    }
}

/// The two texts are one. How long that takes tells their lengths and nothing else.
fn is_same(brought: &[u8], token: &[u8]) -> bool
    ensures { IsTrue result ↔ (brought.now ≡ token.now) }
{
    if brought.len() != token.len() {
        return false;
    }
    let mut same = true;
    for (place, one) in brought.iter().enumerate() {
        same &= *one == token[place];
    }
    same
}
