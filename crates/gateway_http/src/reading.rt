//! A request while its body is read.
ghost use Rattle.std.specs.Prelude.{◌≡◌, [], true, false, codes};
ghost use Rattle.futures.specs.Task.{IsArmed, Keeps};
ghost use Rattle.futures.specs.Poll.{OnPending};
ghost use Rattle.etcd_types.specs.Limits.{max_body};
ghost use Rattle.http_body.specs.Frame.{bytes_in};
ghost use Rattle.http_header.specs.HeaderMap.{get};
ghost use Rattle.hyper.specs.Incoming.{size_left};
ghost use Rattle.gateway_http.specs.Readings.{IsKept, IsLost, ReadsOn, ReadsWhole};
ghost use Rattle.gateway_http.specs.Requests.{IsCoded, IsLossOf, IsPlain, IsTakenUp, loss_told, most_of};

use crate::giving_way::polls_for;
use bytes::Bytes;
use etcd_types::Refusal;
use etcd_types::limits::MAX_BODY;
use event_loop::Stall;
use fair_turns::{BodyShare, SHORT, TreeWeight};
use futures::ready;
use futures::task::{Context, Poll};
use http_body_util::{Limited, LimitedError};
use hyper::body::{Body, Frame, Incoming};
use hyper::header::{self, HeaderMap};
use pending_calls::{Begun, CallServer, RequestBody, Route, Unanswered};
use std::alloc::{AllocError, Global};
use std::mem;
use std::rt::Clock;
use std::sync::{Arc, Wait};

/// How many pieces of a body are read in one poll.
const PIECES_A_POLL: usize = 128;

/// How many bytes of a body are read before the other connections of the loop come. They would wait for milliseconds for
/// some long bodies that are there at once.
const BYTES_A_POLL: usize = 16_384;

/// How many pieces of a body that is too long are passed over before it is answered. A client that still
/// writes when its connection closes may never see the answer.
const MAX_PASSED: u32 = 4096;

/// A request whose body is being read.
#[derive(Drop)]
pub(crate) struct Reading<I, R: Wait + Drop> {
    alloc: Global,
    unanswered: Unanswered,
    route: Result<Route, Refusal>,
    body: Limited<Incoming<I>>,
    read: Vec<u8>,
    /// What reading the values of a long body may take.
    tree: TreeWeight,
    /// That is more than its tenant's budget has room for: the body rests before it is read on and thrown away.
    is_costly: bool,
    terms: BodyTerms<R>,
    /// For how many polls the other connections of the loop come before its next piece.
    rests: usize,
    /// Why the body is read on and thrown away.
    lost: Option<Loss>,
    passed: u32,
}

/// On which terms a body is read.
#[derive(Drop)]
pub(crate) struct BodyTerms<R: Wait + Drop> {
    /// The most bytes that it may come to have.
    pub(crate) bound: usize,
    pub(crate) share: BodyShare,
    pub(crate) stall: Stall<R>,
}

/// A body was read to its end, or enough of it was passed over. It is told once, and then its call begins.
#[derive(Drop)]
pub(crate) struct WholeBody {
    /// It is made here alone.
    sealed: (),
}

impl<R: Wait + Drop> BodyTerms<R> {
    fn into_share(self) -> BodyShare {
        let BodyTerms {
            bound: _,
            share,
            stall: _,
        } = self;
        share
    }
}

/// Why a body is thrown away.
#[derive(Clone, Copy, Drop)]
pub(crate) enum Loss {
    TooLarge,
    /// It has a transfer coding that is not offered.
    Coded,
    NoMemory,
}

impl Loss {
    /// What its client is told.
    fn refusal(self) -> Refusal
        ensures { result ≡ loss_told self }
    {
        match self {
            Loss::TooLarge => Refusal::TooLarge,
            Loss::Coded => Refusal::NotOffered,
            Loss::NoMemory => Refusal::Memory,
        }
    }
}

impl<I: Drop, R: Wait + Clock + Copy + Drop> Reading<I, R> {
    /// A request with this route, none of whose body was read.
    pub(crate) fn new(
        alloc: Global,
        unanswered: Unanswered,
        route: Result<Route, Refusal>,
        body: Incoming<I>,
        terms: BodyTerms<R>,
        lost: Option<Loss>,
    ) -> Reading<I, R>
        ensures route { result.route ≡ route }
        ensures lost { result.lost ≡ lost }
        ensures body { result.body ≡ record { remaining = max_body; inner = body } }
        ensures read { result.read.items ≡ [] }
    {
        Reading {
            alloc,
            unanswered,
            route,
            body: Limited::new(body, MAX_BODY),
            read: Vec::new(alloc),
            tree: TreeWeight::EMPTY,
            is_costly: false,
            terms,
            rests: 0,
            lost,
            passed: 0,
        }
    }

    /// Ready once the body is read, or once enough of it was passed over. It fails where the peer breaks off, or takes
    /// too long for the next piece.
    pub(crate) fn poll_whole(
        &mut self,
        cx: &mut Context<'_>,
    ) -> Poll<Result<WholeBody, hyper::Error>>
        ensures read { ReadsWhole self.old result self.new }
        ensures registered { OnPending result (IsArmed cx.new) }
        ensures kept { Keeps cx.old cx.new }
    {
        ready!(self.poll_share(cx));
        if self.rests > 0 {
            self.rests -= 1;
            return cx.yield_now();
        }
        let mut bytes = 0usize;
        for _ in 0..PIECES_A_POLL {
            match ready!(self.poll_piece(cx)) {
                Ok(Some(more)) => bytes = bytes.saturating_add(more),
                Ok(None) => return Poll::Ready(Ok(WholeBody { sealed: () })),
                Err(e) => return Poll::Ready(Err(e)),
            }
            if self.lost.is_some() {
                self.passed = self.passed.saturating_add(1);
                if self.passed > MAX_PASSED {
                    return Poll::Ready(Ok(WholeBody { sealed: () }));
                }
            }
            if bytes >= BYTES_A_POLL || self.is_costly {
                self.rests = polls_for(bytes);
                return cx.yield_now();
            }
        }
        cx.yield_now()
    }

    /// Reads the next piece of the body: how many bytes it has. None at the body's end.
    #[tactic(auto, using(crate::proofs::ReadingLemmas::ended))]
    fn poll_piece(&mut self, cx: &mut Context<'_>) -> Poll<Result<Option<usize>, hyper::Error>>
        ensures read { ReadsOn self.old result self.new }
        ensures registered { OnPending result (IsArmed cx.new) }
        ensures kept { Keeps cx.old cx.new }
    {
        let Poll::Ready(came) = self.body.poll_frame(cx) else {
            ready!(self.terms.stall.poll_over(cx));
            return Poll::Ready(Err(hyper::Error::from(AllocError)));
        };
        self.terms.stall.relent();
        match came {
            Some(Ok(frame)) => Poll::Ready(Ok(Some(self.take_in(frame)))),
            Some(Err(LimitedError::LengthLimit)) => {
                self.lost = Some(Loss::TooLarge);
                // How long it was isn't told: others come before the next one, as behind the longest.
                Poll::Ready(Ok(Some(BYTES_A_POLL)))
            }
            Some(Err(LimitedError::Body(e))) => Poll::Ready(Err(e)),
            None => Poll::Ready(Ok(None)),
        }
    }

    /// Keeps what came with a frame: how many bytes it is.
    fn take_in(&mut self, frame: Frame<Bytes>) -> usize
        ensures { IsKept self.old (bytes_in frame.kind) self.new }
    {
        match frame.into_data() {
            Ok(piece) => {
                self.keep(piece.as_slice());
                piece.len()
            }
            Err(_) => 0,
        }
    }

    /// Ready once the body has its share of its tenant's budget, or was refused since it waited as long for it as for a
    /// piece. Nothing is read before.
    #[tactic(auto, using(crate::proofs::ReadingLemmas::lost))]
    fn poll_share(&mut self, cx: &mut Context<'_>) -> Poll<()>
        ensures kept_all { IsKept self.old [] self.new }
        ensures registered { OnPending result (IsArmed cx.new) }
        ensures kept { Keeps cx.old cx.new }
    {
        if self.is_costly {
            return self.poll_rest(cx);
        }
        let BodyShare::Awaited(_) = &self.terms.share else {
            return Poll::Ready(());
        };
        let (share, held) = mem::replace(&mut self.terms.share, BodyShare::None).poll_held(cx);
        self.terms.share = share;
        match held {
            Poll::Ready(true) => {
                if self.read.reserve_exact(self.terms.bound).is_err() {
                    self.lose();
                }
            }
            Poll::Ready(false) => self.lose(),
            Poll::Pending => {
                ready!(self.terms.stall.poll_over(cx));
                self.lose();
            }
        }
        self.terms.stall.relent();
        Poll::Ready(())
    }

    /// Ready once a body that is too costly has rested: else its client would send the next one at once.
    fn poll_rest(&mut self, cx: &mut Context<'_>) -> Poll<()>
        ensures kept_all { IsKept self.old [] self.new }
        ensures registered { OnPending result (IsArmed cx.new) }
        ensures kept { Keeps cx.old cx.new }
    {
        ready!(self.terms.stall.poll_rest(cx));
        self.is_costly = false;
        self.terms.stall.relent();
        Poll::Ready(())
    }

    /// There is no memory for the body: it is read on and thrown away.
    fn lose(&mut self)
        ensures { IsLost self.old self.new }
    {
        self.lost = Some(Loss::NoMemory);
        self.terms.share = BodyShare::None;
        self.read = Vec::new(self.alloc);
    }

    /// Keeps a piece of the body of a request that is not refused yet.
    #[tactic(auto, using(crate::proofs::ReadingLemmas::lost))]
    fn keep(&mut self, piece: &[u8])
        ensures { IsKept self.old piece.now self.new }
    {
        if self.route.is_err() || self.lost.is_some() {
            return;
        }
        if self.read.extend_from_slice(piece).is_err() || self.is_too_costly(piece) {
            self.lose();
        }
    }

    /// With this piece, reading a long body may take more than its tenant's budget has room for.
    fn is_too_costly(&mut self, piece: &[u8]) -> bool
        ensures route { self.new.route ≡ self.old.route }
        ensures body { self.new.body ≡ self.old.body }
        ensures lost { self.new.lost ≡ self.old.lost }
        ensures read { self.new.read ≡ self.old.read }
    {
        if self.terms.bound > SHORT {
            self.tree.add(piece);
            self.is_costly = !self.terms.share.has_room_for(self.tree);
        }
        if self.is_costly {
            self.terms.stall.rest();
        }
        self.is_costly
    }

    /// Begins the call of a request that was read, or refuses it.
    pub(crate) fn begin<S: CallServer<R>>(
        self,
        rt: R,
        alloc: Global,
        _whole: WholeBody,
        server: &Option<Arc<S>>,
    ) -> Begun<R>
        ensures { IsTakenUp self.route self.lost self.read.items result }
    {
        let Reading {
            alloc: _,
            unanswered,
            route,
            body: _,
            read,
            tree,
            is_costly: _,
            terms,
            rests: _,
            lost,
            passed: _,
        } = self;
        let route = match route {
            Ok(route) => route,
            Err(refusal) => return Begun::Answered(unanswered.refused(alloc, refusal)),
        };
        if let Some(loss) = lost {
            let refusal = loss.refusal();
            return Begun::Answered(match server {
                Some(server) => {
                    let jobs = server.jobs();
                    jobs.refused(&rt, alloc, unanswered, &route, read.len(), refusal)
                }
                None => unanswered.refused(alloc, refusal),
            });
        }
        let Some(server) = server else {
            return Begun::Answered(unanswered.refused(alloc, Refusal::Memory));
        };
        let share = terms.into_share().for_body(read.len());
        let body = RequestBody {
            bytes: read,
            share,
            tree,
        };
        Begun::new(&rt, alloc, &**server, unanswered, route, body)
    }
}

/// The most bytes that a body may come to have: those that were announced, or those of the longest one.
pub(crate) fn bound_of<I: Drop>(body: &Incoming<I>) -> usize
    ensures { result ≡ most_of (size_left body.now.kind) }
{
    match body.size_hint().exact() {
        Some(length) => length as usize,
        None => MAX_BODY,
    }
}

/// Why a body is not kept, by its head.
pub(crate) fn loss_of(headers: &HeaderMap, bound: usize) -> Option<Loss>
    ensures { IsLossOf headers.now bound result }
{
    if is_coded(headers) {
        Some(Loss::Coded)
    } else if bound > MAX_BODY {
        Some(Loss::TooLarge)
    } else {
        None
    }
}

/// A body comes with a length or in chunks; no other coding is offered.
fn is_coded(headers: &HeaderMap) -> bool
    ensures coded { result ≡ true → IsCoded (get headers.now (codes "transfer-encoding")) }
    ensures plain { result ≡ false → IsPlain (get headers.now (codes "transfer-encoding")) }
{
    match headers.get(header::TRANSFER_ENCODING) {
        Some(coding) => !coding.as_bytes().eq_ignore_ascii_case(b"chunked"),
        None => false,
    }
}
