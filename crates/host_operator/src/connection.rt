//! A connection of the operator: hyper reads heads and writes answers, with an exchange for each request.
//!
//! Who serves connections needs to know nothing of what one is made of, and neither does the proof of his code.
ghost use Rattle.hyper.specs.ServerDispatch.{Runs};

use crate::requests::{OperatorExchange, OperatorGateway};
use bytes::Bytes;
use connection_table::Patience;
use event_loop::{BodyTimer, EventLoop};
use futures::Future;
use futures::task::{Context, Poll};
use http_body_util::Full;
use hyper::Request;
use hyper::body::{Body, Incoming};
use hyper::rt::TokioTimer;
use hyper::server::conn::http1;
use hyper::service::Service;
use std::alloc::Global;
use std::hash::RandomState;
use std::io;
use std::random::RandomSource;
use std::rt::Clock;
use tokio::io::{AsyncRead, AsyncWrite};
use tokio::net::TcpStream;

/// How heads and bodies are read and answers are written.
pub(crate) struct OperatorHttp<R: Clock + Copy + Drop> {
    builder: http1::Builder<TokioTimer<R>>,
    bodies: BodyTimer,
}

impl<R: Clock + Copy + Drop> Drop for OperatorHttp<R> {
    fn drop(self) {
        let OperatorHttp {
            builder: _,
            bodies: _,
        } = self;
    }
}

impl<R: Clock + RandomSource + Copy + Drop> OperatorHttp<R> {
    /// For the connections of an event loop, whose peers have so much patience.
    pub(crate) fn new(
        rt: R,
        alloc: Global,
        event_loop: &EventLoop,
        patience: Patience,
    ) -> io::Result<OperatorHttp<R>> {
        let keys = RandomState::new(&rt)?;
        let timers = event_loop.timers().clone()?;
        let mut builder = http1::Builder::new(alloc, keys).timer(TokioTimer::new(rt, timers));
        builder.header_read_timeout(Some(patience.for_head()));
        let bodies = BodyTimer {
            timers: event_loop.timers().clone()?,
            patience: patience.for_body(),
        };
        Ok(OperatorHttp { builder, bodies })
    }
}

impl<R: Clock + Copy + Drop> OperatorHttp<R> {
    /// What a connection's bodies are timed by; none where there is no memory to share it.
    pub(crate) fn body_timer(&self) -> Option<BodyTimer> {
        self.bodies.share()
    }
}

/// A connection of the operator. It is ready once it has ended.
pub(crate) struct OperatorConnection<R: Clock + Eprint + Copy + Drop> {
    connection: http1::Connection<TcpStream, OperatorGateway<R>, Full<Bytes>, TokioTimer<R>>,
}

impl<R: Clock + Eprint + Copy + Drop> Drop for OperatorConnection<R> {
    fn drop(self) {
        let OperatorConnection { connection: _ } = self;
    }
}

impl<R: Clock + Eprint + Copy + Drop> OperatorConnection<R> {
    /// It takes no memory until it is polled.
    pub(crate) fn new(
        http: &OperatorHttp<R>,
        stream: TcpStream,
        gateway: OperatorGateway<R>,
    ) -> OperatorConnection<R>
        ensures { ⟦<OperatorConnection<R> as Future>⟧.can_poll result }
    {
        OperatorConnection {
            connection: http.builder.serve_connection(stream, gateway),
        }
    }
}

impl<R: Clock + Eprint + Copy + Drop> Future for OperatorConnection<R> {
    type Output = hyper::Result<()>;

    ghost can_poll = { λ c. Runs ⟦<TcpStream as AsyncRead>⟧ ⟦<TcpStream as AsyncWrite>⟧
        ⟦<OperatorGateway<R> as Service<Request<Incoming<TcpStream>>>>⟧ ⟦<OperatorExchange<TcpStream, R> as Future>⟧
        ⟦<Full<Bytes> as Body>⟧ ⟦<Bytes as Into<Bytes>>⟧ c.connection.conn };

    fn poll(&mut self, cx: &mut Context<'_>) -> Poll<hyper::Result<()>> {
        self.connection.poll(cx)
    }
}
