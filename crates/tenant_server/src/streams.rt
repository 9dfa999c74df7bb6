//! One connection over a stream, whatever the stream is: a socket of an event loop, or what `serve_one` is given.
ghost use Rattle.std.specs.Prelude.{IfOk};

use crate::pacing::PacedStream;
use connection_table::{Answers, Patience, Requests};
use etcd_types::Mem;
use futures::Future;
use futures::task::{Context, Poll};
use gateway_http::{ClientConnection, Gateway, Http};
use hyper::rt::{Timer, TokioTimer};
use pending_calls::CallServer;
use std::alloc::Global;
use std::hash::RandomState;
use std::rt::Clock;
use std::sync::{Arc, Wait};
use std::time::Duration;
use tokio::io::{AsyncRead, AsyncWrite};
use tokio::net::TcpStream;
use tokio::time;

/// By what the connections of one thread are served.
#[derive(Drop)]
pub(crate) struct Streams<R: Wait + Drop, S: CallServer<R>, T: Timer> {
    rt: R,
    alloc: Global,
    http: Http<T>,
    server: Arc<S>,
    /// None where a peer is waited for however long it takes.
    timers: Option<time::Handle>,
    body_patience: Duration,
}

impl<R: Wait + Clock + Copy + Drop, S: CallServer<R>, T: Timer> Streams<R, S, T> {
    pub(crate) fn new(
        rt: R,
        alloc: Global,
        keys: RandomState,
        server: Arc<S>,
        timer: T,
        timers: Option<time::Handle>,
        patience: Patience,
    ) -> Streams<R, S, T> {
        Streams {
            rt,
            alloc,
            http: Http::new(alloc, keys, timer, patience.for_head()),
            server,
            timers,
            body_patience: patience.for_body(),
        }
    }

    /// None where there are none, or no memory for a share of them.
    fn timers(&self) -> Option<time::Handle> {
        match &self.timers {
            Some(timers) => timers.clone().ok(),
            None => None,
        }
    }

    /// The connection over a stream, which is ready once it has ended; an error where there is no memory. Its requests are counted
    /// in the table of connections, if it is in one.
    pub(crate) fn connection<I>(
        &self,
        stream: I,
        requests: Option<Requests<R>>,
    ) -> Mem<ClientConnection<I, R, S, T>>
    where
        I: AsyncRead + AsyncWrite + Drop,
        ensures { IfOk result ⟦<ClientConnection<I, R, S, T> as Future>⟧.can_poll }
    {
        let timers = self.timers();
        let gateway = Gateway {
            rt: self.rt,
            alloc: self.alloc,
            server: Arc::try_clone(&self.server)?,
            requests,
            timers,
            body_patience: self.body_patience,
        };
        self.http.connect(stream, gateway)
    }
}

impl<R: Wait + Clock + Copy + Drop, S: CallServer<R>> Streams<R, S, TokioTimer<R>> {
    /// The connection over a socket of an event loop, whose number says for how long it rests. It is told what was sent.
    pub(crate) fn socket(
        &self,
        socket: TcpStream,
        number: u64,
        requests: Option<Requests<R>>,
        answers: Option<Answers>,
    ) -> Mem<SocketConnection<R, S>>
        ensures { IfOk result ⟦<SocketConnection<R, S> as Future>⟧.can_poll }
    {
        let stream = PacedStream::new(self.rt, socket, number, self.timers(), answers);
        Ok(SocketConnection {
            connection: self.connection(stream, requests)?,
        })
    }
}

/// The connection over a socket of an event loop. Who runs many needs to know nothing of what one is made of, and neither does
/// the proof of his code.
pub(crate) struct SocketConnection<R: Wait + Clock + Copy + Drop, S: CallServer<R>> {
    connection: ClientConnection<PacedStream<R, TcpStream>, R, S, TokioTimer<R>>,
}

impl<R: Wait + Clock + Copy + Drop, S: CallServer<R>> Drop for SocketConnection<R, S> {
    fn drop(self) {
        let SocketConnection { connection: _ } = self;
    }
}

impl<R: Wait + Clock + Copy + Drop, S: CallServer<R>> Future for SocketConnection<R, S> {
    type Output = hyper::Result<()>;

    ghost can_poll = { λ c. ⟦<ClientConnection<PacedStream<R, TcpStream>, R, S, TokioTimer<R>> as Future>⟧.can_poll c.connection };

    fn poll(&mut self, cx: &mut Context<'_>) -> Poll<hyper::Result<()>> {
        self.connection.poll(cx)
    }
}
