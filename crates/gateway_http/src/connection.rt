//! A client's connection: hyper reads heads and writes answers, with an exchange for each request.
//!
//! Who serves connections needs to know nothing of what one is made of, and neither does the proof of his code.
ghost use Rattle.std.specs.Prelude.{IfOk};
ghost use Rattle.hyper.specs.ServerDispatch.{Runs};

use crate::exchange::{Exchange, Gateway};
use crate::piece::Piece;
use crate::response::ResponseBody;
use bytes::Bytes;
use etcd_types::Mem;
use futures::Future;
use futures::task::{Context, Poll};
use http_body::Body;
use hyper::Request;
use hyper::body::Incoming;
use hyper::rt::Timer;
use hyper::server::conn::http1;
use hyper::service::Service;
use pending_calls::CallServer;
use std::alloc::Global;
use std::hash::RandomState;
use std::rt::Clock;
use std::sync::{Arc, Wait};
use std::time::Duration;
use tokio::io::{AsyncRead, AsyncWrite};

/// How many bytes wait at a connection to be sent, before no more of an answer is handed to it.
const MAX_UNSENT: usize = 65_536;

/// How connections are served, by timers of this kind.
pub struct Http<T: Timer> {
    builder: http1::Builder<T>,
}

impl<T: Timer> Drop for Http<T> {
    fn drop(self) {
        let Http { builder: _ } = self;
    }
}

impl<T: Timer> Http<T> {
    /// A head is waited for so long, if there are timers.
    pub fn new(alloc: Global, keys: RandomState, timer: T, head: Duration) -> Http<T> {
        let mut builder = http1::Builder::new(alloc, keys).timer(timer);
        builder.header_read_timeout(Some(head));
        builder.max_buf_size(MAX_UNSENT);
        Http { builder }
    }

    /// A connection over a stream; an error where there is no memory to share what serves its calls.
    pub fn connect<I, R, S>(
        &self,
        stream: I,
        gateway: Gateway<R, S>,
    ) -> Mem<ClientConnection<I, R, S, T>>
    where
        I: AsyncRead + AsyncWrite + Drop,
        R: Wait + Clock + Copy + Drop,
        S: CallServer<R>,
        ensures { IfOk result ⟦<ClientConnection<I, R, S, T> as Future>⟧.can_poll }
    {
        let server = Arc::try_clone(&gateway.server)?;
        Ok(ClientConnection {
            server,
            connection: self.builder.serve_connection(stream, gateway),
        })
    }
}

/// A client's connection over a stream. It is ready once it has ended.
pub struct ClientConnection<
    I: AsyncRead + AsyncWrite + Drop,
    R: Wait + Clock + Copy + Drop,
    S: CallServer<R>,
    T: Timer,
> {
    server: Arc<S>,
    connection: http1::Connection<I, Gateway<R, S>, ResponseBody<R>, T>,
}

impl<I, R, S, T> Drop for ClientConnection<I, R, S, T>
where
    I: AsyncRead + AsyncWrite + Drop,
    R: Wait + Clock + Copy + Drop,
    S: CallServer<R>,
    T: Timer,
{
    fn drop(self) {
        let ClientConnection {
            server: _,
            connection: _,
        } = self;
    }
}

impl<I, R, S, T> Future for ClientConnection<I, R, S, T>
where
    I: AsyncRead + AsyncWrite + Drop,
    R: Wait + Clock + Copy + Drop,
    S: CallServer<R>,
    T: Timer,
{
    type Output = hyper::Result<()>;

    ghost can_poll = { λ c. Runs I.AsyncRead I.AsyncWrite ⟦<Gateway<R, S> as Service<Request<Incoming<I>>>>⟧
        ⟦<Exchange<I, R, S> as Future>⟧ ⟦<ResponseBody<R> as Body>⟧ ⟦<Piece as Into<Bytes>>⟧ c.connection.conn };

    fn poll(&mut self, cx: &mut Context<'_>) -> Poll<hyper::Result<()>> {
        self.server.begin_poll();
        self.connection.poll(cx)
    }
}
