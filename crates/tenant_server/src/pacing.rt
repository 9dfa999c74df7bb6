//! A stream whose peer sends in small pieces rests before it is read.
//!
//! To read a byte takes as long as to read a thousand. So a thousand peers who send a byte each, at the same moment, would hold
//! up whatever else their loop serves: their streams rest for different times. Who sends a request in a few pieces, or in large
//! ones, is read as they come. What goes through is what the stream itself reads and writes, in order.
ghost use Rattle.std.specs.Prelude.{◌≡◌, ◌≢◌, ◌⊎◌, None, IsSomeAnd};
ghost use Rattle.futures.specs.Task.{Covers, Keeps};
ghost use Rattle.futures.specs.Poll.{OnPending};
ghost use Rattle.tokio.specs.Timers.{sleep_source};

use connection_table::Answers;
use futures::task::{Context, Poll};
use futures::{Future, ready};
use std::io;
use std::io::IoSlice;
use std::rt::Clock;
use std::time::Duration;
use tokio::io::{AsyncRead, AsyncWrite};
use tokio::time::{Handle, Sleep};

/// A piece of fewer bytes is small.
const SMALL: usize = 512;

/// How many small pieces in a row are read as soon as they come.
const SMALL_PIECES: u32 = 8;

/// How many milliseconds a rest has at the least. A connection that was told to end is closed behind it.
const MILLIS_A_REST: u64 = 16;

/// It has fewer than so many more, so that peers who send at the same moment are read one after another.
const MORE_MILLIS: u64 = 31;

/// A stream that rests before it is read, once many small pieces have come in a row with nothing written between.
#[derive(Drop)]
pub(crate) struct PacedStream<R, S> {
    rt: R,
    stream: S,
    /// None where it never rests.
    timers: Option<Handle>,
    pause: Duration,
    /// How many small pieces came in a row.
    pieces: u32,
    /// It is to rest before it is read.
    is_due: bool,
    /// From the beginning of a rest on until it is read, where there was memory for it.
    sleep: Option<Sleep>,
    /// Where it is told that all was sent.
    answers: Option<Answers>,
}

impl<R: Clock + Drop, S: Drop> PacedStream<R, S> {
    /// The number says for how long it rests, each 31st alike.
    pub(crate) fn new(
        rt: R,
        stream: S,
        number: u64,
        timers: Option<Handle>,
        answers: Option<Answers>,
    ) -> PacedStream<R, S> {
        PacedStream {
            rt,
            stream,
            timers,
            pause: Duration::from_millis(MILLIS_A_REST + number % MORE_MILLIS),
            pieces: 0,
            is_due: false,
            sleep: None,
            answers,
        }
    }

    /// It rests from now on.
    fn rest(&mut self)
        ensures { self.new.stream ≡ self.old.stream }
    {
        self.is_due = false;
        self.sleep = match &self.timers {
            Some(timers) => timers.sleep(&self.rt, self.pause).ok(),
            None => None,
        };
    }

    /// Ready where it doesn't rest.
    fn poll_rest(&mut self, cx: &mut Context<'_>) -> Poll<()>
        ensures registered { OnPending result (Covers cx.new
            (λ source. IsSomeAnd self.new.sleep (λ sleep. source ≡ sleep_source sleep))) }
        ensures kept { Keeps cx.old cx.new }
        ensures rests { OnPending result (self.new.sleep ≢ None) }
        ensures stream { self.new.stream ≡ self.old.stream }
    {
        if self.is_due {
            self.rest();
        }
        match &mut self.sleep {
            Some(sleep) => sleep.poll(cx).map(|_| ()),
            None => Poll::Ready(()),
        }
    }

    /// A piece of so many bytes was read, or nothing was there.
    fn note(&mut self, piece: Option<usize>)
        ensures stream { self.new.stream ≡ self.old.stream }
        ensures sleep { self.new.sleep ≡ self.old.sleep }
    {
        match piece {
            Some(bytes) if bytes >= SMALL => self.pieces = 0,
            Some(_) => self.pieces = self.pieces.saturating_add(1),
            None => {}
        }
        self.is_due = self.pieces >= SMALL_PIECES;
    }

    /// Something was written: what comes next is read as it comes. A read that waits for the end of a rest is asked for anew.
    fn wake(&mut self, cx: &mut Context<'_>)
        ensures kept { Keeps cx.old cx.new }
        ensures stream { self.new.stream ≡ self.old.stream }
    {
        self.pieces = 0;
        self.is_due = false;
        if self.sleep.is_some() {
            self.sleep = None;
            let _: Poll<()> = cx.yield_now();
        }
    }
}

impl<R: Clock + Drop, S: AsyncRead> AsyncRead for PacedStream<R, S> {
    ghost needs = { λ p source. ((p.sleep ≡ None) × S.needs p.stream source)
        ⊎ IsSomeAnd p.sleep (λ sleep. source ≡ sleep_source sleep) };

    ghost reads = { λ a xs b. S.reads a.stream xs b.stream };

    ghost is_at_end = { λ p. S.is_at_end p.stream };

    ghost fails = { λ p e. S.fails p.stream e };

    ghost reads_nothing = { λ p. S.reads_nothing p.stream };

    ghost reads_in_order = { λ a xs b ys c. S.reads_in_order a.stream xs b.stream ys c.stream };

    fn poll_read(&mut self, cx: &mut Context<'_>, buf: &mut [u8]) -> Poll<io::Result<usize>> {
        ready!(self.poll_rest(cx));
        self.sleep = None;
        let polled = self.stream.poll_read(cx, buf);
        match &polled {
            Poll::Ready(Ok(bytes)) => self.note(Some(*bytes)),
            Poll::Ready(Err(_)) => {}
            Poll::Pending => self.note(None),
        }
        polled
    }
}

impl<R: Clock + Drop, S: AsyncWrite> AsyncWrite for PacedStream<R, S> {
    ghost needs = { λ p source. S.needs p.stream source };

    ghost writes = { λ a xs b. S.writes a.stream xs b.stream };

    ghost is_flushed = { λ p. S.is_flushed p.stream };

    ghost is_shut_down = { λ p. S.is_shut_down p.stream };

    ghost is_full = { λ p. S.is_full p.stream };

    ghost fails = { λ p e. S.fails p.stream e };

    ghost writes_nothing = { λ p. S.writes_nothing p.stream };

    ghost writes_in_order = { λ a xs b ys c. S.writes_in_order a.stream xs b.stream ys c.stream };

    fn poll_write(&mut self, cx: &mut Context<'_>, buf: &[u8]) -> Poll<io::Result<usize>> {
        let written = ready!(self.stream.poll_write(cx, buf));
        self.wake(cx);
        Poll::Ready(written)
    }

    fn poll_write_vectored(
        &mut self,
        cx: &mut Context<'_>,
        bufs: &[IoSlice<'_>],
    ) -> Poll<io::Result<usize>> {
        let written = ready!(self.stream.poll_write_vectored(cx, bufs));
        self.wake(cx);
        Poll::Ready(written)
    }

    fn is_write_vectored(&self) -> bool {
        self.stream.is_write_vectored()
    }

    fn poll_flush(&mut self, cx: &mut Context<'_>) -> Poll<io::Result<()>> {
        let flushed = ready!(self.stream.poll_flush(cx));
        if let Some(answers) = &self.answers {
            answers.are_sent();
        }
        Poll::Ready(flushed)
    }

    fn poll_shutdown(&mut self, cx: &mut Context<'_>) -> Poll<io::Result<()>> {
        self.stream.poll_shutdown(cx)
    }
}
