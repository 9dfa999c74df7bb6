//! A stream in memory that fails when it is told to.
ghost use Rattle.std.specs.Prelude.{⊤};

use etcd_types::Mem;
use futures::task::{Context, Poll};
use std::alloc::Global;
use std::io;
use std::sync::Arc;
use std::sync::atomic::{AtomicBool, AtomicU64, Ordering};
use tokio::io::{AsyncRead, AsyncWrite};

/// How much is read or written at a time, at most.
const PIECE: usize = 16;

/// What a peer has seen, for the test that made it.
#[derive(Drop)]
pub(crate) struct Seen {
    /// A read or a write failed.
    pub(crate) fault: AtomicBool,
    /// How many bytes were written to it.
    pub(crate) written: AtomicU64,
    /// What it waits for was written, or its test has it leave without it.
    pub(crate) leaves: AtomicBool,
    /// How often more was read of it than it has to say.
    pub(crate) waits: AtomicU64,
}

/// What is looked for in what is written. No other byte of it is its first one.
#[derive(Drop)]
struct Search {
    wanted: &'static [u8],
    left: &'static [u8],
}

impl Search {
    fn look(&mut self, byte: u8) {
        if !self.left.is_empty() && self.left.first() != Some(&byte) {
            self.left = self.wanted;
        }
        if let [first, rest @ ..] = self.left
            && *first == byte
        {
            self.left = rest;
        }
    }
}

/// Says its piece, waits until what it looks for was written, and is then at its end. Once its reads or writes are used
/// up, the next one fails.
#[derive(Drop)]
pub(crate) struct Peer {
    pub(crate) says: &'static [u8],
    search: Search,
    pub(crate) reads_left: u32,
    pub(crate) writes_left: u32,
    pub(crate) seen: Arc<Seen>,
}

impl Peer {
    /// A peer that never fails, and leaves once its answer begins.
    pub(crate) fn new(alloc: Global, says: &'static [u8]) -> Mem<Peer> {
        Peer::failing(alloc, says, b"HTTP", u32::MAX, u32::MAX)
    }

    /// A peer that waits for a text, and fails after so many reads and writes.
    pub(crate) fn failing(
        alloc: Global,
        says: &'static [u8],
        wanted: &'static [u8],
        reads_left: u32,
        writes_left: u32,
    ) -> Mem<Peer> {
        let seen = Seen {
            fault: AtomicBool::new(false),
            written: AtomicU64::new(0),
            leaves: AtomicBool::new(false),
            waits: AtomicU64::new(0),
        };
        Ok(Peer {
            says,
            search: Search {
                wanted,
                left: wanted,
            },
            reads_left,
            writes_left,
            seen: Arc::new(alloc, seen)?,
        })
    }

    /// Looks for its text in what is written.
    fn see(&mut self, written: &[u8]) {
        for byte in written {
            self.search.look(*byte);
        }
        if self.search.left.is_empty() {
            self.seen.leaves.store(true, Ordering::SeqCst);
        }
    }
}

impl AsyncRead for Peer {
    ghost reads = { λ _ _ _. ⊤ };

    ghost is_at_end = { λ _. ⊤ };

    ghost reads_nothing = { λ _. tt };

    ghost reads_in_order = { λ _ _ _ _ _ _ _. tt };

    fn poll_read(&mut self, cx: &mut Context<'_>, buf: &mut [u8]) -> Poll<io::Result<usize>> {
        if self.says.is_empty() {
            if self.seen.leaves.load(Ordering::SeqCst) {
                return Poll::Ready(Ok(0));
            }
            self.seen.waits.fetch_add(1, Ordering::SeqCst);
            return cx.yield_now();
        }
        if self.reads_left == 0 {
            self.seen.fault.store(true, Ordering::SeqCst);
            return Poll::Ready(Err(io::ErrorKind::ConnectionReset.into()));
        }
        self.reads_left -= 1;
        let count = self.says.len().min(buf.len()).min(PIECE);
        buf[..count].copy_from_slice(&self.says[..count]);
        self.says = &self.says[count..];
        Poll::Ready(Ok(count))
    }
}

impl AsyncWrite for Peer {
    ghost writes = { λ _ _ _. ⊤ };

    ghost writes_nothing = { λ _. tt };

    ghost writes_in_order = { λ _ _ _ _ _ _ _. tt };

    fn poll_write(&mut self, _cx: &mut Context<'_>, buf: &[u8]) -> Poll<io::Result<usize>> {
        if self.writes_left == 0 {
            self.seen.fault.store(true, Ordering::SeqCst);
            return Poll::Ready(Err(io::ErrorKind::BrokenPipe.into()));
        }
        self.writes_left -= 1;
        let count = buf.len().min(PIECE);
        self.seen.written.fetch_add(count as u64, Ordering::SeqCst);
        self.see(&buf[..count]);
        Poll::Ready(Ok(count))
    }

    fn poll_flush(&mut self, _cx: &mut Context<'_>) -> Poll<io::Result<()>> {
        Poll::Ready(Ok(()))
    }

    fn poll_shutdown(&mut self, _cx: &mut Context<'_>) -> Poll<io::Result<()>> {
        Poll::Ready(Ok(()))
    }
}
