//! Whether a server accepts connections, and how it is told to end.
use libc::net as c;
use std::net::TcpListener;
use std::os::fd::AsRawFd;
use std::sync::Arc;
use std::sync::atomic::{AtomicBool, Ordering};

/// Whether connections are accepted, and tells whoever accepts them that no more are to come.
pub struct Stopping {
    has_begun: AtomicBool,
    has_ended: AtomicBool,
    is_told: AtomicBool,
    /// It is kept open, so that its descriptor names no other socket.
    listener: Arc<TcpListener>,
}

impl Drop for Stopping {
    fn drop(self) {
        let Stopping {
            has_begun: _,
            has_ended: _,
            is_told: _,
            listener: _,
        } = self;
    }
}

impl Stopping {
    /// Of a server that accepts no connections of a listener yet.
    pub fn new(listener: Arc<TcpListener>) -> Stopping {
        Stopping {
            has_begun: AtomicBool::new(false),
            has_ended: AtomicBool::new(false),
            is_told: AtomicBool::new(false),
            listener,
        }
    }

    /// The first connection is accepted from now on.
    pub fn begin(&self) {
        self.has_begun.store(true, Ordering::SeqCst);
    }

    /// Connections are accepted, or were.
    pub fn has_begun(&self) -> bool {
        self.has_begun.load(Ordering::SeqCst)
    }

    /// The last connection was accepted: as many have come as were asked for.
    pub fn end(&self) {
        self.has_ended.store(true, Ordering::SeqCst);
    }

    /// No more connections are accepted: the last one was, or the server was told to end.
    pub fn has_ended(&self) -> bool {
        self.has_ended.load(Ordering::SeqCst) || self.is_told()
    }

    /// The server was told to end.
    pub fn is_told(&self) -> bool {
        self.is_told.load(Ordering::SeqCst)
    }

    /// The listener accepts no more, and whoever waits there is woken.
    pub fn tell(&self) {
        self.is_told.store(true, Ordering::SeqCst);
        let _ = c::shutdown(self.listener.as_raw_fd(), c::SHUT_RDWR);
    }
}
