//! A connection as the table knows it.
use crate::counts::NOBODY;
use futures::spin::lock;
use libc::net as c;
use std::os::fd::RawFd;
use std::sync::Mutex;
use std::sync::atomic::{AtomicBool, AtomicU64, Ordering};

/// A connection, for whoever accepts and whoever serves.
#[derive(Drop)]
pub(crate) struct Entry {
    /// Its socket, until it is closed: another connection may have the number then.
    socket: Mutex<Option<RawFd>>,
    is_open: AtomicBool,
    owner: AtomicU64,
    /// A request is under way, or the connection was told to end.
    is_busy: AtomicBool,
    /// Something of its answers is not with the system yet.
    is_unsent: AtomicBool,
    /// The millisecond since which it is idle, if it is.
    idle_since: AtomicU64,
}

impl Entry {
    /// A connection that has made no request, from a millisecond on.
    pub(crate) fn new(socket: RawFd, now: u64) -> Entry {
        Entry {
            socket: Mutex::new(Some(socket)),
            is_open: AtomicBool::new(true),
            owner: AtomicU64::new(NOBODY),
            is_busy: AtomicBool::new(false),
            is_unsent: AtomicBool::new(false),
            idle_since: AtomicU64::new(now),
        }
    }

    pub(crate) fn owner(&self) -> u64 {
        self.owner.load(Ordering::SeqCst)
    }

    pub(crate) fn set_owner(&self, owner: u64) {
        self.owner.store(owner, Ordering::SeqCst);
    }

    /// A request is under way, whose answer is to be sent.
    pub(crate) fn begin_request(&self) {
        self.is_unsent.store(true, Ordering::SeqCst);
        self.set_busy();
    }

    fn set_busy(&self) {
        self.is_busy.store(true, Ordering::SeqCst);
    }

    /// All that was written for it is with the system. Of an answer that is under way more comes.
    pub(crate) fn set_sent(&self) {
        if !self.is_busy.load(Ordering::SeqCst) {
            self.is_unsent.store(false, Ordering::SeqCst);
        }
    }

    /// It is idle, and its peer can have all its answers.
    pub(crate) fn is_answered(&self) -> bool {
        self.idle_since().is_some() && !self.is_unsent.load(Ordering::SeqCst)
    }

    pub(crate) fn set_idle(&self, now: u64) {
        self.idle_since.store(now, Ordering::SeqCst);
        self.is_busy.store(false, Ordering::SeqCst);
    }

    /// Since when it is idle; none while a request is under way, and once it is closed.
    pub(crate) fn idle_since(&self) -> Option<u64> {
        if self.is_closed() || self.is_busy.load(Ordering::SeqCst) {
            return None;
        }
        Some(self.idle_since.load(Ordering::SeqCst))
    }

    pub(crate) fn is_closed(&self) -> bool {
        !self.is_open.load(Ordering::SeqCst)
    }

    /// It is about to be closed.
    pub(crate) fn close(&self) {
        self.is_open.store(false, Ordering::SeqCst);
        if let Some(mut socket) = lock(&self.socket) {
            *socket = None;
        }
    }

    /// Has it end: who serves it finds that its peer has gone.
    pub(crate) fn end(&self) {
        self.set_busy();
        if let Some(socket) = lock(&self.socket)
            && let Some(socket) = *socket
        {
            let _ = c::shutdown(socket, c::SHUT_RDWR);
        }
    }
}
