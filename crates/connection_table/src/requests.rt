//! A connection and its requests, for whoever serves it.
use crate::counts::Counts;
use crate::entry::Entry;
use std::rt::Clock;
use std::sync::Arc;
use std::time::Instant;

/// An open connection. It is let go before its socket is.
pub struct OpenConnection {
    pub(crate) entry: Arc<Entry>,
    pub(crate) counts: Arc<Counts>,
}

impl OpenConnection {
    /// Where its requests are told, on the clock of the table; none where there is no memory.
    pub fn requests<R: Clock + Copy + Drop>(&self, rt: R, start: Instant) -> Option<Requests<R>> {
        Some(Requests {
            rt,
            start,
            entry: Arc::try_clone(&self.entry).ok()?,
            counts: Arc::try_clone(&self.counts).ok()?,
        })
    }

    /// Where it is told what of its answers was sent; none where there is no memory.
    pub fn answers(&self) -> Option<Answers> {
        Some(Answers {
            entry: Arc::try_clone(&self.entry).ok()?,
        })
    }
}

impl Drop for OpenConnection {
    fn drop(self) {
        let OpenConnection { entry, counts } = self;
        entry.close();
        counts.leave(entry.owner());
    }
}

/// The answers of a connection.
pub struct Answers {
    entry: Arc<Entry>,
}

impl Answers {
    /// All that was written so far is with the system.
    pub fn are_sent(&self) {
        self.entry.set_sent();
    }
}

impl Drop for Answers {
    fn drop(self) {
        let Answers { entry: _ } = self;
    }
}

/// The requests of a connection.
pub struct Requests<R> {
    rt: R,
    start: Instant,
    entry: Arc<Entry>,
    counts: Arc<Counts>,
}

impl<R: Drop> Drop for Requests<R> {
    fn drop(self) {
        let Requests {
            rt: _,
            start: _,
            entry: _,
            counts: _,
        } = self;
    }
}

impl<R: Clock + Copy + Drop> Requests<R> {
    /// A request for a tenant begins, whose the connection is from then on. None where the tenant has as many
    /// connections as it may.
    pub fn begin(&self, tenant: u64) -> Option<UnderWay<R>> {
        let owner = self.entry.owner();
        if owner != tenant {
            if !self.counts.move_over(owner, tenant) {
                return None;
            }
            self.entry.set_owner(tenant);
        }
        let under_way = UnderWay {
            rt: self.rt,
            start: self.start,
            entry: Arc::try_clone(&self.entry).ok()?,
        };
        self.entry.begin_request();
        Some(under_way)
    }
}

/// A request that is under way. Its connection is idle once it is let go.
pub struct UnderWay<R: Clock + Drop> {
    rt: R,
    start: Instant,
    entry: Arc<Entry>,
}

impl<R: Clock + Drop> Drop for UnderWay<R> {
    fn drop(self) {
        let UnderWay { rt, start, entry } = self;
        entry.set_idle(millis_since(&rt, &start));
    }
}

/// The milliseconds that have passed since a moment; none where the clock can't be read.
pub(crate) fn millis_since(rt: &impl Clock, start: &Instant) -> u64 {
    match start.elapsed(rt) {
        Ok(passed) => u64::try_from(passed.as_millis()).unwrap_or(u64::MAX),
        Err(_) => 0,
    }
}
