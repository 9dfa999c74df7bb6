//! All open connections, for whoever accepts them.
use crate::bounds::{Losses, TenantBounds};
use crate::counts::Counts;
use crate::entry::Entry;
use crate::requests::{OpenConnection, millis_since};
use etcd_types::Mem;
use std::alloc::Global;
use std::os::fd::RawFd;
use std::rt::Clock;
use std::sync::Arc;
use std::time::Instant;

/// How many entries are kept before those of closed connections are looked for.
const FEW: usize = 64;

/// The open connections of a server.
pub struct ConnectionTable<R> {
    rt: R,
    alloc: Global,
    start: Instant,
    /// How many may be open.
    most: usize,
    counts: Arc<Counts>,
    /// Those that are open, and some that have closed.
    entries: Vec<Arc<Entry>>,
}

impl<R: Drop> Drop for ConnectionTable<R> {
    fn drop(self) {
        let ConnectionTable {
            rt: _,
            alloc: _,
            start: _,
            most: _,
            counts: _,
            entries: _,
        } = self;
    }
}

impl<R: Clock + Drop> ConnectionTable<R> {
    /// No connection is open; so many may be, and of each tenant as many as is told, in the order of their numbers.
    pub fn new(
        rt: R,
        alloc: Global,
        start: Instant,
        most: usize,
        most_of_tenants: Vec<usize>,
    ) -> Mem<ConnectionTable<R>> {
        let counts = Counts::new(alloc, most_of_tenants)?;
        Ok(ConnectionTable {
            rt,
            alloc,
            start,
            most,
            counts: Arc::new(alloc, counts)?,
            entries: Vec::new(alloc),
        })
    }

    /// What each tenant has and may have, for another thread.
    pub fn bounds(&self) -> Mem<TenantBounds> {
        Ok(TenantBounds {
            counts: Arc::try_clone(&self.counts)?,
        })
    }

    /// Where it is told that a connection was lost.
    pub fn losses(&self) -> Mem<Losses> {
        Ok(Losses {
            counts: Arc::try_clone(&self.counts)?,
        })
    }

    /// Takes a connection in, for which another one may have to end. None where the table is full and no connection is
    /// idle, or where there is no memory: then it is to be closed.
    pub fn admit(&mut self, socket: RawFd) -> Option<OpenConnection> {
        if self.counts.open() >= self.most && !self.end_longest_idle() {
            self.counts.refuse();
            return None;
        }
        self.forget_closed();
        let open = self.take_in(socket);
        if open.is_none() {
            self.counts.lose();
        }
        open
    }

    /// Takes a connection in for which there is a place; none where there is no memory.
    fn take_in(&mut self, socket: RawFd) -> Option<OpenConnection> {
        let now = millis_since(&self.rt, &self.start);
        let entry = Arc::new(self.alloc, Entry::new(socket, now)).ok()?;
        let counts = Arc::try_clone(&self.counts).ok()?;
        self.entries.push(Arc::try_clone(&entry).ok()?).ok()?;
        counts.enter();
        Some(OpenConnection { entry, counts })
    }

    /// Ends the connection that is idle for longest, of a tenant that is there no more or else of the owner that has most,
    /// among those with an idle one; `false` where none is idle.
    fn end_longest_idle(&self) -> bool {
        let mut longest: Option<Idle<'_>> = None;
        for entry in self.entries.as_slice() {
            let Some(idle) = self.idle(entry) else {
                continue;
            };
            let goes_first = match &longest {
                Some(other) => idle.goes_before(other),
                None => true,
            };
            if goes_first {
                longest = Some(idle);
            }
        }
        match longest {
            Some(idle) => {
                idle.entry.end();
                self.counts.end_one();
                true
            }
            None => false,
        }
    }

    /// Ends the connections that are idle and whose answers were sent, and tells how many are left open.
    pub fn end_idle(&self) -> usize {
        for entry in self.entries.as_slice() {
            if entry.is_answered() {
                entry.end();
            }
        }
        self.counts.open()
    }

    /// How many are open.
    pub fn open(&self) -> usize {
        self.counts.open()
    }

    /// Ends all connections.
    pub fn end_all(&self) {
        for entry in self.entries.as_slice() {
            entry.end();
        }
    }

    fn idle<'a>(&self, entry: &'a Arc<Entry>) -> Option<Idle<'a>> {
        let since = entry.idle_since()?;
        Some(Idle {
            entry,
            // Nothing bounds those of a tenant that is there no more, so they go first.
            beside: self.counts.of_owner(entry.owner()).unwrap_or(usize::MAX),
            since,
        })
    }

    /// Lets go of closed connections, once they may be half of all that are kept.
    fn forget_closed(&mut self) {
        let few = self.counts.open().saturating_mul(2).max(FEW);
        if self.entries.len() < few {
            return;
        }
        let mut at = self.entries.len();
        for _ in 0..self.entries.len() {
            at = at.saturating_sub(1);
            if let Some(entry) = self.entries.get(at)
                && entry.is_closed()
            {
                let _ = self.entries.swap_remove(at);
            }
        }
    }
}

/// A connection that is idle.
#[derive(Clone, Copy)]
struct Idle<'a> {
    entry: &'a Arc<Entry>,
    /// How many connections its owner has.
    beside: usize,
    since: u64,
}

impl Idle<'_> {
    fn goes_before(&self, other: &Idle<'_>) -> bool {
        self.beside > other.beside || (self.beside == other.beside && self.since < other.since)
    }
}
