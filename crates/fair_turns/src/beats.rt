//! Whether the threads that serve tenants have moved lately.
use crossbeam_utils::CachePadded;
use etcd_types::Mem;
use std::alloc::Global;
use std::rt::Clock;
use std::sync::atomic::{AtomicU64, Ordering};
use std::time::Instant;

/// The second in which each thread has moved last, from the server's start on.
pub struct Beats {
    /// None where the clock can't be read.
    start: Option<Instant>,
    threads: Vec<CachePadded<AtomicU64>>,
}

impl Drop for Beats {
    fn drop(self) {
        let Beats {
            start: _,
            threads: _,
        } = self;
    }
}

impl Beats {
    /// Those of so many threads, which move now.
    pub fn new(rt: &impl Clock, alloc: Global, threads: usize) -> Mem<Beats> {
        let mut beats = Vec::with_capacity(alloc, threads)?;
        for _ in 0..threads {
            beats.push(CachePadded::new(AtomicU64::new(0)))?;
        }
        Ok(Beats {
            start: Instant::now(rt).ok(),
            threads: beats,
        })
    }

    fn second(&self, rt: &impl Clock) -> u64 {
        match &self.start {
            Some(start) => start.elapsed(rt).map_or(0, |passed| passed.as_secs()),
            None => 0,
        }
    }

    /// A thread moves.
    pub fn beat(&self, rt: &impl Clock, thread: usize) {
        if let Some(beat) = self.threads.get(thread) {
            beat.store(self.second(rt), Ordering::Relaxed);
        }
    }

    /// Each thread has moved within so many seconds.
    pub fn are_within(&self, rt: &impl Clock, seconds: u64) -> bool {
        let now = self.second(rt);
        for beat in self.threads.as_slice() {
            if now.saturating_sub(beat.load(Ordering::Relaxed)) > seconds {
                return false;
            }
        }
        true
    }
}
