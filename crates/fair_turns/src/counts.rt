//! What is counted of a tenant, for a dashboard.
use crate::answer::Answer;
use crate::answered::AnsweredCalls;
use crate::durations::{Durations, Histogram};
use crossbeam_utils::CachePadded;
use etcd_types::Call;
use std::array;
use std::sync::Wait;
use std::sync::atomic::{AtomicU64, Ordering};

/// How many parts there are of what each call reads or counts. Each event loop has one of its own, and all other threads
/// the last: so loops that serve one tenant don't disturb each other.
pub const PARTS: usize = 8;

/// The calls of a tenant's clients, what they brought and took, and how long they waited and were served.
pub struct TenantCounts {
    parts: [CachePadded<PartCounts>; PARTS],
}

impl Drop for TenantCounts {
    fn drop(self) {
        let TenantCounts { parts: _ } = self;
    }
}

impl TenantCounts {
    /// Nothing was counted.
    pub fn new() -> TenantCounts {
        TenantCounts {
            parts: array::from_fn(|_| CachePadded::new(PartCounts::new())),
        }
    }

    /// Where the threads of a part count.
    pub fn part(&self, part: usize) -> &PartCounts {
        &self.parts[part % PARTS]
    }

    /// How many calls were answered with a status.
    pub fn answered(&self, call: Call, status: u16) -> u64 {
        let mut sum = 0u64;
        for part in self.parts.iter() {
            sum = sum.saturating_add(part.answered.of(call, status));
        }
        sum
    }

    /// How many calls were refused under a number.
    pub fn refused(&self, number: u8) -> u64 {
        let mut sum = 0u64;
        for part in self.parts.iter() {
            sum = sum.saturating_add(part.answered.refused(number));
        }
        sum
    }

    /// How many bytes the bodies had of calls that were answered.
    pub fn bytes_in(&self) -> u64 {
        let mut sum = 0u64;
        for part in self.parts.iter() {
            sum = sum.saturating_add(part.bytes_in.load(Ordering::Relaxed));
        }
        sum
    }

    /// How many bytes the texts had that were made.
    pub fn bytes_out(&self) -> u64 {
        let mut sum = 0u64;
        for part in self.parts.iter() {
            sum = sum.saturating_add(part.bytes_out.load(Ordering::Relaxed));
        }
        sum
    }

    /// How long calls waited in the tenant's queue.
    pub fn waits(&self) -> Histogram {
        let mut waits = Histogram::new();
        for part in self.parts.iter() {
            waits.add(&part.waits);
        }
        waits
    }

    /// How long turns took in which calls were served.
    pub fn turns(&self) -> Histogram {
        let mut turns = Histogram::new();
        for part in self.parts.iter() {
            turns.add(&part.turns);
        }
        turns
    }
}

/// What is counted in one part.
pub struct PartCounts {
    answered: AnsweredCalls,
    bytes_in: AtomicU64,
    bytes_out: AtomicU64,
    waits: Durations,
    turns: Durations,
}

impl Drop for PartCounts {
    fn drop(self) {
        let PartCounts {
            answered: _,
            bytes_in: _,
            bytes_out: _,
            waits: _,
            turns: _,
        } = self;
    }
}

impl PartCounts {
    fn new() -> PartCounts {
        PartCounts {
            answered: AnsweredCalls::new(),
            bytes_in: AtomicU64::new(0),
            bytes_out: AtomicU64::new(0),
            waits: Durations::new(),
            turns: Durations::new(),
        }
    }

    /// A call with a body of so many bytes was answered.
    pub fn add<R: Wait + Drop>(&self, call: Call, length: usize, answer: &Answer<R>) {
        self.answered.add(call, answer.status(), answer.refusal());
        self.bytes_in.fetch_add(length as u64, Ordering::Relaxed);
        self.add_out(answer.len());
    }

    /// So many bytes of texts were made.
    pub fn add_out(&self, bytes: usize) {
        self.bytes_out.fetch_add(bytes as u64, Ordering::Relaxed);
    }

    /// How long calls waited in the tenant's queue.
    pub fn waits(&self) -> &Durations {
        &self.waits
    }

    /// How long turns took in which calls were served.
    pub fn turns(&self) -> &Durations {
        &self.turns
    }
}
