//! How long something took, each time: how many times it took no longer than this or that.
use std::array;
use std::sync::atomic::{AtomicU64, Ordering};
use std::time::Duration;

/// The ends of the first parts, in microseconds; the last part has none.
pub const ENDS: [u64; 6] = [10, 100, 1_000, 10_000, 100_000, 1_000_000];

/// As many parts as ends, and one behind them.
const PARTS: usize = 7;

/// Durations, by the part that each lies in.
#[derive(Drop)]
pub struct Durations {
    parts: [AtomicU64; PARTS],
    nanos: AtomicU64,
}

impl Durations {
    /// None.
    pub fn new() -> Durations {
        Durations {
            parts: array::from_fn(|_| AtomicU64::new(0)),
            nanos: AtomicU64::new(0),
        }
    }

    /// One more.
    pub fn add(&self, duration: Duration) {
        let nanos = u64::try_from(duration.as_nanos()).unwrap_or(u64::MAX);
        let place = ENDS.iter().filter(|end| **end * 1_000 < nanos).count();
        if let Some(part) = self.parts.get(place) {
            part.fetch_add(1, Ordering::Relaxed);
        }
        self.nanos.fetch_add(nanos, Ordering::Relaxed);
    }
}

/// Durations of several places together, as they were when they were read.
#[derive(Drop)]
pub struct Histogram {
    parts: [u64; PARTS],
    nanos: u64,
}

impl Histogram {
    /// Of none.
    pub(crate) fn new() -> Histogram {
        Histogram {
            parts: [0; PARTS],
            nanos: 0,
        }
    }

    /// With those too.
    pub(crate) fn add(&mut self, durations: &Durations) {
        for (sum, part) in self.parts.iter_mut().zip(durations.parts.iter()) {
            *sum = sum.saturating_add(part.load(Ordering::Relaxed));
        }
        let nanos = durations.nanos.load(Ordering::Relaxed);
        self.nanos = self.nanos.saturating_add(nanos);
    }

    /// How many lie in the part at this place, behind the last of which there is none.
    pub fn part(&self, place: usize) -> Option<u64> {
        self.parts.get(place).copied()
    }

    /// Their sum in nanoseconds.
    pub fn nanos(&self) -> u64 {
        self.nanos
    }
}
