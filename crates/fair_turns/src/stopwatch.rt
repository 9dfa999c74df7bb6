//! How long a turn has taken.
use std::rt::Clock;
use std::time::{Duration, Instant};

/// The time since a turn began. Where the clock can't be read, none seems to pass.
#[derive(Clone, Copy, Drop)]
pub struct Stopwatch {
    begun: Option<Instant>,
}

impl Stopwatch {
    pub fn start(rt: &impl Clock) -> Stopwatch {
        Stopwatch {
            begun: Instant::now(rt).ok(),
        }
    }

    /// How long it is since then.
    pub fn passed(&self, rt: &impl Clock) -> Duration {
        match &self.begun {
            Some(begun) => begun.elapsed(rt).unwrap_or(Duration::ZERO),
            None => Duration::ZERO,
        }
    }

    /// So many milliseconds have passed.
    pub fn is_past(&self, rt: &impl Clock, millis: u64) -> bool {
        self.passed(rt) >= Duration::from_millis(millis)
    }
}
