//! The server's clock, by which tenants' ticks are counted.
ghost use Rattle.std.specs.Prelude.{◌≡◌};
ghost use Rattle.std.specs.Duration.{as_nanos};

use std::rt::Clock;
use std::time::{Duration, Instant};

/// The server's clock: how long the server runs.
#[derive(Drop)]
pub(super) struct ServerClock {
    start: Instant,
    now: Duration,
}

/// A moment that the server's clock has told. Nothing else tells one.
#[derive(Clone, Copy, Drop)]
pub(super) struct ServerMoment {
    since_start: Duration,
}

impl ServerMoment {
    /// How long the server had run.
    pub(super) fn since_start(self) -> Duration
        ensures { result ≡ self.since_start }
    {
        self.since_start
    }

    /// The same in nanoseconds.
    pub(super) fn nanos(self) -> u128
        ensures { result ≡ as_nanos self.since_start }
    {
        self.since_start.as_nanos()
    }
}

impl ServerClock {
    /// A clock that begins now, if the system tells the time.
    pub(super) fn start<R: Clock>(rt: &R) -> Option<ServerClock> {
        let start = Instant::now(rt).ok()?;
        Some(ServerClock {
            start,
            now: Duration::from_secs(0),
        })
    }

    /// Reads the clock. Where the system tells no time, it stands still.
    pub(super) fn read<R: Clock>(&mut self, rt: &R) -> ServerMoment {
        self.now = self.start.elapsed(rt).unwrap_or(self.now);
        ServerMoment {
            since_start: self.now,
        }
    }

    /// How long it is until a moment, as of the last reading.
    pub(super) fn until(&self, due: Duration) -> Duration {
        due.saturating_sub(self.now)
    }
}
