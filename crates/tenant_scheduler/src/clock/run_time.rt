//! How long a tenant's time has run.
ghost use Rattle.std.specs.Prelude.{◌≡◌, ◌≤◌, ◌+◌, ◌/◌, min, Some};
ghost use Rattle.std.specs.Duration.{as_nanos, max_nanos};
ghost use Rattle.tenant_scheduler.specs.ServerTime.{counted, latest, most_ran};

use super::server_clock::ServerMoment;
use std::time::Duration;

/// How many seconds one tick moves a tenant's moment by, at the most.
const MAX_SECONDS_A_TICK: u64 = 2;

/// How many milliseconds the first tick counts.
///
/// Ticks come a second after each other, but for a fraction of a millisecond, or more on a busy machine. So a tenant's time is
/// always near the middle of a second: near its end the moment would stand still at one tick and skip a second at the next,
/// and leases of two seconds would end at once.
const MILLIS_OF_THE_FIRST_TICK: u64 = 1_500;

/// How long a tenant's time has run, as its ticks count it.
///
/// A tick that comes late counts two seconds at the most. So after a pause of the machine, or behind a long job, the
/// keepalives that wait are served before the next tick could end their leases.
#[derive(Drop)]
pub(super) struct RunTime {
    /// When the last tick came, on the server's clock.
    ticked: Option<ServerMoment>,
    ran: Duration,
    // It runs no faster than the server's clock, but for what the first tick counts.
    ghost behind: { as_nanos ran ≤ most_ran ticked },
}

impl RunTime {
    /// It begins now.
    pub(super) fn new() -> RunTime {
        RunTime {
            ticked: None,
            ran: Duration::from_secs(0),
        }
    }

    /// A tick comes now. Ticks that come often pass no more time than the server's clock, and one of an earlier moment passes
    /// none.
    pub(super) fn tick(&mut self, now: ServerMoment)
        ensures ran { as_nanos self.new.ran ≡ min (as_nanos self.old.ran + counted self.old.ticked now) max_nanos }
        ensures noted { self.new.ticked ≡ Some (latest self.old.ticked now) }
    {
        *self = RunTime {
            ticked: Some(self.latest(now)),
            ran: self.ran.saturating_add(self.passed(now)),
        };
    }

    /// This moment, or the one of the last tick if that was later.
    fn latest(&self, now: ServerMoment) -> ServerMoment
        ensures { result ≡ latest self.now.ticked now }
    {
        match self.ticked {
            Some(ticked) if now.nanos() < ticked.nanos() => ticked,
            _ => now,
        }
    }

    /// How much time a tick at this moment counts.
    fn passed(&self, now: ServerMoment) -> Duration
        ensures { as_nanos result ≡ counted self.now.ticked now }
    {
        let passed = match self.ticked {
            Some(ticked) => now.since_start().saturating_sub(ticked.since_start()),
            None => Duration::from_millis(MILLIS_OF_THE_FIRST_TICK),
        };
        let most = Duration::from_secs(MAX_SECONDS_A_TICK);
        if passed > most { most } else { passed }
    }

    /// The second that it has come to.
    pub(super) fn seconds(&self) -> u64
        ensures { result ≡ as_nanos self.now.ran / 1_000_000_000 }
    {
        self.ran.as_secs()
    }
}
