//! A tenant's time, as its ticks count it.
ghost use Rattle.std.specs.Prelude.{◌≡◌, ◌+◌, min, Some};
ghost use Rattle.std.specs.Duration.{as_nanos, max_nanos};
ghost use Rattle.tenant_scheduler.specs.OwnSteps.{IsMoment, second_of};
ghost use Rattle.tenant_scheduler.specs.ServerTime.{counted, latest};

use super::run_time::RunTime;
use super::server_clock::ServerMoment;

/// A second of a tenant's time, for one tick.
#[derive(Drop)]
pub(crate) struct Moment {
    tenant: u64,
    seconds: u64,
}

impl Moment {
    /// The number of the tenant.
    pub(crate) fn tenant(&self) -> u64
        ensures { result ≡ self.now.tenant }
    {
        self.tenant
    }

    pub(crate) fn seconds(&self) -> u64
        ensures { result ≡ self.now.seconds }
    {
        self.seconds
    }
}

/// The time of one tenant.
#[derive(Drop)]
pub(crate) struct Running {
    /// The number of the tenant.
    tenant: u64,
    time: RunTime,
}

impl Running {
    /// That of the tenant of this number begins now.
    pub(crate) fn new(tenant: u64) -> Running
        ensures { result.tenant ≡ tenant }
    {
        Running {
            tenant,
            time: RunTime::new(),
        }
    }

    /// The moment of a tick that comes now, in whole seconds.
    pub(super) fn tick(&mut self, now: ServerMoment) -> Moment
        ensures moment { IsMoment self.new result }
        ensures whose { self.new.tenant ≡ self.old.tenant }
        ensures ran { as_nanos self.new.time.ran ≡ min (as_nanos self.old.time.ran + counted self.old.time.ticked now) max_nanos }
        ensures noted { self.new.time.ticked ≡ Some (latest self.old.time.ticked now) }
    {
        self.time.tick(now);
        Moment {
            tenant: self.tenant,
            seconds: self.seconds(),
        }
    }

    /// The second of the last tick.
    pub(crate) fn seconds(&self) -> u64
        ensures { result ≡ second_of self.now }
    {
        self.time.seconds()
    }
}
