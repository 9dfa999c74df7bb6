//! The threads that serve tenants: what each works with, and what it does.
ghost use Rattle.std.specs.Prelude.{◌≡◌};

use crate::caller::Caller;
use crate::catch_up::catch_up;
use crate::clock::keep_time;
use crate::pump::pump;
use crate::shared::Shared;
use crate::worker::work;
use std::alloc::Global;
use std::rt::Clock;
use std::sync::{Arc, Wait};
use tenant_calls::TenantCalls;

/// What a thread serves tenants with: its way to them, and what all threads share.
pub struct ServingThread<R: Wait + Drop, C: TenantCalls> {
    pub(crate) rt: R,
    /// Which of the threads it is.
    pub(crate) place: usize,
    pub(crate) caller: Caller<R, C>,
    pub(crate) shared: Arc<Shared<R, C::Key>>,
}

impl<R: Wait + Drop, C: TenantCalls> Drop for ServingThread<R, C> {
    fn drop(self) {
        let ServingThread {
            rt: _,
            place: _,
            caller: _,
            shared: _,
        } = self;
    }
}

impl<R: Wait + Clock + Copy + Drop, C: TenantCalls> ServingThread<R, C> {
    /// That of the thread at a place, from 0 on. It makes no call.
    pub fn new(rt: R, place: usize, calls: C, shared: Arc<Shared<R, C::Key>>) -> ServingThread<R, C>
        ensures { result.caller.calls ≡ calls }
    {
        ServingThread {
            rt,
            place,
            caller: Caller::new(rt, calls),
            shared,
        }
    }

    /// It moves.
    pub(crate) fn beat(&self) {
        self.shared.beats.beat(&self.rt, self.place);
    }

    /// Frees the slots of watches that ended after the pump did.
    pub fn free_slots(&mut self) {
        let ServingThread {
            rt,
            place: _,
            caller,
            shared,
        } = self;
        shared.free_slots(rt, caller);
    }

    pub fn into_calls(self) -> C
        ensures { result ≡ self.caller.calls }
    {
        let ServingThread {
            rt: _,
            place: _,
            caller,
            shared: _,
        } = self;
        caller.into_calls()
    }
}

/// What a thread does that reads no connections.
#[derive(Clone, Copy, Drop)]
pub enum Service {
    Clock,
    Pump,
    CatchUp,
    Work,
}

impl Service {
    /// The service of the thread at a place: the first three have one each beside the workers.
    pub fn at(place: usize) -> Service {
        match place {
            0 => Service::Clock,
            1 => Service::Pump,
            2 => Service::CatchUp,
            _ => Service::Work,
        }
    }

    /// Serves tenants until there are no more turns.
    pub fn run<R, C>(self, alloc: Global, thread: &mut ServingThread<R, C>)
    where
        R: Wait + Clock + Copy + Drop,
        C: TenantCalls,
    {
        match self {
            Service::Clock => keep_time(thread),
            Service::Pump => pump(thread),
            Service::CatchUp => catch_up(thread),
            Service::Work => work(alloc, thread),
        }
    }
}
