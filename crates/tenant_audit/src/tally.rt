//! A seat's list of its calls on one tenant.
ghost use Rattle.std.specs.Prelude.{◌≡◌, ◌+◌, ◌-◌, ◌^◌, ◌++◌, ◌∷◌, [], length, min, OnOk};
ghost use Rattle.tenant_audit.specs.Seats.{HasRoom};

use etcd_types::{Mem, Reply, Step};
use std::alloc::{AllocError, Global};
use std::marker::Model;

/// A call that has a turn: its place in the audit, what was asked, and what was answered.
pub struct MadeCall {
    pub turn: u32,
    pub step: Step,
    pub reply: Reply,
}

impl Drop for MadeCall {
    fn drop(self) {
        let MadeCall {
            turn: _,
            step: _,
            reply: _,
        } = self;
    }
}

/// The calls on one tenant that have a turn, in order, and how many have none.
#[derive(Drop)]
pub(crate) struct Tally {
    calls: Vec<MadeCall>,
    missed: u64,
}

impl Model for Tally {
    ghost use Rattle.std.specs.Prelude.{◌-◌, ◌<◌, ◌^◌, vec_len, vec_capacity};
    ghost use Rattle.tenant_audit.specs.Seats.{TallyState};

    ghost Value = { TallyState };

    ghost view = { λ y. record {
      calls = y.calls.items;
      missed = y.missed;
      room = vec_capacity y.calls - vec_len y.calls;
    } };

    ghost invariant = { λ y. vec_len y.calls < 2 ^ 32 };
}

impl Tally {
    /// No calls.
    pub(crate) fn new(alloc: Global) -> Tally
        ensures calls { result.calls ≡ [] }
        ensures missed { result.missed ≡ 0 }
    {
        Tally {
            calls: Vec::new(alloc),
            missed: 0,
        }
    }

    /// The calls that have a turn.
    pub(crate) fn calls(&self) -> &[MadeCall]
        ensures { result.now ≡ self.now.calls }
    {
        self.calls.as_slice()
    }

    /// How many calls have a turn.
    pub(crate) fn made(&self) -> u32
        ensures { result ≡ length self.now.calls }
    {
        self.calls.len() as u32
    }

    /// How many have none, up to 2^64 - 1.
    pub(crate) fn missed(&self) -> u64
        ensures { result ≡ self.now.missed }
    {
        self.missed
    }

    /// Makes room for one more call. There is none for 2^32 of them.
    pub(crate) fn make_room(&mut self) -> Mem<()>
        ensures calls { self.new.calls ≡ self.old.calls }
        ensures missed { self.new.missed ≡ self.old.missed }
        ensures room { OnOk result (HasRoom self.new) }
    {
        if self.calls.len() >= u32::MAX as usize {
            return Err(AllocError);
        }
        self.calls.reserve(1)
    }

    /// Appends a call that has a turn.
    pub(crate) fn record(&mut self, call: MadeCall)
        requires { HasRoom self.old }
        ensures calls { self.new.calls ≡ self.old.calls ++ call ∷ [] }
        ensures missed { self.new.missed ≡ self.old.missed }
    {
        self.calls.push_reserved(call);
    }

    /// Counts a call that has no turn.
    pub(crate) fn miss(&mut self)
        ensures calls { self.new.calls ≡ self.old.calls }
        ensures missed { self.new.missed ≡ min (self.old.missed + 1) (2 ^ 64 - 1) }
    {
        self.missed = self.missed.saturating_add(1);
    }
}
