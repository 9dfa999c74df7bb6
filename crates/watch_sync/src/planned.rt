//! What is planned for a slot.
ghost use Rattle.std.specs.Prelude.{◌≡◌};

use crate::watch::OpenWatch;
use etcd_types::Reply;
use std::alloc::AllocError;
use std::marker::Model;

/// Why no watch is opened.
#[derive(Clone, Copy)]
pub enum WatchFault {
    /// No slot is free: 64 watches are open.
    Full,
    /// A growth was refused.
    Memory,
}

impl From<AllocError> for WatchFault {
    ghost use Rattle.watch_sync.specs.declared.planned.WatchFault.TheVariants.{Memory};

    ghost from_gives = { λ _ fault. fault ≡ Memory };

    fn from(_: AllocError) -> WatchFault {
        WatchFault::Memory
    }
}

/// A watch that is to be opened: the slot that it gets, and its ring, which is made.
#[derive(Drop)]
pub struct NewWatch {
    pub(crate) slot: u8,
    pub(crate) watch: OpenWatch,
}

impl Model for NewWatch {
    ghost use Rattle.watch_sync.specs.Slots.{Opening};

    ghost Value = { Opening };

    ghost view = { λ n. record { slot = n.slot; watch = n.watch } };
}

impl NewWatch {
    /// The slot that the watch gets.
    pub fn slot(&self) -> u8
        ensures { result ≡ self.now.slot }
    {
        self.slot
    }
}

/// What a take makes of the watches.
#[derive(Clone, Copy)]
pub enum Taken {
    Nothing,
    /// The watch of a slot goes.
    Canceled(u8),
    /// The watch of a slot was told of all below a revision, and had its last response at a moment.
    Told { slot: u8, next: u64, last: u64 },
}

/// A take that is decided.
#[derive(Drop)]
pub struct PlannedTake {
    /// What it makes of the watches.
    pub taken: Taken,
    /// What it is answered.
    pub reply: Reply,
}
