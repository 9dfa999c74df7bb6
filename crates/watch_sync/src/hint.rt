//! Which watches may have something to be told.
ghost use Rattle.std.specs.Prelude.{◌≡◌};
ghost use Rattle.watch_sync.specs.Hints.{is_hinted};

use etcd_types::limits::WATCH_SLOTS;

/// What is told of a slot.
#[derive(Clone, Copy)]
pub(crate) struct SlotHint {
    pub may_tell: bool,
    pub is_far_behind: bool,
}

impl SlotHint {
    /// That of a slot whose take is quiet.
    pub(crate) const QUIET: SlotHint = SlotHint {
        may_tell: false,
        is_far_behind: false,
    };
}

/// The slots worth a take. A take of any other is quiet: its watch has no notes, is not behind, is not to be
/// cancelled and is not due to be told that there is no event. Of a slot that is here a take may be quiet too.
#[derive(Clone, Copy)]
pub struct Hint {
    pub(crate) slots: [SlotHint; WATCH_SLOTS],
}

impl Hint {
    /// Whether the take of a slot may not be quiet.
    pub fn has(&self, slot: u8) -> bool
        ensures { result ≡ is_hinted self.now slot }
    {
        match self.slots.get(slot as usize) {
            Some(hint) => hint.may_tell,
            None => false,
        }
    }

    /// Whether the take of a slot would look at many changes, over which catch-ups bring its watch in small steps. It
    /// promises nothing.
    pub fn is_far_behind(&self, slot: u8) -> bool {
        match self.slots.get(slot as usize) {
            Some(hint) => hint.is_far_behind,
            None => false,
        }
    }
}
