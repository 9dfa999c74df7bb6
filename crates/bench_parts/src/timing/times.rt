//! What was measured.
ghost use Rattle.std.specs.Prelude.{◌≡◌, ◌*◌, ◌/◌, min, max};

/// Nanoseconds of processor time a turn, in each way.
#[derive(Clone, Copy)]
pub(crate) struct Times {
    pub(crate) ours: u64,
    pub(crate) other: u64,
}

impl Times {
    /// How many hundredths of our time the other way takes. A time of 0 counts as 1.
    pub(crate) fn ratio(self) -> u64
        ensures { result ≡ min (self.other * 100) u64.MAX / max self.ours 1 }
    {
        self.other.saturating_mul(100) / self.ours.max(1)
    }
}
