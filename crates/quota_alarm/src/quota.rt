//! The space of one tenant.
ghost use Rattle.std.specs.Prelude.{◌≡◌, true, false, nat_le};

/// The cells that a tenant may use and those that it uses, and whether the alarm for want of space
/// is on.
#[derive(Clone, Copy, Debug, PartialEq, Eq)]
pub struct Quota {
    /// The cells that may be in use. It can be fewer than are.
    pub cells: u32,
    /// The cells in use: those of the kept records, room for a delete of each live key, and one a
    /// lease.
    pub used: u64,
    alarm: bool,
}

impl Quota {
    /// So many cells, none of them in use, and no alarm.
    pub fn new(cells: u32) -> Quota
        ensures { result ≡ record { cells = cells; used = 0; alarm = false } }
    {
        Quota {
            cells,
            used: 0,
            alarm: false,
        }
    }

    /// Whether so many cells may be in use.
    pub fn admit(&self, after: u64) -> bool
        ensures { result ≡ nat_le after self.now.cells }
    {
        after <= u64::from(self.cells)
    }

    /// Whether the alarm is on. It stays so until it is cleared, whatever space there is.
    pub fn alarm(&self) -> bool
        ensures { result ≡ self.now.alarm }
    {
        self.alarm
    }

    /// Turns the alarm on.
    pub fn raise(&mut self)
        ensures { self.new ≡ record self.old { alarm = true } }
    {
        self.alarm = true;
    }

    /// Turns the alarm off.
    pub fn clear(&mut self)
        ensures { self.new ≡ record self.old { alarm = false } }
    {
        self.alarm = false;
    }
}
