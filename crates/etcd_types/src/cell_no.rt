//! The numbers of cells.
ghost use Rattle.std.specs.Prelude.{◌≡◌, ◌+◌, ◌*◌, ◌/◌, ◌%◌, ◌<◌, ◌^◌};

use std::marker::Model;

/// A cell's number in its region: the bay of its segment times 64, and its place there.
#[derive(Clone, Copy, PartialEq, Eq)]
pub struct CellNo {
    number: u32,
}

impl Model for CellNo {
    ghost use Rattle.std.specs.Prelude.{ℕ, ◌<◌, ◌^◌};

    ghost Value = { ℕ };

    ghost view = { λ c. c.number };

    ghost invariant = { λ c. c.number < 2 ^ 20 };

    ghost inverse = { λ n. record { number = n } };
}

impl CellNo {
    /// The cell at a place of 64 in the segment of a bay.
    pub fn at(bay: u32, place: u32) -> CellNo
        requires bay { bay < 2 ^ 14 }
        requires place { place < 64 }
        ensures { result ≡ bay * 64 + place }
    {
        CellNo {
            number: bay * 64 + place,
        }
    }

    /// The number, below 2^20.
    pub fn number(self) -> u32
        ensures number { result ≡ self }
        ensures small { result < 2 ^ 20 }
    {
        self.number
    }

    /// The bay of the cell's segment.
    pub fn bay(self) -> u32
        ensures { result ≡ self / 64 }
    {
        self.number / 64
    }

    /// The cell's place in its segment.
    pub fn place(self) -> u32
        ensures { result ≡ self % 64 }
    {
        self.number % 64
    }
}
