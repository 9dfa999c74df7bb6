//! The number of a cell, or none, in four bytes.
ghost use Rattle.std.specs.Prelude.{◌≡◌, Some, None};

use etcd_types::CellNo;
use std::marker::Model;

/// The number of a cell, or none: an `Option<CellNo>` that takes four bytes.
#[derive(Clone, Copy)]
pub struct Link {
    number: u32,
}

const NONE: u32 = 0;

impl Model for Link {
    ghost use Rattle.std.specs.Prelude.{ℕ, Option, ◌≤◌, ◌^◌};
    ghost use Rattle.cell_arena.specs.Link.{cell_before, number_after, number_again};

    ghost Value = { Option ℕ };

    ghost view = { λ l. cell_before l.number };

    ghost invariant = { λ l. l.number ≤ 2 ^ 20 };

    ghost inverse = { λ o. record { number = number_after o } };

    ghost inverse_ok = { λ l i j. record { number = number_again l.number j } };
}

impl Link {
    /// No cell.
    pub fn none() -> Link
        ensures { result ≡ None }
    {
        Link { number: NONE }
    }

    /// This cell.
    pub fn to(cell: CellNo) -> Link
        ensures { result ≡ Some cell }
    {
        Link {
            number: cell.number() + 1,
        }
    }

    /// This cell, or none.
    pub fn of(cell: Option<CellNo>) -> Link
        ensures { result ≡ cell }
    {
        match cell {
            None => Link::none(),
            Some(cell) => Link::to(cell),
        }
    }

    /// The cell.
    pub fn cell(self) -> Option<CellNo>
        ensures { result ≡ self }
    {
        if self.number == NONE {
            return None;
        }
        let number = self.number - 1;
        Some(CellNo::at(number / 64, number % 64))
    }
}
