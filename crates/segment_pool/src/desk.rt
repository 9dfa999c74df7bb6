//! The pool, lent with one ticket.
ghost use Rattle.std.specs.Prelude.{◌+◌, ◌-◌, ◌≤◌, ◌∷◌};

use crate::pool::{Pool, Ticket};
use cell_arena::{Segment, Segments};

/// A pool with the ticket that is served. The ticket of another tenant is swapped in, and out again.
#[derive(Drop)]
pub struct Desk {
    pub pool: Pool,
    pub ticket: Ticket,
    ghost promised: { ticket.reserved ≤ pool.promised + ticket.drawn },
    ghost out: { ticket.drawn ≤ pool.out },
}

impl Segments for Desk {
    ghost loan = { λ d. record {
      left = d.ticket.reserved - d.ticket.drawn;
      room = d.ticket.drawn;
      numbers = d.pool.numbers;
      others = d.ticket.number ∷ d.ticket.reserved ∷ (d.pool.promised + d.ticket.drawn)
          ∷ (d.pool.free + d.ticket.drawn) ∷ (d.pool.out - d.ticket.drawn) ∷ d.pool.reservations;
    } };

    fn left(&self) -> u32 {
        self.ticket.reserved() - self.ticket.drawn()
    }

    fn room(&self) -> u32 {
        self.ticket.drawn()
    }

    fn draw(&mut self) -> Segment {
        self.pool.draw(&mut self.ticket)
    }

    fn give_back(&mut self, segment: Segment) {
        self.pool.give_back(&mut self.ticket, segment);
    }
}
