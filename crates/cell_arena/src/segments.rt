//! What is drawn and given back.
ghost use Rattle.std.specs.Prelude.{◌≡◌, ◌<◌, ◌≤◌, [], vec_capacity, IfOk};
ghost use Rattle.cell_arena.specs.Loan.{Loan, Draws};

use crate::cell::Cell;
use etcd_types::Mem;
use std::alloc::Global;

/// A segment of 64 cells, whatever they hold.
#[derive(Drop)]
pub struct Segment {
    /// Which of its source's segments it is.
    pub number: u32,
    /// In a new segment there is only room for them: memory that nobody wrote to takes no page.
    pub cells: Vec<Cell>,
    ghost room: { 64 ≤ vec_capacity cells },
}

impl Segment {
    /// A segment whose cells were never written.
    pub fn new(alloc: Global, number: u32) -> Mem<Segment>
        ensures number { IfOk result (λ segment. segment.number ≡ number) }
        ensures unwritten { IfOk result (λ segment. segment.cells.items ≡ []) }
        ensures room { IfOk result (λ segment. vec_capacity segment.cells ≡ 64) }
    {
        let cells = Vec::with_capacity(alloc, 64)?;
        Ok(Segment { number, cells })
    }
}

/// Where a region draws its segments, and gives them back.
pub trait Segments {
    /// What it has: how many may still be drawn and given back, of which numbers, and what neither changes.
    ghost loan: { Self → Loan };

    /// How many may still be drawn.
    fn left(&self) -> u32
        ensures { result ≡ (loan self.now).left };

    /// How many may still be given back.
    fn room(&self) -> u32
        ensures { result ≡ (loan self.now).room };

    /// Takes one segment, whatever its cells hold.
    fn draw(&mut self) -> Segment
        requires { 0 < (loan self.old).left }
        ensures { Draws result.number (loan self.old) (loan self.new) };

    /// Gives one segment back, as it is.
    fn give_back(&mut self, segment: Segment)
        requires { 0 < (loan self.old).room }
        ensures { Draws segment.number (loan self.new) (loan self.old) };
}
