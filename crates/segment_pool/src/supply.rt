//! New segments.
ghost use Rattle.std.specs.Prelude.{◌≡◌, ◌+◌, ◌<◌, ◌^◌, vec_len, vec_capacity, IfOk, OnErr, OnOk};
ghost use Rattle.cell_arena.specs.Segments.{numbers_of};
ghost use Rattle.segment_pool.specs.Supply.{numbers_from, supplied};

use crate::stock::Stock;
use cell_arena::Segment;
use etcd_types::Mem;
use std::alloc::Global;
use std::marker::Model;

/// Makes segments, each under a number that no other one of the supply has. A contract sees it as how many it made.
#[derive(Drop)]
pub struct Supply {
    made: u32,
}

impl Model for Supply {
    ghost use Rattle.std.specs.Prelude.{ℕ};

    ghost Value = { ℕ };

    ghost view = { λ s. s.made };
}

impl Supply {
    /// A supply that has made none.
    pub fn new() -> Supply
        ensures { result ≡ 0 }
    {
        Supply { made: 0 }
    }

    /// How many segments it made.
    pub fn made(&self) -> u32
        ensures { result ≡ self.now }
    {
        self.made
    }

    /// So many new segments, numbered from the first number that none has. If there is no memory for them, none was made.
    pub fn make(&mut self, alloc: Global, count: u32) -> Mem<Stock>
        requires few { self.old + count < 2 ^ 32 }
        ensures stock { IfOk result (λ stock. stock ≡ supplied self.old count) }
        ensures made { OnOk result (self.new ≡ self.old + count) }
        ensures err { OnErr result (self.new ≡ self.old) }
    {
        let stock = Stock::numbered(alloc, self.made, count)?;
        self.made += count;
        Ok(stock)
    }
}

/// So many new segments, numbered from the first number on, in a vector that is full.
pub(crate) fn new_segments(alloc: Global, first: u32, count: u32) -> Mem<Vec<Segment>>
    requires few { first + count < 2 ^ 32 }
    ensures len { IfOk result (λ segments. vec_len segments ≡ count) }
    ensures capacity { IfOk result (λ segments. vec_capacity segments ≡ count) }
    ensures numbers { IfOk result (λ segments. numbers_of segments.items ≡ numbers_from first count) }
{
    let mut segments = Vec::with_capacity(alloc, count as usize)?;
    'making: for place in 0..count {
        segments.push_reserved(Segment::new(alloc, first + place)?);
    }
    Ok(segments)
}
