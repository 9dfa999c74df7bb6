//! Segments that are held, with room for more.
ghost use Rattle.std.specs.Prelude.{◌≡◌, ◌+◌, ◌<◌, ◌≤◌, ◌^◌, ◌∷◌, [], ◌++◌, max, IfOk, IsOk, OnOk, OnErr};
ghost use Rattle.std.specs.List.Sorted.{IsPermutation};
ghost use Rattle.etcd_model.specs.Pool.{new_stock};
ghost use Rattle.segment_pool.specs.Supply.{supplied};

use crate::supply::new_segments;
use cell_arena::{Segment, Segments};
use etcd_types::Mem;
use std::alloc::{AllocError, Global};
use std::marker::Model;

/// The segments that one tenant may draw, or those that none reserved, with room for more.
#[derive(Drop)]
pub struct Stock {
    segments: Vec<Segment>,
}

impl Model for Stock {
    ghost use Rattle.std.specs.Prelude.{◌-◌, ◌<◌, ◌^◌, vec_len, vec_capacity};
    ghost use Rattle.cell_arena.specs.Segments.{numbers_of};
    ghost use Rattle.etcd_model.specs.Pool.{StockState};

    ghost Value = { StockState };

    ghost view = { λ s.
        record {
          held = vec_len s.segments;
          room = vec_capacity s.segments - vec_len s.segments;
          numbers = numbers_of s.segments.items;
        } };

    ghost invariant = { λ s. vec_capacity s.segments < 2 ^ 32 };
}

impl Stock {
    /// A stock of so many new segments, with room for no more. Of none it takes no memory.
    pub fn new(alloc: Global, segments: u32) -> Mem<Stock>
        ensures { IfOk result (λ stock. stock ≡ new_stock segments) }
    {
        Stock::numbered(alloc, 0, segments)
    }

    /// The same, numbered from this number on.
    pub(crate) fn numbered(alloc: Global, first: u32, segments: u32) -> Mem<Stock>
        requires few { first + segments < 2 ^ 32 }
        ensures { IfOk result (λ stock. stock ≡ supplied first segments) }
    {
        let segments = new_segments(alloc, first, segments)?;
        Ok(Stock { segments })
    }

    /// How many segments are held.
    pub fn held(&self) -> u32
        ensures { result ≡ self.now.held }
    {
        self.segments.len() as u32
    }

    /// Makes room for so many more, or finds no memory and changes nothing. More than 2^32 - 1 are
    /// never held.
    pub fn make_room(&mut self, count: u32) -> Mem<()>
        ensures ok { OnOk result (self.new ≡ record self.old { room = max self.old.room count }) }
        ensures err { OnErr result (self.new ≡ self.old) }
        ensures sure { count ≤ self.old.room → IsOk result }
    {
        if u32::MAX - self.held() < count {
            return Err(AllocError);
        }
        self.segments.reserve_exact(count as usize)?;
        Ok(())
    }

    /// Moves held segments to another stock, as they are.
    pub fn move_to(&mut self, to: &mut Stock, count: u32)
        requires held { count ≤ self.old.held }
        requires room { count ≤ to.old.room }
        ensures from_held { self.new.held + count ≡ self.old.held }
        ensures from_room { self.new.room ≡ self.old.room + count }
        ensures to_held { to.new.held ≡ to.old.held + count }
        ensures to_room { to.new.room + count ≡ to.old.room }
        ensures numbers { IsPermutation (self.old.numbers ++ to.old.numbers)
            (self.new.numbers ++ to.new.numbers) }
    {
        'moving: for _i in 0..count {
            let segment = self.draw();
            to.give_back(segment);
        }
    }
}

impl Segments for Stock {
    ghost loan = { λ s. record {
      left = s.held;
      room = s.room;
      numbers = s.numbers;
      others = (s.held + s.room) ∷ [];
    } };

    fn left(&self) -> u32 {
        self.held()
    }

    fn room(&self) -> u32 {
        (self.segments.capacity() - self.segments.len()) as u32
    }

    fn draw(&mut self) -> Segment {
        match self.segments.pop() {
            Some(segment) => segment,
            None => unreachable!(),
        }
    }

    fn give_back(&mut self, segment: Segment) {
        self.segments.push_reserved(segment);
    }
}
