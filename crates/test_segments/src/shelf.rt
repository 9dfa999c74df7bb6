//! The free segments of a source.
ghost use Rattle.std.specs.Prelude.{◌≡◌, ◌<◌, IfOk, length};
ghost use Rattle.test_segments.specs.Shelf.{all_held, loan_of};

use cell_arena::{Cell, Fields, HeadCell, Kind, Link, Segment, Segments};
use etcd_types::{CellNo, Mem};
use std::alloc::Global;
use std::marker::Model;

/// Which of its segments a source gives first, and what the cells of new ones hold.
#[derive(Clone, Copy)]
pub enum Source {
    /// The lowest number first. All cells are free.
    Lowest,
    /// The highest number first. All cells are free.
    Highest,
    /// The lowest number first. The cells hold stray heads, links of free cells, and bytes `0xA5`.
    Filled,
}

/// Each source.
pub const SOURCES: [Source; 3] = [Source::Lowest, Source::Highest, Source::Filled];

/// Free segments, with room for those that are out.
#[derive(Drop)]
pub struct Shelf {
    source: Source,
    segments: Vec<Segment>,
}

impl Model for Shelf {
    ghost use Rattle.std.specs.Prelude.{◌-◌, ◌<◌, ◌^◌, vec_len, vec_capacity};
    ghost use Rattle.cell_arena.specs.Segments.{numbers_of};
    ghost use Rattle.test_segments.specs.Shelf.{Counts};

    ghost Value = { Counts };

    ghost view = { λ s.
        record {
          held = vec_len s.segments;
          room = vec_capacity s.segments - vec_len s.segments;
          numbers = numbers_of s.segments.items;
        } };

    ghost invariant = { λ s. vec_capacity s.segments < 2 ^ 32 };
}

impl Shelf {
    /// So many segments.
    pub fn new(alloc: Global, source: Source, count: u32) -> Mem<Shelf>
        ensures { IfOk result (λ s. s ≡ all_held count) }
    {
        let mut segments = Vec::with_capacity(alloc, count as usize)?;
        'making: for number in 0..count {
            segments.push_reserved(new_segment(alloc, source, number)?);
        }
        Ok(Shelf { source, segments })
    }
}

impl Segments for Shelf {
    ghost loan = { λ s. loan_of s };

    fn left(&self) -> u32 {
        self.segments.len() as u32
    }

    fn room(&self) -> u32 {
        (self.segments.capacity() - self.segments.len()) as u32
    }

    fn draw(&mut self) -> Segment {
        let at = first_of(self.source, self.segments.as_slice());
        self.segments.remove(at)
    }

    fn give_back(&mut self, segment: Segment) {
        self.segments.push_reserved(segment);
    }
}

/// Where the segment stands that a source gives first.
fn first_of(source: Source, segments: &[Segment]) -> usize
    requires { 0 < length segments.now }
    ensures { result < length segments.now }
{
    let is_highest = matches!(source, Source::Highest);
    let mut first = 0;
    'looking: for at in 1..segments.len() {
        let is_higher = segments[at].number > segments[first].number;
        if is_higher == is_highest {
            first = at;
        }
    }
    first
}

fn new_segment(alloc: Global, source: Source, number: u32) -> Mem<Segment>
    ensures { IfOk result (λ segment. segment.number ≡ number) }
{
    let mut cells = vec![in alloc; Cell::Free(Link::none()); 64]?;
    if matches!(source, Source::Filled) {
        'filling: for place in 0..64 {
            cells[place as usize] = stray_cell(place);
        }
    }
    Ok(Segment { number, cells })
}

/// What a cell of a filled segment holds.
fn stray_cell(place: u32) -> Cell
    requires { place < 64 }
{
    let link = Link::to(CellNo::at(0, 63 - place));
    match place % 3 {
        0 => Cell::Head(Kind::Lease, stray_head(link)),
        1 => Cell::Free(link),
        _ => Cell::Rest([0xA5; 48], link),
    }
}

/// A head that no record has.
fn stray_head(link: Link) -> HeadCell {
    HeadCell {
        key_len: 0xA5,
        value_len: 0xA5,
        first: link,
        older: link,
        fields: Fields {
            revision: 165,
            create_revision: 165,
            version: 165,
            lease: 165,
        },
    }
}
