//! The cells of one segment, with a list of the free ones.
ghost use Rattle.std.specs.Prelude.{◌≡◌, ◌+◌, ◌<◌, length, vec_capacity, true, false, Some, None};
ghost use Rattle.cell_arena.specs.Chain.{is_free, bay_at, Writes, IsListed, IsBare, AllFree};

use crate::cell::Cell;
use crate::link::Link;
use crate::segments::Segment;
use etcd_types::CellNo;
use std::alloc::Global;

/// The cells of a segment, or none where there is no segment.
#[derive(Drop)]
pub struct Bay {
    /// The number of the segment.
    pub number: u32,
    pub cells: Vec<Cell>,
    pub first: Link,
    pub free: u32,
}

/// A link within one segment.
fn link_to(place: u32) -> Link
    requires { place < 64 }
    ensures { result ≡ Some place }
{
    Link::to(CellNo::at(0, place))
}

/// The first free cell, and the one after it.
fn first_free(bay: &Bay) -> (u32, Link)
    requires listed { IsListed bay.now }
    requires room { 0 < bay.now.free }
    ensures first { bay.now.first ≡ Some result.0 }
    ensures cell { bay_at bay.now result.0 ≡ Cell.Free result.1 }
    ensures within { result.0 < length bay.now.cells.items }
{
    match bay.first.cell() {
        None => unreachable!(),
        Some(at) => match bay.cells[at.number() as usize] {
            Cell::Free(next) => (at.number(), next),
            _ => unreachable!(),
        },
    }
}

/// Takes the first free cell, and writes it.
pub(crate) fn store(bay: &mut Bay, cell: Cell) -> u32
    requires listed { IsListed bay.old }
    requires room { 0 < bay.old.free }
    requires used { is_free cell ≡ false }
    ensures listed { IsListed bay.new }
    ensures free { bay.new.free + 1 ≡ bay.old.free }
    ensures was_free { is_free (bay_at bay.old result) ≡ true }
    ensures within { result < length bay.old.cells.items }
    ensures written { Writes (bay_at bay.old) (bay_at bay.new) result cell }
    ensures length { length bay.new.cells.items ≡ length bay.old.cells.items }
    ensures number { bay.new.number ≡ bay.old.number }
{
    let (place, next) = first_free(bay);
    bay.first = next;
    bay.free -= 1;
    bay.cells[place as usize] = cell;
    place
}

/// Puts a cell that is in use on the list of the free ones.
pub(crate) fn free_cell(bay: &mut Bay, place: u32)
    requires listed { IsListed bay.old }
    requires used { is_free (bay_at bay.old place) ≡ false }
    ensures listed { IsListed bay.new }
    ensures free { bay.new.free ≡ bay.old.free + 1 }
    ensures written { Writes (bay_at bay.old) (bay_at bay.new) place (Cell.Free bay.old.first) }
    ensures length { length bay.new.cells.items ≡ length bay.old.cells.items }
    ensures number { bay.new.number ≡ bay.old.number }
{
    bay.cells[place as usize] = Cell::Free(bay.first);
    bay.first = link_to(place);
    bay.free += 1;
}

/// Writes a cell that is in use and stays so.
pub(crate) fn rewrite(bay: &mut Bay, place: u32, cell: Cell)
    requires listed { IsListed bay.old }
    requires used { is_free (bay_at bay.old place) ≡ false }
    requires stays { is_free cell ≡ false }
    ensures listed { IsListed bay.new }
    ensures free { bay.new.free ≡ bay.old.free }
    ensures written { Writes (bay_at bay.old) (bay_at bay.new) place cell }
    ensures length { length bay.new.cells.items ≡ length bay.old.cells.items }
    ensures number { bay.new.number ≡ bay.old.number }
{
    bay.cells[place as usize] = cell;
}

/// A bay without a segment, which takes no memory.
pub(crate) fn none(alloc: Global) -> Bay
    ensures { IsBare result }
{
    Bay {
        number: 0,
        cells: Vec::new(alloc),
        first: Link::none(),
        free: 0,
    }
}

/// Makes all cells of a segment free, whatever they held.
pub(crate) fn clean(segment: Segment) -> Bay
    ensures listed { IsListed result }
    ensures all { AllFree result }
    ensures free { result.free ≡ 64 }
    ensures size { length result.cells.items ≡ 64 }
    ensures room { vec_capacity result.cells ≡ vec_capacity segment.cells }
    ensures number { result.number ≡ segment.number }
{
    let Segment { number, mut cells } = segment;
    cells.clear();
    let mut first = Link::none();
    'listing: for place in 0..64 {
        cells.push_reserved(Cell::Free(first));
        first = link_to(place);
    }
    Bay {
        number,
        cells,
        first,
        free: 64,
    }
}
