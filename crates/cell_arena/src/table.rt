//! A table of segments, drawn as they are needed.
ghost use Rattle.std.specs.Prelude.{◌≡◌, ◌+◌, ◌*◌, ◌<◌, ◌≤◌, ◌/◌, ◌^◌, IfOk, max, length, false, true};
ghost use Rattle.std.specs.Prelude.{◌==◌, ◌≢◌, slice_index_or, None, MatchOption};
ghost use Rattle.cell_arena.specs.declared.bay.Bay.{Bay};
ghost use Rattle.cell_arena.specs.Chain.{is_free, Writes, AllBare};
ghost use Rattle.cell_arena.specs.Loan.{IsLent, Settles, KeepsShare, DrawsFor, DrawsNone};
ghost use Rattle.cell_arena.specs.Table.{IsTable, hidden, table_at, HasCells, share_of};

use crate::bay::{self, Bay};
use crate::cell::Cell;
use crate::order::{self, Order};
use crate::segments::{Segment, Segments};
use etcd_types::{CellNo, Mem};
use std::alloc::Global;
use std::mem;

/// Bays for segments, with how many segments are reserved and drawn, and how many cells are in
/// use.
#[derive(Drop)]
pub struct Table {
    pub bays: Vec<Bay>,
    pub order: Order,
    pub ready: u32,
    pub drawn: u32,
    pub reserved: u32,
    pub used: u32,
    pub alloc: Global,
}

/// A table with so many bays, and no segment.
pub(crate) fn new(alloc: Global, bays: u32) -> Mem<Table>
    requires { bays ≤ 2 ^ 14 }
    ensures { IfOk result
        (λ table. IsTable table × AllBare table.bays.items × (length table.bays.items ≡ bays)
        × (table.reserved ≡ bays) × (table.drawn ≡ 0) × (table.used ≡ 0)) }
{
    let order = order::new(alloc, bays)?;
    let mut all = Vec::with_capacity(alloc, bays as usize)?;
    'making: for _i in 0..bays {
        all.push_reserved(bay::none(alloc));
    }
    Ok(Table {
        bays: all,
        order,
        ready: 0,
        drawn: 0,
        reserved: bays,
        used: 0,
        alloc,
    })
}

/// A cell that is in use.
pub(crate) fn look(table: &Table, at: CellNo) -> &Cell
    requires { is_free (table_at table.now at) ≡ false }
    ensures { table_at table.now at ≡ result.now }
{
    &table.bays[at.bay() as usize].cells[at.place() as usize]
}

/// The cell at a number, or none where there is no segment.
pub(crate) fn find(table: &Table, at: CellNo) -> Option<&Cell>
    ensures { MatchOption result (table_at table.now at ≡ Cell.Free None)
        (λ cell. table_at table.now at ≡ hidden cell.now) }
{
    let bay = table.bays.get(at.bay() as usize)?;
    bay.cells.get(at.place() as usize)
}

/// Writes a free cell of the segments that are drawn.
fn put_open(table: &mut Table, cell: Cell) -> CellNo
    requires table { IsTable table.old }
    requires ready { 0 < table.old.ready }
    requires used { is_free cell ≡ false }
    ensures table { IsTable table.new }
    ensures was_free { is_free (table_at table.old result) ≡ true }
    ensures written { Writes (table_at table.old) (table_at table.new) result cell }
    ensures used { table.new.used ≡ table.old.used + 1 }
    ensures share { KeepsShare (share_of table.old) (share_of table.new) }
    ensures length { length table.new.bays.items ≡ length table.old.bays.items }
{
    let number = table.order.order[0];
    let bay = &mut table.bays[number as usize];
    let place = bay::store(bay, cell);
    let left = bay.free;
    table.used += 1;
    if left == 0 {
        table.ready -= 1;
        order::swap(&mut table.order, 0, table.ready);
        return CellNo::at(number, place);
    }
    CellNo::at(number, place)
}

/// Draws a segment, and writes one of its cells.
fn put_drawn<S: Segments>(table: &mut Table, segments: &mut S, cell: Cell) -> CellNo
    requires table { IsTable table.old }
    requires none_ready { table.old.ready ≡ 0 }
    requires some { table.old.drawn < table.old.reserved }
    requires left { 0 < (S.loan segments.old).left }
    requires used { is_free cell ≡ false }
    ensures table { IsTable table.new }
    ensures was_free { is_free (table_at table.old result) ≡ true }
    ensures written { Writes (table_at table.old) (table_at table.new) result cell }
    ensures used { table.new.used ≡ table.old.used + 1 }
    ensures more { table.new.drawn ≡ table.old.drawn + 1 }
    ensures length { length table.new.bays.items ≡ length table.old.bays.items }
    ensures settles { Settles (share_of table.old) (S.loan segments.old)
        (share_of table.new) (S.loan segments.new) }
{
    let number = table.order.order[table.drawn as usize];
    let mut bay = bay::clean(segments.draw());
    let place = bay::store(&mut bay, cell);
    table.bays[number as usize] = bay;
    order::swap(&mut table.order, 0, table.drawn);
    table.ready = 1;
    table.drawn += 1;
    table.used += 1;
    CellNo::at(number, place)
}

/// Writes a free cell. A segment is drawn only where no cell of the drawn ones is free.
pub(crate) fn put<S: Segments>(table: &mut Table, segments: &mut S, cell: Cell) -> CellNo
    requires table { IsTable table.old }
    requires space { HasCells table.old 1 }
    requires lent { IsLent (share_of table.old) (S.loan segments.old) }
    requires used { is_free cell ≡ false }
    ensures table { IsTable table.new }
    ensures was_free { is_free (table_at table.old result) ≡ true }
    ensures written { Writes (table_at table.old) (table_at table.new) result cell }
    ensures used { table.new.used ≡ table.old.used + 1 }
    ensures length { length table.new.bays.items ≡ length table.old.bays.items }
    ensures settles { Settles (share_of table.old) (S.loan segments.old)
        (share_of table.new) (S.loan segments.new) }
    ensures draws { DrawsFor table.new.used (share_of table.old) (share_of table.new) }
{
    if table.ready > 0 {
        put_open(table, cell)
    } else {
        put_drawn(table, segments, cell)
    }
}

/// Frees a cell of a segment that has others in use.
fn free_in(table: &mut Table, number: u32, place: u32)
    requires table { IsTable table.old }
    requires small { place < 64 }
    requires used { is_free (table_at table.old (number * 64 + place)) ≡ false }
    requires others { (c : Bay) → slice_index_or table.old.bays.items number c ≡ c → c.free ≢ 63 }
    ensures table { IsTable table.new }
    ensures written { Writes (table_at table.old) (table_at table.new) (number * 64 + place)
        (Cell.Free None) }
    ensures used { table.new.used + 1 ≡ table.old.used }
    ensures share { KeepsShare (share_of table.old) (share_of table.new) }
    ensures length { length table.new.bays.items ≡ length table.old.bays.items }
{
    let bay = &mut table.bays[number as usize];
    bay::free_cell(bay, place);
    let free = bay.free;
    table.used -= 1;
    if free == 1 {
        let at = table.order.place[number as usize];
        order::swap(&mut table.order, at, table.ready);
        table.ready += 1;
        return;
    }
}

/// Gives back a segment with one cell in use.
fn empty_bay<S: Segments>(table: &mut Table, segments: &mut S, number: u32, place: u32)
    requires table { IsTable table.old }
    requires small { place < 64 }
    requires used { is_free (table_at table.old (number * 64 + place)) ≡ false }
    requires last { (c : Bay) → slice_index_or table.old.bays.items number c ≡ c → c.free ≡ 63 }
    requires room { 0 < (S.loan segments.old).room }
    ensures table { IsTable table.new }
    ensures written { Writes (table_at table.old) (table_at table.new) (number * 64 + place)
        (Cell.Free None) }
    ensures used { table.new.used + 1 ≡ table.old.used }
    ensures fewer { table.new.drawn + 1 ≡ table.old.drawn }
    ensures length { length table.new.bays.items ≡ length table.old.bays.items }
    ensures settles { Settles (share_of table.old) (S.loan segments.old)
        (share_of table.new) (S.loan segments.new) }
{
    let nothing = bay::none(table.alloc);
    let Bay {
        number: of_source,
        cells,
        first: _,
        free: _,
    } = mem::replace(&mut table.bays[number as usize], nothing);
    segments.give_back(Segment {
        number: of_source,
        cells,
    });
    let at = table.order.place[number as usize];
    table.ready -= 1;
    order::swap(&mut table.order, at, table.ready);
    table.drawn -= 1;
    order::swap(&mut table.order, table.ready, table.drawn);
    table.used -= 1;
}

/// Frees a cell that is in use, and gives its segment back where that was the last in use.
pub(crate) fn free<S: Segments>(table: &mut Table, segments: &mut S, at: CellNo)
    requires table { IsTable table.old }
    requires used { is_free (table_at table.old at) ≡ false }
    requires lent { IsLent (share_of table.old) (S.loan segments.old) }
    ensures table { IsTable table.new }
    ensures written { Writes (table_at table.old) (table_at table.new) at (Cell.Free None) }
    ensures used { table.new.used + 1 ≡ table.old.used }
    ensures length { length table.new.bays.items ≡ length table.old.bays.items }
    ensures settles { Settles (share_of table.old) (S.loan segments.old)
        (share_of table.new) (S.loan segments.new) }
    ensures none_drawn { DrawsNone (share_of table.old) (share_of table.new) }
{
    let number = at.bay();
    if table.bays[number as usize].free == 63 {
        empty_bay(table, segments, number, at.place());
    } else {
        free_in(table, number, at.place());
    }
}

/// Writes a cell that is in use and stays so.
pub(crate) fn rewrite(table: &mut Table, at: CellNo, cell: Cell)
    requires table { IsTable table.old }
    requires used { is_free (table_at table.old at) ≡ false }
    requires stays { is_free cell ≡ false }
    ensures table { IsTable table.new }
    ensures written { Writes (table_at table.old) (table_at table.new) at cell }
    ensures used { table.new.used ≡ table.old.used }
    ensures share { KeepsShare (share_of table.old) (share_of table.new) }
    ensures length { length table.new.bays.items ≡ length table.old.bays.items }
{
    let bay = &mut table.bays[at.bay() as usize];
    bay::rewrite(bay, at.place(), cell);
}
