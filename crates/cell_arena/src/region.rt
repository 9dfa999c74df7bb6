//! A store of records.
ghost use Rattle.std.specs.Prelude.{◌≡◌, ◌+◌, ◌*◌, ◌/◌, ◌%◌, ◌≤◌, ◌^◌, ◌++◌, [], length, take};
ghost use Rattle.std.specs.Prelude.{OnOk, OnErr, IfOk, IsOk};
ghost use Rattle.std.specs.Ordering.{nat_cmp};
ghost use Rattle.std.specs.Cmp.Lexicographic.{slice_cmp};
ghost use Rattle.cell_arena.specs.declared.cell.Kind.{Kind};
ghost use Rattle.cell_arena.specs.Loan.{IsLent, Settles, KeepsShare, DrawsFor, DrawsNone, IsBusy};
ghost use Rattle.cell_arena.specs.Loan.{CanReserve, returned};
ghost use Rattle.cell_arena.specs.Region.{IsHead, IsNoHead, OfRecord, SetsRecord, DropsRecord, is_head};
ghost use Rattle.cell_arena.specs.Region.{cells_for, delete_cost, record_cost, filled_cells, unlinked};
ghost use Rattle.cell_arena.specs.Region.{IsFrontOf, no_records, roomier, with_cells};

use crate::cell::{Fields, Kind};
use crate::link::Link;
use crate::segments::Segments;
use crate::sink::Sink;
use crate::table::{self, Table};
use crate::{chain, copying, growing, reading};
use etcd_types::{CellNo, Mem};
use std::alloc::Global;
use std::cmp::Ordering;
use std::marker::Model;

/// A store of records, each under the number of its first cell, in segments that are lent to the
/// calls that draw them and give them back.
///
/// A call that names a cell asks that it is the first of a record.
pub struct Region {
    table: Table,
}

impl Drop for Region {
    fn drop(self) {
        let Region { table: _ } = self;
    }
}

impl Model for Region {
    ghost use Rattle.cell_arena.specs.Region.{RegionState, region_code, region_of, IsRegion};

    ghost Value = { RegionState };

    ghost coded = { region_code };

    ghost view = { λ r. region_of r.table };

    ghost invariant = { λ r. IsRegion r.table };
}

impl Region {
    /// A store of no records, for so many cells, which are 64 for each reserved segment. Takes the
    /// memory of its table, and draws nothing.
    pub fn new(alloc: Global, cells: u32) -> Mem<Region>
        requires whole { cells % 64 ≡ 0 }
        requires few { cells ≤ 2 ^ 20 }
        ensures { IfOk result (λ r. r ≡ no_records cells) }
    {
        Ok(Region {
            table: table::new(alloc, cells / 64)?,
        })
    }

    /// How many more cells fit in the reserved segments.
    pub fn free_cells(&self) -> u32
        ensures free { result ≡ self.now.free }
        ensures small { result ≤ 64 * self.now.share.reserved }
    {
        64 * self.table.reserved - self.table.used
    }

    /// How many cells are in use.
    pub fn filled_cells(&self) -> u32
        ensures { result ≡ filled_cells self.now }
    {
        self.table.used
    }

    /// Adds a record, which takes one cell and one more for each 48 bytes of its key and value.
    ///
    /// A segment is drawn only where the free cells of the drawn ones are too few, and no more of
    /// them than it needs.
    pub fn place<S: Segments>(
        &mut self,
        segments: &mut S,
        kind: Kind,
        fields: Fields,
        key: &[u8],
        value: &[u8],
    ) -> CellNo
        requires space { cells_for key.now value.now ≤ self.old.free }
        requires lent { IsLent self.old.share (S.loan segments.old) }
        ensures fresh { IsNoHead self.old result }
        ensures placed { SetsRecord self.old self.new result (unlinked kind fields key.now value.now) }
        ensures free { self.new.free + cells_for key.now value.now ≡ self.old.free }
        ensures settles { Settles self.old.share (S.loan segments.old) self.new.share (S.loan segments.new) }
        ensures draws { DrawsFor (filled_cells self.new) self.old.share self.new.share }
    {
        chain::place(&mut self.table, segments, kind, fields, key, value)
    }

    /// Adds a delete record of another record's key, which is copied cell by cell.
    ///
    /// Segments are drawn as by `place`.
    pub fn place_delete<S: Segments>(
        &mut self,
        segments: &mut S,
        of: CellNo,
        fields: Fields,
    ) -> CellNo
        requires head { IsHead self.old of }
        requires space { OfRecord self.old of (λ r. delete_cost r ≤ self.old.free) }
        requires lent { IsLent self.old.share (S.loan segments.old) }
        ensures fresh { IsNoHead self.old result }
        ensures placed { OfRecord self.old of
            (λ r. SetsRecord self.old self.new result (unlinked Kind.Delete fields r.key [])) }
        ensures free { OfRecord self.old of (λ r. self.new.free + delete_cost r ≡ self.old.free) }
        ensures settles { Settles self.old.share (S.loan segments.old) self.new.share (S.loan segments.new) }
        ensures draws { DrawsFor (filled_cells self.new) self.old.share self.new.share }
    {
        copying::place_delete(&mut self.table, segments, of, fields)
    }

    /// Takes a record away. A segment is given back as soon as none of its cells is in use, with
    /// all that they hold.
    pub fn release<S: Segments>(&mut self, segments: &mut S, cell: CellNo)
        requires head { IsHead self.old cell }
        requires lent { IsLent self.old.share (S.loan segments.old) }
        ensures gone { DropsRecord self.old self.new cell }
        ensures free { OfRecord self.old cell (λ r. self.new.free ≡ self.old.free + record_cost r) }
        ensures settles { Settles self.old.share (S.loan segments.old) self.new.share (S.loan segments.new) }
        ensures none_drawn { DrawsNone self.old.share self.new.share }
        ensures busy { IsBusy (filled_cells self.new) self.new.share }
    {
        chain::release(&mut self.table, segments, cell);
    }

    /// How many segments are drawn: those with a cell in use.
    pub fn drawn(&self) -> u32
        ensures drawn { result ≡ self.now.share.drawn }
        ensures within { result ≤ self.now.share.reserved }
    {
        self.table.drawn
    }

    /// Makes rooms for so many cells, which are 64 for each segment. What was taken is always what the rooms ask
    /// for: where there are as many, nothing is taken, and where no memory is found, nothing has changed.
    pub fn grow_rooms(&mut self, cells: u32) -> Mem<()>
        requires few { cells ≤ 2 ^ 20 }
        ensures ok { OnOk result (self.new ≡ roomier (cells / 64) self.old) }
        ensures err { OnErr result (self.new ≡ self.old) }
        ensures sure { cells / 64 ≤ self.old.share.rooms → IsOk result }
    {
        growing::grow(&mut self.table, cells / 64)
    }

    /// Reserves so many cells in the place of those that are. The records stay as they are.
    pub fn set_cells(&mut self, cells: u32)
        requires whole { cells % 64 ≡ 0 }
        requires can { CanReserve (cells / 64) self.old.share }
        ensures cells { self.new ≡ with_cells cells self.old }
        ensures fits { filled_cells self.old ≤ cells }
    {
        self.table.reserved = cells / 64;
    }

    /// Gives all segments back, with whatever they hold.
    pub fn give_up<S: Segments>(self, segments: &mut S)
        requires lent { IsLent self.share (S.loan segments.old) }
        ensures settles { Settles self.share (S.loan segments.old) (returned self.share) (S.loan segments.new) }
    {
        let Region { table } = self;
        growing::give_up(table, segments);
    }

    /// Whether a record begins at the cell.
    pub fn has(&self, cell: CellNo) -> bool
        ensures { result ≡ is_head self.now cell }
    {
        chain::begins_at(&self.table, cell)
    }

    /// What the record is.
    pub fn kind(&self, cell: CellNo) -> Kind
        requires { IsHead self.now cell }
        ensures { OfRecord self.now cell (λ r. result ≡ r.kind) }
    {
        chain::head_at(&self.table, cell).0
    }

    /// The record's numbers.
    pub fn fields(&self, cell: CellNo) -> Fields
        requires { IsHead self.now cell }
        ensures { OfRecord self.now cell (λ r. result ≡ r.fields) }
    {
        let (_kind, head) = chain::head_at(&self.table, cell);
        head.fields
    }

    /// How many bytes the record's key has.
    pub fn key_len(&self, cell: CellNo) -> u32
        requires { IsHead self.now cell }
        ensures { OfRecord self.now cell (λ r. result ≡ length r.key) }
    {
        let (_kind, head) = chain::head_at(&self.table, cell);
        head.key_len
    }

    /// How many bytes the record's value has.
    pub fn value_len(&self, cell: CellNo) -> u32
        requires { IsHead self.now cell }
        ensures { OfRecord self.now cell (λ r. result ≡ length r.value) }
    {
        let (_kind, head) = chain::head_at(&self.table, cell);
        head.value_len
    }

    /// The next older record of its key, as it was set.
    pub fn older(&self, cell: CellNo) -> Option<CellNo>
        requires { IsHead self.now cell }
        ensures { OfRecord self.now cell (λ r. result ≡ r.older) }
    {
        let (_kind, head) = chain::head_at(&self.table, cell);
        head.older.cell()
    }

    /// Sets the next older record of its key, and nothing else.
    pub fn set_older(&mut self, cell: CellNo, older: Option<CellNo>)
        requires { IsHead self.old cell }
        ensures set { OfRecord self.old cell
            (λ r. SetsRecord self.old self.new cell (record r { older = older })) }
        ensures free { self.new.free ≡ self.old.free }
        ensures share { KeepsShare self.old.share self.new.share }
    {
        chain::set_older(&mut self.table, cell, Link::of(older));
    }

    /// Gives the record's key.
    ///
    /// Where the sink finds no memory, it was given some bytes from the key's first on.
    #[inline(always)]
    pub fn read_key<S: Sink>(&self, cell: CellNo, sink: &mut S) -> Mem<()>
        requires { IsHead self.now cell }
        ensures ok { OnOk result
            (OfRecord self.now cell (λ r. S.taken sink.new ≡ S.taken sink.old ++ r.key)) }
        ensures err { OnErr result
            (OfRecord self.now cell (λ r. IsFrontOf r.key (S.taken sink.old) (S.taken sink.new))) }
    {
        let part = chain::key_part(&self.table, cell);
        reading::read_part(&self.table, part, sink)
    }

    /// Gives the record's value.
    ///
    /// Where the sink finds no memory, it was given some bytes from the value's first on.
    #[inline(always)]
    pub fn read_value<S: Sink>(&self, cell: CellNo, sink: &mut S) -> Mem<()>
        requires { IsHead self.now cell }
        ensures ok { OnOk result
            (OfRecord self.now cell (λ r. S.taken sink.new ≡ S.taken sink.old ++ r.value)) }
        ensures err { OnErr result
            (OfRecord self.now cell (λ r. IsFrontOf r.value (S.taken sink.old) (S.taken sink.new))) }
    {
        let part = chain::value_part(&self.table, cell);
        reading::read_part(&self.table, part, sink)
    }

    /// The first bytes of the record's key, as many as lie in one cell.
    pub fn key_front(&self, cell: CellNo) -> &[u8]
        requires { IsHead self.now cell }
        ensures { OfRecord self.now cell (λ r. result.now ≡ take 48 r.key) }
    {
        let part = chain::key_part(&self.table, cell);
        reading::front(&self.table, part)
    }

    /// How the record's key stands to a text, in byte order.
    pub fn key_cmp(&self, cell: CellNo, key: &[u8]) -> Ordering
        requires { IsHead self.now cell }
        ensures { OfRecord self.now cell (λ r. result ≡ slice_cmp nat_cmp r.key key.now) }
    {
        let part = chain::key_part(&self.table, cell);
        reading::compare_part(&self.table, part, key)
    }

    /// How the key of one record stands to that of another, in byte order.
    pub fn keys_cmp(&self, cell: CellNo, other: CellNo) -> Ordering
        requires cell { IsHead self.now cell }
        requires other { IsHead self.now other }
        ensures { OfRecord self.now cell
            (λ r. OfRecord self.now other (λ s. result ≡ slice_cmp nat_cmp r.key s.key)) }
    {
        let one_part = chain::key_part(&self.table, cell);
        let other_part = chain::key_part(&self.table, other);
        reading::compare_fronts(&self.table, one_part, other_part)
    }

    /// How the record's value stands to a text, in byte order.
    pub fn value_cmp(&self, cell: CellNo, value: &[u8]) -> Ordering
        requires { IsHead self.now cell }
        ensures { OfRecord self.now cell (λ r. result ≡ slice_cmp nat_cmp r.value value.now) }
    {
        let part = chain::value_part(&self.table, cell);
        reading::compare_part(&self.table, part, value)
    }
}
