//! Records as chains of cells.
ghost use Rattle.std.specs.Prelude.{◌≡◌, ◌+◌, ◌*◌, ◌<◌, ◌≤◌, ◌++◌, ◌-◌, ℕ, max, length, true, Some, None};
ghost use Rattle.std.specs.Prelude.{IfSome};
ghost use Rattle.cell_arena.specs.Chain.{is_head, IsLinked, IsChain, IsLoose, SameRecords, SameRecordsBut};
ghost use Rattle.cell_arena.specs.Chain.{chain_bytes, pieces as cells_for, record_at, cost_at};
ghost use Rattle.cell_arena.specs.Loan.{IsLent, Settles, KeepsShare, DrawsFor, DrawsNone};
ghost use Rattle.cell_arena.specs.Table.{IsTable, table_at, HasCells, share_of};
ghost use Rattle.cell_arena.specs.Storing.{IsStored};
ghost use Rattle.cell_arena.specs.Part.{IsPart, part_bytes};

use crate::cell::{CELL_BYTES, Cell, Fields, HeadCell, Kind};
use crate::link::Link;
use crate::part::Part;
use crate::pieces::{piece_at, pieces};
use crate::segments::Segments;
use crate::table::{self, Table};
use etcd_types::CellNo;
use store_words::value_span;

/// What a head says.
pub(crate) fn head_at(table: &Table, at: CellNo) -> (Kind, &HeadCell)
    requires { is_head (table_at table.now at) ≡ true }
    ensures { table_at table.now at ≡ Cell.Head result.0 result.1.now }
{
    match table::look(table, at) {
        Cell::Head(kind, head) => (*kind, head),
        _ => unreachable!(),
    }
}

/// Whether a record begins at the cell.
pub(crate) fn begins_at(table: &Table, at: CellNo) -> bool
    ensures { result ≡ is_head (table_at table.now at) }
{
    matches!(table::find(table, at), Some(Cell::Head(_, _)))
}

/// The bytes of the cell that a link names, and the next one.
pub(crate) fn rest_at(table: &Table, link: Link) -> (CellNo, &[u8; 48], Link)
    requires { (count : ℕ) × (0 < count) × IsChain (table_at table.now) count link }
    ensures link { link ≡ Some result.0 }
    ensures cell { table_at table.now result.0 ≡ Cell.Rest result.1.now result.2 }
    ensures size { length result.1.now ≡ 48 }
    ensures bytes { (count : ℕ) → 0 < count → IsChain (table_at table.now) count link
        → chain_bytes (table_at table.now) count link
        ≡ result.1.now ++ chain_bytes (table_at table.now) (count - 1) result.2 }
    ensures rest { (count : ℕ) → 0 < count → IsChain (table_at table.now) count link
        → IsChain (table_at table.now) (count - 1) result.2 }
{
    match link.cell() {
        None => unreachable!(),
        Some(at) => match table::look(table, at) {
            Cell::Rest(bytes, next) => (at, bytes, *next),
            _ => unreachable!(),
        },
    }
}

/// Frees the cells of a chain that no head names.
fn free_chain<S: Segments>(table: &mut Table, segments: &mut S, first: Link, count: usize)
    requires table { IsTable table.old }
    requires linked { IsLinked (table_at table.old) }
    requires chain { IsChain (table_at table.old) count first }
    requires loose { IsLoose (table_at table.old) first }
    requires lent { IsLent (share_of table.old) (S.loan segments.old) }
    ensures table { IsTable table.new }
    ensures linked { IsLinked (table_at table.new) }
    ensures used { table.new.used + count ≡ table.old.used }
    ensures kept { SameRecords (table_at table.old) (table_at table.new) }
    ensures length { length table.new.bays.items ≡ length table.old.bays.items }
    ensures settles { Settles (share_of table.old) (S.loan segments.old)
        (share_of table.new) (S.loan segments.new) }
    ensures none_drawn { DrawsNone (share_of table.old) (share_of table.new) }
{
    let mut link = first;
    'freeing: for _i in 0..count {
        let (at, _bytes, next) = rest_at(table, link);
        table::free(table, segments, at);
        link = next;
    }
}

/// Frees a record's cells.
pub(crate) fn release<S: Segments>(table: &mut Table, segments: &mut S, at: CellNo)
    requires table { IsTable table.old }
    requires linked { IsLinked (table_at table.old) }
    requires head { is_head (table_at table.old at) ≡ true }
    requires lent { IsLent (share_of table.old) (S.loan segments.old) }
    ensures table { IsTable table.new }
    ensures linked { IsLinked (table_at table.new) }
    ensures used { table.new.used + cost_at (table_at table.old at) ≡ table.old.used }
    ensures gone { record_at (table_at table.new) at ≡ None }
    ensures kept { SameRecordsBut at (table_at table.old) (table_at table.new) }
    ensures length { length table.new.bays.items ≡ length table.old.bays.items }
    ensures settles { Settles (share_of table.old) (S.loan segments.old)
        (share_of table.new) (S.loan segments.new) }
    ensures none_drawn { DrawsNone (share_of table.old) (share_of table.new) }
{
    let (_kind, head) = head_at(table, at);
    let first = head.first;
    let count = pieces(head.key_len as usize + head.value_len as usize);
    table::free(table, segments, at);
    free_chain(table, segments, first, count);
}

/// Fills a chain with a key followed by a value, from its last cell on.
fn store_bytes<S: Segments>(table: &mut Table, segments: &mut S, key: &[u8], value: &[u8]) -> Link
    requires table { IsTable table.old }
    requires linked { IsLinked (table_at table.old) }
    requires space { HasCells table.old (cells_for (length key.now + length value.now)) }
    requires lent { IsLent (share_of table.old) (S.loan segments.old) }
    ensures stored { IsStored table.old table.new result (cells_for (length key.now + length value.now))
        (key.now ++ value.now) }
    ensures settles { Settles (share_of table.old) (S.loan segments.old)
        (share_of table.new) (S.loan segments.new) }
    ensures draws { DrawsFor table.new.used (share_of table.old) (share_of table.new) }
{
    let mut next = Link::none();
    let mut left = pieces(key.len() + value.len());
    'storing: while left > 0 {
        left -= 1;
        let bytes = piece_at(key, value, left * CELL_BYTES);
        next = Link::to(table::put(table, segments, Cell::Rest(bytes, next)));
    }
    next
}

/// Adds a record.
pub(crate) fn place<S: Segments>(
    table: &mut Table,
    segments: &mut S,
    kind: Kind,
    fields: Fields,
    key: &[u8],
    value: &[u8],
) -> CellNo
    requires table { IsTable table.old }
    requires linked { IsLinked (table_at table.old) }
    requires space { HasCells table.old (1 + cells_for (length key.now + length value.now)) }
    requires lent { IsLent (share_of table.old) (S.loan segments.old) }
    ensures table { IsTable table.new }
    ensures linked { IsLinked (table_at table.new) }
    ensures used { table.new.used ≡ table.old.used + (1 + cells_for (length key.now + length value.now)) }
    ensures fresh { record_at (table_at table.old) result ≡ None }
    ensures placed { record_at (table_at table.new) result
        ≡ Some (record { kind = kind; fields = fields; key = key.now; value = value.now; older = None }) }
    ensures kept { SameRecordsBut result (table_at table.old) (table_at table.new) }
    ensures length { length table.new.bays.items ≡ length table.old.bays.items }
    ensures settles { Settles (share_of table.old) (S.loan segments.old)
        (share_of table.new) (S.loan segments.new) }
    ensures draws { DrawsFor table.new.used (share_of table.old) (share_of table.new) }
{
    let first = store_bytes(table, segments, key, value);
    table::put(
        table,
        segments,
        Cell::Head(
            kind,
            HeadCell {
                key_len: key.len() as u32,
                value_len: value.len() as u32,
                first,
                older: Link::none(),
                fields,
            },
        ),
    )
}

/// Where a record's key lies.
pub(crate) fn key_part(table: &Table, at: CellNo) -> Part
    requires linked { IsLinked (table_at table.now) }
    requires head { is_head (table_at table.now at) ≡ true }
    ensures part { IsPart (table_at table.now) result }
    ensures front { result.from ≡ 0 }
    ensures bytes { IfSome (record_at (table_at table.now) at)
        (λ r. part_bytes (table_at table.now) result ≡ r.key) }
{
    let (_kind, head) = head_at(table, at);
    Part {
        first: head.first,
        cells: pieces(head.key_len as usize + head.value_len as usize),
        from: 0,
        count: head.key_len as usize,
    }
}

/// Where a record's value lies.
pub(crate) fn value_part(table: &Table, at: CellNo) -> Part
    requires linked { IsLinked (table_at table.now) }
    requires head { is_head (table_at table.now at) ≡ true }
    ensures part { IsPart (table_at table.now) result }
    ensures bytes { IfSome (record_at (table_at table.now) at)
        (λ r. part_bytes (table_at table.now) result ≡ r.value) }
{
    let (_kind, head) = head_at(table, at);
    let span = value_span(head.key_len, head.value_len);
    Part {
        first: head.first,
        cells: pieces(head.key_len as usize + head.value_len as usize),
        from: span.from,
        count: span.count,
    }
}

/// Sets the next older record of its key.
pub(crate) fn set_older(table: &mut Table, at: CellNo, older: Link)
    requires table { IsTable table.old }
    requires linked { IsLinked (table_at table.old) }
    requires head { is_head (table_at table.old at) ≡ true }
    ensures table { IsTable table.new }
    ensures linked { IsLinked (table_at table.new) }
    ensures set { IfSome (record_at (table_at table.old) at)
        (λ r. record_at (table_at table.new) at ≡ Some (record r { older = older })) }
    ensures kept { SameRecordsBut at (table_at table.old) (table_at table.new) }
    ensures used { table.new.used ≡ table.old.used }
    ensures share { KeepsShare (share_of table.old) (share_of table.new) }
    ensures length { length table.new.bays.items ≡ length table.old.bays.items }
{
    let (kind, head) = head_at(table, at);
    let cell = Cell::Head(kind, HeadCell { older, ..*head });
    table::rewrite(table, at, cell);
}
