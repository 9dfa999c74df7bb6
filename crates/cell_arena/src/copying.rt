//! A delete record with the key of another record, copied cell by cell.
ghost use Rattle.std.specs.Prelude.{◌≡◌, ◌+◌, ◌*◌, ◌≤◌, max, length, take, [], true, None, Some, IfSome};
ghost use Rattle.cell_arena.specs.declared.cell.Kind.{Kind};
ghost use Rattle.cell_arena.specs.Chain.{is_head, IsLinked, IsChain, IsLoose, SameRecords, SameRecordsBut};
ghost use Rattle.cell_arena.specs.Chain.{chain_bytes, turned_bytes, pieces as cells_for, record_at};
ghost use Rattle.cell_arena.specs.Loan.{IsLent, Settles, KeepsShare, DrawsFor};
ghost use Rattle.cell_arena.specs.Table.{IsTable, table_at, HasCells, share_of};

use crate::cell::{Cell, Fields, HeadCell, Kind};
use crate::chain::{head_at, rest_at};
use crate::link::Link;
use crate::pieces::pieces;
use crate::segments::Segments;
use crate::table::{self, Table};
use etcd_types::CellNo;

/// Copies the first cells of a chain, each before the one that was copied before it.
fn copy_cells<S: Segments>(
    table: &mut Table,
    segments: &mut S,
    first: Link,
    cells: usize,
    count: usize,
) -> Link
    requires table { IsTable table.old }
    requires linked { IsLinked (table_at table.old) }
    requires chain { IsChain (table_at table.old) cells first }
    requires fits { count ≤ cells }
    requires space { HasCells table.old count }
    requires lent { IsLent (share_of table.old) (S.loan segments.old) }
    ensures table { IsTable table.new }
    ensures linked { IsLinked (table_at table.new) }
    ensures chain { IsChain (table_at table.new) count result }
    ensures loose { IsLoose (table_at table.new) result }
    ensures bytes { turned_bytes (table_at table.new) count result
        ≡ take (count * 48) (chain_bytes (table_at table.old) cells first) }
    ensures used { table.new.used ≡ table.old.used + count }
    ensures kept { SameRecords (table_at table.old) (table_at table.new) }
    ensures length { length table.new.bays.items ≡ length table.old.bays.items }
    ensures settles { Settles (share_of table.old) (S.loan segments.old)
        (share_of table.new) (S.loan segments.new) }
    ensures draws { DrawsFor table.new.used (share_of table.old) (share_of table.new) }
{
    let mut source = first;
    let mut back = Link::none();
    'copying: for _i in 0..count {
        let (_at, bytes, next) = rest_at(table, source);
        let cell = Cell::Rest(*bytes, back);
        back = Link::to(table::put(table, segments, cell));
        source = next;
    }
    back
}

/// Links the cells of a chain the other way round.
fn turn_chain(table: &mut Table, first: Link, count: usize) -> Link
    requires table { IsTable table.old }
    requires linked { IsLinked (table_at table.old) }
    requires chain { IsChain (table_at table.old) count first }
    requires loose { IsLoose (table_at table.old) first }
    ensures table { IsTable table.new }
    ensures linked { IsLinked (table_at table.new) }
    ensures chain { IsChain (table_at table.new) count result }
    ensures loose { IsLoose (table_at table.new) result }
    ensures bytes { chain_bytes (table_at table.new) count result
        ≡ turned_bytes (table_at table.old) count first }
    ensures used { table.new.used ≡ table.old.used }
    ensures share { KeepsShare (share_of table.old) (share_of table.new) }
    ensures kept { SameRecords (table_at table.old) (table_at table.new) }
    ensures length { length table.new.bays.items ≡ length table.old.bays.items }
{
    let mut back = first;
    let mut next = Link::none();
    'turning: for _i in 0..count {
        let (at, bytes, rest) = rest_at(table, back);
        let cell = Cell::Rest(*bytes, next);
        table::rewrite(table, at, cell);
        next = Link::to(at);
        back = rest;
    }
    next
}

/// Adds a delete record of the key of another record.
pub(crate) fn place_delete<S: Segments>(
    table: &mut Table,
    segments: &mut S,
    of: CellNo,
    fields: Fields,
) -> CellNo
    requires table { IsTable table.old }
    requires linked { IsLinked (table_at table.old) }
    requires head { is_head (table_at table.old of) ≡ true }
    requires space { IfSome (record_at (table_at table.old) of)
        (λ r. HasCells table.old (1 + cells_for (length r.key))) }
    requires lent { IsLent (share_of table.old) (S.loan segments.old) }
    ensures table { IsTable table.new }
    ensures linked { IsLinked (table_at table.new) }
    ensures used { IfSome (record_at (table_at table.old) of)
        (λ r. table.new.used ≡ table.old.used + (1 + cells_for (length r.key))) }
    ensures fresh { record_at (table_at table.old) result ≡ None }
    ensures placed { IfSome (record_at (table_at table.old) of)
        (λ r. record_at (table_at table.new) result
        ≡ Some (record { kind = Kind.Delete; fields = fields; key = r.key; value = []; older = None })) }
    ensures kept { SameRecordsBut result (table_at table.old) (table_at table.new) }
    ensures length { length table.new.bays.items ≡ length table.old.bays.items }
    ensures settles { Settles (share_of table.old) (S.loan segments.old)
        (share_of table.new) (S.loan segments.new) }
    ensures draws { DrawsFor table.new.used (share_of table.old) (share_of table.new) }
{
    let (_kind, head) = head_at(table, of);
    let key_len = head.key_len;
    let source = head.first;
    let cells = pieces(key_len as usize + head.value_len as usize);
    let count = pieces(key_len as usize);
    let back = copy_cells(table, segments, source, cells, count);
    let first = turn_chain(table, back, count);
    table::put(
        table,
        segments,
        Cell::Head(
            Kind::Delete,
            HeadCell {
                key_len,
                value_len: 0,
                first,
                older: Link::none(),
                fields,
            },
        ),
    )
}
