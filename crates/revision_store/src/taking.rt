//! The first rows of an order, of those under some cells.
ghost use Rattle.std.specs.Prelude.{◌≡◌, ◌+◌, ◌<◌, ◌≤◌, ◌^◌, length, map, vec_capacity, true, Some, IsSome, IfOk};
ghost use Rattle.std.specs.Prelude.{option_map};
ghost use Rattle.std.specs.List.Sorted.{IsStrictlySortedBy};
ghost use Rattle.etcd_model.specs.Order.{by_key};
ghost use Rattle.range_rows.specs.Answering.{is_by_key};
ghost use Rattle.range_rows.specs.Reading.{read};
ghost use Rattle.range_rows.specs.Taking.{first_of, most_held};
ghost use Rattle.revision_store.specs.Pending.{AreRows};
ghost use Rattle.revision_store.specs.Ranging.{rows_of};
ghost use Rattle.revision_store.specs.Recorded.{cells_of};
ghost use Rattle.revision_store.specs.Stored.{row_at};

use crate::log::Log;
use etcd_types::{CellNo, KeyValue, Mem, RangeReq};
use range_rows::{keep_few, keep_first, most_held, needs_values};
use std::alloc::Global;

/// So many of the rows under some cells, the first ones in the order of a range, with their values
/// where the range needs those. In the order of keys no row is read to be cut off again. So many more can be looked at
/// after them, and there is room for no more than are held at a time.
pub(crate) fn first_rows(
    alloc: Global,
    log: &Log,
    request: &RangeReq,
    cells: &[CellNo],
    limit: usize,
    more: usize,
) -> Mem<Vec<KeyValue>>
    requires rows { AreRows (cells_of log.now.records) cells.now }
    requires ascend { IsStrictlySortedBy by_key (rows_of (cells_of log.now.records) cells.now) }
    requires few { is_by_key request.now ≡ true → length cells.now ≤ limit }
    requires count { length cells.now + more < 2 ^ 64 }
    ensures rows { IfOk result
        (λ found. found.items
        ≡ first_of request.now limit (map (read request.now) (rows_of (cells_of log.now.records) cells.now))) }
    ensures fewer { IfOk result (λ found. length found.items ≤ length cells.now) }
    ensures room { IfOk result (λ found. vec_capacity found ≡ most_held limit (length cells.now + more)) }
{
    let mut first = Vec::with_capacity(alloc, most_held(limit, cells.len() + more))?;
    for cell in cells {
        keep_few(&mut first, request, limit);
        first.push_reserved(row_read(alloc, log, request, *cell)?);
    }
    keep_first(&mut first, request, limit);
    Ok(first)
}

/// The row under a cell, with its value where the range needs that.
#[inline(always)]
pub(crate) fn row_read(alloc: Global, log: &Log, request: &RangeReq, cell: CellNo) -> Mem<KeyValue>
    requires { IsSome (row_at (cells_of log.now.records) cell) }
    ensures { IfOk result
        (λ row. option_map (read request.now) (row_at (cells_of log.now.records) cell) ≡ Some row) }
{
    if needs_values(request) {
        log.row(alloc, cell)
    } else {
        log.row_without_value(alloc, cell)
    }
}
