//! The rows of the store that pending deletes leave.
ghost use Rattle.std.specs.Prelude.{◌≡◌, ◌≤◌, length, map, vec_capacity, IsSome, IfOk};
ghost use Rattle.revision_store.specs.Plans.{key_at};
ghost use Rattle.revision_store.specs.Recorded.{cells_of};
ghost use Rattle.revision_store.specs.Stored.{row_at};
ghost use Rattle.revision_store.specs.Pending.{AreRows, is_erased, left_cells};
ghost use Rattle.revision_store.specs.Room.{most_room};

use crate::growing::Growing;
use crate::log::Log;
use etcd_types::{CellNo, DeleteReq, Mem};
use std::alloc::Global;

/// Whether the key of a row lies in an interval that is deleted.
fn is_erased(log: &Log, cell: CellNo, deletes: &[&DeleteReq]) -> bool
    requires { IsSome (row_at (cells_of log.now.records) cell) }
    ensures { result ≡ is_erased (map (λ d. d.now) deletes.now) (key_at (cells_of log.now.records) cell) }
{
    for delete in deletes {
        if log.lies_in(cell, delete.key.as_slice(), delete.range_end.as_slice()) {
            return true;
        }
    }
    false
}

/// Those of some cells whose keys lie in no interval that is deleted.
pub(crate) fn left_cells(
    alloc: Global,
    log: &Log,
    cells: Vec<CellNo>,
    deletes: &[&DeleteReq],
) -> Mem<Vec<CellNo>>
    requires rows { AreRows (cells_of log.now.records) cells.items }
    requires room { vec_capacity cells ≤ most_room (length cells.items) }
    ensures cells { IfOk result
        (λ left. left.items
        ≡ left_cells (cells_of log.now.records) (map (λ d. d.now) deletes.now) cells.items) }
    ensures room { IfOk result (λ left. vec_capacity left ≤ most_room (length left.items)) }
{
    if deletes.is_empty() {
        return Ok(cells);
    }
    without_erased(alloc, log, &cells, deletes)
}

/// The same, tried one by one.
fn without_erased(
    alloc: Global,
    log: &Log,
    cells: &[CellNo],
    deletes: &[&DeleteReq],
) -> Mem<Vec<CellNo>>
    requires { AreRows (cells_of log.now.records) cells.now }
    ensures cells { IfOk result
        (λ left. left.items
        ≡ left_cells (cells_of log.now.records) (map (λ d. d.now) deletes.now) cells.now) }
    ensures room { IfOk result (λ left. vec_capacity left ≤ most_room (length left.items)) }
{
    let mut left = Growing::new(alloc);
    for cell in cells {
        if !is_erased(log, *cell, deletes) {
            left.push(*cell)?;
        }
    }
    Ok(left.into_vec())
}
