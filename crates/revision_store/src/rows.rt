//! The rows under some cells.
ghost use Rattle.std.specs.Prelude.{◌≡◌, ◌≤◌, [], length, take, map, vec_capacity, Some, IfOk};
ghost use Rattle.std.specs.Prelude.{option_map, if◌then◌else◌};
ghost use Rattle.etcd_model.specs.Ranges.{without_value};
ghost use Rattle.revision_store.specs.Pending.{AreRows};
ghost use Rattle.revision_store.specs.Recorded.{cells_of};
ghost use Rattle.revision_store.specs.Stored.{row_at};

use crate::log::Log;
use chunk_list::Walk;
use etcd_types::{CellNo, KeyValue, List, Mem};
use std::alloc::Global;

/// So many of the first cells of a walk.
pub(crate) fn first_cells(
    alloc: Global,
    mut cells: Walk<'_, CellNo>,
    count: usize,
) -> Mem<Vec<CellNo>>
    requires { count ≤ length cells }
    ensures cells { IfOk result (λ found. found.items ≡ take count cells.entry) }
    ensures room { IfOk result (λ found. vec_capacity found ≤ length found.items) }
{
    let mut found = Vec::with_capacity(alloc, count)?;
    'taking: for _taken in 0..count {
        if let Some(cell) = cells.next() {
            found.push_reserved(cell);
        }
    }
    Ok(found)
}

/// The rows under some cells.
pub(crate) fn rows_under(alloc: Global, log: &Log, cells: &[CellNo]) -> Mem<Vec<KeyValue>>
    requires { AreRows (cells_of log.now.records) cells.now }
    ensures rows { IfOk result
        (λ found. map Some found.items ≡ map (row_at (cells_of log.now.records)) cells.now) }
    ensures room { IfOk result (λ found. vec_capacity found ≤ length found.items) }
{
    let mut found = Vec::with_capacity(alloc, cells.len())?;
    for cell in cells {
        found.push_reserved(log.row(alloc, *cell)?);
    }
    Ok(found)
}

/// The same, where they are asked for.
pub(crate) fn rows_asked(
    alloc: Global,
    log: &Log,
    cells: &[CellNo],
    asked: bool,
) -> Mem<List<KeyValue>>
    requires { AreRows (cells_of log.now.records) cells.now }
    ensures { IfOk result
        (λ found. map Some found
        ≡ (if asked then map (row_at (cells_of log.now.records)) cells.now else [])) }
{
    if asked {
        Ok(List::from_vec(rows_under(alloc, log, cells)?))
    } else {
        Ok(List::new(alloc))
    }
}

/// The rows under some cells without their values, which are not read.
pub(crate) fn keys_under(alloc: Global, log: &Log, cells: &[CellNo]) -> Mem<Vec<KeyValue>>
    requires { AreRows (cells_of log.now.records) cells.now }
    ensures rows { IfOk result
        (λ found. map Some found.items
        ≡ map (λ c. option_map without_value (row_at (cells_of log.now.records) c)) cells.now) }
    ensures room { IfOk result (λ found. vec_capacity found ≤ length found.items) }
{
    let mut found = Vec::with_capacity(alloc, cells.len())?;
    for cell in cells {
        found.push_reserved(log.row_without_value(alloc, *cell)?);
    }
    Ok(found)
}
