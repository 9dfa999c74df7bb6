//! The puts that are pending in an interval, and the rows of the store that they leave there.
ghost use Rattle.std.specs.Prelude.{◌≡◌, ◌<◌, ◌≤◌, IfOk, IfSome, MatchOption, filter, length, map, vec_capacity};
ghost use Rattle.std.specs.List.{list_any, remove};
ghost use Rattle.std.specs.List.Sorted.{IsStrictlySortedBy};
ghost use Rattle.std.specs.Option.{option_copied};
ghost use Rattle.revision_store.specs.Mixing.{by_cell, cells_without, unput_cells};
ghost use Rattle.revision_store.specs.Pending.{AreRows, is_row_in, put_at, rows_at};
ghost use Rattle.revision_store.specs.Recorded.{cells_of};
ghost use Rattle.revision_store.specs.Room.{most_room};

use crate::growing::Growing;
use crate::log::Log;
use crate::plan::Write;
use etcd_types::{CellNo, KeyValue, Mem};
use std::alloc::Global;
use std::cmp::Ordering;
use store_words::is_in;

/// The row of a put that stands at a place.
fn put_at(writes: &[Write], place: usize) -> Option<&KeyValue>
    ensures { option_copied result ≡ put_at writes.now place }
{
    match writes.get(place)? {
        Write::Put(row) => Some(row),
        Write::Delete(_) => None,
    }
}

/// Whether a put of a key of an interval is pending.
pub(crate) fn puts_in(writes: &[Write], places: &[usize], key: &[u8], range_end: &[u8]) -> bool
    ensures { result ≡ list_any (is_row_in key.now range_end.now) (rows_at writes.now places.now) }
{
    for place in places {
        match put_at(writes, *place) {
            Some(row) if is_in(key, range_end, row.key.as_slice()) => return true,
            _ => {}
        }
    }
    false
}

/// The rows of the puts of keys of an interval, in the order of the puts.
pub(crate) fn puts_of<'a>(
    alloc: Global,
    writes: &'a [Write],
    places: &[usize],
    key: &[u8],
    range_end: &[u8],
) -> Mem<Vec<&'a KeyValue>>
    ensures puts { IfOk result
        (λ found. map (λ row. row.now) found.items
        ≡ filter (is_row_in key.now range_end.now) (rows_at writes.now places.now)) }
    ensures room { IfOk result (λ found. vec_capacity found ≤ most_room (length found.items)) }
{
    let mut found = Growing::new(alloc);
    for place in places {
        match put_at(writes, *place) {
            Some(row) if is_in(key, range_end, row.key.as_slice()) => found.push(row)?,
            _ => {}
        }
    }
    Ok(found.into_vec())
}

/// Those of some cells, which ascend by key, whose keys none of some rows has. Takes no memory, and looks at
/// few of the cells.
pub(crate) fn unput_cells(log: &Log, mut cells: Vec<CellNo>, puts: &[&KeyValue]) -> Vec<CellNo>
    requires rows { AreRows (cells_of log.now.records) cells.items }
    requires ascend { IsStrictlySortedBy (by_cell (cells_of log.now.records)) cells.items }
    ensures { result.items
        ≡ unput_cells (cells_of log.now.records) (map (λ row. row.now) puts.now) cells.items }
{
    take_away(log, &mut cells, puts);
    cells
}

/// Of some cells, which ascend by key, takes those away whose keys some rows have. It takes no memory, and looks at
/// few of the cells.
pub(crate) fn take_away(log: &Log, cells: &mut Vec<CellNo>, puts: &[&KeyValue])
    requires rows { AreRows (cells_of log.now.records) cells.old.items }
    requires ascend { IsStrictlySortedBy (by_cell (cells_of log.now.records)) cells.old.items }
    ensures cells { cells.new.items
        ≡ unput_cells (cells_of log.now.records) (map (λ row. row.now) puts.now) cells.old.items }
    ensures room { vec_capacity cells.new ≡ vec_capacity cells.old }
{
    for put in puts {
        if let Some(place) = place_of(log, cells, put.key.as_slice()) {
            cells.remove(place);
        }
    }
}

/// Where the cell of a key stands among cells that ascend by key, if it is there.
fn place_of(log: &Log, cells: &[CellNo], key: &[u8]) -> Option<usize>
    requires rows { AreRows (cells_of log.now.records) cells.now }
    requires ascend { IsStrictlySortedBy (by_cell (cells_of log.now.records)) cells.now }
    ensures within { IfSome result (λ i. i < length cells.now) }
    ensures place { MatchOption result (cells_without (cells_of log.now.records) key.now cells.now ≡ cells.now)
        (λ i. cells_without (cells_of log.now.records) key.now cells.now ≡ remove cells.now i) }
{
    let mut low = 0;
    let mut high = cells.len();
    while low < high {
        let middle = low + (high - low) / 2;
        match log.key_cmp(cells[middle], key) {
            Ordering::Less => low = middle + 1,
            Ordering::Equal => return Some(middle),
            Ordering::Greater => high = middle,
        }
    }
    None
}
