//! How much memory the answer of a range and the events of a watch may take, told before they are planned.
//!
//! A weight is a bound in bytes: of the rows that a plan holds, and of the text that is written of them. It promises
//! nothing beyond that, and no answer depends on it.
use crate::log::Log;
use crate::store::Store;
use chunk_list::Walk;
use etcd_types::limits::CELL_BYTES;
use etcd_types::{CellNo, Mem, RangeReq};
use range_rows::{is_by_key, limit_of, wants_all};
use std::alloc::Global;

/// What a row takes beside its key and its value: the row itself, and the names and the numbers of its text.
const ROW: u64 = 512;

/// The weight of so many rows whose keys and values have so many bytes: each byte is held once, and written in base64.
pub fn weight_for(rows: u64, bytes: u64) -> u64 {
    let texts = bytes.saturating_mul(5) / 2;
    rows.saturating_mul(ROW).saturating_add(texts)
}

impl Store {
    /// The weight of what a range is answered, which is 0 only where it does no more than count. It looks at the rows
    /// one by one only where all cells in use could weigh more than is enough to know.
    pub fn weight(&self, alloc: Global, request: &RangeReq, enough: u64) -> Mem<u64> {
        if request.count_only {
            return Ok(0);
        }
        let key = request.key.as_slice();
        let range_end = request.range_end.as_slice();
        let revision = self.revision_read(request.revision);
        if revision != self.current() {
            let cells = self.log.live_cells(alloc, key, range_end, revision)?;
            return Ok(self.log.weight_of(cells.as_slice()).max(ROW));
        }
        let cells = self.log.newest_cells(key, range_end);
        let rows = if wants_all(request) && is_by_key(request) {
            limit_of(request, cells.len())
        } else {
            cells.len()
        };
        Ok(self.weight_of_first(cells, rows, enough))
    }

    /// The weight of the rows of an interval as they are now.
    pub fn weight_of_all(&self, key: &[u8], range_end: &[u8], enough: u64) -> u64 {
        let cells = self.log.newest_cells(key, range_end);
        let rows = cells.len();
        self.weight_of_first(cells, rows, enough)
    }

    fn weight_of_first(&self, cells: Walk<'_, CellNo>, rows: usize, enough: u64) -> u64 {
        if rows == 0 {
            return ROW;
        }
        let most = weight_for(rows as u64, u64::from(self.filled_cells()) * CELL_BYTES);
        if most <= enough {
            return most;
        }
        self.log.weight_of_first(cells, rows)
    }
}

impl Store {
    /// The weight of an event of each kept change, with the row before it.
    pub fn weight_of_changes(&self) -> u64 {
        let changes = self.log.settled.len().saturating_add(self.log.recent.len()) as u64;
        let bytes = u64::from(self.filled_cells()) * CELL_BYTES;
        weight_for(changes.saturating_mul(2), bytes.saturating_mul(2))
    }

    /// The weight of the event of the change under a cell, with the row before it where that is asked for.
    pub fn event_weight(&self, cell: CellNo, with_row_before: bool) -> u64 {
        let own = self.log.row_weight(cell);
        if with_row_before {
            own.saturating_add(self.log.weight_before(cell))
        } else {
            own
        }
    }
}

impl Log {
    /// The weight of the row before the change under a cell.
    fn weight_before(&self, cell: CellNo) -> u64 {
        if !self.region.has(cell) {
            return 0;
        }
        match self.region.older(cell) {
            Some(before) => self.row_weight(before),
            None => 0,
        }
    }

    fn weight_of(&self, cells: &[CellNo]) -> u64 {
        let mut weight = 0u64;
        for cell in cells {
            weight = weight.saturating_add(self.row_weight(*cell));
        }
        weight
    }

    fn weight_of_first(&self, mut cells: Walk<'_, CellNo>, rows: usize) -> u64 {
        let mut weight = 0u64;
        'weighing: for _weighed in 0..rows {
            if let Some(cell) = cells.next() {
                weight = weight.saturating_add(self.row_weight(cell));
            }
        }
        weight
    }

    fn row_weight(&self, cell: CellNo) -> u64 {
        if !self.region.has(cell) {
            return 0;
        }
        let bytes = u64::from(self.region.key_len(cell)) + u64::from(self.region.value_len(cell));
        weight_for(1, bytes)
    }
}
