//! Ranges whose rows are found, and not made.
ghost use Rattle.std.specs.Prelude.{◌≡◌, ◌≤◌, false, true, None, length, take, pos, vec_capacity, IfOk};
ghost use Rattle.std.specs.List.Sorted.{IsStrictlySortedBy};
ghost use Rattle.etcd_types.specs.Rows.{op_reply_of};
ghost use Rattle.etcd_types.specs.declared.reply.OpReply.TheVariants.{Range as RangeReply};
ghost use Rattle.etcd_types.specs.declared.txn.Op.TheVariants.{Range as RangeOp};
ghost use Rattle.etcd_model.specs.Operations.{op_reply};
ghost use Rattle.etcd_model.specs.Order.{by_key};
ghost use Rattle.etcd_model.specs.Reads.{revision_read, unreadable};
ghost use Rattle.range_rows.specs.Answering.{is_by_key};
ghost use Rattle.revision_store.specs.InPlace.{in_place, is_found};
ghost use Rattle.revision_store.specs.Pending.{AreRows};
ghost use Rattle.revision_store.specs.Ranging.{AreGiven, rows_of};
ghost use Rattle.revision_store.specs.Recorded.{cells_of};
ghost use Rattle.revision_store.specs.Stored.{reads};

use crate::in_place::FoundRows;
use crate::log::Log;
use crate::ranging::wanted;
use crate::rows::first_cells;
use crate::store::Store;
use chunk_list::Walk;
use etcd_types::{CellNo, Mem, RangeInPlace, RangeReq};
use range_rows::{is_by_key, is_cut, limit_of, wants_all};
use std::alloc::Global;

/// A range's answer whose rows lie in their cells.
pub type FoundRange<'a> = RangeInPlace<FoundRows<'a>>;

/// The cells of the rows that a range gives.
#[derive(Drop)]
pub(crate) struct FoundCells {
    pub cells: Vec<CellNo>,
    pub count: u64,
    pub more: bool,
}

impl Store {
    /// Whether a range's rows can be found: it gives some in the order of their keys, at a revision that can be read.
    pub fn finds(&self, request: &RangeReq) -> bool
        ensures { result ≡ is_found self.now request.now }
    {
        !request.count_only && is_by_key(request) && self.unreadable(request.revision).is_none()
    }

    /// Finds the rows of such a range.
    pub fn find_rows(&self, alloc: Global, request: &RangeReq) -> Mem<FoundRange<'_>>
        requires { is_found self.now request.now ≡ true }
        ensures { IfOk result (λ range. op_reply_of (λ rows. rows) range
            ≡ op_reply (reads self.now) self.now.kept.current (RangeOp request.now)) }
    {
        let FoundCells { cells, count, more } = self.find_cells(alloc, request)?;
        Ok(RangeInPlace {
            revision: self.current() as i64,
            count,
            more,
            rows: FoundRows::new(alloc, &self.log, cells, request.keys_only),
        })
    }

    /// The cells of those rows, in a list with room for no more.
    fn find_cells(&self, alloc: Global, request: &RangeReq) -> Mem<FoundCells>
        requires readable { unreadable (reads self.now)
            (revision_read (reads self.now) request.now.revision) ≡ None }
        requires some { request.now.count_only ≡ false }
        requires by_key { is_by_key request.now ≡ true }
        ensures rows { IfOk result (λ found. AreRows (cells_of self.now.records) found.cells.items) }
        ensures reply { IfOk result
            (λ found. op_reply (reads self.now) self.now.kept.current (RangeOp request.now)
            ≡ RangeReply (pos self.now.kept.current) found.count
            (in_place (cells_of self.now.records) request.now.keys_only found.cells.items) found.more) }
        ensures room { IfOk result (λ found. vec_capacity found.cells ≤ length found.cells.items) }
    {
        self.use_invariant();
        let key = request.key.as_slice();
        let range_end = request.range_end.as_slice();
        let revision = self.revision_read(request.revision);
        if revision == self.current() {
            let cells = self.log.newest_cells(key, range_end);
            return walked_cells(alloc, &self.log, request, cells);
        }
        let cells = self.log.live_cells(alloc, key, range_end, revision)?;
        listed_cells(alloc, &self.log, request, cells)
    }
}

/// Those that a range in the order of the keys gives of some cells, which ascend by key and are those of the rows of
/// its interval. With no filter the first ones alone are looked at; the others are counted.
pub(crate) fn walked_cells(
    alloc: Global,
    log: &Log,
    request: &RangeReq,
    cells: Walk<'_, CellNo>,
) -> Mem<FoundCells>
    requires rows { AreRows (cells_of log.now.records) cells }
    requires ascend { IsStrictlySortedBy by_key (rows_of (cells_of log.now.records) cells) }
    requires some { request.now.count_only ≡ false }
    requires by_key { is_by_key request.now ≡ true }
    ensures given { IfOk result
        (λ found. AreGiven (cells_of log.now.records) request.now cells.entry found.cells.items found.count found.more) }
    ensures room { IfOk result (λ found. vec_capacity found.cells ≤ length found.cells.items) }
{
    let count = cells.len();
    if wants_all(request) {
        let more = is_cut(request, count);
        let cells = first_cells(alloc, cells, limit_of(request, count))?;
        let count = count as u64;
        return Ok(FoundCells { cells, count, more });
    }
    let cells = first_cells(alloc, cells, count)?;
    listed_cells(alloc, log, request, cells)
}

/// The same of a list.
fn listed_cells(alloc: Global, log: &Log, request: &RangeReq, cells: Vec<CellNo>) -> Mem<FoundCells>
    requires rows { AreRows (cells_of log.now.records) cells.items }
    requires ascend { IsStrictlySortedBy by_key (rows_of (cells_of log.now.records) cells.items) }
    requires some { request.now.count_only ≡ false }
    requires by_key { is_by_key request.now ≡ true }
    ensures given { IfOk result
        (λ found. AreGiven (cells_of log.now.records) request.now cells.items found.cells.items found.count found.more) }
    ensures room { IfOk result (λ found. vec_capacity found.cells ≤ length found.cells.items) }
{
    let count = cells.len() as u64;
    let wanted = wanted(alloc, log, request, cells)?;
    let more = is_cut(request, wanted.len());
    let cells = front_of(alloc, &wanted, limit_of(request, wanted.len()))?;
    Ok(FoundCells { cells, count, more })
}

/// A copy of so many of the first cells of a list, with room for no more.
fn front_of(alloc: Global, cells: &[CellNo], count: usize) -> Mem<Vec<CellNo>>
    requires { count ≤ length cells.now }
    ensures cells { IfOk result (λ front. front.items ≡ take count cells.now) }
    ensures room { IfOk result (λ front. vec_capacity front ≤ length front.items) }
{
    let mut front = Vec::with_capacity(alloc, count)?;
    for cell in &cells[..count] {
        front.push_reserved(*cell);
    }
    Ok(front)
}
