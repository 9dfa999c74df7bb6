//! The answer of a range.
ghost use Rattle.std.specs.Prelude.{◌≡◌, ◌<◌, ◌≤◌, ◌^◌, length, map, vec_capacity, pos, true, false, None, Some, IsSome, is_some};
ghost use Rattle.std.specs.Prelude.{IfOk, IsOk, MatchResult};
ghost use Rattle.std.specs.List.Sorted.{IsStrictlySortedBy};
ghost use Rattle.etcd_types.specs.declared.reply.OpReply.TheVariants.{Range as RangeReply};
ghost use Rattle.etcd_types.specs.declared.txn.Op.TheVariants.{Range as RangeOp};
ghost use Rattle.etcd_model.specs.Operations.{op_reply};
ghost use Rattle.etcd_model.specs.Ranges.{is_wanted, range_reply};
ghost use Rattle.etcd_model.specs.Reads.{revision_read, unreadable};
ghost use Rattle.etcd_model.specs.Order.{by_key};
ghost use Rattle.range_rows.specs.Answering.{given, is_by_key, wants_all};
ghost use Rattle.revision_store.specs.Pending.{AreRows};
ghost use Rattle.range_rows.specs.Reading.{AllAreGiven, row_passes, read};
ghost use Rattle.revision_store.specs.Ranging.{rows_of};
ghost use Rattle.revision_store.specs.Ranging.{wanted_cells};
ghost use Rattle.revision_store.specs.Recorded.{cells_of};
ghost use Rattle.revision_store.specs.Room.{most_room};
ghost use Rattle.revision_store.specs.Stored.{reads, row_at};

use crate::finding::walked_cells;
use crate::growing::Growing;
use crate::latest::gives_last;
use crate::log::Log;
use crate::rows::{first_cells, keys_under, rows_under};
use crate::store::Store;
use crate::taking::first_rows;
use chunk_list::Walk;
use etcd_types::{CellNo, KeyValue, List, Mem, OpReply, RangeReq, Refusal};
use range_rows::{is_by_key, is_cut, is_wanted, limit_of, needs_values, shown, wants_all};
use std::alloc::Global;

impl Store {
    /// Reads an interval at a revision, the newest for one of 0 or below. It is refused where that
    /// one is compacted or still to come, and that takes no memory. Nor does a range that only counts.
    pub fn plan_range(&self, alloc: Global, request: &RangeReq) -> Mem<Result<OpReply, Refusal>>
        ensures refusal { IfOk result
            (λ answer. MatchResult answer
            (λ reply. unreadable (reads self.now) (revision_read (reads self.now) request.now.revision)
            ≡ None) (λ refusal.
            unreadable (reads self.now) (revision_read (reads self.now) request.now.revision)
            ≡ Some refusal)) }
        ensures sure { is_some
            (unreadable (reads self.now) (revision_read (reads self.now) request.now.revision)) ≡ true
            → IsOk result }
        ensures sure_count { request.now.count_only ≡ true → IsOk result }
        ensures reply { IfOk result
            (λ answer. IfOk answer
            (λ reply. reply ≡ op_reply (reads self.now) self.now.kept.current (RangeOp request.now))) }
    {
        if let Some(refusal) = self.unreadable(request.revision) {
            return Ok(Err(refusal));
        }
        Ok(Ok(self.range_at(alloc, request, self.current())?))
    }

    /// The same of a revision that can be read, with the revision that is answered.
    pub(crate) fn range_at(&self, alloc: Global, request: &RangeReq, current: u64) -> Mem<OpReply>
        requires readable { unreadable (reads self.now)
            (revision_read (reads self.now) request.now.revision) ≡ None }
        requires current { current < 2 ^ 63 }
        ensures sure_count { request.now.count_only ≡ true → IsOk result }
        ensures reply { IfOk result
            (λ reply. reply ≡ op_reply (reads self.now) current (RangeOp request.now)) }
    {
        self.use_invariant();
        let key = request.key.as_slice();
        let range_end = request.range_end.as_slice();
        let revision = self.revision_read(request.revision);
        if revision == self.current() {
            let cells = self.log.newest_cells(key, range_end);
            if gives_last(request) {
                if let Some(reply) = self.last_reply(alloc, request, cells.len(), current)? {
                    return Ok(reply);
                }
            }
            return walked_reply(alloc, &self.log, request, cells, current);
        }
        if request.count_only {
            let count = self.log.live_count(key, range_end, revision);
            return Ok(reply_of(current, count as u64, List::new(alloc), false));
        }
        let cells = self.log.live_cells(alloc, key, range_end, revision)?;
        range_reply(alloc, &self.log, request, cells, current)
    }

    /// Why there is no read at a revision.
    pub fn unreadable(&self, revision: i64) -> Option<Refusal>
        ensures { result ≡ unreadable (reads self.now) (revision_read (reads self.now) revision) }
    {
        let revision = self.revision_read(revision);
        if revision < self.compacted() {
            Some(Refusal::Compacted)
        } else if self.current() < revision {
            Some(Refusal::Future)
        } else {
            None
        }
    }

    /// The revision that is read: for one of 0 or below, the newest.
    pub(crate) fn revision_read(&self, revision: i64) -> u64
        ensures { result ≡ revision_read (reads self.now) revision }
    {
        match u64::try_from(revision) {
            Ok(revision) if revision > 0 => revision,
            _ => self.current(),
        }
    }
}

/// What a range is answered at a revision, where the rows under some cells, which ascend by key,
/// are those of its interval.
pub(crate) fn range_reply(
    alloc: Global,
    log: &Log,
    request: &RangeReq,
    cells: Vec<CellNo>,
    revision: u64,
) -> Mem<OpReply>
    requires rows { AreRows (cells_of log.now.records) cells.items }
    requires ascend { IsStrictlySortedBy by_key (rows_of (cells_of log.now.records) cells.items) }
    requires revision { revision < 2 ^ 63 }
    ensures sure_count { request.now.count_only ≡ true → IsOk result }
    ensures reply { IfOk result
        (λ reply. reply
        ≡ range_reply revision request.now (rows_of (cells_of log.now.records) cells.items)) }
{
    let count = cells.len() as u64;
    if request.count_only {
        return Ok(reply_of(revision, count, List::new(alloc), false));
    }
    let wanted = wanted(alloc, log, request, cells)?;
    let more = is_cut(request, wanted.len());
    let kvs = rows_given(alloc, log, request, wanted)?;
    Ok(reply_of(revision, count, kvs, more))
}

/// The same where the cells are walked. In the order of their keys, and with no filter, the first ones alone are
/// looked at; the others are counted.
pub(crate) fn walked_reply(
    alloc: Global,
    log: &Log,
    request: &RangeReq,
    cells: Walk<'_, CellNo>,
    revision: u64,
) -> Mem<OpReply>
    requires rows { AreRows (cells_of log.now.records) cells }
    requires ascend { IsStrictlySortedBy by_key (rows_of (cells_of log.now.records) cells) }
    requires revision { revision < 2 ^ 63 }
    ensures sure_count { request.now.count_only ≡ true → IsOk result }
    ensures reply { IfOk result
        (λ reply. reply
        ≡ range_reply revision request.now (rows_of (cells_of log.now.records) cells.entry)) }
{
    let count = cells.len();
    if request.count_only {
        return Ok(reply_of(revision, count as u64, List::new(alloc), false));
    }
    if wants_all(request) && is_by_key(request) {
        return first_reply(alloc, log, request, cells, revision);
    }
    let cells = first_cells(alloc, cells, count)?;
    range_reply(alloc, log, request, cells, revision)
}

/// The same in the order of the keys, and with no filter.
fn first_reply(
    alloc: Global,
    log: &Log,
    request: &RangeReq,
    cells: Walk<'_, CellNo>,
    revision: u64,
) -> Mem<OpReply>
    requires rows { AreRows (cells_of log.now.records) cells }
    requires ascend { IsStrictlySortedBy by_key (rows_of (cells_of log.now.records) cells) }
    requires revision { revision < 2 ^ 63 }
    requires some { request.now.count_only ≡ false }
    requires all { wants_all request.now ≡ true }
    requires by_key { is_by_key request.now ≡ true }
    ensures { IfOk result
        (λ reply. reply
        ≡ range_reply revision request.now (rows_of (cells_of log.now.records) cells.entry)) }
{
    let found = walked_cells(alloc, log, request, cells)?;
    let rows = rows_read(alloc, log, request, &found.cells)?;
    let kvs = shown(alloc, request, rows);
    Ok(reply_of(revision, found.count, kvs, found.more))
}

/// The answer of a range.
pub(crate) fn reply_of(revision: u64, count: u64, kvs: List<KeyValue>, more: bool) -> OpReply
    requires { revision < 2 ^ 63 }
    ensures { result ≡ RangeReply (pos revision) count kvs more }
{
    OpReply::Range {
        revision: revision as i64,
        count,
        kvs,
        more,
    }
}

/// Those of some cells whose rows pass the filters. With no filter they are all, and none is looked at.
pub(crate) fn wanted(
    alloc: Global,
    log: &Log,
    request: &RangeReq,
    cells: Vec<CellNo>,
) -> Mem<Vec<CellNo>>
    requires { AreRows (cells_of log.now.records) cells.items }
    ensures { IfOk result
        (λ found. found.items ≡ wanted_cells (cells_of log.now.records) request.now cells.items) }
{
    if wants_all(request) {
        return Ok(cells);
    }
    passing(alloc, log, request, &cells)
}

/// The same, tried one by one.
fn passing(alloc: Global, log: &Log, request: &RangeReq, cells: &[CellNo]) -> Mem<Vec<CellNo>>
    requires { AreRows (cells_of log.now.records) cells.now }
    ensures cells { IfOk result
        (λ found. found.items ≡ wanted_cells (cells_of log.now.records) request.now cells.now) }
    ensures room { IfOk result (λ found. vec_capacity found ≤ most_room (length found.items)) }
{
    let mut found = Growing::new(alloc);
    for cell in cells {
        if passes(log, request, *cell) {
            found.push(*cell)?;
        }
    }
    Ok(found.into_vec())
}

/// The row under a cell passes the filters. None of its bytes is read.
fn passes(log: &Log, request: &RangeReq, cell: CellNo) -> bool
    requires { IsSome (row_at (cells_of log.now.records) cell) }
    ensures { result ≡ row_passes request.now (row_at (cells_of log.now.records) cell) }
{
    let (create_revision, mod_revision) = log.revisions(cell);
    is_wanted(request, create_revision, mod_revision)
}

/// What is given of the rows under some cells, which ascend by key and pass the filters. In the
/// order of their keys the first ones alone are read, and in another one no more than about twice as many
/// rows as are given are held at a time.
fn rows_given(
    alloc: Global,
    log: &Log,
    request: &RangeReq,
    mut wanted: Vec<CellNo>,
) -> Mem<List<KeyValue>>
    requires rows { AreRows (cells_of log.now.records) wanted.items }
    requires ascend { IsStrictlySortedBy by_key (rows_of (cells_of log.now.records) wanted.items) }
    ensures { IfOk result (λ kvs. kvs ≡ given request.now (rows_of (cells_of log.now.records) wanted.items)) }
{
    let limit = limit_of(request, wanted.len());
    if is_by_key(request) {
        wanted.truncate(limit);
        let rows = rows_read(alloc, log, request, &wanted)?;
        return Ok(shown(alloc, request, rows));
    }
    let rows = first_rows(alloc, log, request, &wanted, limit, 0)?;
    Ok(shown(alloc, request, rows))
}

/// The rows under some cells, with their values where the range needs those. In the order of their keys
/// they are those that are given, so no other is read.
fn rows_read(alloc: Global, log: &Log, request: &RangeReq, cells: &[CellNo]) -> Mem<Vec<KeyValue>>
    requires rows { AreRows (cells_of log.now.records) cells.now }
    requires given { AllAreGiven request.now (rows_of (cells_of log.now.records) cells.now) }
    ensures { IfOk result
        (λ found. found.items ≡ map (read request.now) (rows_of (cells_of log.now.records) cells.now)) }
{
    if needs_values(request) {
        rows_under(alloc, log, cells)
    } else {
        keys_under(alloc, log, cells)
    }
}
