//! Ranges of an interval in which puts are pending, whose cells are walked: no more are listed than are given and put.
ghost use Rattle.std.specs.Prelude.{◌≡◌, ◌+◌, ◌<◌, ◌≤◌, ◌^◌, IfOk, IsOk, filter, length, map, take, true, vec_capacity};
ghost use Rattle.std.specs.List.Sorted.{IsStrictlySortedBy};
ghost use Rattle.etcd_model.specs.Order.{by_key, in_order};
ghost use Rattle.etcd_model.specs.Ranges.{range_reply};
ghost use Rattle.range_rows.specs.Taking.{HaveOwnKeys};
ghost use Rattle.revision_store.specs.Mixing.{TellKeys, is_created, needs_first, overlaid, unput_cells};
ghost use Rattle.revision_store.specs.Pending.{AreRows};
ghost use Rattle.revision_store.specs.Ranging.{rows_of};
ghost use Rattle.revision_store.specs.Recorded.{cells_of};

use crate::log::Log;
use crate::mixing::mixed_given;
use crate::pending_puts::take_away;
use crate::ranging::reply_of;
use crate::rows::first_cells;
use chunk_list::Walk;
use etcd_types::{CellNo, KeyValue, List, Mem, OpReply, RangeReq};
use range_rows::{is_by_key, is_cut, limit_of, wants_all};
use std::alloc::Global;

/// What a range is answered at a revision, where its interval has the rows under some cells, which ascend by key,
/// with those of some puts in the places of those of their keys. The cells that are neither given nor put are counted
/// alone.
pub(crate) fn overlaid_reply(
    alloc: Global,
    log: &Log,
    request: &RangeReq,
    cells: Walk<'_, CellNo>,
    puts: &[&KeyValue],
    revision: u64,
) -> Mem<OpReply>
    requires rows { AreRows (cells_of log.now.records) cells }
    requires ascend { IsStrictlySortedBy by_key (rows_of (cells_of log.now.records) cells) }
    requires few { length cells ≤ 2 ^ 20 }
    requires own { HaveOwnKeys (map (λ row. row.now) puts.now) }
    requires tell { TellKeys (map (λ row. row.now) puts.now) (rows_of (cells_of log.now.records) cells) }
    requires first { needs_first request.now ≡ true }
    requires revision { revision < 2 ^ 63 }
    ensures sure_count { request.now.count_only ≡ true → IsOk result }
    ensures reply { IfOk result
        (λ reply. reply
        ≡ range_reply revision request.now
        (in_order by_key
        (overlaid (map (λ row. row.now) puts.now) (rows_of (cells_of log.now.records) cells.entry)))) }
{
    let count = cells.len() + created_count(puts);
    if request.count_only {
        return Ok(reply_of(revision, count as u64, List::new(alloc), false));
    }
    let more = is_cut(request, count);
    let first = first_unput(alloc, log, cells, puts, limit_of(request, count))?;
    let kvs = mixed_given(alloc, log, request, first, puts)?;
    Ok(reply_of(revision, count as u64, kvs, more))
}

/// Of its rows, as their keys ascend, a range needs the first ones alone, and how many there are: it only counts, or it
/// has no filter and no other order.
pub(crate) fn needs_first(request: &RangeReq) -> bool
    ensures { result ≡ needs_first request.now }
{
    request.count_only || (wants_all(request) && is_by_key(request))
}

/// How many of some rows are of keys that were created with them.
fn created_count(rows: &[&KeyValue]) -> usize
    ensures count { result ≡ length (filter is_created (map (λ row. row.now) rows.now)) }
    ensures within { result ≤ length rows.now }
{
    let mut count = 0;
    for row in rows {
        if row.create_revision == row.mod_revision {
            count += 1;
        }
    }
    count
}

/// Those of some cells, which ascend by key, whose keys none of some puts has: so many of the first ones at least, if
/// there are so many. A put takes one cell away at most, so for each put one more is looked at.
fn first_unput(
    alloc: Global,
    log: &Log,
    cells: Walk<'_, CellNo>,
    puts: &[&KeyValue],
    count: usize,
) -> Mem<Vec<CellNo>>
    requires rows { AreRows (cells_of log.now.records) cells }
    requires ascend { IsStrictlySortedBy by_key (rows_of (cells_of log.now.records) cells) }
    requires few { count + length puts.now < 2 ^ 64 }
    ensures cells { IfOk result
        (λ found. found.items
        ≡ unput_cells (cells_of log.now.records) (map (λ row. row.now) puts.now)
        (take (count + length puts.now) cells.entry)) }
    ensures room { IfOk result (λ found. vec_capacity found ≤ count + length puts.now) }
{
    let some = cells.len().min(count + puts.len());
    let mut first = first_cells(alloc, cells, some)?;
    take_away(log, &mut first, puts);
    Ok(first)
}
