//! Ranges of an interval in which puts are pending: of the rows under some cells, and of those of the puts.
ghost use Rattle.std.specs.Prelude.{◌≡◌, ◌+◌, ◌++◌, ◌<◌, ◌≤◌, ◌^◌, IfOk, filter, length, map, vec_capacity};
ghost use Rattle.std.specs.List.Sorted.{IsStrictlySortedBy};
ghost use Rattle.etcd_model.specs.Order.{by_key, in_order};
ghost use Rattle.etcd_model.specs.Ranges.{is_wanted, range_reply};
ghost use Rattle.range_rows.specs.Answering.{given};
ghost use Rattle.range_rows.specs.Taking.{HaveOwnKeys};
ghost use Rattle.revision_store.specs.Pending.{AreRows};
ghost use Rattle.range_rows.specs.Reading.{read};
ghost use Rattle.revision_store.specs.Ranging.{rows_of};
ghost use Rattle.revision_store.specs.Recorded.{cells_of};
ghost use Rattle.range_rows.specs.Taking.{NoneTies, first_of, most_held};
ghost use Rattle.revision_store.specs.Room.{most_room};

use crate::growing::Growing;
use crate::log::Log;
use crate::ranging::{reply_of, wanted};
use crate::taking::first_rows;
use etcd_types::{CellNo, CopyOf, KeyValue, List, Mem, OpReply, RangeReq};
use range_rows::{
    is_by_key, is_cut, is_wanted, keep_few, keep_first, limit_of, needs_values, shown,
};
use std::alloc::Global;

/// What a range is answered at a revision, where its interval has the rows under some cells, which
/// ascend by key, and those of some puts, no two of one key. Those that are only counted are not read.
pub(crate) fn mixed_reply(
    alloc: Global,
    log: &Log,
    request: &RangeReq,
    cells: Vec<CellNo>,
    puts: &[&KeyValue],
    revision: u64,
) -> Mem<OpReply>
    requires rows { AreRows (cells_of log.now.records) cells.items }
    requires ascend { IsStrictlySortedBy by_key (rows_of (cells_of log.now.records) cells.items) }
    requires apart { HaveOwnKeys
        (rows_of (cells_of log.now.records) cells.items ++ map (λ row. row.now) puts.now) }
    requires revision { revision < 2 ^ 63 }
    ensures { IfOk result
        (λ reply. reply
        ≡ range_reply revision request.now
        (in_order by_key
        (rows_of (cells_of log.now.records) cells.items ++ map (λ row. row.now) puts.now))) }
{
    let count = (cells.len() + puts.len()) as u64;
    if request.count_only {
        return Ok(reply_of(revision, count, List::new(alloc), false));
    }
    let cells = wanted(alloc, log, request, cells)?;
    let puts = wanted_puts(alloc, request, puts)?;
    let more = is_cut(request, cells.len() + puts.len());
    let kvs = mixed_given(alloc, log, request, cells, &puts)?;
    Ok(reply_of(revision, count, kvs, more))
}

/// Those of some rows that pass the filters.
fn wanted_puts<'a>(
    alloc: Global,
    request: &RangeReq,
    puts: &[&'a KeyValue],
) -> Mem<Vec<&'a KeyValue>>
    ensures puts { IfOk result
        (λ found. map (λ row. row.now) found.items
        ≡ filter (is_wanted request.now) (map (λ row. row.now) puts.now)) }
    ensures room { IfOk result (λ found. vec_capacity found ≤ most_room (length found.items)) }
{
    let mut found = Growing::new(alloc);
    for put in puts {
        if is_wanted(request, put.create_revision, put.mod_revision) {
            found.push(*put)?;
        }
    }
    Ok(found.into_vec())
}

/// What is given of the rows under some cells, which ascend by key, and of those of some puts, where all
/// pass the filters. Of those under cells in the order of keys no more are read than are given.
pub(crate) fn mixed_given(
    alloc: Global,
    log: &Log,
    request: &RangeReq,
    mut cells: Vec<CellNo>,
    puts: &[&KeyValue],
) -> Mem<List<KeyValue>>
    requires rows { AreRows (cells_of log.now.records) cells.items }
    requires ascend { IsStrictlySortedBy by_key (rows_of (cells_of log.now.records) cells.items) }
    requires apart { HaveOwnKeys
        (rows_of (cells_of log.now.records) cells.items ++ map (λ row. row.now) puts.now) }
    ensures { IfOk result
        (λ kvs. kvs
        ≡ given request.now
        (rows_of (cells_of log.now.records) cells.items ++ map (λ row. row.now) puts.now)) }
{
    let limit = limit_of(request, cells.len() + puts.len());
    if is_by_key(request) {
        cells.truncate(limit);
    }
    let first = first_rows(alloc, log, request, &cells, limit, puts.len())?;
    let first = first_with(alloc, request, first, puts, limit)?;
    Ok(shown(alloc, request, first))
}

/// So many of some rows and of those of some puts, the first ones in the order of a range. For those that are held at
/// a time there is room.
fn first_with(
    alloc: Global,
    request: &RangeReq,
    mut first: Vec<KeyValue>,
    puts: &[&KeyValue],
    limit: usize,
) -> Mem<Vec<KeyValue>>
    requires apart { NoneTies request.now
        (first.items ++ map (read request.now) (map (λ row. row.now) puts.now)) }
    requires room { most_held limit (length first.items + length puts.now) ≤ vec_capacity first }
    ensures rows { IfOk result
        (λ found. found.items
        ≡ first_of request.now limit
        (first.items ++ map (read request.now) (map (λ row. row.now) puts.now))) }
    ensures room { IfOk result (λ found. vec_capacity found ≡ vec_capacity first) }
{
    for put in puts {
        keep_few(&mut first, request, limit);
        first.push_reserved(put_read(alloc, request, put)?);
    }
    keep_first(&mut first, request, limit);
    Ok(first)
}

/// A row again, with its value where the range needs that.
fn put_read(alloc: Global, request: &RangeReq, row: &KeyValue) -> Mem<KeyValue>
    ensures { IfOk result (λ found. found ≡ read request.now row.now) }
{
    if needs_values(request) {
        return row.copy_of(alloc);
    }
    Ok(KeyValue {
        key: row.key.copy_of(alloc)?,
        create_revision: row.create_revision,
        mod_revision: row.mod_revision,
        version: row.version,
        value: List::new(alloc),
        lease: row.lease,
    })
}
