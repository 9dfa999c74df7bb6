//! The first rows of an order. No more than about twice as many are held at a time.
ghost use Rattle.std.specs.Prelude.{◌≡◌, ◌+◌, ◌*◌, ◌≤◌, length, vec_capacity};
ghost use Rattle.range_rows.specs.Taking.{AreEnough, NoneTies, first_of, most_held};

use crate::sorting::sort_rows;
use etcd_types::{KeyValue, RangeReq};

/// How many of some rows are held at most at a time, to find the first `limit` of them: room for more is never needed.
pub fn most_held(limit: usize, rows: usize) -> usize
    ensures { result ≡ most_held limit rows }
{
    if rows / 2 > limit {
        2 * limit + 1
    } else {
        rows
    }
}

/// Cuts rows to the first ones, where they are twice as many. Takes no memory.
pub fn keep_few(rows: &mut Vec<KeyValue>, request: &RangeReq, limit: usize)
    requires { NoneTies request.now rows.old.items }
    ensures enough { AreEnough request.now limit rows.old.items rows.new.items }
    ensures few { length rows.new.items ≤ 2 * limit }
    ensures fewer { length rows.new.items ≤ length rows.old.items }
    ensures room { vec_capacity rows.new ≡ vec_capacity rows.old }
{
    if rows.len() / 2 >= limit {
        keep_first(rows, request, limit);
    }
}

/// Leaves so many rows, the first ones in the order of a range, and in that order. Takes no memory.
pub fn keep_first(rows: &mut Vec<KeyValue>, request: &RangeReq, limit: usize)
    requires { NoneTies request.now rows.old.items }
    ensures first { rows.new.items ≡ first_of request.now limit rows.old.items }
    ensures room { vec_capacity rows.new ≡ vec_capacity rows.old }
{
    sort_rows(rows, request);
    rows.truncate(limit);
}
