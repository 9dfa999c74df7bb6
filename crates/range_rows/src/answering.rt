//! What turns the rows of an interval into the answer of a range.
ghost use Rattle.std.specs.Prelude.{◌≡◌, ◌≤◌, false, map, pos};
ghost use Rattle.etcd_model.specs.Ranges.{is_within, without_value};
ghost use Rattle.range_rows.specs.Answering.{is_by_key, IsLimit, SaysMore, SaysWanted, shown, wants_all};
ghost use Rattle.range_rows.specs.Reading.{needs_values};

use etcd_types::{KeyValue, List, RangeReq, SortOrder, SortTarget};
use std::alloc::Global;

/// A row that was created and last put at these revisions passes the filters of the range.
pub fn is_wanted(request: &RangeReq, create_revision: u64, mod_revision: u64) -> bool
    ensures { SaysWanted request.now create_revision mod_revision result }
{
    is_within(
        request.min_mod_revision,
        request.max_mod_revision,
        mod_revision,
    ) && is_within(
        request.min_create_revision,
        request.max_create_revision,
        create_revision,
    )
}

/// The range has no filter.
pub fn wants_all(request: &RangeReq) -> bool
    ensures { result ≡ wants_all request.now }
{
    request.min_mod_revision == 0
        && request.max_mod_revision == 0
        && request.min_create_revision == 0
        && request.max_create_revision == 0
}

/// A bound of 0 is none.
fn is_within(low: i64, high: i64, revision: u64) -> bool
    ensures { result ≡ is_within low high (pos revision) }
{
    let revision = i128::from(revision);
    (low == 0 || i128::from(low) <= revision) && (high == 0 || revision <= i128::from(high))
}

/// The range is in the order of ascending keys.
pub fn is_by_key(request: &RangeReq) -> bool
    ensures { result ≡ is_by_key request.now }
{
    matches!(
        (request.sort_order, request.sort_target),
        (SortOrder::Unsorted | SortOrder::Ascend, SortTarget::Key)
    )
}

/// The range gives values, or sorts by them.
pub fn needs_values(request: &RangeReq) -> bool
    ensures { result ≡ needs_values request.now.keys_only request.now.sort_target }
{
    !request.keys_only || matches!(request.sort_target, SortTarget::Value)
}

/// How many rows are given, where it wants at most `count`.
pub fn limit_of(request: &RangeReq, count: usize) -> usize
    ensures limit { IsLimit request.now count result }
    ensures within { result ≤ count }
{
    match usize::try_from(request.limit) {
        Ok(limit) if limit > 0 => limit.min(count),
        _ => count,
    }
}

/// The limit cuts some of the rows that it wants and gives.
pub fn is_cut(request: &RangeReq, wanted: usize) -> bool
    requires { request.now.count_only ≡ false }
    ensures { SaysMore request.now wanted result }
{
    limit_of(request, wanted) < wanted
}

/// Rows as they are given: with no values where keys alone are asked for. Takes no memory.
pub fn shown(alloc: Global, request: &RangeReq, mut rows: Vec<KeyValue>) -> List<KeyValue>
    ensures { result ≡ map (shown request.now) rows.items }
{
    if request.keys_only {
        empty_values(alloc, &mut rows);
    }
    List::from_vec(rows)
}

/// Leaves the rows with no values.
fn empty_values(alloc: Global, rows: &mut [KeyValue])
    ensures { rows.new ≡ map without_value rows.old }
{
    for row in rows.iter_mut() {
        row.value = List::new(alloc);
    }
}
