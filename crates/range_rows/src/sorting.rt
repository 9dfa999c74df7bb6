//! The order that a range is asked in.
ghost use Rattle.std.specs.Prelude.{◌≡◌};
ghost use Rattle.etcd_model.specs.Order.{in_order};
ghost use Rattle.etcd_model.specs.Ranges.{row_cmp, target_cmp};
ghost use Rattle.range_rows.specs.Taking.{NoneTies, row_order};

use etcd_types::{KeyValue, RangeReq, SortOrder, SortTarget};
use std::cmp::Ordering;

/// Puts rows in the order of a range. Takes no memory.
pub(crate) fn sort_rows(rows: &mut [KeyValue], request: &RangeReq)
    requires { NoneTies request.now rows.old }
    ensures { rows.new ≡ in_order (row_order request.now) rows.old }
{
    let order = request.sort_order;
    let target = request.sort_target;
    rows.sort_unstable_by(|a, b| compare(a, b, order, target));
}

/// How two rows stand to each other: those that tie by the target ascend by key.
fn compare(a: &KeyValue, b: &KeyValue, order: SortOrder, target: SortTarget) -> Ordering
    ensures { result ≡ row_cmp order target a.now b.now }
{
    let by_target = compare_targets(a, b, target);
    let by_target = match order {
        SortOrder::Unsorted | SortOrder::Ascend => by_target,
        SortOrder::Descend => by_target.reverse(),
    };
    by_target.then(a.key.as_slice().cmp(b.key.as_slice()))
}

/// How two rows stand to each other by the target alone.
fn compare_targets(a: &KeyValue, b: &KeyValue, target: SortTarget) -> Ordering
    ensures { result ≡ target_cmp target a.now b.now }
{
    match target {
        SortTarget::Key => a.key.as_slice().cmp(b.key.as_slice()),
        SortTarget::Version => a.version.cmp(&b.version),
        SortTarget::Create => a.create_revision.cmp(&b.create_revision),
        SortTarget::Mod => a.mod_revision.cmp(&b.mod_revision),
        SortTarget::Value => a.value.as_slice().cmp(b.value.as_slice()),
    }
}
