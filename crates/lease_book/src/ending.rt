//! The lease that ends first.
ghost use Rattle.std.specs.Prelude.{◌≡◌, ◌≤◌, [], length, filter, nat_le, slice_get, vec_capacity};
ghost use Rattle.std.specs.List.Sorted.{IsStrictlySortedBy};
ghost use Rattle.etcd_model.specs.Held.{by_id};
ghost use Rattle.etcd_model.specs.Leases.{end_cmp, run_out};
ghost use Rattle.etcd_model.specs.Order.{in_order};
ghost use Rattle.lease_book.specs.Book.{leases_of};
ghost use Rattle.lease_book.specs.Ending.{first_end, sooner_due};

use crate::book::Booked;
use chunk_list::ChunkList;
use etcd_model::state::Lease;
use std::cmp::Ordering;

/// Of the leases that have run out at a moment, the one that ends first.
pub(crate) fn first_due(list: &ChunkList<Booked>, moment: u64) -> Option<Lease>
    ensures { result ≡ slice_get (run_out moment (leases_of list.now.items)) 0 }
{
    let mut first = None;
    let mut place = list.start();
    'passing: while list.has_item(place) {
        first = first_of_two(moment, first, list.get(place).lease);
        place = list.next(place);
    }
    first
}

/// Puts the leases that have run out at a moment into an empty vector, in order of their IDs.
pub(crate) fn collect(list: &ChunkList<Booked>, moment: u64, ended: &mut Vec<Lease>)
    requires empty { ended.old.items ≡ [] }
    requires room { length list.now.items ≤ vec_capacity ended.old }
    ensures items { ended.new.items ≡ filter (λ l. nat_le l.end moment) (leases_of list.now.items) }
    ensures capacity { vec_capacity ended.new ≡ vec_capacity ended.old }
{
    let mut place = list.start();
    'passing: while list.has_item(place) {
        let lease = list.get(place).lease;
        place = list.next(place);
        if lease.end <= moment {
            ended.push_reserved(lease);
        }
    }
}

/// Puts leases of different IDs in the order in which they end.
pub(crate) fn sort_by_end(leases: &mut [Lease])
    requires { IsStrictlySortedBy by_id leases.old }
    ensures { leases.new ≡ in_order end_cmp leases.old }
{
    leases.sort_unstable_by(|lease, other| compare_ends(*lease, *other));
}

/// The end that comes first, or the last moment of a `u64`.
pub(crate) fn soonest_end(list: &ChunkList<Booked>) -> u64
    ensures { result ≡ first_end 18446744073709551615 (leases_of list.now.items) }
{
    let mut soonest = u64::MAX;
    let mut place = list.start();
    'passing: while list.has_item(place) {
        soonest = soonest.min(list.get(place).lease.end);
        place = list.next(place);
    }
    soonest
}

/// The first so far, or a lease that has run out and ends before it.
fn first_of_two(moment: u64, first: Option<Lease>, lease: Lease) -> Option<Lease>
    ensures { result ≡ sooner_due moment first lease }
{
    if lease.end > moment {
        return first;
    }
    match first {
        Some(other) => {
            if compare_ends(lease, other) == Ordering::Greater {
                Some(other)
            } else {
                Some(lease)
            }
        }
        None => Some(lease),
    }
}

/// How two leases stand in the order in which they end: by their ends, and then by their IDs.
fn compare_ends(lease: Lease, other: Lease) -> Ordering
    ensures { result ≡ end_cmp lease other }
{
    lease.end.cmp(&other.end).then(lease.id.cmp(&other.id))
}
