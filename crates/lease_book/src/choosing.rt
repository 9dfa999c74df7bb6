//! The ID that is chosen for a lease.
ghost use Rattle.std.specs.Prelude.{◌≡◌, ◌+◌, ◌≤◌, length};
ghost use Rattle.std.specs.List.Sorted.{IsStrictlySortedBy};
ghost use Rattle.etcd_types.specs.Limits.{last_lease_id};
ghost use Rattle.etcd_model.specs.Held.{by_id};
ghost use Rattle.etcd_model.specs.Leases.{free_id};
ghost use Rattle.lease_book.specs.Book.{leases_of};

use crate::book::Booked;
use crate::places::place_of;
use chunk_list::ChunkList;

/// The least number from the counter on that no lease has as its ID: the walk passes those that are taken.
pub(crate) fn choose_id(list: &ChunkList<Booked>, counter: u64) -> u64
    requires ascend { IsStrictlySortedBy by_id (leases_of list.now.items) }
    requires counter { counter ≤ last_lease_id }
    requires count { length list.now.items ≤ 4294967295 }
    ensures value { result ≡ free_id counter (leases_of list.now.items) }
    ensures within { result ≤ counter + length list.now.items }
{
    let mut id = counter;
    let mut place = place_of(list, counter as i64);
    'passing: while list.has_item(place) {
        if list.get(place).lease.id != id as i64 {
            return id;
        }
        id += 1;
        place = list.next(place);
    }
    id
}
