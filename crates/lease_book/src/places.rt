//! Where a lease stands in a list by ascending ID.
ghost use Rattle.std.specs.Prelude.{◌≡◌, true, MatchOption, None};
ghost use Rattle.std.specs.List.Sorted.{IsStrictlySortedBy};
ghost use Rattle.chunk_list.specs.Chunked.{IsPlaceAt};
ghost use Rattle.etcd_model.specs.Held.{by_id};
ghost use Rattle.etcd_model.specs.Leases.{lease_at};
ghost use Rattle.etcd_model.specs.Operations.{has_lease};
ghost use Rattle.lease_book.specs.Book.{leases_of, ids_below, IsFoundAt};

use crate::book::Booked;
use chunk_list::{ChunkList, Place, Test};

/// Whether a lease has an ID below one that is sought.
#[derive(Clone, Copy)]
struct IdBelow(i64);

impl Test<Booked> for IdBelow {
    ghost use Rattle.std.specs.Prelude.{int_lt};

    ghost can = { λ s b. Unit {0} };

    ghost test = { λ s b. int_lt b.lease.id s.0 };

    fn holds(&self, booked: Booked) -> bool {
        booked.lease.id < self.0
    }
}

/// The place of the first lease whose ID is not below this one.
pub(crate) fn place_of(list: &ChunkList<Booked>, id: i64) -> Place
    requires { IsStrictlySortedBy by_id (leases_of list.now.items) }
    ensures { IsPlaceAt list.now result (ids_below (leases_of list.now.items) id) }
{
    list.search(&IdBelow(id))
}

/// The place of the lease with this ID, which is there.
pub(crate) fn place_with(list: &ChunkList<Booked>, id: i64) -> Place
    requires ascend { IsStrictlySortedBy by_id (leases_of list.now.items) }
    requires has { has_lease (leases_of list.now.items) id ≡ true }
    ensures { IsFoundAt list.now id result }
{
    place_of(list, id)
}

/// The place of the lease with this ID.
pub(crate) fn find(list: &ChunkList<Booked>, id: i64) -> Option<Place>
    requires { IsStrictlySortedBy by_id (leases_of list.now.items) }
    ensures { MatchOption result (lease_at (leases_of list.now.items) id ≡ None) (IsFoundAt list.now id) }
{
    let place = place_of(list, id);
    if list.has_item(place) && list.get(place).lease.id == id {
        Some(place)
    } else {
        None
    }
}
