//! Numbers in an order, with the place of each.
ghost use Rattle.std.specs.Prelude.{◌≡◌, ◌+◌, ◌<◌, ◌≤◌, ◌^◌, ℕ, IfOk, vec_capacity};
ghost use Rattle.cell_arena.specs.Order.{IsOrder, IsOrderIn, IsWider, place_of, swapped, count_of};

use etcd_types::Mem;
use std::alloc::Global;

#[derive(Drop)]
pub struct Order {
    pub order: Vec<u32>,
    pub place: Vec<u32>,
}

/// The numbers below this one, in order, with memory for as many.
pub(crate) fn new(alloc: Global, count: u32) -> Mem<Order>
    ensures { IfOk result (λ o. IsOrder o × (count_of o ≡ count)) }
{
    let mut order = Vec::with_capacity(alloc, count as usize)?;
    let mut place = Vec::with_capacity(alloc, count as usize)?;
    'numbering: for i in 0..count {
        order.push_reserved(i);
        place.push_reserved(i);
    }
    Ok(Order { order, place })
}

/// The same order, with memory for so many numbers.
pub(crate) fn wider(alloc: Global, o: &Order, most: u32) -> Mem<Order>
    requires order { IsOrder o.now }
    requires room { count_of o.now ≤ most }
    ensures { IfOk result (λ all. IsWider most o.now all) }
{
    let mut order = Vec::with_capacity(alloc, most as usize)?;
    let mut place = Vec::with_capacity(alloc, most as usize)?;
    'copying: for i in 0..o.order.len() {
        order.push_reserved(o.order[i]);
        place.push_reserved(o.place[i]);
    }
    Ok(Order { order, place })
}

/// One more number, the next, in the last place.
pub(crate) fn push(o: &mut Order)
    requires order { IsOrderIn (vec_capacity o.old.order) o.old }
    requires few { count_of o.old < 2 ^ 14 }
    requires room { count_of o.old < vec_capacity o.old.order }
    ensures order { IsOrderIn (vec_capacity o.old.order) o.new }
    ensures count { count_of o.new ≡ count_of o.old + 1 }
    ensures last { place_of o.new (count_of o.old) ≡ count_of o.old }
    ensures places { (q : ℕ) → q < count_of o.old → place_of o.new q ≡ place_of o.old q }
{
    let next = o.order.len() as u32;
    o.order.push_reserved(next);
    o.place.push_reserved(next);
}

/// Two places change their numbers.
pub(crate) fn swap(o: &mut Order, i: u32, j: u32)
    requires order { IsOrder o.old }
    requires i { i < count_of o.old }
    requires j { j < count_of o.old }
    ensures order { IsOrder o.new }
    ensures count { count_of o.new ≡ count_of o.old }
    ensures places { (q : ℕ) → q < count_of o.old → place_of o.new q ≡ swapped i j (place_of o.old q) }
{
    let a = o.order[i as usize];
    let b = o.order[j as usize];
    o.order[i as usize] = b;
    o.order[j as usize] = a;
    o.place[a as usize] = j;
    o.place[b as usize] = i;
}
