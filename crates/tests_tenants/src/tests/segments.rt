//! Which ticket drew each segment of a pool.
use cell_arena::{Fields, Kind, Region};
use etcd_types::Mem;
use segment_pool::{Desk, Pool};
use std::alloc::Global;
use std::process::Abort;

fn owner(layout: &[Option<u32>], segment: u32) -> Option<u32> {
    layout.get(segment as usize).copied().flatten()
}

/// The ticket of this number drew a segment, or none did.
fn assert_owner(
    rt: &impl Abort,
    alloc: Global,
    pool: &Pool,
    segment: u32,
    ticket: Option<u32>,
) -> Mem<()> {
    let layout = pool.layout(alloc)?;
    assert_eq!(rt; owner(layout.as_slice(), segment), ticket);
    Ok(())
}

#[test]
fn layout_names_who_drew(rt: HostRuntime) -> Mem<()> {
    let mut pool = Pool::new(rt.alloc(), 2)?;
    let mut one = pool.reserve(1).expect(&rt, "two are unreserved");
    let mut two = pool.reserve(1).expect(&rt, "one is unreserved");
    let first = pool.draw(&mut one);
    let second = pool.draw(&mut two);
    let (a, b) = (first.number, second.number);
    assert_owner(&rt, rt.alloc(), &pool, a, Some(0))?;
    assert_owner(&rt, rt.alloc(), &pool, b, Some(1))?;
    pool.give_back(&mut one, first);
    assert_owner(&rt, rt.alloc(), &pool, a, None)?;
    assert_owner(&rt, rt.alloc(), &pool, b, Some(1))
}

/// Who drew each segment of a pool, once a region over a desk filled two of them and let the record
/// of one go.
fn layout_left(alloc: Global, first_goes: bool) -> Mem<Vec<Option<u32>>> {
    let mut pool = Pool::new(alloc, 3)?;
    let Ok(ticket) = pool.reserve(2) else {
        return pool.layout(alloc);
    };
    let mut desk = Desk { pool, ticket };
    let mut region = Region::new(alloc, 128)?;
    let fields = Fields {
        revision: 1,
        create_revision: 1,
        version: 1,
        lease: 0,
    };
    let value = [7; 3024];
    let first = region.place(&mut desk, Kind::Put, fields, b"", value.as_slice());
    let second = region.place(&mut desk, Kind::Put, fields, b"", value.as_slice());
    let gone = if first_goes { first } else { second };
    if region.has(gone) {
        region.release(&mut desk, gone);
    }
    desk.pool.layout(alloc)
}

#[test]
fn a_region_gives_back_what_it_drew(rt: HostRuntime) -> Mem<()> {
    let layout = layout_left(rt.alloc(), true)?;
    assert_eq!(rt; layout.as_slice(), [None, Some(0), None].as_slice());
    let layout = layout_left(rt.alloc(), false)?;
    assert_eq!(rt; layout.as_slice(), [None, None, Some(0)].as_slice());
    Ok(())
}
