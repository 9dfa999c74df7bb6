//! Takes: quiet ones, and those of sixteen revisions.
use crate::watches::requests::puts;
use crate::watches::tenant::Tenant;
use anyhow::{Result, bail};
use std::alloc::Global;
use std::time::CpuClock;

/// How often it is timed. The least time counts, as the one that was disturbed least.
const ROUNDS: u32 = 50;

/// Watches that are taken from in one round.
const WATCHES: u8 = 64;

/// Revisions that one take gives.
const REVISIONS: u32 = 16;

/// Nanoseconds of processor time that a take takes, over those of all slots, where each gives so many events.
fn time_of_takes(
    rt: &impl CpuClock,
    alloc: Global,
    tenant: &mut Tenant,
    events: usize,
) -> Result<u64> {
    let begin = rt.process_cpu_time()?;
    for slot in 0..WATCHES {
        if tenant.take(alloc, slot)? != events {
            bail!("a take gives other events");
        }
    }
    let spent = rt.process_cpu_time()?.saturating_sub(begin);
    let share = spent.as_nanos() / u128::from(WATCHES);
    Ok(u64::try_from(share).unwrap_or(u64::MAX))
}

/// Opens watches of one key, from a revision on.
fn open_all(alloc: Global, tenant: &mut Tenant, start: i64) -> Result<()> {
    for _ in 0..WATCHES {
        tenant.open(alloc, 7, start)?;
    }
    Ok(())
}

/// The time of a quiet take of a synced watch, in a store of so many keys. The tenant is new.
pub(crate) fn time_of_quiet(
    rt: &impl CpuClock,
    alloc: Global,
    tenant: &mut Tenant,
    keys: u32,
) -> Result<u64> {
    tenant.put_all(alloc, &puts(alloc, 0, keys)?)?;
    open_all(alloc, tenant, 0)?;
    let mut least = u64::MAX;
    for _ in 0..ROUNDS {
        let time = time_of_takes(rt, alloc, tenant, 0)?;
        least = least.min(time);
    }
    Ok(least)
}

/// The time of a take of sixteen revisions, which a catch-up put into the ring before, or not. The tenant is
/// new.
pub(crate) fn time_of_events(
    rt: &impl CpuClock,
    alloc: Global,
    tenant: &mut Tenant,
    is_in_ring: bool,
) -> Result<u64> {
    tenant.put_all(alloc, &puts(alloc, 0, 1_000)?)?;
    let start = tenant.next_revision();
    for _ in 0..REVISIONS {
        tenant.put_all(alloc, &puts(alloc, 7, 1)?)?;
    }
    let mut least = u64::MAX;
    for _ in 0..ROUNDS {
        open_all(alloc, tenant, start)?;
        if is_in_ring {
            tenant.catch_up(u32::MAX);
        }
        let time = time_of_takes(rt, alloc, tenant, REVISIONS as usize)?;
        least = least.min(time);
        tenant.drop_watches(WATCHES);
    }
    Ok(least)
}
