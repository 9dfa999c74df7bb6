//! Many changes given to one watch by takes.
use crate::watches::requests::puts;
use crate::watches::tenant::Tenant;
use anyhow::{Result, bail};
use etcd_types::PutReq;
use std::alloc::Global;
use std::time::CpuClock;

/// Changes that are given.
pub(crate) const CHANGES: u32 = 100_000;

/// How often it is timed. The least time counts, as the one that was disturbed least.
const ROUNDS: u32 = 5;

/// Nanoseconds of processor time that takes take for each change that they give, where a catch-up of so many
/// changes goes before each take, or none. The tenant is new.
pub(crate) fn time_of_change(
    rt: &impl CpuClock,
    alloc: Global,
    tenant: &mut Tenant,
    budget: u32,
) -> Result<u64> {
    put_often(alloc, tenant, &puts(alloc, 7, 1)?)?;
    let mut least = u64::MAX;
    for _ in 0..ROUNDS {
        tenant.open(alloc, 7, 2)?;
        let time = time_of_all(rt, alloc, tenant, budget)?;
        least = least.min(time);
        tenant.drop_watches(1);
    }
    Ok(least)
}

fn put_often(alloc: Global, tenant: &mut Tenant, requests: &[PutReq]) -> Result<()> {
    for _ in 0..CHANGES {
        tenant.put_all(alloc, requests)?;
    }
    Ok(())
}

/// The same for one watch, from its beginning to its first quiet take.
fn time_of_all(rt: &impl CpuClock, alloc: Global, tenant: &mut Tenant, budget: u32) -> Result<u64> {
    let mut given = 0usize;
    let begin = rt.process_cpu_time()?;
    for _ in 0..CHANGES {
        if budget > 0 {
            tenant.catch_up(budget);
        }
        let events = tenant.take(alloc, 0)?;
        if events == 0 {
            break;
        }
        given = given.saturating_add(events);
    }
    let spent = rt.process_cpu_time()?.saturating_sub(begin);
    if given != CHANGES as usize {
        bail!("not all changes are given");
    }
    let share = spent.as_nanos() / u128::from(CHANGES);
    Ok(u64::try_from(share).unwrap_or(u64::MAX))
}
