//! Puts beside watches.
use crate::watches::requests::puts;
use crate::watches::tenant::Tenant;
use anyhow::Result;
use etcd_types::PutReq;
use std::alloc::Global;
use std::time::CpuClock;

/// How often it is timed. The least time counts, as the one that was disturbed least.
const ROUNDS: u32 = 50;

/// Puts of one round: fewer than a ring has places, so that watches which were told of all stay synced.
const PUTS: u32 = 200;

/// Nanoseconds of processor time that an overwriting put takes, beside so many synced watches: of the key
/// that is put, or each of a key that is not. The tenant is new.
pub(crate) fn time_of_put(
    rt: &impl CpuClock,
    alloc: Global,
    tenant: &mut Tenant,
    watches: u8,
    is_watched: bool,
) -> Result<u64> {
    tenant.put_all(alloc, &puts(alloc, 0, 1_000)?)?;
    for number in 0..watches {
        let watched = if is_watched {
            7
        } else {
            1_000 + u32::from(number)
        };
        tenant.open(alloc, watched, 0)?;
    }
    least_time(rt, alloc, tenant, watches, &puts(alloc, 7, 1)?)
}

/// The least time of one of these puts, where each watch is told of all between the rounds.
fn least_time(
    rt: &impl CpuClock,
    alloc: Global,
    tenant: &mut Tenant,
    watches: u8,
    requests: &[PutReq],
) -> Result<u64> {
    let mut least = u64::MAX;
    for _ in 0..ROUNDS {
        let begin = rt.process_cpu_time()?;
        for _ in 0..PUTS {
            tenant.put_all(alloc, requests)?;
        }
        let spent = rt.process_cpu_time()?.saturating_sub(begin);
        let share = spent.as_nanos() / u128::from(PUTS);
        least = least.min(u64::try_from(share).unwrap_or(u64::MAX));
        tenant.take_all(alloc, watches)?;
    }
    Ok(least)
}
