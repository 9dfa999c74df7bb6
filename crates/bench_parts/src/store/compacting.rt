//! Compacting.
ghost use Rattle.std.specs.Prelude.{◌<◌, length};

use crate::store::tenant::Tenant;
use anyhow::Result;
use etcd_types::PutReq;
use std::alloc::Global;
use std::time::CpuClock;

/// How often it is timed. The least time counts, as the one that was disturbed least.
const ROUNDS: u32 = 9;

/// Nanoseconds of processor time that a compaction takes for each record that it drops, where each of these
/// puts has overwritten a key since the last one.
pub(crate) fn time_of_drop(
    rt: &impl CpuClock,
    alloc: Global,
    tenant: &mut Tenant,
    puts: &[PutReq],
) -> Result<u64>
    requires { 0 < length puts.now }
{
    tenant.compact();
    let mut least = u64::MAX;
    for _ in 0..ROUNDS {
        for request in puts {
            tenant.put(alloc, request)?;
        }
        let begin = rt.process_cpu_time()?;
        tenant.compact();
        let spent = rt.process_cpu_time()?.saturating_sub(begin);
        let share = spent.as_nanos() / puts.len() as u128;
        least = least.min(u64::try_from(share).unwrap_or(u64::MAX));
    }
    Ok(least)
}
