//! What is measured, and what is said of it.
use crate::watches::giving::{CHANGES, time_of_change};
use crate::watches::putting::time_of_put;
use crate::watches::taking::{time_of_events, time_of_quiet};
use crate::watches::tenant::Tenant;
use anyhow::Result;
use std::alloc::Global;
use std::time::CpuClock;

const PUT: &str = "overwrite a key, beside no watch";

const OF_OTHERS: &str = "beside synced watches of other keys:";

const OF_THE_KEY: &str = "beside synced watches of the key:";

const QUIET: &str = "a quiet take, where the store has 1000 keys";

const QUIET_OF_MORE: &str = "where it has 100000";

const IN_THE_RING: &str = "a take of 16 revisions that are in the ring";

const BY_A_SCAN: &str = "by a scan";

const GIVEN: &str = "one of many changes that takes give";

const CAUGHT_UP: &str = "with a catch-up of 256 before each take";

/// Prints a line: the time, and how many times the first of its part it is.
fn print_time(rt: &impl Print, name: &str, time: u64, first: u64) -> Result<()> {
    let ratio = time.saturating_mul(100) / first.max(1);
    println!(rt; "{name:<48}{time:>12}{:>7}.{:02}", ratio / 100, ratio % 100)?;
    Ok(())
}

/// What is timed.
#[derive(Clone, Copy)]
enum Timed {
    /// A put beside so many synced watches: of its key, or of others.
    Put { watches: u8, is_watched: bool },
    /// A quiet take in a store of so many keys.
    Quiet { keys: u32 },
    /// A take of sixteen revisions that are in the ring, or not.
    Events { is_in_ring: bool },
    /// A change that takes give, with a catch-up of so many before each take, or none.
    Change { budget: u32 },
}

impl Timed {
    fn put(watches: u8, is_watched: bool) -> Timed {
        Timed::Put {
            watches,
            is_watched,
        }
    }

    /// Nanoseconds of processor time, on a tenant of its own.
    fn time(self, rt: &impl CpuClock, alloc: Global) -> Result<u64> {
        let mut tenant = Tenant::new(alloc)?;
        self.time_on(rt, alloc, &mut tenant)
    }

    fn time_on(self, rt: &impl CpuClock, alloc: Global, tenant: &mut Tenant) -> Result<u64> {
        match self {
            Timed::Put {
                watches,
                is_watched,
            } => time_of_put(rt, alloc, tenant, watches, is_watched),
            Timed::Quiet { keys } => time_of_quiet(rt, alloc, tenant, keys),
            Timed::Events { is_in_ring } => time_of_events(rt, alloc, tenant, is_in_ring),
            Timed::Change { budget } => time_of_change(rt, alloc, tenant, budget),
        }
    }
}

/// Measures all, and prints a line for each.
pub(crate) fn measure_all(rt: &(impl Print + CpuClock + Alloc<A = Global>)) -> Result<()> {
    println!(rt; "{:<48}{:>12}{:>10}", "nanoseconds", "time", "ratio")?;
    measure_puts(rt)?;
    measure_takes(rt)?;
    let given = Timed::Change { budget: 0 }.time(rt, rt.alloc())?;
    print_time(rt, GIVEN, given, given)?;
    let caught_up = Timed::Change { budget: 256 }.time(rt, rt.alloc())?;
    print_time(rt, CAUGHT_UP, caught_up, given)
}

fn measure_puts(rt: &(impl Print + CpuClock + Alloc<A = Global>)) -> Result<()> {
    let alone = Timed::put(0, false).time(rt, rt.alloc())?;
    print_time(rt, PUT, alone, alone)?;
    for (name, is_watched) in [(OF_OTHERS, false), (OF_THE_KEY, true)] {
        println!(rt; "{name}")?;
        for (label, watches) in [("  1", 1), ("  64", 64)] {
            let time = Timed::put(watches, is_watched).time(rt, rt.alloc())?;
            print_time(rt, label, time, alone)?;
        }
    }
    Ok(())
}

fn measure_takes(rt: &(impl Print + CpuClock + Alloc<A = Global>)) -> Result<()> {
    let quiet = Timed::Quiet { keys: 1_000 }.time(rt, rt.alloc())?;
    print_time(rt, QUIET, quiet, quiet)?;
    let of_more = Timed::Quiet { keys: 100_000 }.time(rt, rt.alloc())?;
    print_time(rt, QUIET_OF_MORE, of_more, quiet)?;
    let in_ring = Timed::Events { is_in_ring: true }.time(rt, rt.alloc())?;
    print_time(rt, IN_THE_RING, in_ring, in_ring)?;
    let by_scan = Timed::Events { is_in_ring: false }.time(rt, rt.alloc())?;
    print_time(rt, BY_A_SCAN, by_scan, in_ring)
}
