//! What is measured, and what is said of it.
ghost use Rattle.std.specs.Prelude.{◌<◌};

use crate::store::compacting::time_of_drop;
use crate::store::filled::Filled;
use crate::store::getting::Getting;
use crate::store::keys::Keys;
use crate::store::putting::Putting;
use crate::store::ranging::Ranging;
use crate::timing::{print_heading, print_times};
use anyhow::Result;
use etcd_types::{PutReq, RangeReq};
use std::alloc::Global;
use std::time::CpuClock;

const GET: &str = "get a key";

const RANGE: &str = "get a range of 100 keys";

const OVERWRITE: &str = "overwrite a key";

const NEW: &str = "put a new key";

const COMPACT: &str = "compact, for each record that is dropped";

/// Keys and lengths of their values. More keys with the longer values do not fit into a store.
const SIZES: [(u32, usize); 5] = [
    (1_000, 32),
    (30_000, 32),
    (300_000, 32),
    (1_000, 100),
    (30_000, 100),
];

/// Measures all, and prints a line for each.
pub(crate) fn measure_all(rt: &(impl Print + CpuClock + Alloc<A = Global>)) -> Result<()> {
    for (count, value_len) in SIZES {
        println!(rt; "{count} keys of 16 bytes with values of {value_len} bytes")?;
        print_heading(rt, "store", "map")?;
        if 0 < count {
            measure_size(rt, Keys { count, value_len })?;
        }
    }
    Ok(())
}

/// Measures all at one size.
fn measure_size(rt: &(impl Print + CpuClock + Alloc<A = Global>), keys: Keys) -> Result<()> {
    let mut filled = Filled::new(rt.alloc())?;
    measure_filled(rt, keys, &mut filled)
}

fn measure_filled(
    rt: &(impl Print + CpuClock + Alloc<A = Global>),
    keys: Keys,
    filled: &mut Filled,
) -> Result<()> {
    let alloc = rt.alloc();
    filled.fill(alloc, keys)?;
    measure_getting(rt, filled, keys.gets(alloc, keys.count.min(10_000))?)?;
    measure_ranging(rt, filled, keys.ranges(alloc, 500)?)?;
    let turns = (keys.count / 50).clamp(1, 1_000);
    measure_putting(rt, OVERWRITE, filled, keys.puts(alloc, 10 * turns)?, turns)?;
    measure_putting(rt, NEW, filled, keys.new_puts(alloc, 10 * turns)?, turns)?;
    measure_compacting(rt, keys, filled)
}

fn measure_getting(
    rt: &(impl Print + CpuClock + Alloc<A = Global>),
    filled: &Filled,
    gets: Vec<RangeReq>,
) -> Result<()> {
    print_times(rt, GET, &mut Getting::new(filled, &gets), 10_000)
}

fn measure_ranging(
    rt: &(impl Print + CpuClock + Alloc<A = Global>),
    filled: &Filled,
    ranges: Vec<RangeReq>,
) -> Result<()> {
    print_times(rt, RANGE, &mut Ranging::new(filled, &ranges), 500)
}

fn measure_putting(
    rt: &(impl Print + CpuClock + Alloc<A = Global>),
    name: &str,
    filled: &mut Filled,
    puts: Vec<PutReq>,
    turns: u32,
) -> Result<()>
    requires { 0 < turns }
{
    print_times(rt, name, &mut Putting::new(filled, &puts), turns)
}

/// Measures a compaction that drops half as many records as there are keys.
fn measure_compacting(
    rt: &(impl Print + CpuClock + Alloc<A = Global>),
    keys: Keys,
    filled: &mut Filled,
) -> Result<()> {
    let alloc = rt.alloc();
    let puts = keys.puts(alloc, keys.count / 2)?;
    if puts.is_empty() {
        return Ok(());
    }
    let time = time_of_drop(rt, alloc, &mut filled.tenant, &puts)?;
    println!(rt; "{COMPACT:<40}{time:>12}")?;
    Ok(())
}
