//! What is measured, and what is said of it.
use crate::registry::calling::{CALLS, Spread, time_of_run};
use crate::registry::tenants::Asked;
use anyhow::Result;
use std::alloc::Global;
use std::rt::Clock;
use std::sync::Wait;
use std::thread::Threads;
use std::time::Duration;

/// How often each number of threads is timed. The least time counts, as the one that was disturbed least.
const ROUNDS: u32 = 9;

const LINES: [(&str, Asked, Spread); 4] = [
    (
        "read a key, each on its own tenant",
        Asked::Read,
        Spread::Apart,
    ),
    (
        "read a key, all on one tenant",
        Asked::Read,
        Spread::Together,
    ),
    (
        "put a key, each on its own tenant",
        Asked::Put,
        Spread::Apart,
    ),
    ("put a key, all on one tenant", Asked::Put, Spread::Together),
];

/// Measures all, and prints a line for each.
pub(crate) fn measure_all<R: Threads + Wait + Clock + Sync + Print + Alloc<A = Global>>(
    rt: &R,
) -> Result<()> {
    println!(rt;
        "{:<36}{:>10}{:>10}{:>10}{:>8}{:>8}",
        "calls a second", "1 thread", "2", "4", "2 to 1", "4 to 1"
    )?;
    for (name, asked, spread) in LINES {
        print_rates(rt, name, Rates::of(rt, asked, spread)?)?;
    }
    Ok(())
}

fn print_rates(rt: &impl Print, name: &str, rates: Rates) -> Result<()> {
    let (two, four) = (ratio(rates.two, rates.one), ratio(rates.four, rates.one));
    println!(rt;
        "{name:<36}{:>10}{:>10}{:>10}{:>5}.{:02}{:>5}.{:02}",
        rates.one,
        rates.two,
        rates.four,
        two / 100,
        two % 100,
        four / 100,
        four % 100
    )?;
    Ok(())
}

/// Calls a second of all threads together.
#[derive(Clone, Copy)]
struct Rates {
    one: u64,
    two: u64,
    four: u64,
}

impl Rates {
    /// The greatest over some rounds, in which the numbers of threads take turns.
    fn of<R: Threads + Wait + Clock + Sync + Alloc<A = Global>>(
        rt: &R,
        asked: Asked,
        spread: Spread,
    ) -> Result<Rates> {
        let mut most = Rates {
            one: 0,
            two: 0,
            four: 0,
        };
        for _ in 0..ROUNDS {
            let one = time_of_run(rt, rt.alloc(), asked, spread, 1)?;
            let two = time_of_run(rt, rt.alloc(), asked, spread, 2)?;
            let four = time_of_run(rt, rt.alloc(), asked, spread, 4)?;
            most.one = most.one.max(rate(1, one));
            most.two = most.two.max(rate(2, two));
            most.four = most.four.max(rate(4, four));
        }
        Ok(most)
    }
}

/// The calls a second of so many threads, that took so long.
fn rate(threads: u64, spent: Duration) -> u64 {
    let calls = threads.saturating_mul(u64::from(CALLS));
    let nanoseconds = u64::try_from(spent.as_nanos()).unwrap_or(u64::MAX).max(1);
    calls.saturating_mul(1_000_000_000) / nanoseconds
}

/// How many hundredths of a rate another is.
fn ratio(rate: u64, of: u64) -> u64 {
    rate.saturating_mul(100) / of.max(1)
}
