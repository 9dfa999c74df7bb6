//! Work that is done in two ways, and how it is timed.
ghost use Rattle.std.specs.Prelude.{◌<◌};

use crate::timing::times::Times;
use anyhow::{Result, bail};
use std::alloc::Global;
use std::time::{CpuClock, Duration};

/// How often each way is timed. The least time counts, as the one that was disturbed least.
const ROUNDS: u32 = 9;

/// Work that is done in two ways.
pub(crate) trait Work {
    type Output: PartialEq + Drop;

    /// Does the work once our way.
    fn ours(&mut self, alloc: Global) -> Result<Self::Output>;

    /// Does the work once the other way.
    fn other(&mut self, alloc: Global) -> Result<Self::Output>;
}

/// One of the two ways.
#[derive(Clone, Copy)]
enum Way {
    Ours,
    Other,
}

impl Way {
    fn output<W: Work>(self, alloc: Global, work: &mut W) -> Result<W::Output> {
        match self {
            Way::Ours => work.ours(alloc),
            Way::Other => work.other(alloc),
        }
    }
}

/// The times of some work, over this many turns in each round. It fails where the two ways differ in
/// what they give.
pub(crate) fn measure<W: Work>(
    rt: &impl CpuClock,
    alloc: Global,
    work: &mut W,
    turns: u32,
) -> Result<Times>
    requires { 0 < turns }
{
    if work.ours(alloc)? != work.other(alloc)? {
        bail!("the two ways differ");
    }
    let mut least = Times {
        ours: u64::MAX,
        other: u64::MAX,
    };
    for _ in 0..ROUNDS {
        let ours = time_of_turn(rt, alloc, work, Way::Ours, turns)?;
        let other = time_of_turn(rt, alloc, work, Way::Other, turns)?;
        least.ours = least.ours.min(ours);
        least.other = least.other.min(other);
    }
    Ok(least)
}

/// Nanoseconds of processor time a turn, over some turns of one way.
fn time_of_turn<W: Work>(
    rt: &impl CpuClock,
    alloc: Global,
    work: &mut W,
    way: Way,
    turns: u32,
) -> Result<u64>
    requires { 0 < turns }
{
    let begin = rt.process_cpu_time()?;
    for _ in 0..turns {
        let _output = way.output(alloc, work)?;
    }
    let spent = rt.process_cpu_time()?.saturating_sub(begin);
    Ok(share(spent, turns))
}

/// The nanoseconds of one of some turns.
fn share(spent: Duration, turns: u32) -> u64
    requires { 0 < turns }
{
    u64::try_from(spent.as_nanos() / u128::from(turns)).unwrap_or(u64::MAX)
}
