//! The lines that a program prints.
ghost use Rattle.std.specs.Prelude.{◌<◌};

use crate::timing::times::Times;
use crate::timing::work::{Work, measure};
use anyhow::Result;
use std::alloc::Global;
use std::time::CpuClock;

/// Prints what stands above the lines: what our way is called, and the other one.
pub(crate) fn print_heading(rt: &impl Print, ours: &str, other: &str) -> Result<()> {
    println!(rt;
        "{:<40}{:>12}{:>12}{:>10}",
        "nanoseconds", ours, other, "ratio"
    )?;
    Ok(())
}

/// Measures some work, and prints its line.
pub(crate) fn print_times<W: Work>(
    rt: &(impl Print + CpuClock + Alloc<A = Global>),
    name: &str,
    work: &mut W,
    turns: u32,
) -> Result<()>
    requires { 0 < turns }
{
    let times = measure(rt, rt.alloc(), work, turns)?;
    print_line(rt, name, times)
}

/// The same of work among so many items, whose number ends the name.
pub(crate) fn print_times_among<W: Work>(
    rt: &(impl Print + CpuClock + Alloc<A = Global>),
    name: &str,
    count: u32,
    work: &mut W,
    turns: u32,
) -> Result<()>
    requires { 0 < turns }
{
    let name = format!(in rt.alloc(); "{name} {count}")?;
    print_times(rt, name.as_str(), work, turns)
}

fn print_line(rt: &impl Print, name: &str, times: Times) -> Result<()> {
    let ratio = times.ratio();
    println!(rt;
        "{name:<40}{:>12}{:>12}{:>7}.{:02}",
        times.ours,
        times.other,
        ratio / 100,
        ratio % 100
    )?;
    Ok(())
}
