//! Times how a region places, releases and reads a record of 100 bytes, beside clones of vectors of the
//! same sizes.
mod placing;
mod reading;
mod record;

use crate::timing::{print_heading, print_times};
use anyhow::Result;
use placing::Placing;
use reading::Reading;
use std::alloc::Global;
use std::time::CpuClock;

const PLACING: &str = "place and release a record of 100 bytes";

const DRAWING: &str = "the same with a segment drawn for it";

const READING: &str = "read a record of 100 bytes";

/// Turns of each way in a round.
const TURNS: u32 = 200_000;

/// Measures all, and prints a line for each.
pub(crate) fn measure_all(rt: &(impl Print + CpuClock + Alloc<A = Global>)) -> Result<()> {
    print_heading(rt, "region", "clones")?;
    measure_placing(rt)?;
    measure_drawing(rt)?;
    measure_reading(rt)
}

fn measure_placing(rt: &(impl Print + CpuClock + Alloc<A = Global>)) -> Result<()> {
    let mut placing = Placing::beside_another(rt.alloc())?;
    print_times(rt, PLACING, &mut placing, TURNS)
}

fn measure_drawing(rt: &(impl Print + CpuClock + Alloc<A = Global>)) -> Result<()> {
    let mut placing = Placing::alone(rt.alloc())?;
    print_times(rt, DRAWING, &mut placing, TURNS)
}

fn measure_reading(rt: &(impl Print + CpuClock + Alloc<A = Global>)) -> Result<()> {
    let mut reading = Reading::new(rt.alloc())?;
    print_times(rt, READING, &mut reading, TURNS)
}
