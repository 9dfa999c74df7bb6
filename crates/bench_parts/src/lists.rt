//! Times a list in chunks, beside a plain vector of the same items: a search, and an insert with its removal.
mod below;
mod both;
mod inserting;
mod numbers;
mod searching;

use crate::timing::{print_heading, print_times_among};
use anyhow::Result;
use both::Both;
use inserting::Inserting;
use searching::Searching;
use std::alloc::Global;
use std::time::CpuClock;

const SEARCHING: &str = "search among";

const INSERTING: &str = "insert and remove by search among";

/// How many items the list has.
const COUNTS: [u32; 3] = [1_000, 30_000, 300_000];

/// Turns of each way in a round.
const TURNS: u32 = 3_000;

/// Measures all, and prints a line for each.
pub(crate) fn measure_all(rt: &(impl Print + CpuClock + Alloc<A = Global>)) -> Result<()> {
    print_heading(rt, "chunks", "vector")?;
    for count in COUNTS {
        measure_searching(rt, count)?;
    }
    for count in COUNTS {
        measure_inserting(rt, count)?;
    }
    Ok(())
}

fn measure_searching(rt: &(impl Print + CpuClock + Alloc<A = Global>), count: u32) -> Result<()> {
    let mut searching = Searching(Both::new(rt.alloc(), count)?);
    print_times_among(rt, SEARCHING, count, &mut searching, TURNS)
}

fn measure_inserting(rt: &(impl Print + CpuClock + Alloc<A = Global>), count: u32) -> Result<()> {
    let mut inserting = Inserting(Both::new(rt.alloc(), count)?);
    print_times_among(rt, INSERTING, count, &mut inserting, TURNS)
}
