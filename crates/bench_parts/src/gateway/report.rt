//! What is measured, and what is said of it.
ghost use Rattle.std.specs.Prelude.{◌<◌};

use crate::gateway::reading::Reading;
use crate::gateway::writing::Writing;
use crate::gateway::{bodies, replies};
use crate::timing::{print_heading, print_times};
use anyhow::Result;
use etcd_types::Call;
use std::alloc::Global;
use std::time::CpuClock;

const SMALL_PUT: &str = "read a put of a few bytes";

const LARGE_PUT: &str = "read a put of 1,024 bytes";

const RANGE: &str = "read a range with all its 13 members";

const TXN: &str = "read a transaction of 64 puts";

const ONE_ROW: &str = "write an answer of 1 row";

const HUNDRED_ROWS: &str = "write an answer of 100 rows";

const MANY_ROWS: &str = "write an answer of 10,000 rows";

/// Measures all, and prints a line for each.
pub(crate) fn measure_all(rt: &(impl Print + CpuClock + Alloc<A = Global>)) -> Result<()> {
    print_heading(rt, "gateway", "by values")?;
    measure_reading(rt)?;
    measure_writing(rt)
}

fn measure_reading(rt: &(impl Print + CpuClock + Alloc<A = Global>)) -> Result<()> {
    measure_put(rt, SMALL_PUT, b"bar")?;
    measure_put(rt, LARGE_PUT, &[b'x'; 1024])?;
    measure_body(rt, RANGE, Call::Range, bodies::RANGE, 10000)?;
    let txn = bodies::txn(rt.alloc())?;
    measure_body(rt, TXN, Call::Txn, txn.as_str(), 500)
}

fn measure_put(
    rt: &(impl Print + CpuClock + Alloc<A = Global>),
    name: &str,
    value: &[u8],
) -> Result<()> {
    let body = bodies::put(rt.alloc(), b"foo", value)?;
    measure_body(rt, name, Call::Put, body.as_str(), 20000)
}

fn measure_body(
    rt: &(impl Print + CpuClock + Alloc<A = Global>),
    name: &str,
    call: Call,
    body: &str,
    turns: u32,
) -> Result<()>
    requires { 0 < turns }
{
    print_times(rt, name, &mut Reading { call, body }, turns)
}

fn measure_writing(rt: &(impl Print + CpuClock + Alloc<A = Global>)) -> Result<()> {
    measure_rows(rt, ONE_ROW, 1, 50000)?;
    measure_rows(rt, HUNDRED_ROWS, 100, 1000)?;
    measure_rows(rt, MANY_ROWS, 10000, 10)
}

fn measure_rows(
    rt: &(impl Print + CpuClock + Alloc<A = Global>),
    name: &str,
    rows: u32,
    turns: u32,
) -> Result<()>
    requires { 0 < turns }
{
    let reply = replies::range(rt.alloc(), rows)?;
    print_times(rt, name, &mut Writing { reply }, turns)
}
