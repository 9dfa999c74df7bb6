//! Times a part of the program: most beside another way to do the same, tenants under locks by several threads beside one.
//!
//! Its one argument is the part. With another, or with none, it prints how it is called.
#![tactic(auto)]

mod arena;
mod gateway;
mod lists;
mod registry;
mod requests;
mod store;
mod timing;
mod watches;

use crate::timing::{is_asked, print_usage};
use anyhow::Result;

fn main(rt: HostRuntime) -> Result<()> {
    if is_asked(&rt, "arena")? {
        arena::measure_all(&rt)
    } else if is_asked(&rt, "gateway")? {
        gateway::measure_all(&rt)
    } else if is_asked(&rt, "lists")? {
        lists::measure_all(&rt)
    } else if is_asked(&rt, "registry")? {
        registry::measure_all(&rt)
    } else if is_asked(&rt, "store")? {
        store::measure_all(&rt)
    } else if is_asked(&rt, "watches")? {
        watches::measure_all(&rt)
    } else {
        print_usage(
            &rt,
            "bench_parts arena | gateway | lists | registry | store | watches",
        )
    }
}
