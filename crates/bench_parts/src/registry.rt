//! Times calls of one, two and four threads on a registry: each on a tenant of its own, and all on one.
mod calling;
mod report;
mod tenants;

pub(crate) use report::measure_all;
