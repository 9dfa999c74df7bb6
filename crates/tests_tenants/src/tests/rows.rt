//! Some of the rows of `tests/rows`, line by line, for tests.
//!
//! The text above a row is its name there. `tools/check-rows` asks that the two are the same.
mod calls;
mod leases;
mod live;
mod watches;

use calls::CALL_ROWS;
use leases::LEASE_ROWS;
use live::LIVE_ROWS;
use watches::WATCH_ROWS;

/// A script, and what it is answered.
pub(crate) struct Row {
    pub(crate) script: &'static str,
    pub(crate) answers: &'static str,
}

/// The rows of calls, ticks, takes and catch-ups: those of calls alone, of leases, and of watches.
pub(crate) fn rows() -> [&'static [Row]; 3] {
    [&CALL_ROWS, &LEASE_ROWS, &WATCH_ROWS]
}

/// The rows in which tenants take other quotas, and come and go.
pub(crate) fn live_rows() -> &'static [Row] {
    &LIVE_ROWS
}
