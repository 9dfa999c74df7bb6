//! Times how a store puts, overwrites, gets, ranges and compacts, beside an ordered map of vectors that holds
//! the same keys and values.
mod compacting;
mod filled;
mod getting;
mod keys;
mod putting;
mod ranging;
mod report;
mod tenant;

pub(crate) use report::measure_all;
