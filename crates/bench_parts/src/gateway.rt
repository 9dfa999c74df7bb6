//! Times how the gateway reads requests and writes answers, each beside the same work done through
//! JSON values.
mod bodies;
mod by_values;
mod reading;
mod replies;
mod report;
mod writing;

pub(crate) use report::measure_all;
