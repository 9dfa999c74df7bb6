//! Times what watches cost: puts beside them, takes that are quiet, takes from rings and by scans, and many
//! changes given to one watch, with and without catch-ups.
mod giving;
mod putting;
mod report;
mod requests;
mod taking;
mod tenant;

pub(crate) use report::measure_all;
