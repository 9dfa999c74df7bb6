//! What all parts share: which one is asked for, and the time that a turn of some work takes, in two ways, ours and another.
mod asked;
mod report;
mod times;
mod work;

pub(crate) use asked::{is_asked, print_usage};
pub(crate) use report::{print_heading, print_times, print_times_among};
pub(crate) use work::Work;
