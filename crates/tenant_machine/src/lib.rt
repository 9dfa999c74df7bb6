//! One tenant: a step is planned, and a plan is committed.
//!
//! A plan reads, decides, makes the reply and takes all the memory there is to take. A commit writes what
//! was planned to the store, whose segments are lent to it, takes none and cannot fail.
#![tactic(auto)]

mod attaching;
mod deciding;
mod ending;
mod finding;
mod leasing;
mod machine;
mod maintenance;
mod operations;
mod planned;
mod reserving;
mod watching;
mod weighing;

pub use finding::FoundAnswer;
pub use machine::{Machine, segments_for};
pub use planned::Planned;
pub use revision_store::FoundRows;
pub use watch_sync::Hint;
