//! What of its history a tenant keeps by its operator's standing order, and when the server compacts it.
#![tactic(auto)]

mod order;
mod retention;

pub use order::{DueRevision, StandingOrder};
pub use retention::{MAX_RETENTION, Retention};
