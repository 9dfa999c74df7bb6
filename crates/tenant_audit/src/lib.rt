//! What was served on a tenant, what its callers keep of it, and whether both are the same.
#![tactic(auto)]

mod audit;
mod closed;
mod comparing;
mod seat;
mod tally;

pub use audit::{Audit, Entry, Opening};
pub use closed::{CloseFault, Closed, settle};
pub use comparing::Sheet;
pub use seat::Seat;
pub use tally::MadeCall;
