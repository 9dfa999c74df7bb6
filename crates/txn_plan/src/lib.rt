//! A transaction over a store: its compares, the branch that they take, and the operations of that one after
//! another, each of which reads what the ones before it change.
#![tactic(auto)]

mod branch;
mod finding;
mod folding;
mod refusal;
mod transaction;

pub use branch::Branch;
pub use finding::{FoundTxn, find, finds};
pub use refusal::lease_refusal;
pub use request_checks::check_txn as check;
pub use revision_store::holds;
pub use transaction::{PlannedTxn, plan};
