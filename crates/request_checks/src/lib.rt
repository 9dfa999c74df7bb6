//! What a step is refused for by its own fields, before anything is looked up.
#![tactic(auto)]

mod branch;
mod put;
mod step;
mod txn;

pub use put::put_fields;
pub use step::fields;
pub use txn::check_txn;
