//! What an operator may ask of tenants, whoever keeps them: which names and limits they have, and why a call is refused.
#![tactic(auto)]

mod fault;
mod rules;

pub use fault::OperatorFault;
pub use rules::{is_name, is_quota, within_limits};
