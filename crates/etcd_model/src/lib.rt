//! What a tenant's cluster is and answers, by definitions.
//!
//! The definitions stand in `specs/`; here are the types that they speak of.
#![tactic(auto)]

pub mod state;
