//! How a server calls tenants, whoever keeps them.
//!
//! A thread has its own `TenantCalls`, by which it makes each call on a tenant, with the tenant's key. What serves clients is
//! written over these traits alone, so it knows no machine and no lock. What a call is answered is the written machine's
//! (specs `Answers`), and each receipt keeps it. How many calls were made, and on whose tenant, is counted (`Counts`).
#![tactic(auto)]

mod receipt;
mod tenant;

pub use receipt::CallReceipt;
pub use tenant::{TakeHint, TenantCalls, TenantKey};
