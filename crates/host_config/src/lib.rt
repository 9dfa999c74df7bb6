//! The configuration of a host, a JSON object.
//!
//! `read_config` reads it (`config`), or says why it can't be read (`members`). What it says of a tenant (`tenants`) the
//! operator says of one that comes later by the same members. What of its history is kept is in `retention`.
#![tactic(auto)]

mod config;
mod members;
mod retention;
mod tenants;

pub use config::{Config, OperatorConfig, read_config};
pub use members::{ConfigFault, object_of};
pub use retention::{retention_change_of, retention_told};
pub use tenants::{Changes, allowance_of, changes_of, more_segments_of, tenant_of};
