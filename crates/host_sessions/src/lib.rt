//! The server over a registry: what `tenant_server` does for any tenants, with seats for its threads and keys to a registry's
//! tenants.
//!
//! `Sessions::listen` listens where the configuration says, and `Sessions::serve` serves a registry until as many connections
//! as were told have ended. `Sessions::serve_operated` does the same where tenants come and go meanwhile (`operated`): their
//! operator is served beside, and the tenants do what he asks of them (`served`).
#![tactic(auto)]

mod operated;
mod served;
mod sessions;

pub use connection_table::{Allowance, Patience};
pub use host_config::{Config, ConfigFault, OperatorConfig, read_config};
pub use host_operator::OperatorSocket;
pub use pending_calls::Jobs;
pub use sessions::{Ended, ListenFault, Sessions};
pub use tenant_server::{End, Listening, Opened, ServeFault};
