//! The operator of a host: tenants come, change and go while the server runs.
//!
//! 1. `OperatorSocket::bind` listens where the configuration says, and `serve_operator` serves him on one thread, which
//!    has the registry to itself (`serving`).
//! 2. On a connection (`connection`) a request is read, its token is compared, and it is handed in (`requests`). Its method
//!    and its path say which call it is, and each refusal has a status and a text (`calls`).
//! 3. The `Operator` does the call (`operator`), on the registry and on the tenants as they are served (`directory`). What it
//!    tells is JSON (`answer`, `values`), a tenant as in `shown`. What a dashboard is told is in `metrics`, and what memory the
//!    process has in `memory`.
//! 4. `Stopping` of `connection_table` says whether connections of clients are accepted, and tells the server to end.
#![tactic(auto)]

mod answer;
mod calls;
mod connection;
mod directory;
mod memory;
mod metrics;
mod operator;
mod requests;
mod serving;
mod shown;
mod values;

pub use directory::TenantDirectory;
pub use operator::Operator;
pub use serving::{OperatorSocket, serve_operator};
