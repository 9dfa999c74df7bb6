//! Tenants under locks, for running threads, with audits that close.
//!
//! Each tenant has a lock of its own, round its machine, its audit and the segments that it may draw. A call
//! takes that lock and no other. A caller has a seat, which keeps lists of its calls; closing compares these
//! lists with the audits. The threads of a server call tenants by keys, each with a seat (`seated`).
#![tactic(auto)]

mod adding;
mod close;
mod gate;
mod kept;
mod key;
mod registry;
mod removing;
mod replies;
mod seated;
mod tenant;
mod usage;

pub use adding::{TenantConfig, check};
pub use gate::{Gate, OpenGate};
pub use kept::{Ended, Kept, Receipt, Resized, Served};
pub use key::Key;
pub use registry::{Registry, SeatFault};
pub use seated::{SeatedCalls, WatchHint};
pub use tenant_audit::{Audit, CloseFault, Closed, Entry, Opening, Seat};
pub use tenant_machine::Hint;
pub use tenant_rules::OperatorFault;
pub use usage::Usage;
