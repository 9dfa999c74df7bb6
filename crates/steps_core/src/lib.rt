//! Many tenants over one pool of segments, as one value.
//!
//! Each tenant is answered what its machine answers to its own steps alone: nothing of another tenant can be
//! seen in a reply. Want of memory apart, which changes nothing.
#![tactic(auto)]

mod adding;
mod host;
mod removing;
mod resizing;
mod tenant;

pub use host::Host;
pub use tenant_rules::OperatorFault;
