//! The host, spoken to in bytes: it is composed with the gateway before and behind it.
//!
//! Each tenant is answered the bytes that the written machine gives for its own events
//! alone: nothing of another tenant can be seen in an answer. Want of memory apart, which changes nothing.
#![tactic(auto)]

mod answer;
mod event;
mod front;
mod law;
mod line;
mod living;

pub use answer::{Answer, Body};
pub use event::{HostEvent, LentEvent};
pub use front::Front;
pub use law::{events_alone, two_lived_worlds, two_worlds};
pub use line::{HostLine, LentLine, LineAnswer};
