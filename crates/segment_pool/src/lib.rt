//! One pool of segments: tickets that reserve them, and stocks that hold them.
//!
//! A segment is a value that moves, so it is in one place. It comes back unwiped.
#![tactic(auto)]

mod desk;
mod pool;
mod stock;
mod supply;

pub use desk::Desk;
pub use pool::{Pool, Short, Ticket};
pub use stock::Stock;
pub use supply::Supply;
