//! The event loop of a thread, and the connections that it serves as tasks.
//!
//! An `EventLoop` waits for sockets and timers; a `TaskGroup` keeps the tasks that it runs; a `ConnectionTask` is one of them,
//! and `MakesTasks` makes it of what arrived; a `Stall` says how long a connection waits for the next piece of a body. All are
//! made of many parts of the kit. Whoever has one needs to know nothing of these, and neither does the proof of his code.
#![tactic(auto)]

mod connection_task;
mod event_loop;
mod stall;

pub use connection_task::ConnectionTask;
pub use event_loop::{EventLoop, MakesTasks, TaskGroup};
pub use stall::{BodyTimer, Stall};
