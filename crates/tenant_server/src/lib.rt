//! A server of tenants, whatever calls them: it listens, accepts connections and runs the threads.
//!
//! 1. `Listening::bind` listens, and `Opened` runs a thread for each way to call tenants (`server`, `threads`). Connections are
//!    accepted (`arrivals`), as many as there may be (`admission`), and dealt out to four event loops, each a thread on which
//!    its connections stay (`connections`). Each is served as `serve_one` serves one over any stream (`streams`). One whose
//!    peer sends byte by byte rests before it is read (`pacing`). The system gives up peers that are gone or read nothing.
//! 2. A connection's requests are `gateway_http`'s, and which thread serves which tenant when is `tenant_scheduler`'s.
//! 3. Where tenants come and go meanwhile, the main thread does the work of whoever takes them in and out, and another one
//!    accepts connections (`arrivals`).
#![tactic(auto)]

mod admission;
mod arrivals;
mod connections;
mod fault;
mod pacing;
mod server;
mod streams;
mod threads;

pub use fault::ServeFault;
pub use server::{End, Listening, Opened, Terms, serve_one, serve_with};
pub use threads::Ended;
