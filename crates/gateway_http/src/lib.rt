//! Requests and responses of HTTP/1.1, between hyper and the scheduler.
//!
//! 1. Hyper reads a head, and `Gateway::call` begins an `Exchange` (`exchange`). `route` says which call it is, of which
//!    tenant (`routing`). The body is read (`reading`), whether the request is to be refused or not; one that stops coming ends
//!    its connection. What it is told uses up its `Unanswered`.
//! 2. `Begun::new` hands the call to the scheduler, where a brief one is answered at once; any other answer is waited for.
//!    `respond` makes a response of it, whose body goes on with the texts of a watch (`response`). Behind each brief call, and
//!    each piece of what is long, a connection gives way to the others of its loop (`giving_way`).
//! 3. `Http::connect` makes the connection that does all this, for whoever polls it (`connection`).
//!
//! As hyper's statements ask (`calls`, `gives`, `yields`; specs `Exchanges`, `Bodies`), each response is one of the request at
//! its place.
#![tactic(auto)]

mod connection;
mod exchange;
mod giving_way;
mod piece;
mod reading;
mod response;
mod routing;

pub use connection::{ClientConnection, Http};
pub use exchange::{Exchange, Gateway};
pub use response::ResponseBody;
