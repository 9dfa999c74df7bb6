//! The open connections of a server: whose they are, which are idle and since when, and which goes to make room.
//!
//! Who accepts connections admits each one into a `ConnectionTable`. If the table is full, the connection that has been
//! idle for longest goes, of the tenant that has most. What is given for a connection is let go when it ends
//! (`OpenConnection`). Its requests say whose they are (`Requests`), and are under way until they are answered
//! (`UnderWay`); whether the system has all answers is told too (`Answers`). Tenants are known by numbers from 1 on, which
//! come and go (`TenantBounds`). Whether connections are accepted at all, and who tells that no more are to come, is in
//! `Stopping`. What clients may take is `Allowance` and `Patience`; `give_up` has the system give up peers that are gone or
//! read nothing.
#![tactic(auto)]

mod allowance;
mod bounds;
mod counts;
mod entry;
mod peers;
mod requests;
mod stopping;
mod table;

pub use allowance::{Allowance, LOOPS, MAX_PATIENCE, Patience};
pub use bounds::{Losses, TenantBounds};
pub use peers::give_up;
pub use requests::{Answers, OpenConnection, Requests, UnderWay};
pub use stopping::Stopping;
pub use table::ConnectionTable;
