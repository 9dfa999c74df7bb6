//! The book of one tenant's leases: which there are, when they end, the cells of their records, and which
//! keys have them.
//!
//! **What holds.** The leases stand by ascending ID, each with the cell of its record. No lease ends before
//! the moment `soonest`, so at most ticks one comparison tells that nothing has run out. A key that has a
//! lease is attached to it, by the cell of the key's newest record. Attachments stand by ascending ID, so
//! those of one lease are side by side, and there by ascending key. The records stand elsewhere: a call that
//! compares keys is lent them. What has run out is collected into room of the book's own, and taken from there
//! one by one, so that the caller can end each lease with its keys before it takes the next. `LeaseBook::new`
//! takes all memory, and `grow_rooms` what more room asks for; no other call takes any, and each succeeds under
//! its stated condition.
//!
//! **The life of some leases.** A lease is its ID, its time to live and the moment of its end; the counter is
//! the number from which the next ID is chosen.
//!
//! | step | leases by ID | counter | because |
//! |---|---|---|---|
//! | at moment 5 a grant of 10 seconds | 1 (10, ends 15) | 2 | 1 is the least number from the counter on |
//! | a grant of 60 seconds with ID 2 | 1 (10, 15), 2 (60, 65) | 2 | a wanted ID leaves the counter |
//! | a grant of 0 seconds | 1 (10, 15), 2 (60, 65), 3 (1, 6) | 4 | 2 is taken, and 1 second is the least |
//! | at moment 6 lease 1 is kept alive | 1 (10, 16), 2 (60, 65), 3 (1, 6) | 4 | it lives 10 seconds more |
//! | what is due at moment 6 | the same | 4 | lease 3, and once it has ended none |
//! | what is collected at moment 65 | the same | 4 | leases 3, 1 and 2, in the order of their ends |
//! | each is taken, and ended | none | 4 | nothing is due until a lease is granted |
//!
//! **Their keys.** Then keys are put with these leases, and each put's record has the next cell, from 10 on.
//!
//! | step | attachments, each a lease with a record | because |
//! |---|---|---|
//! | `b` is put with lease 2 | 2 with 10 | |
//! | `a` is put with lease 2 | 2 with 11, 2 with 10 | `a` comes before `b` |
//! | `c` is put with lease 1 | 1 with 12, 2 with 11, 2 with 10 | 1 comes before 2 |
//! | `b` is put with lease 2 again | 1 with 12, 2 with 11, 2 with 13 | the newer record takes its place |
//! | `a` is put with lease 1 | 1 with 14, 1 with 12, 2 with 13 | it is detached from 2, and attached to 1 |
//! | `c` is put with no lease | 1 with 14, 2 with 13 | it is detached from 1 |
//! | lease 1 ends | 2 with 13 | `a` goes with it, and `c` has its lease no more |
#![tactic(auto)]

mod attachments;
mod book;
mod choosing;
mod ending;
mod granting;
mod keys;
mod places;

pub use attachments::Attachment;
pub use book::{Booked, LeaseBook};
pub use granting::NewLease;
pub use keys::Keys;
