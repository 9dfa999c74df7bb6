//! The watches of one tenant: what each is still to be told of, and what a take of it is answered.
//!
//! **What holds.** A watch has a ring of notes, each a revision and the cell of a change's record, and a
//! position, which is a revision too. The ring has notes of all that is ahead of the watch below its position,
//! in order, and of nothing else. So the ring and then what the store has from the position on are what the
//! watch is still to be told of, wherever the position is; a watch is synced if its position is one past the
//! current revision, and behind if it is less. A watch that missed what a compaction took is to be cancelled,
//! and its ring is empty; so no note is of a record that is gone.
//!
//! A watch that asks for it is told that there is no event, where there is none, if 600 seconds or more have gone by
//! since its last response and it waits for no later start. A take that is quiet is no response.
//!
//! **The life of one watch.** It is of all keys, and its ring has room for 256 notes.
//!
//! | step | ring | position | next | because |
//! |---|---|---|---|---|
//! | at revision 301 it is opened, with no start | - | 302 | 302 | it is told of what comes |
//! | a put, revision 302, is noted | 302 | 303 | 302 | it was synced, and there is room |
//! | 300 keys are deleted in revision 303 | 302 | 303 | 302 | a ring takes whole revisions: it is behind |
//! | a catch-up | 302 | 303 | 302 | there is no room yet |
//! | a take | - | 304 | 304 | it is told of the put by its note, and of the deletes by a scan |
//! | a put, revision 304, is noted | 304 | 305 | 304 | it is synced again |
//! | revision 305, and a compaction at 305 | - | 306 | 304 | the change of 304 may be gone |
//! | a take | | | | a cancel, which frees the slot |
//!
//! `plan_create` and `plan_take` take all memory, and `weight` takes some to look ahead. No other call but `new` takes any, and
//! none of them fails.
#![tactic(auto)]

mod following;
mod gathered;
mod gathering;
mod hint;
mod noted;
mod opening;
mod planned;
mod slots;
mod taking;
mod telling;
mod wanting;
mod watch;
mod watchers;
mod weighing;

pub use hint::Hint;
pub use planned::{NewWatch, PlannedTake, Taken, WatchFault};
pub use watchers::Watchers;
