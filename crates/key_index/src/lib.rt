//! The newest record of each key, by ascending key. The records stand elsewhere: each call is lent them. The places
//! stand in two lists in chunks, so a new key moves few others, however many there are.
//!
//! **What holds.** The index has one place for each key of which there is a record, by ascending key, and in
//! it the newest record of that key. If that is a put, the key is live, and the place stands in the list of
//! the live keys; if it is a delete, in the other. So the live keys of an interval stand side by side, and two
//! places tell their number. Each record is linked to the one before it of its key, and the first to
//! none. A key changes once in a revision, so revisions fall along the links. A compaction at R keeps of each
//! key its changes from R on, and its last one up to R if that is a put. The rest is dropped, and a key of
//! which nothing is left loses its place.
//!
//! **The life of a key.** It is put at 2, put at 3, deleted at 4 and put at 6; revisions 5 and 7 change other
//! keys. Its place stands among the live keys from 2 on, among the deleted ones from 4 on, and among the live
//! ones again from 6 on. It has the put at 6 then, which is linked to the delete at 4, this to the put at 3,
//! and this to the put at 2: 6 → 4 → 3 → 2. `at` answers the first on this way that is not above the revision
//! asked for: nothing at 1, the put at 2, the put at 3, the delete at 4 and at 5, the put at 6 and at 7. Then
//! come compactions, one after another:
//!
//! | compaction at | drops | leaves | because | then `at` that revision is |
//! |---|---|---|---|---|
//! | 3 | the put at 2 | 6 → 4 → 3 | the put at 3 is from 3 on | the put at 3 |
//! | 4 | the put at 3 | 6 → 4 | the delete is from 4 on, and the last up to 4 | the delete at 4 |
//! | 5 | the delete at 4 | 6 | the last up to 5 is a delete | nothing |
//! | 6 | nothing | 6 | the put at 6 is from 6 on | the put at 6 |
//! | 7 | nothing | 6 | the last up to 7 is a put | the put at 6 |
//!
//! Once the key is deleted at 8, its place has that delete, 8 → 6, and stands among the deleted ones. A
//! compaction at 8 drops the put at 6, since the last up to 8 is the delete, which is at 8 itself and stays.
//! One at 9 drops the delete, and the key loses its place.
#![tactic(auto)]

mod compaction;
mod index;
mod last_place;
mod records;
mod search;
mod span;
mod visiting;

pub use compaction::kept_as_defined;
pub use index::KeyIndex;
pub use records::{Records, RecordsMut};
pub use search::last_up_to;
pub use visiting::cut_changes;
