//! A list of items in chunks, so that an insert or a removal moves the items of one chunk, however
//! long the list is.
//!
//! What always holds: the items are those of the chunks, one chunk after another. There is a chunk;
//! each has at most `MOST` items, and each but the last at least `LEAST`. So a list with room for n
//! items never has more than n / `LEAST` + 2 chunks. All of them have their places in one allocation,
//! which `ChunkList::new` takes and `grow_room` makes larger: where there is room for an item, there
//! are places for one more chunk, and no other call takes memory or fails.
//!
//! A chunk has a bay, which is `MOST` places in a row. A bay is made when a chunk first needs one,
//! the next after those that were made, and one that is given back is taken again first. So the
//! memory behind those that were ever needed at a time is never touched.
//!
//! An example, as if a chunk had at most 8 items and at least 3:
//!
//! ```text
//!                     [a b c d e f g h] [k l m] [p q]
//! insert i after h    the first chunk is full, so a new one takes its second half
//!                     [a b c d] [e f g h i] [k l m] [p q]
//! remove k            the third has two left, and goes with the next into one; the other's bay is free
//!                     [a b c d] [e f g h i] [l m p q]
//! remove b, then c    the first has two left, and they go with the next into one
//!                     [a d e f g h i] [l m p q]
//! ```
//!
//! Where both would not fit into one, the chunk takes the first item of the next one. An item that
//! is appended to a full last chunk goes into a new one, so a list that is only appended to has
//! full chunks.
#![tactic(auto)]

mod list;
mod moves;
mod place;
mod search;
mod shelf;
mod span;
mod stretch;
mod walk;

pub use list::ChunkList;
pub use place::Place;
pub use search::Test;
pub use walk::Walk;
