//! Records kept as chains of small cells, in segments that are drawn as they are needed.
//!
//! A segment has 64 cells of 56 bytes. A record is a head, which has its numbers, and a cell for each
//! 48 bytes of its key followed by its value. Callers see a map from heads to records. A bay keeps a
//! list of the free cells of one segment, a table the bays in the order in which they are filled, and
//! a chain the cells of one record, whatever bays they lie in.
#![tactic(auto)]

mod bay;
mod cell;
mod chain;
mod copying;
mod growing;
mod link;
mod order;
mod part;
mod pieces;
mod reading;
mod region;
mod segments;
mod sink;
mod table;

pub use cell::{CELL_BYTES, Cell, Fields, HeadCell, Kind};
pub use link::Link;
pub use region::Region;
pub use segments::{Segment, Segments};
pub use sink::Sink;
