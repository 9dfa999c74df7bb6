//! What a cell holds.

use crate::link::Link;
use std::mem::size_of;

/// How many bytes of a record one cell holds.
pub const CELL_BYTES: usize = 48;

/// What a record is: a put, a delete, or a lease.
#[derive(Clone, Copy, PartialEq, Eq)]
pub enum Kind {
    Put,
    Delete,
    Lease,
}

/// The numbers of a record.
#[derive(Clone, Copy, PartialEq, Eq)]
pub struct Fields {
    /// The revision that made the record.
    pub revision: u64,
    /// The revision that made its key, when it was last made.
    pub create_revision: u64,
    /// How many puts its key has had since then; of a lease the time to live that was granted.
    pub version: u64,
    /// The lease that it is attached to, or 0; of a lease its ID.
    pub lease: i64,
}

/// What the first cell of a record says.
#[derive(Clone, Copy)]
pub struct HeadCell {
    pub key_len: u32,
    pub value_len: u32,
    /// The first cell of its bytes.
    pub first: Link,
    /// The next older head of its key.
    pub older: Link,
    pub fields: Fields,
}

/// One cell of a segment, in 56 bytes.
#[derive(Clone, Copy)]
pub enum Cell {
    /// A cell that no record has, with the place in its segment of the next such cell.
    Free(Link),
    /// The first cell of a record.
    Head(Kind, HeadCell),
    /// Bytes of a record, and the cell of those that follow. What stands past a record's end is
    /// left over.
    Rest([u8; 48], Link),
}

const _: () = prove!(size_of::<Cell>() == 56);
