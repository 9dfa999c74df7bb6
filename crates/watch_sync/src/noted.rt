//! What a ring has of a change.
use etcd_types::CellNo;

/// A change that a watch is to be told of: its revision, and the cell of its record.
#[derive(Clone, Copy)]
pub struct Noted {
    pub revision: u64,
    pub cell: CellNo,
}
