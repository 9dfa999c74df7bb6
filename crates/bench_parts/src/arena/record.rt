//! The record that is placed and read: a key of 16 bytes and a value of 84.
use cell_arena::Fields;

pub(crate) const KEY: [u8; 16] = [b'k'; 16];

pub(crate) const VALUE: [u8; 84] = [b'v'; 84];

pub(crate) const FIELDS: Fields = Fields {
    revision: 2,
    create_revision: 2,
    version: 1,
    lease: 0,
};

/// Segments of the region, and its cells.
pub(crate) const SEGMENTS: u32 = 16;

pub(crate) const CELLS: u32 = 1024;
