//! A part of a record's bytes.

use crate::link::Link;

/// So many bytes from one on, of a chain of so many cells.
#[derive(Clone, Copy)]
pub struct Part {
    pub first: Link,
    pub cells: usize,
    pub from: usize,
    pub count: usize,
}
