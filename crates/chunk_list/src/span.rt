//! Where the items of one chunk stand, and how long chunks are.

/// How many items a chunk has at most.
pub(crate) const MOST: usize = 512;

/// How many each chunk of a list but the last has at least. It is less than half of `MOST`, so that
/// a chunk that was cut in two has to lose some items before it is joined again.
pub(crate) const LEAST: usize = 240;

/// The places of a chunk's items. `MOST` places from the first one on are the chunk's own.
#[derive(Clone, Copy)]
pub(crate) struct Span {
    pub(crate) first: usize,
    pub(crate) len: usize,
}
