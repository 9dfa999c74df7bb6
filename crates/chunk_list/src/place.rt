//! Places in a list in chunks.

/// A place of a list: a chunk, and how many of the chunk's items stand before the place. An insert
/// or a removal ends all places of its list.
#[derive(Clone, Copy)]
pub struct Place {
    pub chunk: usize,
    pub offset: usize,
}
