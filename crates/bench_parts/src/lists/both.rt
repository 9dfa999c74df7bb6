//! What is searched: a list, and a vector.
ghost use Rattle.std.specs.Prelude.{◌≤◌, length};

use crate::lists::numbers::{Numbers, listed, vector};
use anyhow::Result;
use chunk_list::ChunkList;
use std::alloc::Global;

/// A list and a vector of the same items, and what each is asked next.
#[derive(Drop)]
pub(crate) struct Both {
    pub(crate) list: ChunkList<u32>,
    pub(crate) asked: Numbers,
    pub(crate) items: Vec<u32>,
    pub(crate) asked_of_vector: Numbers,
}

impl Both {
    pub(crate) fn new(alloc: Global, count: u32) -> Result<Both> {
        Ok(Both {
            list: listed(alloc, count)?,
            asked: Numbers::new(count),
            items: vector(alloc, count)?,
            asked_of_vector: Numbers::new(count),
        })
    }
}

/// The place of the first item of a vector that is not below a number, or its end.
pub(crate) fn place_of(items: &[u32], number: u32) -> usize
    ensures { result ≤ length items.now }
{
    items.partition_point(|item| *item < number)
}
