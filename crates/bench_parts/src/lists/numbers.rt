//! The items, and the numbers that are looked for among them.
use anyhow::Result;
use chunk_list::ChunkList;
use std::alloc::Global;

/// How far an item is from the next one.
const STEP: u32 = 8;

/// A list of so many items, with room for one more.
pub(crate) fn listed(alloc: Global, count: u32) -> Result<ChunkList<u32>> {
    let mut list = ChunkList::new(alloc, (count as usize).saturating_add(1))?;
    for index in 0..count {
        if list.len() < list.room() {
            list.append(index.wrapping_mul(STEP));
        }
    }
    Ok(list)
}

/// The same items in a vector.
pub(crate) fn vector(alloc: Global, count: u32) -> Result<Vec<u32>> {
    let mut items = Vec::with_capacity(alloc, (count as usize).saturating_add(1))?;
    for index in 0..count {
        items.push(index.wrapping_mul(STEP))?;
    }
    Ok(items)
}

/// The items one after another, in no order.
#[derive(Clone, Copy)]
pub(crate) struct Numbers {
    index: u32,
    count: u32,
}

impl Numbers {
    pub(crate) fn new(count: u32) -> Numbers {
        Numbers { index: 0, count }
    }

    pub(crate) fn next(&mut self) -> u32 {
        self.index = self.index.wrapping_add(1);
        let scattered = self.index.wrapping_mul(2_654_435_761);
        match scattered.checked_rem(self.count) {
            Some(item) => item.wrapping_mul(STEP),
            None => 0,
        }
    }
}
