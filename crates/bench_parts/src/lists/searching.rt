//! Looking for an item. What is found is tested, so that no search is left out as unused.
use crate::lists::below::Below;
use crate::lists::both::{Both, place_of};
use crate::timing::Work;
use anyhow::{Result, bail};
use std::alloc::Global;

/// The search of a list and of a vector.
#[derive(Drop)]
pub(crate) struct Searching(pub(crate) Both);

impl Work for Searching {
    type Output = u32;

    fn ours(&mut self, _alloc: Global) -> Result<u32> {
        let item = self.0.asked.next();
        let place = self.0.list.search(&Below(item));
        if !self.0.list.has_item(place) || self.0.list.get(place) != item {
            bail!("an item is not found");
        }
        Ok(item)
    }

    fn other(&mut self, _alloc: Global) -> Result<u32> {
        let item = self.0.asked_of_vector.next();
        let place = place_of(&self.0.items, item);
        if self.0.items.get(place) != Some(&item) {
            bail!("an item is not found");
        }
        Ok(item)
    }
}
