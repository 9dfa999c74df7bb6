//! Putting a number between the items, and taking it away again. Each begins with a search.
use crate::lists::below::Below;
use crate::lists::both::{Both, place_of};
use crate::timing::Work;
use anyhow::{Result, bail};
use std::alloc::Global;

/// The insert into a list and into a vector.
#[derive(Drop)]
pub(crate) struct Inserting(pub(crate) Both);

impl Work for Inserting {
    type Output = u32;

    fn ours(&mut self, _alloc: Global) -> Result<u32> {
        let number = self.0.asked.next().wrapping_add(1);
        let test = Below(number);
        let place = self.0.list.search(&test);
        if self.0.list.len() == self.0.list.room() {
            bail!("the list is full");
        }
        self.0.list.insert(place, number);
        let place = self.0.list.search(&test);
        if !self.0.list.has_item(place) || self.0.list.remove(place) != number {
            bail!("the number is gone");
        }
        Ok(number)
    }

    fn other(&mut self, _alloc: Global) -> Result<u32> {
        let number = self.0.asked_of_vector.next().wrapping_add(1);
        let place = place_of(&self.0.items, number);
        self.0.items.insert(place, number)?;
        let place = place_of(&self.0.items, number);
        if place == self.0.items.len() || self.0.items.remove(place) != number {
            bail!("the number is gone");
        }
        Ok(number)
    }
}
