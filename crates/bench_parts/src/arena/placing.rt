//! Placing a record and releasing it.
ghost use Rattle.std.specs.Prelude.{◌≡◌, ◌+◌};

use crate::arena::record::{CELLS, FIELDS, KEY, SEGMENTS, VALUE};
use crate::timing::Work;
use anyhow::{Result, bail};
use cell_arena::{Kind, Region};
use segment_pool::Stock;
use std::alloc::Global;

/// A region with the stock of its segments.
#[derive(Drop)]
pub(crate) struct Placing {
    region: Region,
    stock: Stock,
    ghost whole: { stock.held + region.share.drawn ≡ region.share.reserved },
    ghost room: { stock.room ≡ region.share.drawn },
}

impl Placing {
    /// In a region with no other record, so that a segment is drawn and given back in each turn.
    pub(crate) fn alone(alloc: Global) -> Result<Placing> {
        Ok(Placing {
            region: Region::new(alloc, CELLS)?,
            stock: Stock::new(alloc, SEGMENTS)?,
        })
    }

    /// In a region with another record, whose segment has room for more.
    pub(crate) fn beside_another(alloc: Global) -> Result<Placing> {
        let mut placing = Placing::alone(alloc)?;
        placing.place_another();
        Ok(placing)
    }

    /// Places a record that stays, if there is room.
    #[tactic(auto, using(cell_arena::proofs::Inserted::some_inserted))]
    fn place_another(&mut self) {
        if self.region.free_cells() >= 4 {
            let _other = self
                .region
                .place(&mut self.stock, Kind::Put, FIELDS, &KEY, &VALUE);
        }
    }
}

impl Work for Placing {
    type Output = usize;

    #[tactic(auto, using(cell_arena::proofs::Inserted::some_inserted))]
    fn ours(&mut self, _alloc: Global) -> Result<usize> {
        if self.region.free_cells() < 4 {
            bail!("the region is full");
        }
        let cell = self
            .region
            .place(&mut self.stock, Kind::Put, FIELDS, &KEY, &VALUE);
        self.region.release(&mut self.stock, cell);
        Ok(KEY.len() + VALUE.len())
    }

    fn other(&mut self, alloc: Global) -> Result<usize> {
        let key = Vec::from_slice(alloc, &KEY)?;
        let value = Vec::from_slice(alloc, &VALUE)?;
        Ok(key.len() + value.len())
    }
}
