//! Reading a record.
ghost use Rattle.std.specs.Prelude.{IsSome};
ghost use Rattle.std.specs.FinMap as map;

use crate::arena::record::{CELLS, FIELDS, KEY, SEGMENTS, VALUE};
use crate::timing::Work;
use anyhow::Result;
use cell_arena::{Kind, Region};
use etcd_types::CellNo;
use segment_pool::Stock;
use std::alloc::Global;

/// A region with one record, and the same bytes in vectors.
#[derive(Drop)]
pub(crate) struct Reading {
    region: Region,
    cell: CellNo,
    key: Vec<u8>,
    value: Vec<u8>,
    ghost held: { IsSome (map.get region.records cell) },
}

impl Reading {
    /// A region with a record, whose segment is drawn from a stock that is not needed any more.
    #[tactic(auto, using(cell_arena::proofs::Inserted::some_inserted))]
    pub(crate) fn new(alloc: Global) -> Result<Reading> {
        let mut stock = Stock::new(alloc, SEGMENTS)?;
        let mut region = Region::new(alloc, CELLS)?;
        let cell = region.place(&mut stock, Kind::Put, FIELDS, &KEY, &VALUE);
        Reading::beside_vectors(alloc, region, cell)
    }

    /// A region with the record of a cell, and the same bytes in vectors.
    fn beside_vectors(alloc: Global, region: Region, cell: CellNo) -> Result<Reading>
        requires { IsSome (map.get region.records cell) }
    {
        let key = Vec::from_slice(alloc, &KEY)?;
        let value = Vec::from_slice(alloc, &VALUE)?;
        Ok(Reading {
            region,
            cell,
            key,
            value,
        })
    }
}

impl Work for Reading {
    type Output = Vec<u8>;

    fn ours(&mut self, alloc: Global) -> Result<Vec<u8>> {
        let mut bytes = Vec::with_capacity(alloc, KEY.len() + VALUE.len())?;
        self.region.read_key(self.cell, &mut bytes)?;
        self.region.read_value(self.cell, &mut bytes)?;
        Ok(bytes)
    }

    fn other(&mut self, alloc: Global) -> Result<Vec<u8>> {
        let mut bytes = Vec::with_capacity(alloc, KEY.len() + VALUE.len())?;
        bytes.extend_from_slice(&self.key)?;
        bytes.extend_from_slice(&self.value)?;
        Ok(bytes)
    }
}
