//! A store with the stock of its segments.
ghost use Rattle.std.specs.Prelude.{◌≡◌, ◌+◌};

use anyhow::{Result, bail};
use etcd_types::{KeyValue, OpReply, PutReq, RangeReq};
use revision_store::{PlannedOp, Store};
use segment_pool::Stock;
use std::alloc::Global;

/// The most cells that a store may have, and the segments that they are.
const CELLS: u32 = 1_048_576;

const SEGMENTS: u32 = 16_384;

/// From this revision on nothing is put.
const LAST_REVISION: u64 = 1_000_000_000_000;

/// A store with the stock of its segments.
#[derive(Drop)]
pub(crate) struct Tenant {
    store: Store,
    stock: Stock,
    ghost whole: { stock.held + store.share.drawn ≡ store.share.reserved },
    ghost room: { stock.room ≡ store.share.drawn },
}

impl Tenant {
    pub(crate) fn new(alloc: Global) -> Result<Tenant> {
        Ok(Tenant {
            stock: Stock::new(alloc, SEGMENTS)?,
            store: Store::new(alloc, CELLS, 1)?,
        })
    }

    /// Plans a put and commits it, in a revision of its own.
    pub(crate) fn put(&mut self, alloc: Global, request: &PutReq) -> Result<()> {
        if self.store.current() >= LAST_REVISION {
            bail!("no revision is left");
        }
        let Ok(planned) = self.store.plan_put(alloc, request)? else {
            bail!("the put is refused");
        };
        let PlannedOp { plan, reply: _ } = planned;
        if !self.store.fits(&plan) {
            bail!("the store is full");
        }
        let _revision = self.store.commit(&mut self.stock, plan);
        Ok(())
    }

    /// The rows that a range is answered.
    pub(crate) fn rows(&self, alloc: Global, request: &RangeReq) -> Result<Vec<KeyValue>> {
        match self.store.plan_range(alloc, request)? {
            Ok(
                OpReply::Range {
                    revision: _,
                    count: _,
                    kvs,
                    more: _,
                },
            ) => Ok(kvs.into_vec()),
            _ => bail!("the range is refused"),
        }
    }

    /// Forgets what reads below the current revision need.
    pub(crate) fn compact(&mut self) {
        let revision = self.store.current();
        if self.store.compacted() < revision {
            self.store.compact(&mut self.stock, revision);
        }
    }
}
