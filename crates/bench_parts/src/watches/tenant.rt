//! A store with its watches and the stock of its segments.

use crate::watches::requests::watch;
use anyhow::{Result, bail};
use etcd_types::{Header, PutReq, Reply};
use revision_store::{PlannedOp, Store};
use segment_pool::Stock;
use std::alloc::Global;
use std::marker::Model;
use watch_sync::{PlannedTake, Watchers};

/// The most cells that a store may have, and the segments that they are.
const CELLS: u32 = 1_048_576;

const SEGMENTS: u32 = 16_384;

/// From this revision on nothing is put.
const LAST_REVISION: u64 = 1_000_000_000_000;

/// A store with its watches and the stock of its segments.
#[derive(Drop)]
pub(crate) struct Tenant {
    store: Store,
    watchers: Watchers,
    stock: Stock,
}

impl Model for Tenant {
    ghost use Rattle.std.specs.Prelude.{ℕ, ◌≡◌, ◌+◌};
    ghost use Rattle.watch_sync.specs.Slots.{AllAgree};

    ghost Value = { ℕ };

    ghost view = { λ t. t.store.kept.current };

    ghost invariant = { λ t. (t.stock.held + t.store.share.drawn ≡ t.store.share.reserved)
        × ((t.stock.room ≡ t.store.share.drawn) × AllAgree t.watchers t.store) };
}

impl Tenant {
    pub(crate) fn new(alloc: Global) -> Result<Tenant> {
        Ok(Tenant {
            store: Store::new(alloc, CELLS, 1)?,
            watchers: Watchers::new(alloc)?,
            stock: Stock::new(alloc, SEGMENTS)?,
        })
    }

    /// The revision after the current one.
    pub(crate) fn next_revision(&self) -> i64 {
        (self.store.current() as i64).saturating_add(1)
    }

    /// Plans a put and commits it, in a revision of its own, which is noted.
    pub(crate) fn put(&mut self, alloc: Global, request: &PutReq) -> Result<()> {
        if self.store.current() >= LAST_REVISION {
            bail!("no revision is left");
        }
        let Ok(planned) = self.store.plan_put(alloc, request)? else {
            bail!("the put is refused");
        };
        let PlannedOp { plan, reply: _ } = planned;
        if !self.store.fits(&plan) {
            bail!("the store is full");
        }
        let _revision = self.store.commit(&mut self.stock, plan);
        self.watchers.note(&self.store);
        Ok(())
    }

    /// Puts all of these.
    pub(crate) fn put_all(&mut self, alloc: Global, requests: &[PutReq]) -> Result<()> {
        for request in requests {
            self.put(alloc, request)?;
        }
        Ok(())
    }

    /// Opens a watch of a key, from a revision on or from now on.
    pub(crate) fn open(&mut self, alloc: Global, number: u32, start: i64) -> Result<()> {
        let request = watch(alloc, number, start)?;
        let Ok(new) = self.watchers.plan_create(alloc, &self.store, 0, &request) else {
            bail!("no slot is free, or no memory for a ring");
        };
        let _slot = self.watchers.create(new);
        Ok(())
    }

    /// Ends the watches of the first slots.
    pub(crate) fn drop_watches(&mut self, many: u8) {
        for slot in 0..many {
            self.drop_watch(slot);
        }
    }

    fn drop_watch(&mut self, slot: u8) {
        self.watchers.drop_watch(slot);
    }

    fn header(&self) -> Header {
        Header {
            cluster: 7,
            revision: self.store.current() as i64,
        }
    }

    /// How many events a take gives.
    pub(crate) fn take(&mut self, alloc: Global, slot: u8) -> Result<usize> {
        let header = self.header();
        let PlannedTake { taken, reply } = self
            .watchers
            .plan_take(alloc, &self.store, header, 0, slot)?;
        self.watchers.take(&self.store, taken);
        Ok(match &reply {
            Reply::Events { events, .. } => events.as_slice().len(),
            _ => 0,
        })
    }

    /// Takes of each of the first slots, as long as they give events.
    pub(crate) fn take_all(&mut self, alloc: Global, many: u8) -> Result<()> {
        for slot in 0..many {
            for _ in 0..u32::MAX {
                if self.take(alloc, slot)? == 0 {
                    break;
                }
            }
        }
        Ok(())
    }

    pub(crate) fn catch_up(&mut self, budget: u32) {
        self.watchers.catch_up(&self.store, budget);
    }
}
