//! Putting keys.
use crate::store::filled::{Filled, next_of};
use crate::timing::Work;
use anyhow::Result;
use etcd_types::PutReq;
use std::alloc::Global;

/// Puts into a store and into a map, in turn, over and over.
#[derive(Drop)]
pub(crate) struct Putting<'a> {
    filled: &'a mut Filled,
    requests: &'a [PutReq],
    ours: usize,
    other: usize,
}

impl<'a> Putting<'a> {
    pub(crate) fn new(filled: &'a mut Filled, requests: &'a [PutReq]) -> Putting<'a> {
        Putting {
            filled,
            requests,
            ours: 0,
            other: 0,
        }
    }
}

impl<'a> Work for Putting<'a> {
    type Output = ();

    fn ours(&mut self, alloc: Global) -> Result<()> {
        let request = next_of(self.requests, &mut self.ours)?;
        self.filled.tenant.put(alloc, request)
    }

    fn other(&mut self, alloc: Global) -> Result<()> {
        let request = next_of(self.requests, &mut self.other)?;
        self.filled.insert(alloc, request)
    }
}
