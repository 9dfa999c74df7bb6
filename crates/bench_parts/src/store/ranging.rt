//! Reading many keys that follow one another.
use crate::store::filled::{Filled, Row, copy_row, next_of, row_of};
use crate::store::keys::ROWS;
use crate::timing::Work;
use anyhow::Result;
use etcd_types::RangeReq;
use std::alloc::Global;

/// Reads of `ROWS` keys each, in turn, over and over.
#[derive(Drop)]
pub(crate) struct Ranging<'a> {
    filled: &'a Filled,
    requests: &'a [RangeReq],
    ours: usize,
    other: usize,
}

impl<'a> Ranging<'a> {
    pub(crate) fn new(filled: &'a Filled, requests: &'a [RangeReq]) -> Ranging<'a> {
        Ranging {
            filled,
            requests,
            ours: 0,
            other: 0,
        }
    }
}

impl<'a> Work for Ranging<'a> {
    type Output = Vec<Row>;

    fn ours(&mut self, alloc: Global) -> Result<Vec<Row>> {
        let request = next_of(self.requests, &mut self.ours)?;
        let rows = self.filled.tenant.rows(alloc, request)?;
        Ok(rows.into_iter().map(row_of).collect(alloc)?)
    }

    fn other(&mut self, alloc: Global) -> Result<Vec<Row>> {
        let request = next_of(self.requests, &mut self.other)?;
        let first = Vec::from_slice(alloc, request.key.as_slice())?;
        let mut rows = Vec::with_capacity(alloc, ROWS as usize)?;
        for (key, value) in self.filled.map.range(&first..).take(ROWS as usize) {
            rows.push(copy_row(alloc, key, value)?)?;
        }
        Ok(rows)
    }
}
