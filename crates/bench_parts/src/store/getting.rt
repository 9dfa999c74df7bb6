//! Reading one key.
use crate::store::filled::{Filled, Row, copy_row, next_of, row_of};
use crate::timing::Work;
use anyhow::Result;
use etcd_types::RangeReq;
use std::alloc::Global;

/// Reads of one key each, in turn, over and over.
#[derive(Drop)]
pub(crate) struct Getting<'a> {
    filled: &'a Filled,
    requests: &'a [RangeReq],
    ours: usize,
    other: usize,
}

impl<'a> Getting<'a> {
    pub(crate) fn new(filled: &'a Filled, requests: &'a [RangeReq]) -> Getting<'a> {
        Getting {
            filled,
            requests,
            ours: 0,
            other: 0,
        }
    }
}

impl<'a> Work for Getting<'a> {
    type Output = Option<Row>;

    fn ours(&mut self, alloc: Global) -> Result<Option<Row>> {
        let request = next_of(self.requests, &mut self.ours)?;
        let mut rows = self.filled.tenant.rows(alloc, request)?;
        Ok(rows.pop().map(row_of))
    }

    fn other(&mut self, alloc: Global) -> Result<Option<Row>> {
        let request = next_of(self.requests, &mut self.other)?;
        match self.filled.map.get_key_value(request.key.as_slice()) {
            Some((key, value)) => Ok(Some(copy_row(alloc, key, value)?)),
            None => Ok(None),
        }
    }
}
