//! A request's body that is read.
use crate::gateway::by_values::read;
use crate::timing::Work;
use anyhow::{Result, bail};
use etcd_types::{Call, Step};
use gateway_json::read_step;
use std::alloc::Global;

/// The reading of a call's body.
#[derive(Clone, Copy)]
pub(crate) struct Reading<'a> {
    pub(crate) call: Call,
    pub(crate) body: &'a str,
}

impl Work for Reading<'_> {
    type Output = Step;

    fn ours(&mut self, alloc: Global) -> Result<Step> {
        match read_step(alloc, self.call, self.body.as_bytes()) {
            Ok(step) => Ok(step),
            Err(refusal) => bail!("{}", refusal.text()),
        }
    }

    fn other(&mut self, alloc: Global) -> Result<Step> {
        read(alloc, self.call, self.body)
    }
}
