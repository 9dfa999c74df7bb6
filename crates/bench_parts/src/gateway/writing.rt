//! A reply whose body is written.
use crate::gateway::by_values::write;
use crate::timing::Work;
use anyhow::Result;
use etcd_types::Reply;
use gateway_text::write_reply;
use std::alloc::Global;

/// The writing of a reply's body.
#[derive(Drop)]
pub(crate) struct Writing {
    pub(crate) reply: Reply,
}

impl Work for Writing {
    type Output = Vec<u8>;

    fn ours(&mut self, alloc: Global) -> Result<Vec<u8>> {
        let (_status, body) = write_reply(alloc, &self.reply)?;
        Ok(body)
    }

    fn other(&mut self, alloc: Global) -> Result<Vec<u8>> {
        write(alloc, &self.reply)
    }
}
