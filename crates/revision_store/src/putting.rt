//! What one put leaves and is answered.
ghost use Rattle.std.specs.Prelude.{◌≡◌, ◌+◌, ◌<◌, ◌^◌, pos, None, IfOk, IfSome, IsSome, if◌then◌else◌, option_and_then};
ghost use Rattle.etcd_types.specs.declared.reply.OpReply.TheVariants.{Put as PutReply};
ghost use Rattle.etcd_types.specs.declared.txn.Op.TheVariants.{Put as PutOp};
ghost use Rattle.etcd_model.specs.Operations.{op_reply, row_put};
ghost use Rattle.revision_store.specs.Stored.{cells, reads, row_at};
ghost use Rattle.revision_store.specs.Pending.{present};

use crate::store::Store;
use etcd_types::{CellNo, KeyValue, Mem, OpReply, PutReq};
use std::alloc::Global;
use store_words::row_put;

/// A put that is decided.
#[derive(Drop)]
pub(crate) struct DecidedPut {
    /// The row that it leaves.
    pub(crate) row: KeyValue,
    /// What it is answered, once that is committed.
    pub(crate) reply: OpReply,
}

impl Store {
    /// Decides a put as the next revision, where the cell of the row of its key, if that is live, is known.
    pub(crate) fn decide_put(
        &self,
        alloc: Global,
        request: &PutReq,
        live: Option<CellNo>,
    ) -> Mem<DecidedPut>
        requires row { option_and_then (row_at (cells self.now)) live ≡ (reads self.now).row request.now.key }
        requires there { IfSome live (λ c. IsSome (row_at (cells self.now) c)) }
        requires revisions { self.now.kept.current + 1 < 2 ^ 63 }
        ensures row { IfOk result
            (λ put. put.row
            ≡ row_put (self.now.kept.current + 1) request.now ((reads self.now).row request.now.key)) }
        ensures reply { IfOk result
            (λ put. put.reply ≡ op_reply (reads self.now) (self.now.kept.current + 1) (PutOp request.now)) }
    {
        let now = self.present(alloc, request, live)?;
        let revision = self.current() + 1;
        Ok(DecidedPut {
            row: row_put(alloc, revision, request, now.as_ref())?,
            reply: put_reply(revision, row_asked(now, request.prev_kv)),
        })
    }

    /// The row under the cell of a put's key, if that is live: its numbers alone, unless the put asks for more.
    fn present(
        &self,
        alloc: Global,
        request: &PutReq,
        live: Option<CellNo>,
    ) -> Mem<Option<KeyValue>>
        requires { IfSome live (λ c. IsSome (row_at (cells self.now) c)) }
        ensures { IfOk result
            (λ now. now ≡ present request.now (option_and_then (row_at (cells self.now)) live)) }
    {
        let Some(cell) = live else {
            return Ok(None);
        };
        if request.prev_kv || request.ignore_value {
            Ok(Some(self.log.row(alloc, cell)?))
        } else {
            Ok(Some(self.log.numbers(alloc, cell)))
        }
    }
}

/// The answer to a put.
fn put_reply(revision: u64, prev_kv: Option<KeyValue>) -> OpReply
    requires { revision < 2 ^ 63 }
    ensures { result ≡ PutReply (pos revision) prev_kv }
{
    OpReply::Put {
        revision: revision as i64,
        prev_kv,
    }
}

/// A row, where it is asked for.
fn row_asked(row: Option<KeyValue>, asked: bool) -> Option<KeyValue>
    ensures { result ≡ (if asked then row else None) }
{
    if asked { row } else { None }
}
