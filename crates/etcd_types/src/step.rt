//! What a client, a clock or a watch's reader may ask of one tenant.
ghost use Rattle.std.specs.Prelude.{◌≡◌, ◌↔◌, IsTrue};
ghost use Rattle.etcd_types.specs.Steps.{chooses_id, is_brief, may_add, may_be_long, writes};

use crate::alarm::AlarmReq;
use crate::copy::{CopyOf, Mem};
use crate::kv::{DeleteReq, PutReq, RangeReq};
use crate::lease::GrantReq;
use crate::txn::{Op, TxnReq};
use crate::watch::WatchReq;
use std::alloc::Global;

/// One step of a tenant's machine.
#[derive(PartialEq, Eq)]
pub enum Step {
    Range(RangeReq),
    Put(PutReq),
    Delete(DeleteReq),
    Txn(TxnReq),
    /// Forgets what reads below this revision need.
    Compact(i64),
    Watch(WatchReq),
    /// Takes the next response of the watch in this slot.
    Take(u8),
    /// Ends the watch in this slot.
    DropWatch(u8),
    Grant(GrantReq),
    Revoke(i64),
    KeepAlive(i64),
    /// Asks how long a lease has to live, and for the keys that are attached to it.
    TimeToLive { id: i64, keys: bool },
    Leases,
    Alarm(AlarmReq),
    Status,
    Defragment,
    /// The clock has come to this moment, in seconds.
    Tick(u64),
    /// Prepares watch responses, looking at no more than this many changes.
    CatchUp(u32),
}

impl Drop for Step {
    fn drop(self) {
        match self {
            Step::Range(request) => drop(request),
            Step::Put(request) => drop(request),
            Step::Delete(request) => drop(request),
            Step::Txn(request) => drop(request),
            Step::Watch(request) => drop(request),
            Step::Take(_) | Step::DropWatch(_) => {}
            Step::Compact(_) | Step::Revoke(_) | Step::KeepAlive(_) => {}
            Step::TimeToLive { id: _, keys: _ } | Step::Leases | Step::Grant(_) => {}
            Step::Alarm(_) | Step::Status | Step::Defragment => {}
            Step::Tick(_) | Step::CatchUp(_) => {}
        }
    }
}

impl Step {
    /// The two are one value.
    pub fn same_as(&self, other: &Step) -> bool
        ensures { IsTrue result ↔ (self.now ≡ other.now) }
    {
        self == other
    }

    /// Whether it may write a revision: a put, a delete, or a transaction with either in any branch.
    pub fn writes(&self) -> bool
        ensures { result ≡ writes self.now }
    {
        match self {
            Step::Put(_) | Step::Delete(_) => true,
            Step::Txn(request) => {
                Op::any_writes(request.success.as_slice())
                    || Op::any_writes(request.failure.as_slice())
            }
            _ => false,
        }
    }

    /// Whether it is a grant whose ID is to be chosen.
    pub fn chooses_id(&self) -> bool
        ensures { result ≡ chooses_id self.now }
    {
        match self {
            Step::Grant(request) => request.id == 0,
            _ => false,
        }
    }

    /// Whether it may take space: a put, a transaction with one in any branch, or a grant.
    pub fn may_add(&self) -> bool
        ensures { result ≡ may_add self.now }
    {
        match self {
            Step::Put(_) | Step::Grant(_) => true,
            Step::Txn(request) => {
                Op::any_adds(request.success.as_slice()) || Op::any_adds(request.failure.as_slice())
            }
            _ => false,
        }
    }

    /// Whether it looks at one key at most, and at its present row.
    pub fn is_brief(&self) -> bool
        ensures { result ≡ is_brief self.now }
    {
        match self {
            Step::Range(request) => {
                request.range_end.as_slice().is_empty() && request.revision <= 0
            }
            Step::Delete(request) => request.range_end.as_slice().is_empty(),
            Step::Put(_) | Step::KeepAlive(_) | Step::Status => true,
            _ => false,
        }
    }

    /// Whether its answer may be long: one with rows, the keys of a lease or all leases.
    pub fn may_be_long(&self) -> bool
        ensures { result ≡ may_be_long self.now }
    {
        match self {
            Step::Range(request) => !request.count_only,
            Step::Put(request) => request.prev_kv,
            Step::Delete(request) => request.prev_kv,
            Step::TimeToLive { keys, .. } => *keys,
            Step::Txn(_) | Step::Leases => true,
            _ => false,
        }
    }
}

impl CopyOf for Step {
    fn copy_of(&self, alloc: Global) -> Mem<Step> {
        Ok(match self {
            Step::Range(request) => Step::Range(request.copy_of(alloc)?),
            Step::Put(request) => Step::Put(request.copy_of(alloc)?),
            Step::Delete(request) => Step::Delete(request.copy_of(alloc)?),
            Step::Txn(request) => Step::Txn(request.copy_of(alloc)?),
            Step::Compact(revision) => Step::Compact(*revision),
            Step::Watch(request) => Step::Watch(request.copy_of(alloc)?),
            Step::Take(slot) => Step::Take(*slot),
            Step::DropWatch(slot) => Step::DropWatch(*slot),
            Step::Grant(request) => Step::Grant(*request),
            Step::Revoke(id) => Step::Revoke(*id),
            Step::KeepAlive(id) => Step::KeepAlive(*id),
            Step::TimeToLive { id, keys } => Step::TimeToLive {
                id: *id,
                keys: *keys,
            },
            Step::Leases => Step::Leases,
            Step::Alarm(request) => Step::Alarm(*request),
            Step::Status => Step::Status,
            Step::Defragment => Step::Defragment,
            Step::Tick(moment) => Step::Tick(*moment),
            Step::CatchUp(budget) => Step::CatchUp(*budget),
        })
    }
}
