//! What a tenant answers.
ghost use Rattle.std.specs.Prelude.{◌≡◌, ◌↔◌, IsTrue};

use crate::copy::{CopyOf, Mem};
use crate::key_value::{Event, KeyValue};
use crate::list::List;
use crate::refusal::Refusal;
use std::alloc::Global;

/// Who answers, and at which revision.
#[derive(Clone, Copy, PartialEq, Eq)]
pub struct Header {
    /// The tenant's cluster ID.
    pub cluster: u64,
    /// The current revision after the step.
    pub revision: i64,
}

/// The answer to one operation of a transaction, with the revision of its inner header.
#[derive(PartialEq, Eq, Drop)]
pub enum OpReply {
    Range {
        revision: i64,
        count: u64,
        kvs: List<KeyValue>,
        more: bool,
    },
    Put {
        revision: i64,
        prev_kv: Option<KeyValue>,
    },
    Delete {
        revision: i64,
        deleted: u64,
        prev_kvs: List<KeyValue>,
    },
}

impl CopyOf for OpReply {
    fn copy_of(&self, alloc: Global) -> Mem<OpReply> {
        Ok(match self {
            OpReply::Range {
                revision,
                count,
                kvs,
                more,
            } => OpReply::Range {
                revision: *revision,
                count: *count,
                kvs: kvs.copy_of(alloc)?,
                more: *more,
            },
            OpReply::Put { revision, prev_kv } => OpReply::Put {
                revision: *revision,
                prev_kv: prev_kv.copy_of(alloc)?,
            },
            OpReply::Delete {
                revision,
                deleted,
                prev_kvs,
            } => OpReply::Delete {
                revision: *revision,
                deleted: *deleted,
                prev_kvs: prev_kvs.copy_of(alloc)?,
            },
        })
    }
}

/// The answer to a step.
#[derive(PartialEq, Eq)]
pub enum Reply {
    Range {
        header: Header,
        /// How many live keys the interval has.
        count: u64,
        kvs: List<KeyValue>,
        /// Rows were cut off by the limit.
        more: bool,
    },
    Put {
        header: Header,
        prev_kv: Option<KeyValue>,
    },
    Delete {
        header: Header,
        deleted: u64,
        prev_kvs: List<KeyValue>,
    },
    Txn {
        header: Header,
        succeeded: bool,
        responses: List<OpReply>,
    },
    Compacted(Header),
    Created {
        header: Header,
        watch_id: i64,
        /// The slot that the watch has, which is not written.
        slot: u8,
    },
    Events {
        header: Header,
        watch_id: i64,
        events: List<Event>,
    },
    /// No event up to the header's revision.
    Progress {
        header: Header,
        watch_id: i64,
    },
    Canceled {
        header: Header,
        watch_id: i64,
        compact_revision: i64,
    },
    Granted {
        header: Header,
        id: i64,
        ttl: i64,
    },
    Revoked(Header),
    KeptAlive {
        header: Header,
        id: i64,
        ttl: i64,
    },
    TimeToLive {
        header: Header,
        id: i64,
        /// Seconds to the end; -1 of a lease that is not there.
        ttl: i64,
        granted_ttl: i64,
        keys: List<List<u8>>,
    },
    Leases {
        header: Header,
        ids: List<i64>,
    },
    Alarms {
        header: Header,
        /// The alarm of the quota is listed.
        no_space: bool,
    },
    Status {
        header: Header,
        /// Bytes of the quota.
        size: u64,
        /// Bytes in use.
        in_use: u64,
    },
    Defragmented(Header),
    /// Nothing to say.
    Quiet,
    Refused(Refusal),
}

impl Drop for Reply {
    fn drop(self) {
        match self {
            Reply::Range {
                header: _,
                count: _,
                kvs,
                more: _,
            } => drop(kvs),
            Reply::Put { header: _, prev_kv } => drop(prev_kv),
            Reply::Delete {
                header: _,
                deleted: _,
                prev_kvs,
            } => drop(prev_kvs),
            Reply::Txn {
                header: _,
                succeeded: _,
                responses,
            } => drop(responses),
            Reply::Events {
                header: _,
                watch_id: _,
                events,
            } => drop(events),
            Reply::TimeToLive {
                header: _,
                id: _,
                ttl: _,
                granted_ttl: _,
                keys,
            } => drop(keys),
            Reply::Leases { header: _, ids } => drop(ids),
            Reply::Compacted(_) | Reply::Revoked(_) | Reply::Defragmented(_) => {}
            Reply::Created {
                header: _,
                watch_id: _,
                slot: _,
            } => {}
            Reply::Progress {
                header: _,
                watch_id: _,
            } => {}
            Reply::Canceled {
                header: _,
                watch_id: _,
                compact_revision: _,
            } => {}
            Reply::Granted {
                header: _,
                id: _,
                ttl: _,
            } => {}
            Reply::KeptAlive {
                header: _,
                id: _,
                ttl: _,
            } => {}
            Reply::Alarms {
                header: _,
                no_space: _,
            } => {}
            Reply::Status {
                header: _,
                size: _,
                in_use: _,
            } => {}
            Reply::Quiet | Reply::Refused(_) => {}
        }
    }
}

impl Reply {
    /// The two are one value.
    pub fn same_as(&self, other: &Reply) -> bool
        ensures { IsTrue result ↔ (self.now ≡ other.now) }
    {
        self == other
    }
}

impl CopyOf for Reply {
    fn copy_of(&self, alloc: Global) -> Mem<Reply> {
        Ok(match self {
            Reply::Range {
                header,
                count,
                kvs,
                more,
            } => Reply::Range {
                header: *header,
                count: *count,
                kvs: kvs.copy_of(alloc)?,
                more: *more,
            },
            Reply::Put { header, prev_kv } => Reply::Put {
                header: *header,
                prev_kv: prev_kv.copy_of(alloc)?,
            },
            Reply::Delete {
                header,
                deleted,
                prev_kvs,
            } => Reply::Delete {
                header: *header,
                deleted: *deleted,
                prev_kvs: prev_kvs.copy_of(alloc)?,
            },
            Reply::Txn {
                header,
                succeeded,
                responses,
            } => Reply::Txn {
                header: *header,
                succeeded: *succeeded,
                responses: responses.copy_of(alloc)?,
            },
            Reply::Compacted(header) => Reply::Compacted(*header),
            Reply::Created {
                header,
                watch_id,
                slot,
            } => Reply::Created {
                header: *header,
                watch_id: *watch_id,
                slot: *slot,
            },
            Reply::Events {
                header,
                watch_id,
                events,
            } => Reply::Events {
                header: *header,
                watch_id: *watch_id,
                events: events.copy_of(alloc)?,
            },
            Reply::Progress { header, watch_id } => Reply::Progress {
                header: *header,
                watch_id: *watch_id,
            },
            Reply::Canceled {
                header,
                watch_id,
                compact_revision,
            } => Reply::Canceled {
                header: *header,
                watch_id: *watch_id,
                compact_revision: *compact_revision,
            },
            Reply::Granted { header, id, ttl } => Reply::Granted {
                header: *header,
                id: *id,
                ttl: *ttl,
            },
            Reply::Revoked(header) => Reply::Revoked(*header),
            Reply::KeptAlive { header, id, ttl } => Reply::KeptAlive {
                header: *header,
                id: *id,
                ttl: *ttl,
            },
            Reply::TimeToLive {
                header,
                id,
                ttl,
                granted_ttl,
                keys,
            } => Reply::TimeToLive {
                header: *header,
                id: *id,
                ttl: *ttl,
                granted_ttl: *granted_ttl,
                keys: keys.copy_of(alloc)?,
            },
            Reply::Leases { header, ids } => Reply::Leases {
                header: *header,
                ids: ids.copy_of(alloc)?,
            },
            Reply::Alarms { header, no_space } => Reply::Alarms {
                header: *header,
                no_space: *no_space,
            },
            Reply::Status {
                header,
                size,
                in_use,
            } => Reply::Status {
                header: *header,
                size: *size,
                in_use: *in_use,
            },
            Reply::Defragmented(header) => Reply::Defragmented(*header),
            Reply::Quiet => Reply::Quiet,
            Reply::Refused(refusal) => Reply::Refused(*refusal),
        })
    }
}
