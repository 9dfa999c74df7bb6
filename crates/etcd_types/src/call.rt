//! The calls of the gateway, and the names of their members.
ghost use Rattle.std.specs.Prelude.{◌≡◌};
ghost use Rattle.etcd_types.specs.Steps.{may_give};

/// A call. The aliases of a path are one call.
#[derive(Clone, Copy, PartialEq, Eq)]
pub enum Call {
    Range,
    Put,
    DeleteRange,
    Txn,
    Compaction,
    Watch,
    Grant,
    Revoke,
    KeepAlive,
    TimeToLive,
    Leases,
    Alarm,
    Status,
    Defragment,
}

impl Call {
    /// Whether a watch may have something to give after it.
    pub fn may_give(self) -> bool
        ensures { result ≡ may_give self }
    {
        match self {
            Call::Put
            | Call::DeleteRange
            | Call::Txn
            | Call::Compaction
            | Call::Watch
            | Call::Revoke => true,
            Call::Range
            | Call::Grant
            | Call::KeepAlive
            | Call::TimeToLive
            | Call::Leases
            | Call::Alarm
            | Call::Status
            | Call::Defragment => false,
        }
    }
}

/// A member of a request, of a compare or of an operation.
#[derive(Clone, Copy)]
pub enum MemberName {
    Key,
    RangeEnd,
    Value,
    Lease,
    PrevKv,
    IgnoreValue,
    IgnoreLease,
    Limit,
    Revision,
    SortOrder,
    SortTarget,
    Serializable,
    KeysOnly,
    CountOnly,
    MinModRevision,
    MaxModRevision,
    MinCreateRevision,
    MaxCreateRevision,
    Compare,
    Success,
    Failure,
    Result,
    Target,
    Version,
    CreateRevision,
    ModRevision,
    RequestRange,
    RequestPut,
    RequestDeleteRange,
    RequestTxn,
    CreateRequest,
    CancelRequest,
    ProgressRequest,
    StartRevision,
    Filters,
    WatchId,
    ProgressNotify,
    Ttl,
    Id,
    Keys,
    Action,
    MemberId,
    Alarm,
}
