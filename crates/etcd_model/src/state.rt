//! One tenant's cluster as a value.
use etcd_types::List;

/// What one write does to one key.
#[derive(Drop)]
pub enum Change {
    Put {
        key: List<u8>,
        value: List<u8>,
        lease: i64,
    },
    Delete {
        key: List<u8>,
    },
}

/// A change with its revision.
#[derive(Drop)]
pub struct Entry {
    pub revision: u64,
    pub change: Change,
}

/// A store that never forgets.
#[derive(Drop)]
pub struct History {
    /// The revision of the empty store.
    pub first: u64,
    /// Reads below this revision are refused.
    pub compacted: u64,
    /// The changes of each revision. The i-th, counted from 1, is revision `first + i`.
    pub revisions: List<List<Change>>,
}

/// A lease that was granted.
#[derive(Clone, Copy)]
pub struct Lease {
    pub id: i64,
    /// The granted time to live, in seconds.
    pub ttl: u64,
    /// The first moment at which it has run out.
    pub end: u64,
}

/// A watch of an interval of keys.
#[derive(Drop)]
pub struct Watch {
    pub key: List<u8>,
    pub range_end: List<u8>,
    pub no_put: bool,
    pub no_delete: bool,
    pub prev_kv: bool,
    /// The number that its responses repeat.
    pub id: i64,
    /// The first revision that it was not told of.
    pub next: u64,
    /// Asks for a response now and then where there is no event.
    pub progress_notify: bool,
    /// The moment of its last response, in seconds.
    pub told: u64,
}

/// One tenant, over its store.
#[derive(Drop)]
pub struct State<S> {
    pub cluster: u64,
    /// Cells that the tenant may use.
    pub quota: u32,
    pub store: S,
    /// By ascending ID.
    pub leases: List<Lease>,
    /// The number from which lease IDs are chosen.
    pub counter: u64,
    /// The greatest moment that the clock came to, in seconds.
    pub moment: u64,
    pub alarm: bool,
    pub slots: List<Option<Watch>>,
}
