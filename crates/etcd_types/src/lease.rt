//! Requests to leases.

/// A grant of a lease.
#[derive(Clone, Copy, PartialEq, Eq)]
pub struct GrantReq {
    /// The time to live, in seconds. Below 1 it counts as 1.
    pub ttl: i64,
    /// The ID that is wanted; for 0 one is chosen.
    pub id: i64,
}
