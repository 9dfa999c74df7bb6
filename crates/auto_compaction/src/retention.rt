//! What of its history a tenant keeps.

/// The longest time for which history is kept by a standing order, in seconds: 30 days.
pub const MAX_RETENTION: u64 = 2_592_000;

/// What of its history a tenant keeps. A server compacts it by calls of its own.
#[derive(Clone, Copy, PartialEq, Eq)]
pub enum Retention {
    /// All: there is no standing order.
    All,
    /// What is younger than so many seconds, from 1 to `MAX_RETENTION`.
    Seconds(u64),
    /// So many of the last revisions, at least 1.
    Revisions(u64),
}
