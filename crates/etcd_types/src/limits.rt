//! The limits of what is taken and kept.

/// Tenants of a host.
pub const MAX_TENANTS: usize = 256;
/// Bytes of a tenant's name.
pub const MAX_NAME: usize = 64;
/// Cells of a tenant's quota, at least.
pub const MIN_QUOTA: u64 = 4;
/// Cells of a tenant's quota, at most.
pub const MAX_QUOTA: u64 = 1_048_576;
/// Bytes of a cell, which status answers count in.
pub const CELL_BYTES: u64 = 48;
/// Cells of a segment.
pub const SEGMENT_CELLS: u32 = 64;
/// Segments of a pool, at most.
pub const MAX_SEGMENTS: u32 = 4_194_304;
/// Segments of a pool where nothing is said.
pub const DEFAULT_SEGMENTS: u32 = 1024;
/// The last revision that may be written after, and the greatest first revision.
pub const LAST_REVISION: u64 = 4_611_686_018_427_387_904;
/// The last moment of a tenant's clock, in seconds.
pub const LAST_MOMENT: u64 = 4_611_686_018_427_387_904;
/// Where this many lease IDs were chosen, no more are.
pub const LAST_LEASE_ID: u64 = 4_611_686_018_427_387_904;
/// Seconds that a lease may live.
pub const MAX_TTL: i64 = 9_000_000_000;
/// Compares of a transaction, and operations of each of its branches.
pub const MAX_OPS: usize = 128;
/// Watches of a tenant.
pub const WATCH_SLOTS: usize = 64;
/// Revisions of a watch response.
pub const RESPONSE_REVISIONS: usize = 16;
/// Seconds without a response after which a watch that asks for it is told that there is no event.
pub const PROGRESS_SECONDS: u64 = 600;
/// Changes that a watch keeps at hand.
pub const RING_ENTRIES: usize = 256;
/// Bytes of a call's body.
pub const MAX_BODY: usize = 2_097_152;
/// Bytes of a script's line, without its newline.
pub const MAX_SCRIPT_LINE: usize = 2_200_000;
/// Bytes of a configuration.
pub const MAX_CONFIG: usize = 1_048_576;
/// Entries of an audit.
pub const MAX_AUDIT: u32 = 65_536;
/// Seats of a registry.
pub const MAX_SEATS: usize = 64;
/// Workers of a server.
pub const MAX_WORKERS: usize = 32;
