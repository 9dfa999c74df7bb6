//! How many calls of a tenant were answered, by what they ask and by status, and how many were refused, by number.
use etcd_types::{Call, Refusal};
use std::array;
use std::sync::atomic::{AtomicU64, Ordering};

/// All calls, in the order of their counts.
pub const CALLS: [Call; 14] = [
    Call::Range,
    Call::Put,
    Call::DeleteRange,
    Call::Txn,
    Call::Compaction,
    Call::Watch,
    Call::Grant,
    Call::Revoke,
    Call::KeepAlive,
    Call::TimeToLive,
    Call::Leases,
    Call::Alarm,
    Call::Status,
    Call::Defragment,
];

/// The statuses that a call may be answered with.
pub const STATUSES: [u16; 6] = [200, 400, 404, 429, 501, 503];

/// A count for each call and each status, those of a call together.
const COUNTS: usize = 84;

/// The greatest number of a refusal; the least is 1.
pub const LAST_REFUSAL: u8 = 21;

/// A count for each number of a refusal.
const REFUSALS: usize = 21;

/// The counts of a tenant.
#[derive(Drop)]
pub struct AnsweredCalls {
    counts: [AtomicU64; COUNTS],
    refused: [AtomicU64; REFUSALS],
}

impl AnsweredCalls {
    /// None was answered.
    pub fn new() -> AnsweredCalls {
        AnsweredCalls {
            counts: array::from_fn(|_| AtomicU64::new(0)),
            refused: array::from_fn(|_| AtomicU64::new(0)),
        }
    }

    /// A call was answered, by a refusal or by what it asked for.
    pub fn add(&self, call: Call, status: u16, refusal: Option<Refusal>) {
        if let Some(count) = self.count(call, status) {
            count.fetch_add(1, Ordering::Relaxed);
        }
        if let Some(refusal) = refusal
            && let Some(count) = self.refusals(refusal.number())
        {
            count.fetch_add(1, Ordering::Relaxed);
        }
    }

    /// How many calls were refused under a number.
    pub fn refused(&self, number: u8) -> u64 {
        match self.refusals(number) {
            Some(count) => count.load(Ordering::Relaxed),
            None => 0,
        }
    }

    fn refusals(&self, number: u8) -> Option<&AtomicU64> {
        let place = usize::from(number).checked_sub(1)?;
        self.refused.get(place)
    }

    /// How many calls were answered with a status.
    pub fn of(&self, call: Call, status: u16) -> u64 {
        match self.count(call, status) {
            Some(count) => count.load(Ordering::Relaxed),
            None => 0,
        }
    }

    fn count(&self, call: Call, status: u16) -> Option<&AtomicU64> {
        let call = CALLS.iter().position(|one| *one == call)?;
        let status = STATUSES.iter().position(|one| *one == status)?;
        self.counts.get(call * STATUSES.len() + status)
    }
}
