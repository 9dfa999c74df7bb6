//! What is asked of a new tenant, with the watches that are hinted at after each step. They are plain values: a
//! function that holds many steps is long to prove. What steps are answered is asked by `tools/check-steps`.

/// What is asked, and the slots whose takes may not be quiet after it, each with a space behind it.
pub(super) type Line = (Ask, &'static str);

/// What a step is made of.
#[derive(Clone, Copy)]
pub(super) enum Ask {
    /// Of a key, with the ID of a lease or 0.
    Put(&'static str, i64),
    Compact(i64),
    /// Of five seconds, with an ID.
    Grant(i64),
    Revoke(i64),
    /// Of `foo`, from a revision on.
    Watch(i64),
    /// The same, of a watch that asks for word of progress.
    WatchProgress(i64),
    Take(u8),
    DropWatch(u8),
    CatchUp(u32),
    Tick(u64),
}

pub(super) const PUT: Ask = Ask::Put("foo", 0);

const PUT_OF_ANOTHER_KEY: Ask = Ask::Put("fo", 0);

const PUT_OF_ANOTHER_KEY_AND_LEASE_1: Ask = Ask::Put("fo", 1);

/// A watch is hinted at while it has notes, while it is behind, and when it is to be cancelled, which an idle one
/// is too. So it is not where a write or a lease's end of another key was noted.
pub(super) const HINTED: [Line; 25] = [
    (Ask::Watch(2), ""),
    (PUT, "0 "),
    (Ask::Take(0), ""),
    (PUT_OF_ANOTHER_KEY, ""),
    (Ask::Watch(2), "1 "),
    (Ask::CatchUp(100), "1 "),
    (Ask::Take(1), ""),
    (PUT, "0 1 "),
    (Ask::Take(1), "0 "),
    (PUT, "0 1 "),
    (Ask::Compact(5), "0 1 "),
    (Ask::Take(0), "1 "),
    (Ask::DropWatch(1), ""),
    (Ask::Watch(0), ""),
    (PUT_OF_ANOTHER_KEY, ""),
    (PUT_OF_ANOTHER_KEY, ""),
    (Ask::Compact(7), "0 "),
    (Ask::Take(0), ""),
    (Ask::Watch(0), ""),
    (Ask::Grant(1), ""),
    (PUT_OF_ANOTHER_KEY_AND_LEASE_1, ""),
    (Ask::Revoke(1), ""),
    (Ask::Grant(1), ""),
    (PUT_OF_ANOTHER_KEY_AND_LEASE_1, ""),
    (Ask::Tick(5), ""),
];

/// A watch that asks for word of progress is hinted at while that is due: 600 seconds after its last answer that was
/// not quiet, unless its start is ahead.
pub(super) const DUE: [Line; 16] = [
    (Ask::Tick(100), ""),
    (Ask::WatchProgress(0), ""),
    (Ask::Tick(699), ""),
    (Ask::Take(0), ""),
    (Ask::Tick(700), "0 "),
    (Ask::Take(0), ""),
    (Ask::Take(0), ""),
    (PUT_OF_ANOTHER_KEY, ""),
    (Ask::Tick(1300), "0 "),
    (Ask::Take(0), ""),
    (PUT, "0 "),
    (Ask::Tick(1900), "0 "),
    (Ask::Take(0), ""),
    (Ask::WatchProgress(10), ""),
    (Ask::Tick(2500), "0 "),
    (Ask::Take(1), "0 "),
];
