//! How much memory the process has, as the system tells it.
use std::alloc::AllocGlobal;
use std::fs;
use std::rt::Files;

/// The bytes of a page of memory.
const PAGE: u64 = 4096;

/// How many bytes are resident; none where the system does not tell it.
pub(crate) fn resident_bytes<R: Files + AllocGlobal>(rt: &R) -> Option<u64> {
    let text = fs::read_to_string(rt, "/proc/self/statm").ok()?;
    let pages = text.split(' ').nth(1)?.parse::<u64>().ok()?;
    pages.checked_mul(PAGE)
}
