//! How long a connection gives way to the others of its loop.
//!
//! A loop looks at its sockets once in 64 polls of its tasks. So a connection that reads or writes much in one poll gives way
//! for as many as it would have taken in small ones: else nobody new is heard for milliseconds.

/// So many bytes are read or written in a few microseconds, which other polls take too.
const BYTES_FOR_A_POLL: usize = 4_096;

/// For how many polls it gives way, once it has read or written so many bytes in one.
pub(crate) fn polls_for(bytes: usize) -> usize {
    bytes / BYTES_FOR_A_POLL
}
