//! Why serving ends early.
use std::alloc::AllocError;
use std::io;

/// Why nothing was served, or why serving ended before its time.
#[derive(Clone, Copy, Debug, PartialEq, Eq)]
pub enum ServeFault {
    Socket,
    /// There are fewer ways to call tenants than threads that need one.
    TooFew,
    Memory,
}

impl From<AllocError> for ServeFault {
    fn from(_: AllocError) -> ServeFault {
        ServeFault::Memory
    }
}

impl ServeFault {
    pub(crate) fn of(error: &io::Error) -> ServeFault {
        match error.kind() {
            io::ErrorKind::OutOfMemory => ServeFault::Memory,
            _ => ServeFault::Socket,
        }
    }
}
