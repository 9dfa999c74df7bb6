//! Why the server ends early.
ghost use Rattle.std.specs.Prelude.{◌≡◌, ◌≢◌};
ghost use Rattle.std.specs.IoError.{error_kind};
ghost use Rattle.etcd_host.specs.Faults.{status_of, unless_memory};

use host_sessions::{ConfigFault, ListenFault, ServeFault};
use std::alloc::AllocError;
use std::io;
use tenant_registry::CloseFault;
use thiserror::Error;

/// Why the server ends early.
#[derive(Clone, Copy, Debug, PartialEq, Eq, Error)]
pub enum HostFault {
    #[error("the configuration can't be read")]
    Config,
    #[error("can't listen")]
    Listen,
    #[error("input or output failed")]
    Io,
    #[error("out of memory")]
    Memory,
    /// The audits are not the seats' lists. `mismatch` stands on standard output.
    #[error("the audits are not the seats' lists")]
    Mismatch,
}

impl HostFault {
    /// The status that the program ends with.
    pub fn status(self) -> u8
        ensures { result ≡ status_of self }
    {
        match self {
            HostFault::Mismatch => 1,
            HostFault::Config => 2,
            HostFault::Listen | HostFault::Io => 3,
            HostFault::Memory => 4,
        }
    }
}

impl HostFault {
    /// What it is that no socket listens.
    pub(crate) fn of_listening(error: &io::Error) -> HostFault
        ensures { result ≡ unless_memory (error_kind error.now) HostFault.Listen }
    {
        match error.kind() {
            io::ErrorKind::OutOfMemory => HostFault::Memory,
            _ => HostFault::Listen,
        }
    }

    /// What it is that the configuration could not be read to its end.
    pub(crate) fn of_input(error: &io::Error) -> HostFault
        ensures { result ≡ unless_memory (error_kind error.now) HostFault.Io }
    {
        match error.kind() {
            io::ErrorKind::OutOfMemory => HostFault::Memory,
            _ => HostFault::Io,
        }
    }
}

impl From<AllocError> for HostFault {
    fn from(_: AllocError) -> HostFault
        ensures { result ≡ HostFault.Memory }
    {
        HostFault::Memory
    }
}

impl From<io::Error> for HostFault {
    fn from(_: io::Error) -> HostFault
        ensures { result ≡ HostFault.Io }
    {
        HostFault::Io
    }
}

impl From<ConfigFault> for HostFault {
    fn from(fault: ConfigFault) -> HostFault
        ensures unreadable { fault ≡ ConfigFault.Unreadable → result ≡ HostFault.Config }
        ensures memory { fault ≡ ConfigFault.Memory → result ≡ HostFault.Memory }
    {
        match fault {
            ConfigFault::Unreadable => HostFault::Config,
            ConfigFault::Memory => HostFault::Memory,
        }
    }
}

impl From<ListenFault> for HostFault {
    fn from(fault: ListenFault) -> HostFault
        ensures listen { fault ≢ ListenFault.Memory → result ≡ HostFault.Listen }
        ensures memory { fault ≡ ListenFault.Memory → result ≡ HostFault.Memory }
    {
        match fault {
            ListenFault::Address | ListenFault::Socket => HostFault::Listen,
            ListenFault::Memory => HostFault::Memory,
        }
    }
}

impl From<ServeFault> for HostFault {
    fn from(fault: ServeFault) -> HostFault
        ensures io { fault ≢ ServeFault.Memory → result ≡ HostFault.Io }
        ensures memory { fault ≡ ServeFault.Memory → result ≡ HostFault.Memory }
    {
        match fault {
            // As many seats are made as the configuration asks for.
            ServeFault::Socket | ServeFault::TooFew => HostFault::Io,
            ServeFault::Memory => HostFault::Memory,
        }
    }
}

impl From<CloseFault> for HostFault {
    fn from(fault: CloseFault) -> HostFault
        ensures memory { fault ≡ CloseFault.Memory → result ≡ HostFault.Memory }
        ensures mismatch { fault ≢ CloseFault.Memory → result ≡ HostFault.Mismatch }
    {
        match fault {
            CloseFault::Memory => HostFault::Memory,
            _ => HostFault::Mismatch,
        }
    }
}
