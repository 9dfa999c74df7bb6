//! What a tenant is told to have beside its quota, and how long a peer may keep a connection waiting.
use auto_compaction::Retention;
use std::time::Duration;

/// The most seconds that a peer may be given: a day.
pub const MAX_PATIENCE: u32 = 86_400;

/// How many event loops read and write the sockets of connections.
pub const LOOPS: usize = 4;

/// What the clients of a tenant may take, and what of its history is kept.
#[derive(Clone, Copy)]
pub struct Allowance {
    /// How many bytes of bodies and answers may be under way.
    pub budget: usize,
    /// How many connections may be open; without it a quarter of those of all.
    pub open_connections: Option<usize>,
    /// What of its history is kept; a server compacts the rest.
    pub retention: Retention,
}

/// How long a peer may keep a connection waiting, in seconds.
#[derive(Clone, Copy)]
pub struct Patience {
    /// For the whole head of a request.
    pub head: u32,
    /// For the next piece of a body.
    pub body: u32,
    /// For taking some of what was sent to it.
    pub answer: u32,
    /// For saying anything at all, after which the system asks whether it is still there.
    pub silence: u32,
}

impl Patience {
    /// What is granted where the configuration says nothing.
    pub const DEFAULT: Patience = Patience {
        head: 30,
        body: 30,
        answer: 60,
        silence: 60,
    };

    /// How long a head is waited for.
    pub fn for_head(self) -> Duration {
        Duration::from_secs(self.head.into())
    }

    /// How long the next piece of a body is waited for.
    pub fn for_body(self) -> Duration {
        Duration::from_secs(self.body.into())
    }
}
