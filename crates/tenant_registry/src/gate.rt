//! What holds a call back under its tenant's lock.
use std::rt::Clock;
use std::thread;
use std::time::Duration;

/// How often a gate is asked, at most.
const MAX_ASKED: u32 = 10_000;

/// Says whether a call waits, while it has its tenant's lock.
pub trait Gate {
    /// Whether the call waits longer. It was asked so often before, for the same call.
    fn wait_more(&self, tenant: &[u8], asked: u32) -> bool;
}

/// The gate that no call waits at.
#[derive(Clone, Copy, PartialEq, Eq)]
pub struct OpenGate;

impl Gate for OpenGate {
    fn wait_more(&self, _tenant: &[u8], _asked: u32) -> bool {
        false
    }
}

/// Sleeps a millisecond at a time while the gate says so, 10,000 times at most.
pub(crate) fn pass<R: Clock, G: Gate>(rt: &R, gate: &G, tenant: &[u8]) {
    for asked in 0..MAX_ASKED {
        if !gate.wait_more(tenant, asked) {
            return;
        }
        thread::sleep(rt, Duration::from_millis(1));
    }
}
