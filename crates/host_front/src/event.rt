//! What a host is asked, as bytes.
ghost use Rattle.std.specs.Prelude.{◌≡◌};
ghost use Rattle.host_front.specs.Events.{event_of, lent_event};

/// What one tenant of a host is asked.
#[derive(Drop)]
pub enum HostEvent {
    /// A call of the gateway. Its target names the tenant.
    Call {
        method: Vec<u8>,
        target: Vec<u8>,
        body: Vec<u8>,
    },
    /// The next response of the watch in that slot.
    Take {
        tenant: Vec<u8>,
        slot: u8,
    },
    DropWatch {
        tenant: Vec<u8>,
        slot: u8,
    },
    /// The moment in seconds has come.
    Tick {
        tenant: Vec<u8>,
        moment: u64,
    },
    /// Work for watches that are behind: at most so many changes are looked at.
    CatchUp {
        tenant: Vec<u8>,
        budget: u32,
    },
}

/// The same, with its bytes lent.
#[derive(Clone, Copy)]
pub enum LentEvent<'a> {
    Call {
        method: &'a [u8],
        target: &'a [u8],
        body: &'a [u8],
    },
    Take {
        tenant: &'a [u8],
        slot: u8,
    },
    DropWatch {
        tenant: &'a [u8],
        slot: u8,
    },
    Tick {
        tenant: &'a [u8],
        moment: u64,
    },
    CatchUp {
        tenant: &'a [u8],
        budget: u32,
    },
}

impl HostEvent {
    /// The same event, with its bytes lent.
    pub fn lend(&self) -> LentEvent<'_>
        ensures { lent_event result ≡ event_of self.now }
    {
        match self {
            HostEvent::Call {
                method,
                target,
                body,
            } => LentEvent::Call {
                method,
                target,
                body,
            },
            HostEvent::Take { tenant, slot } => LentEvent::Take {
                tenant,
                slot: *slot,
            },
            HostEvent::DropWatch { tenant, slot } => LentEvent::DropWatch {
                tenant,
                slot: *slot,
            },
            HostEvent::Tick { tenant, moment } => LentEvent::Tick {
                tenant,
                moment: *moment,
            },
            HostEvent::CatchUp { tenant, budget } => LentEvent::CatchUp {
                tenant,
                budget: *budget,
            },
        }
    }
}
