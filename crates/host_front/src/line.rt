//! What a host is asked, line by line, by its tenants and by its operator.
ghost use Rattle.std.specs.Prelude.{◌≡◌};
ghost use Rattle.host_front.specs.Lines.{lent_line, line_of};

use crate::answer::Answer;
use crate::event::{HostEvent, LentEvent};
use steps_core::OperatorFault;

/// What a tenant asks, or a call of the operator.
#[derive(Drop)]
pub enum HostLine {
    Event(HostEvent),
    /// A new tenant.
    Add {
        name: Vec<u8>,
        cluster: u64,
        quota: u64,
        first: u64,
    },
    /// Another quota in cells.
    Resize {
        name: Vec<u8>,
        quota: u64,
    },
    /// The end of a tenant and of all that it holds.
    Remove {
        name: Vec<u8>,
    },
}

/// The same, with its bytes lent.
#[derive(Clone, Copy)]
pub enum LentLine<'a> {
    Event(LentEvent<'a>),
    Add {
        name: &'a [u8],
        cluster: u64,
        quota: u64,
        first: u64,
    },
    Resize {
        name: &'a [u8],
        quota: u64,
    },
    Remove {
        name: &'a [u8],
    },
}

/// What a line is answered.
#[derive(Drop)]
pub enum LineAnswer {
    /// What a tenant is answered.
    Event(Answer),
    /// The operator's call is done.
    Done,
    /// It is not done, and nothing changed.
    No(OperatorFault),
}

impl HostLine {
    /// The same line, with its bytes lent.
    pub fn lend(&self) -> LentLine<'_>
        ensures { lent_line result ≡ line_of self.now }
    {
        match self {
            HostLine::Event(event) => LentLine::Event(event.lend()),
            HostLine::Add {
                name,
                cluster,
                quota,
                first,
            } => LentLine::Add {
                name,
                cluster: *cluster,
                quota: *quota,
                first: *first,
            },
            HostLine::Resize { name, quota } => LentLine::Resize {
                name,
                quota: *quota,
            },
            HostLine::Remove { name } => LentLine::Remove { name },
        }
    }
}
