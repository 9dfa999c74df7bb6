//! What is planned for a step.
ghost use Rattle.std.specs.Prelude.{◌≡◌, true};
ghost use Rattle.etcd_types.specs.declared.refusal.Refusal.TheVariants.{NoSpace};
ghost use Rattle.etcd_types.specs.declared.reply.Reply.TheVariants.{Refused};

use etcd_types::{Refusal, Reply};
use lease_book::NewLease;
use revision_store::Plan;
use std::marker::Model;
use watch_sync::{NewWatch, Taken};

/// What a commit does to a machine. It has all the memory that this needs.
#[derive(Drop)]
pub(crate) enum Effect {
    Nothing,
    /// The alarm goes on, or off.
    Alarm(bool),
    /// Changes become one more revision, and so many cells are in use then.
    Write { plan: Plan, used: u64 },
    /// What reads below this revision need is forgotten.
    Compact(u64),
    /// A lease is granted.
    Grant(NewLease),
    /// The lease with this ID, which is there, gets the end that it would have if it was granted now.
    Renew(i64),
    /// The lease with this ID, which is there, ends with its keys.
    End(i64),
    /// The clock comes to a moment, and what has run out ends.
    Tick(u64),
    /// A watch is opened.
    Watch(NewWatch),
    /// The watch of a slot was told of something, or goes.
    Take(Taken),
    /// The slot is free.
    DropWatch(u8),
    /// Watches that are behind go over so many changes at most.
    CatchUp(u32),
}

/// A step that is decided: its reply, and what its commit does.
#[derive(Drop)]
pub struct Planned {
    pub(crate) effect: Effect,
    pub(crate) reply: Reply,
}

impl Model for Planned {
    ghost use Rattle.tenant_machine.specs.Plans as plans;

    ghost Value = { plans.Plan };

    ghost view = { λ p. record { effect = p.effect; reply = p.reply } };
}

impl Planned {
    /// The reply that the commit will give.
    pub fn reply(&self) -> &Reply
        ensures { result.now ≡ self.now.reply }
    {
        &self.reply
    }

    /// A step that changes nothing.
    pub(crate) fn told(reply: Reply) -> Planned
        ensures { result ≡ record { effect = Effect.Nothing; reply = reply } }
    {
        Planned {
            effect: Effect::Nothing,
            reply,
        }
    }

    /// A step that is refused, and so changes nothing.
    pub(crate) fn refused(refusal: Refusal) -> Planned
        ensures { result ≡ record { effect = Effect.Nothing; reply = Refused refusal } }
    {
        Planned::told(Reply::Refused(refusal))
    }

    /// A step for which there is no space: it is refused, and the alarm goes on.
    pub(crate) fn no_space() -> Planned
        ensures { result ≡ record { effect = Effect.Alarm true; reply = Refused NoSpace } }
    {
        Planned {
            effect: Effect::Alarm(true),
            reply: Reply::Refused(Refusal::NoSpace),
        }
    }
}
