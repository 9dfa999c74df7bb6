//! Plans of watches, and what their commits do.
ghost use Rattle.std.specs.Prelude.{◌≡◌, ◌≤◌, None, true, is_some, slice_set, IfOk, IsOk};
ghost use Rattle.etcd_types.specs.declared.step.Step.TheVariants.{CatchUp, DropWatch, Take, Watch};
ghost use Rattle.etcd_model.specs.Stepping.{look_up};
ghost use Rattle.etcd_model.specs.Store.{kept_store};
ghost use Rattle.tenant_machine.specs.Deciding.{Does, holds_nothing, opened, past_early};
ghost use Rattle.tenant_machine.specs.Tenants.{IsHintOf, tenant};
ghost use Rattle.tenant_machine.specs.Plans.{Fits, FitsWatch, with_slots, with_watch};
ghost use Rattle.watch_sync.specs.Catching.{passed_all};
ghost use Rattle.watch_sync.specs.Slots.{FitsTake, slots_after, watches};

use crate::machine::Machine;
use crate::planned::{Effect, Planned};
use etcd_types::{Mem, Refusal, Reply, WatchReq};
use std::alloc::{AllocError, Global};
use watch_sync::{Hint, NewWatch, Taken, WatchFault};

// Plans.
impl Machine {
    /// A watch gets the first free slot. It is refused if there is none.
    pub(crate) fn plan_watch(&self, alloc: Global, request: &WatchReq) -> Mem<Planned>
        ensures does { IfOk result (λ p. Does self.now p (past_early (tenant self.now) (Watch request.now))) }
        ensures sure { is_some (look_up kept_store (tenant self.now) (Watch request.now)) ≡ true
            → IsOk result }
        ensures fits { IfOk result (λ p. Fits self.now p) }
    {
        match self
            .watchers
            .plan_create(alloc, &self.store, self.moment, request)
        {
            Ok(new) => Ok(self.opening(new, request.watch_id)),
            Err(WatchFault::Full) => Ok(Planned::refused(Refusal::TooManyWatches)),
            Err(WatchFault::Memory) => Err(AllocError),
        }
    }

    /// A watch that is opened.
    fn opening(&self, new: NewWatch, watch_id: i64) -> Planned
        ensures { result ≡ record { effect = Effect.Watch new; reply = opened self.now watch_id new.slot } }
    {
        let reply = Reply::Created {
            header: self.header(),
            watch_id,
            slot: new.slot(),
        };
        Planned {
            effect: Effect::Watch(new),
            reply,
        }
    }

    /// What the watch of a slot is told next, at the moment of the clock. Only events take memory.
    pub(crate) fn plan_take(&self, alloc: Global, slot: u8) -> Mem<Planned>
        ensures does { IfOk result (λ p. Does self.now p (past_early (tenant self.now) (Take slot))) }
        ensures fits { IfOk result (λ p. Fits self.now p) }
        ensures sure { holds_nothing (tenant self.now) (Take slot) ≡ true → IsOk result }
    {
        let planned = self
            .watchers
            .plan_take(alloc, &self.store, self.header(), self.moment, slot)?;
        Ok(Planned {
            effect: Effect::Take(planned.taken),
            reply: planned.reply,
        })
    }

    /// The watch of a slot ends.
    pub(crate) fn plan_drop(&self, slot: u8) -> Planned
        ensures does { Does self.now result (past_early (tenant self.now) (DropWatch slot)) }
        ensures fits { Fits self.now result }
    {
        Planned {
            effect: Effect::DropWatch(slot),
            reply: Reply::Quiet,
        }
    }

    /// Watches that are behind go over so many changes at most. Nobody is told of it.
    pub(crate) fn plan_catch_up(&self, budget: u32) -> Planned
        ensures does { Does self.now result (past_early (tenant self.now) (CatchUp budget)) }
        ensures fits { Fits self.now result }
    {
        Planned {
            effect: Effect::CatchUp(budget),
            reply: Reply::Quiet,
        }
    }
}

impl Machine {
    /// Which takes may not be quiet.
    pub fn hint(&self) -> Hint
        ensures { IsHintOf self.now result }
    {
        self.watchers.hint(&self.store, self.moment)
    }
}

// Commits.
impl Machine {
    /// Opens a watch.
    pub(crate) fn open_watch(&mut self, new: NewWatch)
        requires { FitsWatch self.old new }
        ensures tenant { tenant self.new ≡ with_watch self.old new }
        ensures store { self.new.store ≡ self.old.store }
    {
        self.watchers.create(new);
    }

    /// Goes on with the watch of a slot, or ends it, as a take planned.
    pub(crate) fn take(&mut self, taken: Taken)
        requires { FitsTake self.old.watchers self.old.store taken }
        ensures tenant { tenant self.new
            ≡ with_slots self.old (slots_after (watches self.old.watchers) taken) }
        ensures store { self.new.store ≡ self.old.store }
    {
        self.watchers.take(&self.store, taken);
    }

    /// Ends the watch of a slot.
    pub(crate) fn drop_watch(&mut self, slot: u8)
        ensures tenant { tenant self.new
            ≡ with_slots self.old (slice_set (watches self.old.watchers) slot None) }
        ensures store { self.new.store ≡ self.old.store }
    {
        self.watchers.drop_watch(slot);
    }

    /// Goes on with watches that are behind, over so many kept changes at most.
    pub(crate) fn catch_up(&mut self, budget: u32)
        ensures tenant { tenant self.new ≡ tenant self.old }
        ensures store { self.new.store ≡ self.old.store }
        ensures budget { passed_all self.old.store.kept self.old.watchers self.new.watchers ≤ budget }
    {
        self.watchers.catch_up(&self.store, budget);
    }
}
