//! What a take is answered.
ghost use Rattle.std.specs.Prelude.{◌≡◌, ◌<◌, ◌^◌, List, Option, Some, IfOk, IsOk, false, pos, slice_get};
ghost use Rattle.std.specs.Option.{option_copied};
ghost use Rattle.etcd_types.specs.declared.reply.Reply.TheVariants.{Canceled, Quiet};
ghost use Rattle.etcd_model.specs.Watches.{last_told};
ghost use Rattle.watch_sync.specs.Agreeing.{Agrees, WatchState, may_tell};
ghost use Rattle.watch_sync.specs.Slots.{AllAgree, PlansTake, gives_events, hinted, watch_in, watches};

use crate::planned::{PlannedTake, Taken};
use crate::watch::OpenWatch;
use crate::watchers::Watchers;
use etcd_types::{Header, Mem, Reply};
use revision_store::Store;
use std::alloc::Global;

/// A revision as answers have it.
fn signed(revision: u64) -> i64
    requires { revision < 2 ^ 63 }
    ensures { result ≡ pos revision }
{
    revision as i64
}

impl OpenWatch {
    /// The answer of a cancel.
    fn cancel(&self, store: &Store, header: Header) -> Reply
        ensures { result ≡ Canceled header self.now.watch.id (pos store.now.kept.compacted) }
    {
        store.use_invariant();
        Reply::Canceled {
            header,
            watch_id: self.watch.id,
            compact_revision: signed(store.compacted()),
        }
    }

    /// The moment of the last response, after a take that is answered so.
    fn last_told(&self, moment: u64, reply: &Reply) -> u64
        ensures { result ≡ last_told moment self.now.watch.told reply.now }
    {
        match reply {
            Reply::Quiet => self.told_at(),
            _ => moment,
        }
    }

    /// What a take of the watch, which has this slot, makes of it at a moment, and what it is answered.
    fn plan(
        &self,
        alloc: Global,
        store: &Store,
        header: Header,
        moment: u64,
        slot: u8,
    ) -> Mem<PlannedTake>
        requires { Agrees self.now store.now }
        ensures plans { IfOk result (λ planned. (slots : List (Option WatchState))
            → slice_get slots slot ≡ Some (Some self.now)
            → PlansTake slots store.now header moment slot planned) }
        ensures sure { gives_events store.now.kept (Some self.now.watch) ≡ false → IsOk result }
        ensures quiet { may_tell store.now moment self.now ≡ false → IfOk result (λ p. p.reply ≡ Quiet) }
    {
        store.use_invariant();
        if self.next() < store.compacted() {
            let reply = self.cancel(store, header);
            return Ok(PlannedTake {
                taken: Taken::Canceled(slot),
                reply,
            });
        }
        let (reply, next) = self.tell(alloc, store, header, moment)?;
        let last = self.last_told(moment, &reply);
        Ok(PlannedTake {
            taken: Taken::Told { slot, next, last },
            reply,
        })
    }
}

impl Watchers {
    /// The watch of a slot.
    pub(crate) fn watch(&self, slot: u8) -> Option<&OpenWatch>
        ensures { option_copied result ≡ watch_in self.now slot }
    {
        match self.slots.get(slot as usize) {
            Some(Some(watch)) => Some(watch),
            _ => None,
        }
    }

    /// What a slot is told next, and what its watch is then: nothing if it is free or there is no event, unless
    /// that is to be told, and a cancel if a compaction took what it was still to be told of. Only events take
    /// memory.
    pub fn plan_take(
        &self,
        alloc: Global,
        store: &Store,
        header: Header,
        moment: u64,
        slot: u8,
    ) -> Mem<PlannedTake>
        requires { AllAgree self.now store.now }
        ensures plans { IfOk result (PlansTake self.now store.now header moment slot) }
        ensures sure { gives_events store.now.kept (watch_in (watches self.now) slot) ≡ false → IsOk result }
        ensures quiet { hinted store.now moment (watch_in self.now slot) ≡ false
            → IfOk result (λ p. p.reply ≡ Quiet) }
    {
        match self.watch(slot) {
            Some(watch) => watch.plan(alloc, store, header, moment, slot),
            None => Ok(PlannedTake {
                taken: Taken::Nothing,
                reply: Reply::Quiet,
            }),
        }
    }
}
