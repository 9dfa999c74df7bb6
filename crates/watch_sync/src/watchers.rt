//! The watches of one tenant.
ghost use Rattle.std.specs.List.{All};
ghost use Rattle.std.specs.Prelude.{◌≡◌, ◌+◌, ℕ, List, None, Some, IfOk, IsErrOf, ◌↔◌, is_none, position};
ghost use Rattle.std.specs.Prelude.{replicate, slice_set};
ghost use Rattle.etcd_types.specs.Limits.{watch_slots};
ghost use Rattle.etcd_model.specs.Watches.{watch_of};
ghost use Rattle.revision_store.specs.Stored.{StoreState, Commits};
ghost use Rattle.revision_store.specs.declared.plan.Write.{Write};
ghost use Rattle.watch_sync.specs.Agreeing.{Agrees, Compacts};
ghost use Rattle.watch_sync.specs.Catching.{MayStopIn, passed_all};
ghost use Rattle.watch_sync.specs.Slots.{AllAgree, FitsTake, StillAgree, hinted, slots_after, watch_in, watches};
ghost use Rattle.watch_sync.specs.Hints.{is_hinted};

use crate::hint::{Hint, SlotHint};
use crate::planned::{NewWatch, Taken, WatchFault};
use crate::slots::{catch_up_all, cut_all, hint_of, note_all, told};
use crate::watch::OpenWatch;
use etcd_types::limits::WATCH_SLOTS;
use etcd_types::{Mem, WatchReq};
use revision_store::Store;
use std::alloc::Global;
use std::marker::Model;

/// Slots, each free or with a watch.
pub struct Watchers {
    pub(crate) slots: Vec<Option<OpenWatch>>,
    /// `false` as long as there was no watch: what a tenant without watches writes passes all slots by.
    watched: bool,
}

impl Drop for Watchers {
    fn drop(self) {
        let Watchers {
            slots: _,
            watched: _,
        } = self;
    }
}

impl Model for Watchers {
    ghost use Rattle.std.specs.Prelude.{List, Option, None, false, length, replicate, ◌≡◌};
    ghost use Rattle.etcd_types.specs.Limits.{watch_slots};
    ghost use Rattle.watch_sync.specs.Agreeing.{WatchState};
    ghost use Rattle.watch_sync.specs.Codes.{watchers_code};

    ghost Value = { List (Option WatchState) };

    ghost coded = { watchers_code };

    ghost view = { λ a. a.slots.items };

    ghost invariant = { λ a. (length a.slots.items ≡ watch_slots)
        × (a.watched ≡ false → a.slots.items ≡ replicate watch_slots None) };
}

/// The first slot that is free.
fn free_slot(slots: &[Option<OpenWatch>]) -> Option<usize>
    ensures { result ≡ position is_none slots.now }
{
    slots.iter().position(|slot| slot.is_none())
}

impl Watchers {
    /// All slots free.
    pub fn new(alloc: Global) -> Mem<Watchers>
        ensures watches { IfOk result (λ all. watches all ≡ replicate watch_slots None) }
        ensures agree { IfOk result (λ all. (store : StoreState) → AllAgree all store) }
    {
        let mut slots = Vec::with_capacity(alloc, WATCH_SLOTS)?;
        'freeing: for _slot in 0..WATCH_SLOTS {
            slots.push_reserved(None);
        }
        Ok(Watchers {
            slots,
            watched: false,
        })
    }

    /// Which takes may not be quiet at a moment, and which watches are far behind.
    pub fn hint(&self, store: &Store, moment: u64) -> Hint
        ensures { (slot : ℕ) → is_hinted result slot ≡ hinted store.now moment (watch_in self.now slot) }
    {
        let mut slots = [SlotHint::QUIET; WATCH_SLOTS];
        for (place, slot) in self.slots.iter().enumerate() {
            slots[place] = hint_of(slot, store, moment);
        }
        Hint { slots }
    }

    /// A watch that is to be opened at a moment, with its ring. Where no slot is free it takes no memory.
    pub fn plan_create(
        &self,
        alloc: Global,
        store: &Store,
        moment: u64,
        request: &WatchReq,
    ) -> Result<NewWatch, WatchFault>
        ensures slot { IfOk result (λ new. position is_none (watches self.now) ≡ Some new.slot) }
        ensures full { IsErrOf result WatchFault.Full ↔ (position is_none (watches self.now) ≡ None) }
        ensures watch { IfOk result (λ new. new.watch.watch
            ≡ watch_of store.now.kept.current moment request.now) }
        ensures agrees { IfOk result (λ new. Agrees new.watch store.now) }
    {
        let Some(slot) = free_slot(&self.slots) else {
            return Err(WatchFault::Full);
        };
        let watch = OpenWatch::open(alloc, store, moment, request)?;
        Ok(NewWatch {
            slot: slot as u8,
            watch,
        })
    }

    /// Opens a watch in its slot, which it answers. It takes no memory and cannot fail.
    pub fn create(&mut self, new: NewWatch) -> u8
        requires { position is_none (watches self.old) ≡ Some new.slot }
        ensures slot { result ≡ new.slot }
        ensures watches { watches self.new ≡ slice_set (watches self.old) new.slot (Some new.watch.watch) }
        ensures agree { (store : StoreState) → AllAgree self.old store → Agrees new.watch store
            → AllAgree self.new store }
    {
        let NewWatch { slot, watch } = new;
        self.slots[slot as usize] = Some(watch);
        self.watched = true;
        slot
    }

    /// Frees a slot. It takes no memory and cannot fail.
    pub fn drop_watch(&mut self, slot: u8)
        ensures watches { watches self.new ≡ slice_set (watches self.old) slot None }
        ensures agree { StillAgree self.old self.new }
    {
        let slot = slot as usize;
        if slot < self.slots.len() {
            self.watched = true;
            self.slots[slot] = None;
        }
    }

    /// Takes up the newest revision, after a commit, in each ring that has all before it. It takes no memory
    /// and cannot fail.
    pub fn note(&mut self, store: &Store)
        ensures watches { watches self.new ≡ watches self.old }
        ensures agree { (old : StoreState) (writes : List Write) → Commits old store.now writes
            → AllAgree self.old old → AllAgree self.new store.now }
    {
        if self.watched {
            note_all(&mut self.slots, store);
        }
    }

    /// Goes on with the rings that are behind, over so many kept changes at most, and answers how many are left of
    /// them. Each slot takes from what those before it left, and goes as far as that and its ring's room let it. It
    /// takes no memory and cannot fail.
    pub fn catch_up(&mut self, store: &Store, budget: u32) -> usize
        requires { AllAgree self.old store.now }
        ensures watches { watches self.new ≡ watches self.old }
        ensures agree { AllAgree self.new store.now }
        ensures budget { passed_all store.now.kept self.old self.new + result ≡ budget }
        ensures stops { All (MayStopIn store.now.kept result) self.new }
    {
        self.watched = true;
        catch_up_all(&mut self.slots, store, budget as usize)
    }

    /// Follows a compaction: rings keep nothing that it took. It takes no memory and cannot fail.
    pub fn cut(&mut self, store: &Store)
        ensures watches { watches self.new ≡ watches self.old }
        ensures agree { (old : StoreState) (revision : ℕ) → Compacts old store.now revision
            → AllAgree self.old old → AllAgree self.new store.now }
    {
        if self.watched {
            cut_all(&mut self.slots, store);
        }
    }

    /// Makes what a take planned. It takes no memory and cannot fail.
    pub fn take(&mut self, store: &Store, taken: Taken)
        requires agree { AllAgree self.old store.now }
        requires fits { FitsTake self.old store.now taken }
        ensures watches { watches self.new ≡ slots_after (watches self.old) taken }
        ensures agree { AllAgree self.new store.now }
    {
        match taken {
            Taken::Nothing => {}
            Taken::Canceled(slot) => self.drop_watch(slot),
            Taken::Told { slot, next, last } => {
                let slot = slot as usize;
                if slot < self.slots.len() {
                    self.watched = true;
                    told(&mut self.slots[slot], store, next, last);
                }
            }
        }
    }
}
