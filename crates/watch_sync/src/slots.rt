//! Slots: what a watch does, if a slot has one, and what all do.
ghost use Rattle.std.specs.List.{All};
ghost use Rattle.std.specs.Prelude.{◌≡◌, ◌+◌, Some, IfSome, map, option_map};
ghost use Rattle.etcd_model.specs.Changes.{since};
ghost use Rattle.key_index.specs.Links.{change_at};
ghost use Rattle.revision_store.specs.Stored.{cells};
ghost use Rattle.watch_sync.specs.Agreeing.{cut_to, front_of, with_next};
ghost use Rattle.watch_sync.specs.Catching.{MayStopIn, passed_all, passed_in};
ghost use Rattle.watch_sync.specs.Slots.{AllAgree, GoesOn, OneAgrees, hinted, watches};

use crate::hint::SlotHint;
use crate::wanting::front_of;
use crate::watch::OpenWatch;
use revision_store::{Changes, Store};

/// Takes up the newest revision.
fn note(slot: &mut Option<OpenWatch>, store: &Store, newest: &Changes<'_>, front: &[u8])
    requires newest { map (change_at (cells store.now)) newest.now
        ≡ map Some (since store.now.kept.current store.now.kept.changes) }
    requires front { front.now ≡ front_of store.now newest.now }
    ensures agrees { OneAgrees store.now slot.old → OneAgrees store.now slot.new }
    ensures watch { option_map (λ w. w.watch) slot.new ≡ option_map (λ w. w.watch) slot.old }
{
    if let Some(watch) = slot {
        watch.note(store, newest, front);
    }
}

/// Goes on over so many changes at most. Answers how many are left of them.
fn catch_up(slot: &mut Option<OpenWatch>, store: &Store, budget: usize) -> usize
    ensures agrees { OneAgrees store.now slot.old → OneAgrees store.now slot.new }
    ensures watch { option_map (λ w. w.watch) slot.new ≡ option_map (λ w. w.watch) slot.old }
    ensures budget { passed_in store.now.kept slot.old slot.new + result ≡ budget }
    ensures stops { MayStopIn store.now.kept result slot.new }
{
    match slot {
        Some(watch) => watch.catch_up(store, budget),
        None => budget,
    }
}

/// Follows a compaction.
fn cut(slot: &mut Option<OpenWatch>, store: &Store)
    ensures { slot.new ≡ option_map (cut_to store.now) slot.old }
{
    if let Some(watch) = slot {
        watch.cut(store);
    }
}

/// Whether a take at a moment may not be quiet.
fn may_tell(slot: &Option<OpenWatch>, store: &Store, moment: u64) -> bool
    ensures { result ≡ hinted store.now moment slot.now }
{
    match slot {
        Some(watch) => watch.may_tell(store, moment),
        None => false,
    }
}

/// Whether a take would look at many changes, over which catch-ups bring the watch in small steps.
fn is_far_behind(slot: &Option<OpenWatch>, store: &Store) -> bool {
    match slot {
        Some(watch) => watch.is_far_behind(store),
        None => false,
    }
}

/// What is told of a slot at a moment.
pub(crate) fn hint_of(slot: &Option<OpenWatch>, store: &Store, moment: u64) -> SlotHint
    ensures { result.may_tell ≡ hinted store.now moment slot.now }
{
    SlotHint {
        may_tell: may_tell(slot, store, moment),
        is_far_behind: is_far_behind(slot, store),
    }
}

/// Goes on at a later revision, with the moment of the last response.
pub(crate) fn told(slot: &mut Option<OpenWatch>, store: &Store, next: u64, last: u64)
    requires agrees { OneAgrees store.now slot.old }
    requires on { IfSome slot.old (GoesOn store.now next) }
    ensures agrees { OneAgrees store.now slot.new }
    ensures watch { option_map (λ w. w.watch) slot.new
        ≡ option_map (λ w. with_next w.watch next last) slot.old }
{
    if let Some(watch) = slot {
        watch.told(store, next, last);
    }
}

/// Takes up the newest revision in each slot.
pub(crate) fn note_all(slots: &mut [Option<OpenWatch>], store: &Store)
    ensures agree { AllAgree slots.old store.now → AllAgree slots.new store.now }
    ensures watches { watches slots.new ≡ watches slots.old }
{
    let newest = store.since(store.current());
    let front = front_of(store, &newest);
    for slot in slots.iter_mut() {
        note(slot, store, &newest, front);
    }
}

/// Goes on in each slot, over so many changes at most in all. Answers how many are left of them.
pub(crate) fn catch_up_all(slots: &mut [Option<OpenWatch>], store: &Store, budget: usize) -> usize
    ensures agree { AllAgree slots.old store.now → AllAgree slots.new store.now }
    ensures watches { watches slots.new ≡ watches slots.old }
    ensures budget { passed_all store.now.kept slots.old slots.new + result ≡ budget }
    ensures stops { All (MayStopIn store.now.kept result) slots.new }
{
    let mut left = budget;
    for slot in slots.iter_mut() {
        left = catch_up(slot, store, left);
    }
    left
}

/// Follows a compaction in each slot.
pub(crate) fn cut_all(slots: &mut [Option<OpenWatch>], store: &Store)
    ensures { slots.new ≡ map (option_map (cut_to store.now)) slots.old }
{
    for slot in slots.iter_mut() {
        cut(slot, store);
    }
}
