//! How a ring follows its store: over the newest revision, over those before, and over a compaction.
ghost use Rattle.std.specs.Prelude.{◌≡◌, ◌<◌, ◌≤◌, ◌+◌, ◌++◌, IfSome, IsFalse, IsSome, IsTrue, None, Some, map, nat_le};
ghost use Rattle.std.specs.Prelude.{ℕ, List, false, length, take};
ghost use Rattle.std.specs.List.{AllByRecursion};
ghost use Rattle.etcd_model.specs.Interval.{is_in};
ghost use Rattle.etcd_model.specs.Changes.{since};
ghost use Rattle.key_index.specs.Links.{change_at};
ghost use Rattle.revision_store.specs.Stored.{cells};
ghost use Rattle.watch_sync.specs.Ahead.{is_ahead_at, notes_at};
ghost use Rattle.watch_sync.specs.Catching.{IsStuck, MayStop, next_changes, passed, ring_entries};
ghost use Rattle.watch_sync.specs.Agreeing.{Agrees, IsStretch, cut_to, front_of, may_tell, reached, with_ring};

use crate::wanting::{is_ahead, is_other, note_of, revision_at};
use crate::watch::OpenWatch;
use etcd_types::CellNo;
use etcd_types::limits::{RESPONSE_REVISIONS, RING_ENTRIES};
use revision_store::{Changes, Store};

/// From how many changes on a watch is far behind.
const FAR_BEHIND: usize = 1024;

/// The first revision after that of the first of some cells, or after the current one.
fn reached(store: &Store, changes: &Changes<'_>) -> u64
    requires { AllByRecursion (λ c. IsSome (cells store.now c)) changes.now }
    ensures { result ≡ reached store.now changes.now }
{
    let current = store.current();
    match changes.again().next() {
        None => current + 1,
        Some(cell) => revision_at(store, cell).min(current) + 1,
    }
}

impl OpenWatch {
    /// Whether it has missed nothing that a compaction took.
    fn is_whole(&self, store: &Store) -> bool
        ensures { result ≡ nat_le store.now.kept.compacted self.now.watch.next }
    {
        store.compacted() <= self.next()
    }

    /// Whether it has notes, is behind, is to be cancelled, or is to be told that there is no event.
    pub fn may_tell(&self, store: &Store, moment: u64) -> bool
        ensures { result ≡ may_tell store.now moment self.now }
    {
        self.ring_len() > 0
            || self.position() <= store.current()
            || !self.is_whole(store)
            || self.is_due(store, moment)
    }

    /// Whether a take would look at many changes behind the ring, over which catch-ups bring it in small steps. It
    /// promises nothing.
    pub fn is_far_behind(&self, store: &Store) -> bool {
        self.position() <= store.current()
            && store.since(self.position()).len() >= FAR_BEHIND
            && self.ring_len() <= RESPONSE_REVISIONS
            && self.is_whole(store)
            && self.has_room_for_next(store)
    }

    /// Whether the ring has room for the changes of the next revision that has some, so that a catch-up can go on.
    fn has_room_for_next(&self, store: &Store) -> bool
        requires { self.now.position ≤ store.now.kept.current }
    {
        let (changes, _) = self.next_stretch(store);
        self.ring_len().saturating_add(changes.len()) <= RING_ENTRIES
    }

    /// Whether it is to be told of the change under a cell.
    pub(crate) fn is_ahead(&self, store: &Store, cell: CellNo) -> bool
        requires { IsSome (cells store.now cell) }
        ensures { result ≡ is_ahead_at (cells store.now) self.now.watch cell }
    {
        is_ahead(&self.watch, store, cell)
    }

    /// Whether it is of one key, and another key's front shows that it is not that one.
    fn is_other(&self, front: &[u8]) -> bool
        ensures other { IsTrue result → (key : List ℕ) → front.now ≡ take 48 key
            → is_in self.now.watch.key self.now.watch.range_end key ≡ false }
        ensures some { IsTrue result → 0 < length front.now }
    {
        is_other(&self.watch, front)
    }

    /// Takes up the changes under some cells, those that are ahead, if there is room for all of them.
    fn take_up(&mut self, store: &Store, changes: &Changes<'_>) -> bool
        requires { AllByRecursion (λ c. IsSome (cells store.now c)) changes.now }
        ensures all { IsTrue result
            → self.new ≡ with_ring self.old
            (self.old.ring ++ notes_at (cells store.now) self.old.watch changes.now) }
        ensures none { IsFalse result → self.new ≡ self.old }
        ensures full { IsFalse result → ring_entries
            < length self.old.ring + length (notes_at (cells store.now) self.old.watch changes.now) }
    {
        let before = self.ring_len();
        for cell in changes.again() {
            if self.is_ahead(store, cell) {
                if !self.push(note_of(store, cell)) {
                    self.shorten(before);
                    return false;
                }
            }
        }
        true
    }

    /// Goes on over the changes up to a later revision, if there is room for those that are ahead.
    fn pass(&mut self, store: &Store, changes: &Changes<'_>, to: u64) -> bool
        requires whole { store.now.kept.compacted ≤ self.old.watch.next }
        requires stretch { IsStretch store.now self.old.position to changes.now }
        ensures agrees { Agrees self.old store.now → Agrees self.new store.now }
        ensures watch { self.new.watch ≡ self.old.watch }
        ensures moved { IsTrue result → self.new.position ≡ to }
        ensures none { IsFalse result → self.new ≡ self.old }
        ensures full { IsFalse result → ring_entries
            < length self.old.ring + length (notes_at (cells store.now) self.old.watch changes.now) }
    {
        store.use_invariant();
        if !self.take_up(store, changes) {
            return false;
        }
        self.move_to(to);
        true
    }

    /// Takes up the newest revision, if the ring has all before it and room for it.
    pub fn note(&mut self, store: &Store, newest: &Changes<'_>, front: &[u8])
        requires newest { map (change_at (cells store.now)) newest.now
            ≡ map Some (since store.now.kept.current store.now.kept.changes) }
        requires front { front.now ≡ front_of store.now newest.now }
        ensures agrees { Agrees self.old store.now → Agrees self.new store.now }
        ensures watch { self.new.watch ≡ self.old.watch }
    {
        let current = store.current();
        if self.position() != current {
            return;
        }
        if !self.is_whole(store) {
            return;
        }
        // Most puts are of another key, which one comparison of bytes tells.
        if self.is_other(front) {
            self.move_to(current + 1);
            return;
        }
        self.pass(store, newest, current + 1);
    }

    /// The changes of the next revision that has some, from the position on, and the revision after it; where none
    /// has, no change and the revision after the current one.
    fn next_stretch<'a>(&self, store: &'a Store) -> (Changes<'a>, u64)
        requires { self.now.position ≤ store.now.kept.current }
        ensures stretch { IsStretch store.now self.now.position result.1 result.0 }
        ensures next { map (change_at (cells store.now)) result.0
            ≡ map Some (next_changes store.now.kept self.now.position) }
        ensures later { self.now.position < result.1 }
    {
        store.use_invariant();
        let changes = store.since(self.position());
        let to = reached(store, &changes);
        let later = store.since(to);
        let count = changes.len() - later.len();
        (changes.first(count), to)
    }

    /// Goes on by one revision that has changes, or to the end, over so many changes at most. Answers
    /// how many it went over, or nothing if it can't go on.
    fn go_on(&mut self, store: &Store, budget: usize) -> Option<usize>
        requires whole { store.now.kept.compacted ≤ self.old.watch.next }
        requires behind { self.old.position ≤ store.now.kept.current }
        ensures agrees { Agrees self.old store.now → Agrees self.new store.now }
        ensures watch { self.new.watch ≡ self.old.watch }
        ensures further { IfSome result (λ n. self.old.position < self.new.position) }
        ensures passed { IfSome result (λ n. n ≡ passed store.now.kept self.old.position self.new.position) }
        ensures within { IfSome result (λ n. n ≤ budget) }
        ensures stays { result ≡ None → self.new ≡ self.old }
        ensures stuck { result ≡ None → IsStuck store.now.kept budget self.old }
    {
        let (changes, to) = self.next_stretch(store);
        let count = changes.len();
        if count > budget {
            return None;
        }
        if !self.pass(store, &changes, to) {
            return None;
        }
        Some(count)
    }

    /// Goes on over so many changes at most, as far as that and the ring's room go. Answers how many are left of them.
    pub fn catch_up(&mut self, store: &Store, budget: usize) -> usize
        ensures agrees { Agrees self.old store.now → Agrees self.new store.now }
        ensures watch { self.new.watch ≡ self.old.watch }
        ensures forth { self.old.position ≤ self.new.position }
        ensures budget { passed store.now.kept self.old.position self.new.position + result ≡ budget }
        ensures stops { MayStop store.now.kept result self.new }
    {
        let mut left = budget;
        if !self.is_whole(store) {
            return left;
        }
        while self.position() <= store.current() {
            match self.go_on(store, left) {
                Some(scanned) => left -= scanned,
                None => return left,
            }
        }
        left
    }

    /// Follows a compaction: a watch that missed what it took keeps no note.
    pub fn cut(&mut self, store: &Store)
        ensures { self.new ≡ cut_to store.now self.old }
    {
        if !self.is_whole(store) {
            self.clear();
        }
    }
}
