//! What a watch is told next.
ghost use Rattle.std.specs.Prelude.{◌≡◌, ◌<◌, ◌≤◌, [], IfOk, IsOk, IsSome, OnOk, Some, fold, map};
ghost use Rattle.std.specs.List.{AllByRecursion};
ghost use Rattle.etcd_model.specs.Changes.{since};
ghost use Rattle.key_index.specs.Links.{change_at};
ghost use Rattle.revision_store.specs.Stored.{cells};
ghost use Rattle.watch_sync.specs.Ahead.{AreNotes, ahead, notes_at};
ghost use Rattle.watch_sync.specs.Agreeing.{Agrees, NotesRise, notes_from, with_next};
ghost use Rattle.watch_sync.specs.Gathering.{first_changes, next_after, next_told, offered};

use crate::gathered::Gathered;
use crate::wanting::note_of;
use crate::watch::OpenWatch;
use etcd_types::Mem;
use revision_store::{Changes, Store};
use std::alloc::Global;

impl OpenWatch {
    /// What the next response has: first from the ring, then from what is behind it.
    pub fn gather(&self, alloc: Global, store: &Store) -> Mem<Gathered>
        requires whole { store.now.kept.compacted ≤ self.now.watch.next }
        requires agrees { Agrees self.now store.now }
        ensures notes { IfOk result (λ g. AreNotes (cells store.now) g.notes
            (first_changes (ahead self.now.watch store.now.kept.changes))) }
        ensures next { IfOk result (λ g. next_after store.now.kept.current self.now.watch.next g
            ≡ next_told store.now.kept.current self.now.watch (ahead self.now.watch store.now.kept.changes)) }
        ensures later { IfOk result (λ g. self.now.watch.next
            ≤ next_after store.now.kept.current self.now.watch.next g) }
        ensures last { IfOk result (λ g. g.last ≤ store.now.kept.current) }
        ensures sure { ahead self.now.watch store.now.kept.changes ≡ [] → IsOk result }
    {
        store.use_invariant();
        let mut found = Gathered::new(alloc);
        let mut place = 0;
        while place < self.ring_len() {
            found.offer(self.note_at(place))?;
            place += 1;
        }
        self.scan(store, &self.behind(store), &mut found)?;
        Ok(found)
    }

    /// The changes from the position on, which a watch that is synced has none of.
    fn behind<'a>(&self, store: &'a Store) -> Changes<'a>
        ensures { map (change_at (cells store.now)) result
            ≡ map Some (since self.now.position store.now.kept.changes) }
    {
        if self.position() > store.current() {
            return Changes::none();
        }
        store.since(self.position())
    }

    /// Goes over some cells, until there is one revision more than a response has.
    fn scan(&self, store: &Store, changes: &Changes<'_>, found: &mut Gathered) -> Mem<()>
        requires { AllByRecursion (λ c. IsSome (cells store.now c)) changes.now }
        ensures notes { OnOk result
            (found.new ≡ fold offered found.old (notes_at (cells store.now) self.now.watch changes.now)) }
        ensures sure { notes_at (cells store.now) self.now.watch changes.now ≡ [] → IsOk result }
    {
        for cell in changes.again() {
            if found.more() {
                return Ok(());
            }
            if self.is_ahead(store, cell) {
                found.offer(note_of(store, cell))?;
            }
        }
        Ok(())
    }

    /// Goes on at a later revision, with the moment of the last response.
    pub fn told(&mut self, store: &Store, next: u64, last: u64)
        requires whole { store.now.kept.compacted ≤ self.old.watch.next }
        requires later { self.old.watch.next ≤ next }
        requires agrees { Agrees self.old store.now }
        ensures agrees { Agrees self.new store.now }
        ensures watch { self.new.watch ≡ with_next self.old.watch next last }
    {
        self.drop_below(next);
        self.set_next(next, last);
        let reached = next.min(store.current() + 1);
        if self.position() < reached {
            self.move_to(reached);
        }
    }

    /// Drops from the ring what is below a revision.
    fn drop_below(&mut self, next: u64)
        ensures watch { self.new.watch ≡ self.old.watch }
        ensures position { self.new.position ≡ self.old.position }
        ensures ring { NotesRise self.old.ring → self.new.ring ≡ notes_from next self.old.ring }
    {
        while self.ring_len() > 0 && self.note_at(0).revision < next {
            self.pop();
        }
    }
}
