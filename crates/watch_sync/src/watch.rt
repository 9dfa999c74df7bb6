//! An open watch, and its ring.
ghost use Rattle.std.specs.Prelude.{◌≡◌, ◌<◌, ◌≤◌, ◌++◌, ◌∷◌, [], IsFalse, IsTrue, Some, drop, length, slice_get};
ghost use Rattle.std.specs.Prelude.{take};
ghost use Rattle.watch_sync.specs.Agreeing.{from_next, moved_to, with_ring};
ghost use Rattle.watch_sync.specs.Catching.{ring_entries};

use crate::noted::Noted;
use circular_buffer::HeapCircularBuffer;
use etcd_model::state::Watch;
use std::marker::Model;

/// An open watch. Its ring has all that it is to be told of below a revision, its position.
#[derive(Drop)]
pub(crate) struct OpenWatch {
    pub watch: Watch,
    ring: HeapCircularBuffer<Noted>,
    position: u64,
}

impl Model for OpenWatch {
    ghost use Rattle.std.specs.Prelude.{◌≡◌};
    ghost use Rattle.watch_sync.specs.Agreeing.{WatchState};
    ghost use Rattle.watch_sync.specs.Catching.{ring_entries};

    ghost Value = { WatchState };

    ghost view = { λ w. record { watch = w.watch; ring = w.ring.items; position = w.position } };

    ghost invariant = { λ w. w.ring.capacity ≡ ring_entries };
}

impl OpenWatch {
    /// A watch with its ring, which is filled up to a revision.
    pub fn new(watch: Watch, ring: HeapCircularBuffer<Noted>, position: u64) -> OpenWatch
        requires { ring.capacity ≡ ring_entries }
        ensures { result ≡ record { watch = watch; ring = ring.items; position = position } }
    {
        OpenWatch {
            watch,
            ring,
            position,
        }
    }

    /// How many notes the ring has.
    pub fn ring_len(&self) -> usize
        ensures { result ≡ length self.now.ring }
    {
        self.ring.len()
    }

    /// The note at a place of the ring.
    pub fn note_at(&self, place: usize) -> Noted
        requires { place < length self.now.ring }
        ensures { slice_get self.now.ring place ≡ Some result }
    {
        match self.ring.get(place) {
            Some(note) => *note,
            None => unreachable!(),
        }
    }

    /// The revision up to which the ring is filled.
    pub fn position(&self) -> u64
        ensures { result ≡ self.now.position }
    {
        self.position
    }

    /// The first revision that the watch was not told of.
    pub fn next(&self) -> u64
        ensures { result ≡ self.now.watch.next }
    {
        self.watch.next
    }

    /// The moment of its last response.
    pub fn told_at(&self) -> u64
        ensures { result ≡ self.now.watch.told }
    {
        self.watch.told
    }

    /// Whether it asks for word of progress.
    pub fn asks_progress(&self) -> bool
        ensures { result ≡ self.now.watch.progress_notify }
    {
        self.watch.progress_notify
    }

    /// Puts a note behind the others, if there is a place for it.
    pub fn push(&mut self, note: Noted) -> bool
        ensures room { IsTrue result → self.new ≡ with_ring self.old (self.old.ring ++ note ∷ []) }
        ensures stays { IsFalse result → self.new ≡ self.old }
        ensures full { IsFalse result → ring_entries ≤ length self.old.ring }
    {
        self.ring.try_push_back(note).is_ok()
    }

    /// Leaves the first notes alone.
    pub fn shorten(&mut self, len: usize)
        ensures { self.new ≡ with_ring self.old (take len self.old.ring) }
    {
        self.ring.truncate_back(len);
    }

    /// Takes the first note away.
    pub fn pop(&mut self)
        ensures { self.new ≡ with_ring self.old (drop 1 self.old.ring) }
    {
        self.ring.pop_front();
    }

    /// Takes all notes away.
    pub fn clear(&mut self)
        ensures { self.new ≡ with_ring self.old [] }
    {
        self.ring.clear();
    }

    pub fn move_to(&mut self, position: u64)
        ensures { self.new ≡ moved_to self.old position }
    {
        self.position = position;
    }

    pub fn set_next(&mut self, next: u64, told: u64)
        ensures { self.new ≡ from_next self.old next told }
    {
        self.watch.next = next;
        self.watch.told = told;
    }
}
