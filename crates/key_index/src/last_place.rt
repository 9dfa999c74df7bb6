//! Where a key was looked up last.
//!
//! A put is planned by a look-up of its key, and its commit comes back to the same place. Nothing is promised of what is kept:
//! who goes by it looks first whether the key stands there.
use chunk_list::Place;
use std::sync::atomic::{AtomicUsize, Ordering};

/// A place among the keys, which may be another's by now.
#[derive(Drop)]
pub(crate) struct LastPlace {
    chunk: AtomicUsize,
    offset: AtomicUsize,
}

impl LastPlace {
    /// The first place of all.
    pub(crate) fn new() -> LastPlace {
        LastPlace {
            chunk: AtomicUsize::new(0),
            offset: AtomicUsize::new(0),
        }
    }

    pub(crate) fn keep(&self, place: Place) {
        self.chunk.store(place.chunk, Ordering::Relaxed);
        self.offset.store(place.offset, Ordering::Relaxed);
    }

    pub(crate) fn get(&self) -> Place {
        Place {
            chunk: self.chunk.load(Ordering::Relaxed),
            offset: self.offset.load(Ordering::Relaxed),
        }
    }
}
