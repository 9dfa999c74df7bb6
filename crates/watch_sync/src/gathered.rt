//! What one response has.
ghost use Rattle.std.specs.Prelude.{◌≡◌, ◌<◌, ◌≤◌, ◌^◌, OnOk};
ghost use Rattle.watch_sync.specs.Gathering.{is_last, next_after, nothing, offered};

use crate::noted::Noted;
use etcd_types::Mem;
use etcd_types::limits::RESPONSE_REVISIONS;
use std::alloc::Global;
use std::marker::Model;

/// Notes of changes, of so many revisions as one response has at most.
#[derive(Drop)]
pub(crate) struct Gathered {
    revisions: usize,
    /// The last of them.
    last: u64,
    notes: Vec<Noted>,
    /// There is one revision more.
    more: bool,
}

impl Model for Gathered {
    ghost use Rattle.watch_sync.specs.Gathering.{Gathering};

    ghost Value = { Gathering };

    ghost view = { λ g. record {
      revisions = g.revisions;
      last = g.last;
      notes = g.notes.items;
      more = g.more;
    } };
}

impl Gathered {
    pub fn new(alloc: Global) -> Gathered
        ensures { result ≡ nothing }
    {
        Gathered {
            revisions: 0,
            last: 0,
            notes: Vec::new(alloc),
            more: false,
        }
    }

    /// Whether a revision is the last one.
    fn is_last(&self, revision: u64) -> bool
        ensures { result ≡ is_last self.now revision }
    {
        self.revisions > 0 && revision == self.last
    }

    /// Takes up one note more, if it is of the last revision or there may be one revision more.
    pub fn offer(&mut self, note: Noted) -> Mem<()>
        ensures { OnOk result (self.new ≡ offered self.old note) }
    {
        if self.more {
            return Ok(());
        }
        let revision = note.revision;
        if self.is_last(revision) {
            self.notes.push(note)?;
            return Ok(());
        }
        if self.revisions >= RESPONSE_REVISIONS {
            self.more = true;
            return Ok(());
        }
        self.notes.push(note)?;
        self.revisions += 1;
        self.last = revision;
        Ok(())
    }

    /// Whether there is one revision more.
    pub fn more(&self) -> bool
        ensures { result ≡ self.now.more }
    {
        self.more
    }

    /// Where a watch goes on: after the last revision if there is one more, else after the current one.
    pub fn next(&self, current: u64, from: u64) -> u64
        requires current { current < 2 ^ 63 }
        requires last { self.now.last ≤ current }
        ensures { result ≡ next_after current from self.now }
    {
        if self.more {
            self.last + 1
        } else {
            from.max(current + 1)
        }
    }

    /// The notes.
    pub fn notes(&self) -> &[Noted]
        ensures { result.now ≡ self.now.notes }
    {
        self.notes.as_slice()
    }
}
