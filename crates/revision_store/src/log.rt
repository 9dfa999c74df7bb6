//! The kept changes under cells: in order, and by their keys. And the records of leases.
//!
//! The order is two lists: the settled changes, and after them the recent ones. What is settled is a put that a
//! compaction left as the first of its key. A later compaction drops it only if its key has changed again since, and
//! such a change is among the recent ones. So a compaction has to visit the recent changes alone.
ghost use Rattle.std.specs.Prelude.{◌≡◌, ℕ, ◌+◌, ◌*◌, ◌%◌, ◌<◌, ◌≤◌, ◌^◌, ◌∷◌, [], Bool, List, IfOk, IsSome, None, length};
ghost use Rattle.std.specs.Iterator.{AlwaysYields, IsFinite};
ghost use Rattle.std.specs.List.{AllByRecursion};
ghost use Rattle.std.specs.FinMap as finite;
ghost use Rattle.cell_arena.specs.Loan.{IsLent, Settles, DrawsFor, DrawsNone, IsBusy, returned};
ghost use Rattle.etcd_model.specs.Changes.{OwnRow, Rises, kept, rows};
ghost use Rattle.etcd_model.specs.Store.{record_cells};
ghost use Rattle.key_index.specs.Compaction.{IsCompacted};
ghost use Rattle.revision_store.specs.Recorded.{cells_of, leases_of, with_lease_cell, without_lease_cell};
ghost use Rattle.revision_store.specs.Logged.{empty_log, used_in};
ghost use Rattle.revision_store.specs.Plans.{head_deletes};
ghost use Rattle.revision_store.specs.Appending.{CanAppend, Appends};
ghost use Rattle.revision_store.specs.Latest.{OwnRevision};
ghost use Rattle.revision_store.specs.Stored.{RowsStay};

use crate::cutting::cut;
use crate::placing::{lease_fields, place};
use crate::plan::Write;
use crate::records::Writer;
use cell_arena::{Kind, Region, Segments};
use chunk_list::ChunkList;
use etcd_types::{CellNo, Mem};
use key_index::KeyIndex;
use std::alloc::Global;
use std::marker::Model;

/// The kept changes in cells, in order and by their keys, and the leases.
pub(crate) struct Log {
    pub(crate) region: Region,
    pub(crate) index: KeyIndex,
    /// The cells of the changes that a compaction went over and left, in order: puts, each the first of its key.
    pub(crate) settled: ChunkList<CellNo>,
    /// The cells of the changes since, in order.
    pub(crate) recent: ChunkList<CellNo>,
    /// How many cells have a lease.
    leases: u32,
}

impl Drop for Log {
    fn drop(self) {
        let Log {
            region: _,
            index: _,
            settled: _,
            recent: _,
            leases: _,
        } = self;
    }
}

impl Model for Log {
    ghost use Rattle.std.specs.Prelude.{◌++◌};
    ghost use Rattle.revision_store.specs.Logged.{LogState, IsLog, log_code, log_of};

    ghost Value = { LogState };

    ghost coded = { log_code };

    ghost view = { λ l. log_of l.region (l.settled.items ++ l.recent.items) l.leases };

    ghost invariant = { λ l. IsLog l.region l.index l.settled l.recent l.leases };
}

impl Log {
    /// With no change and no lease, for so many cells. Takes all memory that the other calls need.
    pub(crate) fn new(alloc: Global, cells: u32) -> Mem<Log>
        requires whole { cells % 64 ≡ 0 }
        requires few { cells ≤ 2 ^ 20 }
        ensures { IfOk result (λ log. log ≡ empty_log cells) }
    {
        Ok(Log {
            region: Region::new(alloc, cells)?,
            index: KeyIndex::new(alloc, cells as usize)?,
            settled: ChunkList::new(alloc, cells as usize)?,
            recent: ChunkList::new(alloc, cells as usize)?,
            leases: 0,
        })
    }

    /// Gives all segments back.
    pub(crate) fn give_up<S: Segments>(self, segments: &mut S)
        requires lent { IsLent self.share (S.loan segments.old) }
        ensures settles { Settles self.share (S.loan segments.old) (returned self.share) (S.loan segments.new) }
    {
        let Log {
            region,
            index: _,
            settled: _,
            recent: _,
            leases: _,
        } = self;
        region.give_up(segments);
    }

    /// Records a change, which is not before any other, and after those of its key.
    pub(crate) fn append<S: Segments>(&mut self, segments: &mut S, write: &Write, revision: u64)
        requires takes { CanAppend self.old revision (write.now ∷ []) }
        requires lent { IsLent self.old.share (S.loan segments.old) }
        ensures appends { Appends self.old self.new revision (write.now ∷ []) }
        ensures draws { DrawsFor (used_in self.new) self.old.share self.new.share }
        ensures settles { Settles self.old.share (S.loan segments.old) self.new.share (S.loan segments.new) }
    {
        let cell = place(&mut self.region, segments, write, revision);
        let mut writer = Writer {
            region: &mut self.region,
            segments,
        };
        self.index.add(&mut writer, cell);
        let Writer {
            region: _,
            segments: _,
        } = writer;
        self.recent.append(cell);
    }

    /// Records some changes at a revision, one after another.
    pub(crate) fn append_all<S: Segments>(
        &mut self,
        segments: &mut S,
        writes: &[Write],
        revision: u64,
    )
        requires takes { CanAppend self.old revision writes.now }
        requires lent { IsLent self.old.share (S.loan segments.old) }
        ensures appends { Appends self.old self.new revision writes.now }
        ensures settles { Settles self.old.share (S.loan segments.old) self.new.share (S.loan segments.new) }
    {
        for write in writes {
            self.append(segments, write, revision);
        }
    }

    /// Deletes the keys of the changes under the cells that come at a revision, one after another.
    pub(crate) fn append_deletes<S: Segments, I: Iterator<Item = CellNo> + Drop>(
        &mut self,
        segments: &mut S,
        heads: I,
        revision: u64,
    )
        ghost list: { List ℕ }
        requires next { I.can_next heads }
        requires ends { IsFinite (I.remaining heads) }
        requires gives { AlwaysYields I.next_gives (λ cell. cell) heads list }
        requires takes { CanAppend self.old revision (head_deletes list) }
        requires lent { IsLent self.old.share (S.loan segments.old) }
        ensures appends { Appends self.old self.new revision (head_deletes list) }
        ensures settles { Settles self.old.share (S.loan segments.old) self.new.share (S.loan segments.new) }
    {
        for head in heads {
            self.append(segments, &Write::Delete(head), revision);
        }
    }

    /// Drops what a compaction at a revision doesn't keep. It gives segments back, and takes no memory.
    pub(crate) fn cut<S: Segments>(&mut self, segments: &mut S, revision: u64)
        requires lent { IsLent self.old.share (S.loan segments.old) }
        ensures changes { self.new.changes ≡ kept revision self.old.changes }
        ensures cells { IsCompacted (cells_of self.old.records) (cells_of self.new.records) revision }
        ensures rows { (r : ℕ) → revision ≤ r
            → RowsStay (cells_of self.old.records) (cells_of self.new.records) r self.old.changes }
        ensures free { self.new.free + record_cells self.new.changes
            ≡ self.old.free + record_cells self.old.changes }
        ensures leases { leases_of self.new.records ≡ leases_of self.old.records }
        ensures lease_cells { self.new.lease_cells ≡ self.old.lease_cells }
        ensures none_drawn { DrawsNone self.old.share self.new.share }
        ensures settles { Settles self.old.share (S.loan segments.old) self.new.share (S.loan segments.new) }
    {
        cut(
            &mut self.region,
            segments,
            &mut self.index,
            &mut self.settled,
            &mut self.recent,
            revision,
        );
    }

    /// Records a lease, in one cell, whose number is the answer.
    pub(crate) fn place_lease<S: Segments>(&mut self, segments: &mut S, id: i64, ttl: u64) -> CellNo
        requires space { 1 ≤ self.old.free }
        requires lent { IsLent self.old.share (S.loan segments.old) }
        ensures fresh { finite.get self.old.records result ≡ None }
        ensures changes { self.new.changes ≡ self.old.changes }
        ensures cells { cells_of self.new.records ≡ cells_of self.old.records }
        ensures leases { leases_of self.new.records
            ≡ with_lease_cell (leases_of self.old.records) result (record { id = id; ttl = ttl }) }
        ensures lease_cells { self.new.lease_cells ≡ self.old.lease_cells + 1 }
        ensures free { self.new.free + 1 ≡ self.old.free }
        ensures draws { DrawsFor (used_in self.new) self.old.share self.new.share }
        ensures settles { Settles self.old.share (S.loan segments.old) self.new.share (S.loan segments.new) }
    {
        let cell = self
            .region
            .place(segments, Kind::Lease, lease_fields(id, ttl), &[], &[]);
        self.leases += 1;
        cell
    }

    /// Takes a lease away, whose cell is free from now on.
    pub(crate) fn release_lease<S: Segments>(&mut self, segments: &mut S, cell: CellNo)
        requires lease { IsSome (leases_of self.old.records cell) }
        requires lent { IsLent self.old.share (S.loan segments.old) }
        ensures changes { self.new.changes ≡ self.old.changes }
        ensures cells { cells_of self.new.records ≡ cells_of self.old.records }
        ensures leases { leases_of self.new.records ≡ without_lease_cell (leases_of self.old.records) cell }
        ensures lease_cells { self.new.lease_cells + 1 ≡ self.old.lease_cells }
        ensures free { self.new.free ≡ self.old.free + 1 }
        ensures none_drawn { DrawsNone self.old.share self.new.share }
        ensures busy { IsBusy (used_in self.new) self.new.share }
        ensures settles { Settles self.old.share (S.loan segments.old) self.new.share (S.loan segments.new) }
    {
        self.region.release(segments, cell);
        self.leases -= 1;
    }

    /// What always holds of a log: its changes are in order, each row is of its key, and each cell is free or of a
    /// change or a lease. Nothing is done: a caller knows it from here on.
    pub(crate) fn use_invariant(&self)
        ensures rises { Rises self.now.changes }
        ensures own { AllByRecursion OwnRow self.now.changes }
        ensures space { self.now.free + record_cells self.now.changes + self.now.lease_cells
            ≡ 64 * self.now.share.reserved }
    {
        let _ = &self.recent;
    }

    /// Each row has the revision of the change that left it. Nothing is done: a caller knows it from here on.
    pub(crate) fn use_own_revisions(&self)
        ensures { AllByRecursion OwnRevision self.now.changes }
    {
        let _ = &self.recent;
    }

    /// No interval has more rows than a quota can have cells. Nothing is done: a caller knows it from here on.
    pub(crate) fn use_few_rows(&self)
        ensures { (interval : List ℕ → Bool) (revision : ℕ)
            → length (rows interval revision self.now.changes) ≤ 2 ^ 20 }
    {
        let _ = &self.recent;
    }
}
