//! The store of one tenant.
ghost use Rattle.std.specs.Prelude.{length, ◌≡◌, ◌+◌, ◌%◌, ◌/◌, ◌<◌, ◌≤◌, ◌^◌, ℕ, ℤ, pos, IfOk, IsSome};
ghost use Rattle.std.specs.Prelude.{List, None, is_none};
ghost use Rattle.std.specs.Iterator.{AlwaysYields, IsFinite};
ghost use Rattle.std.specs.FinMap as map;
ghost use Rattle.cell_arena.specs.Loan.{IsLent, Settles, DrawsNone, returned};
ghost use Rattle.etcd_model.specs.Store.{compact, record_cells};
ghost use Rattle.etcd_model.specs.Stepping.{compact_refusal};
ghost use Rattle.key_index.specs.Compaction.{IsCompacted};
ghost use Rattle.revision_store.specs.Recorded.{leases_of, with_lease_cell, without_lease_cell};
ghost use Rattle.revision_store.specs.Stored.{CanCommit, Commits, RowsStay, cells, empty_state, reads};
ghost use Rattle.revision_store.specs.Plans.{head_deletes};
ghost use Rattle.revision_store.specs.Pending.{IsSound};

use crate::log::Log;
use crate::plan::{Plan, Write};
use cell_arena::Segments;
use etcd_types::{CellNo, Mem, Refusal};
use std::alloc::Global;
use std::marker::Model;

/// The keys of one tenant with their versions, as far back as the last compaction, in cells.
pub struct Store {
    pub(crate) log: Log,
    current: u64,
    compacted: u64,
}

impl Drop for Store {
    fn drop(self) {
        let Store {
            log: _,
            current: _,
            compacted: _,
        } = self;
    }
}

impl Model for Store {
    ghost use Rattle.revision_store.specs.Stored.{StoreState, IsKeptUpTo, store_code, store_of};

    ghost Value = { StoreState };

    ghost coded = { store_code };

    ghost view = { λ s. store_of s.log s.current s.compacted };

    ghost invariant = { λ s. IsKeptUpTo s.log s.current s.compacted };
}

impl Store {
    /// An empty store at its first revision, over so many cells. Takes all memory that writes need.
    pub fn new(alloc: Global, cells: u32, first: u64) -> Mem<Store>
        requires whole { cells % 64 ≡ 0 }
        requires few { cells ≤ 2 ^ 20 }
        requires first { first < 2 ^ 63 }
        ensures { IfOk result (λ store. store ≡ empty_state first cells) }
    {
        Ok(Store {
            log: Log::new(alloc, cells)?,
            current: first,
            compacted: 0,
        })
    }

    /// Gives all segments back, with whatever they hold. It takes no memory and cannot fail.
    pub fn give_up<S: Segments>(self, segments: &mut S)
        requires lent { IsLent self.share (S.loan segments.old) }
        ensures settles { Settles self.share (S.loan segments.old) (returned self.share) (S.loan segments.new) }
    {
        let Store {
            log,
            current: _,
            compacted: _,
        } = self;
        log.give_up(segments);
    }

    /// What always holds of a store. Nothing is done: a caller knows it from here on.
    pub fn use_invariant(&self)
        ensures { IsSound self.now }
    {
        self.log.use_invariant();
    }

    /// The current revision.
    pub fn current(&self) -> u64
        ensures current { result ≡ self.now.kept.current }
        ensures short { result < 2 ^ 63 }
        ensures sound { IsSound self.now }
    {
        self.use_invariant();
        self.current
    }

    /// The revision of the last compaction, 0 before the first.
    pub fn compacted(&self) -> u64
        ensures compacted { result ≡ self.now.kept.compacted }
        ensures within { result ≤ self.now.kept.current }
    {
        self.compacted
    }

    /// Makes the planned changes one more revision, and answers the current one. It takes no memory
    /// and cannot fail.
    pub fn commit<S: Segments>(&mut self, segments: &mut S, plan: Plan) -> i64
        requires fits { CanCommit self.old plan }
        requires lent { IsLent self.old.share (S.loan segments.old) }
        ensures commits { Commits self.old self.new plan }
        ensures revision { result ≡ pos self.new.kept.current }
        ensures settles { Settles self.old.share (S.loan segments.old) self.new.share (S.loan segments.new) }
    {
        let writes = plan.writes();
        if writes.is_empty() {
            return self.current as i64;
        }
        let revision = self.current + 1;
        self.log.append_all(segments, writes, revision);
        self.current = revision;
        revision as i64
    }

    /// Deletes some live keys in one revision, in this order, by the cells of their rows, and
    /// answers the revision. It takes no memory and cannot fail.
    pub fn delete_heads<S: Segments, I: Iterator<Item = CellNo> + Drop>(
        &mut self,
        segments: &mut S,
        heads: I,
    ) -> i64
        ghost list: { List ℕ }
        requires next { I.can_next heads }
        requires ends { IsFinite (I.remaining heads) }
        requires gives { AlwaysYields I.next_gives (λ cell. cell) heads list }
        requires some { 0 < length list }
        requires fits { CanCommit self.old (head_deletes list) }
        requires lent { IsLent self.old.share (S.loan segments.old) }
        ensures commits { Commits self.old self.new (head_deletes list) }
        ensures revision { result ≡ pos self.new.kept.current }
        ensures settles { Settles self.old.share (S.loan segments.old) self.new.share (S.loan segments.new) }
    {
        let revision = self.current + 1;
        self.log.append_deletes(segments, heads, revision);
        self.current = revision;
        revision as i64
    }

    /// Whether a compaction at a revision is one that is not refused.
    pub fn may_compact(&self, revision: i64) -> bool
        ensures { result ≡ is_none (compact_refusal (reads self.now) revision) }
    {
        self.compact_refusal(revision).is_none()
    }

    /// Why there is no compaction at a revision: it is not above the last one, or above the current revision.
    pub fn compact_refusal(&self, revision: i64) -> Option<Refusal>
        ensures { result ≡ compact_refusal (reads self.now) revision }
    {
        if revision <= self.compacted as i64 {
            Some(Refusal::Compacted)
        } else if revision > self.current as i64 {
            Some(Refusal::Future)
        } else {
            None
        }
    }

    /// Forgets what reads below the revision need. It gives segments back, takes no memory and cannot fail.
    pub fn compact<S: Segments>(&mut self, segments: &mut S, revision: u64)
        requires above { self.old.kept.compacted < revision }
        requires within { revision ≤ self.old.kept.current }
        requires lent { IsLent self.old.share (S.loan segments.old) }
        ensures kept { self.new.kept ≡ compact self.old.kept revision }
        ensures cells { IsCompacted (cells self.old) (cells self.new) revision }
        ensures rows { RowsStay
            (cells self.old) (cells self.new) self.old.kept.current self.old.kept.changes }
        ensures free { self.new.free + record_cells self.new.kept.changes
            ≡ self.old.free + record_cells self.old.kept.changes }
        ensures leases { leases_of self.new.records ≡ leases_of self.old.records }
        ensures lease_cells { self.new.lease_cells ≡ self.old.lease_cells }
        ensures none_drawn { DrawsNone self.old.share self.new.share }
        ensures settles { Settles self.old.share (S.loan segments.old) self.new.share (S.loan segments.new) }
    {
        self.log.cut(segments, revision);
        self.compacted = revision;
    }

    /// Records a lease, with its granted time to live in seconds. It takes one cell, and no memory.
    pub fn place_lease<S: Segments>(&mut self, segments: &mut S, id: i64, ttl: u64) -> CellNo
        requires space { 1 ≤ self.old.free }
        requires lent { IsLent self.old.share (S.loan segments.old) }
        ensures fresh { map.get self.old.records result ≡ None }
        ensures kept { self.new.kept ≡ self.old.kept }
        ensures cells { cells self.new ≡ cells self.old }
        ensures leases { leases_of self.new.records
            ≡ with_lease_cell (leases_of self.old.records) result (record { id = id; ttl = ttl }) }
        ensures lease_cells { self.new.lease_cells ≡ self.old.lease_cells + 1 }
        ensures free { self.new.free + 1 ≡ self.old.free }
        ensures settles { Settles self.old.share (S.loan segments.old) self.new.share (S.loan segments.new) }
    {
        self.log.place_lease(segments, id, ttl)
    }

    /// Takes away the lease that a cell has. It may give a segment back, takes no memory and cannot fail.
    pub fn release_lease<S: Segments>(&mut self, segments: &mut S, cell: CellNo)
        requires lease { IsSome (leases_of self.old.records cell) }
        requires lent { IsLent self.old.share (S.loan segments.old) }
        ensures kept { self.new.kept ≡ self.old.kept }
        ensures cells { cells self.new ≡ cells self.old }
        ensures leases { leases_of self.new.records ≡ without_lease_cell (leases_of self.old.records) cell }
        ensures lease_cells { self.new.lease_cells + 1 ≡ self.old.lease_cells }
        ensures free { self.new.free ≡ self.old.free + 1 }
        ensures none_drawn { DrawsNone self.old.share self.new.share }
        ensures settles { Settles self.old.share (S.loan segments.old) self.new.share (S.loan segments.new) }
    {
        self.log.release_lease(segments, cell);
    }
}
