//! The records of a region, as the index reads and writes them.
ghost use Rattle.std.specs.Prelude.{◌≡◌, ◌≤◌, ℕ, Option, Some, None, IsSome, IfSome, is_some};
ghost use Rattle.cell_arena.specs.Loan.{IsLent};
ghost use Rattle.etcd_model.specs.Changes.{change_of};
ghost use Rattle.etcd_model.specs.History.{lease_of};
ghost use Rattle.revision_store.specs.Recorded.{ArePlain, cells_of};

use cell_arena::{Kind, Region, Segments};
use etcd_types::CellNo;
use key_index::{Records, RecordsMut};
use std::cmp::Ordering;

/// The changes of a region, to read.
#[derive(Clone, Copy)]
pub struct Reader<'a> {
    region: &'a Region,
}

impl<'a> Reader<'a> {
    pub(crate) fn new(region: &'a Region) -> Reader<'a>
        ensures { result.region.now ≡ region.now }
    {
        Reader { region }
    }
}

impl Records for Reader<'_> {
    ghost use Rattle.revision_store.specs.Recorded.{cells_of};

    ghost cells = { λ s. cells_of s.region.now.records };

    fn has(&self, cell: CellNo) -> bool {
        has_change(self.region, cell)
    }

    fn key_cmp(&self, cell: CellNo, key: &[u8]) -> Ordering {
        self.region.key_cmp(cell, key)
    }

    fn keys_cmp(&self, cell: CellNo, other: CellNo) -> Ordering {
        self.region.keys_cmp(cell, other)
    }

    fn revision(&self, cell: CellNo) -> u64 {
        self.region.fields(cell).revision
    }

    fn is_put(&self, cell: CellNo) -> bool {
        matches!(self.region.kind(cell), Kind::Put)
    }

    fn lease(&self, cell: CellNo) -> i64 {
        lease_under(self.region, cell)
    }

    fn older(&self, cell: CellNo) -> Option<CellNo> {
        self.region.older(cell)
    }
}

/// The changes of a region, to write. What is dropped gives its segments back.
pub(crate) struct Writer<'a, S: Segments> {
    pub region: &'a mut Region,
    pub segments: &'a mut S,
    ghost lent: { IsLent region.now.share (S.loan segments.now) },
    ghost plain: { ArePlain region.now.records },
}

impl<S: Segments> Records for Writer<'_, S> {
    ghost use Rattle.revision_store.specs.Recorded.{cells_of};

    ghost cells = { λ s. cells_of s.region.now.records };

    fn has(&self, cell: CellNo) -> bool {
        has_change(self.region, cell)
    }

    fn key_cmp(&self, cell: CellNo, key: &[u8]) -> Ordering {
        self.region.key_cmp(cell, key)
    }

    fn keys_cmp(&self, cell: CellNo, other: CellNo) -> Ordering {
        self.region.keys_cmp(cell, other)
    }

    fn revision(&self, cell: CellNo) -> u64 {
        self.region.fields(cell).revision
    }

    fn is_put(&self, cell: CellNo) -> bool {
        matches!(self.region.kind(cell), Kind::Put)
    }

    fn lease(&self, cell: CellNo) -> i64 {
        lease_under(self.region, cell)
    }

    fn older(&self, cell: CellNo) -> Option<CellNo> {
        self.region.older(cell)
    }
}

impl<S: Segments> RecordsMut for Writer<'_, S> {
    ghost use Rattle.std.specs.Prelude.{refl};
    ghost use Rattle.std.proofs.Common.{◌∙◌};
    ghost use Rattle.etcd_model.specs.Changes.{change_of};
    ghost use Rattle.etcd_model.specs.Kept.{cost as cost_of_change};
    ghost use Rattle.revision_store.specs.Loans.{KeepsRest, rest_stays, rest_joins};

    ghost free = { λ s. s.region.now.free };

    ghost cost = { λ x. cost_of_change (change_of x) };

    ghost same_rest = { λ s t. (t.region.ghost_name ≡ s.region.ghost_name)
        × ((t.segments.ghost_name ≡ s.segments.ghost_name)
        × KeepsRest s.region.now (S.loan s.segments.now) t.region.now (S.loan t.segments.now)) };

    ghost stays = { λ a. (refl, (refl, rest_stays _ _)) };

    ghost joins = { λ a b c p q. (q.0 ∙ p.0, (q.1.0 ∙ p.1.0, rest_joins _ _ _ _ _ _ p.1.1 q.1.1)) };

    fn set_older(&mut self, cell: CellNo, older: Option<CellNo>) {
        self.region.set_older(cell, older);
    }

    fn drop_record(&mut self, cell: CellNo) {
        self.region.release(self.segments, cell);
    }
}

/// Whether a change is under a cell.
fn has_change(region: &Region, cell: CellNo) -> bool
    ensures { result ≡ is_some (cells_of region.now.records cell) }
{
    region.has(cell) && !matches!(region.kind(cell), Kind::Lease)
}

/// The lease that a put attaches its key to, and 0 where there is none.
fn lease_under(region: &Region, cell: CellNo) -> i64
    requires { IsSome (cells_of region.now.records cell) }
    ensures { IfSome (cells_of region.now.records cell) (λ e. result ≡ lease_of (change_of e.change)) }
{
    match region.kind(cell) {
        Kind::Put => region.fields(cell).lease,
        Kind::Delete | Kind::Lease => 0,
    }
}
