//! Dropping what a compaction does not keep.
ghost use Rattle.std.specs.Prelude.{◌≡◌, ◌+◌, ◌≤◌, length};
ghost use Rattle.etcd_model.specs.Changes.{change_of};
ghost use Rattle.etcd_model.specs.Kept.{cost};
ghost use Rattle.key_index.specs.Compaction.{GivesBack, IsCompacted};
ghost use Rattle.key_index.specs.Visiting.{AreLeft, AreOrders, IsIndexed};
ghost use Rattle.revision_store.specs.Loans.{KeepsRest};
ghost use Rattle.cell_arena.specs.Loan.{IsLent};
ghost use Rattle.revision_store.specs.Recorded.{ArePlain, cells_of};

use crate::records::Writer;
use cell_arena::{Region, Segments};
use chunk_list::ChunkList;
use etcd_types::CellNo;
use key_index::{KeyIndex, cut_changes};

/// Drops the records that a compaction at a revision does not keep, and what the index and the order have of them.
pub(crate) fn cut<S: Segments>(
    region: &mut Region,
    segments: &mut S,
    index: &mut KeyIndex,
    settled: &mut ChunkList<CellNo>,
    recent: &mut ChunkList<CellNo>,
    revision: u64,
)
    requires indexed { IsIndexed (cells_of region.old.records) index.old }
    requires orders { AreOrders (cells_of region.old.records) settled.old.items recent.old.items }
    requires room { length settled.old.items + length recent.old.items ≤ settled.old.room }
    requires plain { ArePlain region.old.records }
    requires lent { IsLent region.old.share (S.loan segments.old) }

    ensures indexed { IsIndexed (cells_of region.new.records) index.new }
    ensures compacted { IsCompacted (cells_of region.old.records) (cells_of region.new.records) revision }
    ensures left { AreLeft (cells_of region.new.records) settled.old recent.old settled.new recent.new }
    ensures capacity { index.new.capacity ≡ index.old.capacity }
    ensures taken { index.new.taken ≡ index.old.taken }
    ensures free { GivesBack
        (λ x. cost (change_of x)) (cells_of region.old.records) (cells_of region.new.records)
        region.old.free region.new.free }
    ensures rest { KeepsRest region.old (S.loan segments.old) region.new (S.loan segments.new) }
    ensures plain { ArePlain region.new.records }
{
    let mut writer = Writer { region, segments };
    cut_changes(index, settled, recent, &mut writer, revision);
    let Writer {
        region: _,
        segments: _,
    } = writer;
}
