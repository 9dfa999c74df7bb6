//! Placing the record of a change.
ghost use Rattle.std.specs.Prelude.{◌≡◌, ◌+◌, ◌≤◌, ℕ, None, pos};
ghost use Rattle.std.specs.FinMap.{get};
ghost use Rattle.cell_arena.specs.Region.{filled_cells};
ghost use Rattle.cell_arena.specs.Loan.{IsLent, Settles, DrawsFor};
ghost use Rattle.key_index.specs.Order.{with_record};
ghost use Rattle.revision_store.specs.Recorded.{ArePlain, cells_of, leases_of};
ghost use Rattle.revision_store.specs.Plans.{IsOf, cost_in, recorded_in};

use crate::plan::Write;
use cell_arena::{Fields, Kind, Region, Segments};
use etcd_types::{CellNo, KeyValue};

/// Places the record of a change at a revision, with no link to an older one.
pub(crate) fn place<S: Segments>(
    region: &mut Region,
    segments: &mut S,
    write: &Write,
    revision: u64,
) -> CellNo
    requires of { IsOf (cells_of region.old.records) revision write.now }
    requires plain { ArePlain region.old.records }
    requires space { cost_in (cells_of region.old.records) write.now ≤ region.old.free }
    requires lent { IsLent region.old.share (S.loan segments.old) }
    ensures fresh { get region.old.records result ≡ None }
    ensures placed { cells_of region.new.records
        ≡ with_record (cells_of region.old.records) result
        (record { change = recorded_in (cells_of region.old.records) revision write.now; older = None }) }
    ensures leases { leases_of region.new.records ≡ leases_of region.old.records }
    ensures plain { ArePlain region.new.records }
    ensures free { region.new.free + cost_in (cells_of region.old.records) write.now ≡ region.old.free }
    ensures settles { Settles region.old.share (S.loan segments.old) region.new.share (S.loan segments.new) }
    ensures draws { DrawsFor (filled_cells region.new) region.old.share region.new.share }
{
    match write {
        Write::Put(row) => region.place(
            segments,
            Kind::Put,
            put_fields(row),
            row.key.as_slice(),
            row.value.as_slice(),
        ),
        Write::Delete(cell) => region.place_delete(segments, *cell, delete_fields(revision)),
    }
}

/// The numbers of a row.
fn put_fields(row: &KeyValue) -> Fields
    ensures { result ≡ record {
      revision = row.now.mod_revision;
      create_revision = row.now.create_revision;
      version = row.now.version;
      lease = row.now.lease;
    } }
{
    Fields {
        revision: row.mod_revision,
        create_revision: row.create_revision,
        version: row.version,
        lease: row.lease,
    }
}

/// A delete has its revision alone.
fn delete_fields(revision: u64) -> Fields
    ensures { result ≡ record { revision = revision; create_revision = 0; version = 0; lease = pos 0 } }
{
    Fields {
        revision,
        create_revision: 0,
        version: 0,
        lease: 0,
    }
}

/// A lease has its ID and its granted time to live.
pub(crate) fn lease_fields(id: i64, ttl: u64) -> Fields
    ensures { result ≡ record { revision = 0; create_revision = 0; version = ttl; lease = id } }
{
    Fields {
        revision: 0,
        create_revision: 0,
        version: ttl,
        lease: id,
    }
}
