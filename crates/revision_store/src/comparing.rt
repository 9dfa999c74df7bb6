//! Compares of a transaction, over the rows where they lie.
ghost use Rattle.std.specs.Prelude.{◌≡◌, pos, IsSome, IfSome};
ghost use Rattle.std.specs.Ordering.{int_cmp};
ghost use Rattle.etcd_model.specs.Compares.{holds, holds_of, is_met, is_met_by_none, operand_cmp};
ghost use Rattle.revision_store.specs.Comparing.{meets};
ghost use Rattle.revision_store.specs.Pending.{AreRows};
ghost use Rattle.revision_store.specs.Ranging.{rows_of};
ghost use Rattle.revision_store.specs.Recorded.{cells_of};
ghost use Rattle.revision_store.specs.Stored.{reads, row_at};

use crate::log::Log;
use crate::store::Store;
use chunk_list::Walk;
use etcd_types::{CellNo, Compare, CompareResult, Operand};
use std::cmp::Ordering;

/// Whether a compare holds: each live row of its interval meets it. Where there is none, no value meets it,
/// and each number counts as 0. It builds no row and takes no memory.
pub fn holds(store: &Store, compare: &Compare) -> bool
    ensures { result ≡ holds (reads store.now) compare.now }
{
    let cells = store
        .log
        .newest_cells(compare.key.as_slice(), compare.range_end.as_slice());
    store.log.holds_of(cells, compare)
}

impl Log {
    /// Whether a compare holds of the rows under some cells.
    fn holds_of(&self, cells: Walk<'_, CellNo>, compare: &Compare) -> bool
        requires { AreRows (cells_of self.now.records) cells }
        ensures { result ≡ holds_of compare.now (rows_of (cells_of self.now.records) cells.entry) }
    {
        let mut any = false;
        for cell in cells {
            if !self.meets(cell, compare) {
                return false;
            }
            any = true;
        }
        any || is_met_by_none(compare.result, &compare.operand)
    }

    /// Whether the row under a cell meets a compare.
    fn meets(&self, cell: CellNo, compare: &Compare) -> bool
        requires { IsSome (row_at (cells_of self.now.records) cell) }
        ensures { IfSome (row_at (cells_of self.now.records) cell) (λ row. result ≡ meets compare.now row) }
    {
        is_met(compare.result, self.operand_cmp(cell, &compare.operand))
    }

    /// How the row under a cell stands to an operand.
    fn operand_cmp(&self, cell: CellNo, operand: &Operand) -> Ordering
        requires { IsSome (row_at (cells_of self.now.records) cell) }
        ensures { IfSome (row_at (cells_of self.now.records) cell)
            (λ row. result ≡ operand_cmp row operand.now) }
    {
        let fields = self.region.fields(cell);
        match operand {
            Operand::Version(number) => number_cmp(fields.version, *number),
            Operand::Create(revision) => number_cmp(fields.create_revision, *revision),
            Operand::Mod(revision) => number_cmp(fields.revision, *revision),
            Operand::Value(value) => self.region.value_cmp(cell, value.as_slice()),
            Operand::Lease(id) => fields.lease.cmp(id),
        }
    }
}

/// How a number of a row stands to one of a compare, which may be below 0.
fn number_cmp(number: u64, other: i64) -> Ordering
    ensures { result ≡ int_cmp (pos number) other }
{
    i128::from(number).cmp(&i128::from(other))
}

/// Whether an order is as it is wanted.
fn is_met(wanted: CompareResult, order: Ordering) -> bool
    ensures { result ≡ is_met wanted order }
{
    match wanted {
        CompareResult::Equal => order.is_eq(),
        CompareResult::Greater => order.is_gt(),
        CompareResult::Less => order.is_lt(),
        CompareResult::NotEqual => order.is_ne(),
    }
}

/// Whether a compare holds where there is no row.
fn is_met_by_none(wanted: CompareResult, operand: &Operand) -> bool
    ensures { result ≡ is_met_by_none wanted operand.now }
{
    match operand {
        Operand::Value(_) => false,
        Operand::Version(number)
        | Operand::Create(number)
        | Operand::Mod(number)
        | Operand::Lease(number) => is_met(wanted, number_cmp(0, *number)),
    }
}
