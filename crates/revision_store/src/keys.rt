//! How the keys of changes stand to other keys, read where they lie.
ghost use Rattle.std.specs.Prelude.{◌≡◌, IsSome};
ghost use Rattle.std.specs.Str.{bytes_eq};
ghost use Rattle.etcd_model.specs.Interval.{is_in};
ghost use Rattle.etcd_model.specs.Order.{key_cmp, key_le};
ghost use Rattle.revision_store.specs.Plans.{key_at};
ghost use Rattle.revision_store.specs.Recorded.{cells_of};
ghost use Rattle.revision_store.specs.Stored.{row_at};

use crate::log::Log;
use etcd_types::CellNo;
use key_index::Records;
use std::cmp::Ordering;

impl Log {
    /// How the key of a row stands to another one.
    pub(crate) fn key_cmp(&self, cell: CellNo, key: &[u8]) -> Ordering
        requires { IsSome (row_at (cells_of self.now.records) cell) }
        ensures { result ≡ key_cmp (key_at (cells_of self.now.records) cell) key.now }
    {
        key_cmp(&self.records(), cell, key)
    }

    /// Whether it lies in an interval.
    pub(crate) fn lies_in(&self, cell: CellNo, key: &[u8], range_end: &[u8]) -> bool
        requires { IsSome (row_at (cells_of self.now.records) cell) }
        ensures { result ≡ is_in key.now range_end.now (key_at (cells_of self.now.records) cell) }
    {
        lies_in(&self.records(), cell, key, range_end)
    }
}

/// How the key of a change stands to another one.
#[tactic(auto, using(crate::proofs::KeysRead::read_key))]
fn key_cmp<R: Records>(records: &R, cell: CellNo, key: &[u8]) -> Ordering
    requires { IsSome (R.cells records.now cell) }
    ensures { result ≡ key_cmp (key_at (R.cells records.now) cell) key.now }
{
    records.key_cmp(cell, key)
}

/// Whether the key of a change is the key.
#[tactic(auto, using(crate::proofs::KeysRead::same_key))]
fn is_of<R: Records>(records: &R, cell: CellNo, key: &[u8]) -> bool
    requires { IsSome (R.cells records.now cell) }
    ensures { result ≡ bytes_eq (key_at (R.cells records.now) cell) key.now }
{
    key_cmp(records, cell, key).is_eq()
}

/// Whether it is the key or a later one.
#[tactic(auto, using(crate::proofs::KeysRead::from_key))]
fn is_from<R: Records>(records: &R, cell: CellNo, key: &[u8]) -> bool
    requires { IsSome (R.cells records.now cell) }
    ensures { result ≡ key_le key.now (key_at (R.cells records.now) cell) }
{
    key_cmp(records, cell, key).is_ge()
}

/// Whether the key of a change lies in an interval.
pub fn lies_in<R: Records>(records: &R, cell: CellNo, key: &[u8], range_end: &[u8]) -> bool
    requires { IsSome (R.cells records.now cell) }
    ensures { result ≡ is_in key.now range_end.now (key_at (R.cells records.now) cell) }
{
    match range_end {
        [] => is_of(records, cell, key),
        _ => {
            is_from(records, cell, key)
                && (range_end == [0].as_slice() || key_cmp(records, cell, range_end).is_lt())
        }
    }
}
