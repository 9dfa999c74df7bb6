//! Rows that are not made: each is read where it lies.
ghost use Rattle.std.specs.Prelude.{◌≡◌, ◌<◌, ◌∷◌, ◌+◌, List, OnOk, drop, length};
ghost use Rattle.etcd_types.specs.Rows.{shape_of};

use crate::copy::Mem;
use crate::key_value::KeyValue;
use crate::list::List;
use crate::reply::Header;

/// A row whose key and value are known by their lengths alone.
#[derive(Clone, Copy)]
pub struct RowShape {
    /// How many bytes the key has.
    pub key: usize,
    pub create_revision: u64,
    pub mod_revision: u64,
    pub version: u64,
    /// How many bytes the value has.
    pub value: usize,
    pub lease: i64,
}

/// Some rows, in an order, of which each is read by itself.
pub trait RowsInPlace {
    ghost use Rattle.etcd_types.specs.declared.key_value.KeyValue.{KeyValue};

    ghost rows: { Self → List KeyValue };

    /// How many there are.
    fn len(&self) -> usize
        ensures { result ≡ length (rows self.now) };

    /// The shape of the row at a place.
    fn shape(&self, place: usize) -> RowShape
        requires { place < length (rows self.now) }
        ensures { (row : KeyValue) → (rest : List KeyValue) → drop place (rows self.now) ≡ row ∷ rest
            → result ≡ shape_of row };

    /// Reads the row at a place into another one, whose memory is used again. Without memory the other may be any.
    fn read(&self, place: usize, row: &mut KeyValue) -> Mem<()>
        requires { place < length (rows self.now) }
        ensures { OnOk result (drop place (rows self.now) ≡ row.new ∷ drop (place + 1) (rows self.now)) };
}

/// What a range is answered whose rows are not made.
#[derive(Drop)]
pub struct RangeInPlace<S> {
    /// The revision at which it is answered.
    pub revision: i64,
    /// How many rows the interval has.
    pub count: u64,
    /// The limit cuts some of them.
    pub more: bool,
    pub rows: S,
}

/// An answer whose rows are not made: to a range, or to a transaction that reads alone.
#[derive(Drop)]
pub enum ReplyInPlace<S> {
    Range {
        header: Header,
        range: RangeInPlace<S>,
    },
    Txn {
        header: Header,
        succeeded: bool,
        responses: List<RangeInPlace<S>>,
    },
}
