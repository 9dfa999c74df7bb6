//! Where the keys of an interval stand among the newest records.
ghost use Rattle.key_index.specs.Index.{IsEndPlace, IsFromPlace, IsSpanFrom, IsSpread};

use crate::records::Records;
use crate::search::{Sought, search};
use chunk_list::{ChunkList, Place};
use etcd_types::CellNo;

/// The place of the first key of the interval that begins at `key` and ends before `range_end`, and how many
/// keys it has. With an empty end it is the one key, and with the single byte 0 it has no end.
pub(crate) fn span<R: Records>(
    heads: &ChunkList<CellNo>,
    records: &R,
    key: &[u8],
    range_end: &[u8],
) -> (Place, usize)
    requires { IsSpread (R.cells records.now) heads.now.items }
    ensures { IsSpanFrom (R.cells records.now) heads.now key.now range_end.now result.0 result.1 }
{
    match range_end {
        [] => match search(heads, records, &Sought::Key(key)) {
            Ok(place) => (place, 1),
            Err(place) => (place, 0),
        },
        _ => {
            let start = first_from(heads, records, key);
            let end = end_of(heads, records, range_end);
            (start, heads.count_between(start, end))
        }
    }
}

/// The first place whose key is not below this one.
fn first_from<R: Records>(heads: &ChunkList<CellNo>, records: &R, key: &[u8]) -> Place
    requires { IsSpread (R.cells records.now) heads.now.items }
    ensures { IsFromPlace (R.cells records.now) heads.now key.now result }
{
    match search(heads, records, &Sought::Key(key)) {
        Ok(place) => place,
        Err(place) => place,
    }
}

/// The first place whose key is not below the end of an interval. The single byte 0 is no end.
fn end_of<R: Records>(heads: &ChunkList<CellNo>, records: &R, range_end: &[u8]) -> Place
    requires { IsSpread (R.cells records.now) heads.now.items }
    ensures { IsEndPlace (R.cells records.now) heads.now range_end.now result }
{
    if range_end == [0].as_slice() {
        heads.end()
    } else {
        first_from(heads, records, range_end)
    }
}
