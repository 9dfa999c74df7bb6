//! What records cost.
ghost use Rattle.std.specs.Prelude.{◌≡◌};
ghost use Rattle.etcd_model.specs.Kept.{cost_delete, cost_put};
ghost use Rattle.store_words.specs.Growth.{growth_put};

use etcd_types::KeyValue;
use etcd_types::limits::CELL_BYTES;

/// The cells of a put: one, and one for each 48 bytes of its key and value.
pub fn cost_put(key: &[u8], value: &[u8]) -> u64
    ensures { result ≡ cost_put key.now value.now }
{
    1 + (key.len() as u64 + value.len() as u64).div_ceil(CELL_BYTES)
}

/// The cells of a delete: one, and one for each 48 bytes of its key.
pub fn cost_delete(key: &[u8]) -> u64
    ensures { result ≡ cost_delete key.now }
{
    1 + (key.len() as u64).div_ceil(CELL_BYTES)
}

/// By how many cells a put of this row raises those that count against a quota: by its record, and by room for a
/// delete of its key where that was not live. A row of its first revision is of such a key.
pub fn growth_put(row: &KeyValue) -> u64
    ensures { result ≡ growth_put row.now }
{
    let key = row.key.as_slice();
    let record = cost_put(key, row.value.as_slice());
    if row.create_revision == row.mod_revision {
        record + cost_delete(key)
    } else {
        record
    }
}
