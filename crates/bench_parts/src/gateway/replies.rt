//! The replies that are written.
use etcd_types::{Header, KeyValue, List, Mem, Reply};
use std::alloc::Global;

/// A row with a key of 16 bytes and a value of 32 bytes.
fn row(alloc: Global, number: u32) -> Mem<KeyValue> {
    let key = format!(in alloc; "/services/{number:06}")?;
    Ok(KeyValue {
        key: List::from_vec(key.into_bytes()),
        create_revision: 100,
        mod_revision: 123456,
        version: 3,
        value: List::from_slice(alloc, &[b'x'; 32])?,
        lease: 0,
    })
}

/// The answer to a range that has this many rows.
pub(crate) fn range(alloc: Global, count: u32) -> Mem<Reply> {
    let mut kvs = List::new(alloc);
    for number in 0..count {
        kvs.push(row(alloc, number)?)?;
    }
    Ok(Reply::Range {
        header: Header {
            cluster: 7,
            revision: 123456,
        },
        count: u64::from(count),
        kvs,
        more: false,
    })
}
