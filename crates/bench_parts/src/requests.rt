//! What is put.
use etcd_types::{List, Mem, PutReq};
use std::alloc::Global;

/// A key of 16 bytes.
pub(crate) fn key(alloc: Global, number: u64) -> Mem<List<u8>> {
    let text = format!(in alloc; "/services/{number:06}")?;
    Ok(List::from_vec(text.into_bytes()))
}

pub(crate) fn put(alloc: Global, number: u64, value_len: usize) -> Mem<PutReq> {
    Ok(PutReq {
        key: key(alloc, number)?,
        value: List::from_vec(vec![in alloc; b'v'; value_len]?),
        lease: 0,
        prev_kv: false,
        ignore_value: false,
        ignore_lease: false,
    })
}
