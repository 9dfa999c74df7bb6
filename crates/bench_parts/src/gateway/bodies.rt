//! The bodies of requests that are read.
use base64::engine::general_purpose::STANDARD;
use etcd_types::Mem;
use std::alloc::Global;

/// How many operations the transaction has.
const OPERATIONS: u32 = 64;

/// A range with every member that it can have.
pub(crate) const RANGE: &str = concat!(
    r#"{"key":"L3NlcnZpY2VzLw==","range_end":"L3NlcnZpY2VzMA==","limit":"100","revision":"123456","#,
    r#""sort_order":"DESCEND","sort_target":"MOD","serializable":true,"keys_only":true,"#,
    r#""count_only":true,"min_mod_revision":"1","max_mod_revision":"123456","#,
    r#""min_create_revision":"1","max_create_revision":"123456"}"#,
);

/// Some text, and bytes in base64 behind it.
fn push_bytes(body: &mut String, before: &str, bytes: &[u8]) -> Mem<()> {
    body.push_str(before)?;
    STANDARD.encode_string(bytes, body)
}

fn push_put(body: &mut String, key: &[u8], value: &[u8]) -> Mem<()> {
    push_bytes(body, "{\"key\":\"", key)?;
    push_bytes(body, "\",\"value\":\"", value)?;
    body.push_str("\"}")
}

/// A put of a key and a value.
pub(crate) fn put(alloc: Global, key: &[u8], value: &[u8]) -> Mem<String> {
    let mut body = String::new(alloc);
    push_put(&mut body, key, value)?;
    Ok(body)
}

fn push_operation(alloc: Global, body: &mut String, number: u32) -> Mem<()> {
    let key = format!(in alloc; "/services/{number:06}")?;
    body.push_str("{\"request_put\":")?;
    push_put(body, key.as_bytes(), &[b'x'; 32])?;
    body.push('}')
}

/// A transaction of 64 puts of values of 32 bytes.
pub(crate) fn txn(alloc: Global) -> Mem<String> {
    let mut body = String::from_str(alloc, "{\"success\":[")?;
    push_operations(alloc, &mut body)?;
    Ok(body)
}

/// The operations, and what ends the list.
fn push_operations(alloc: Global, body: &mut String) -> Mem<()> {
    for number in 0..OPERATIONS {
        if number > 0 {
            body.push(',')?;
        }
        push_operation(alloc, body, number)?;
    }
    body.push_str("]}")
}
