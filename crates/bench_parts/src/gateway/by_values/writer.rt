//! Builds a JSON value of a range's answer, with a map for each object, and writes its text.
use anyhow::{Result, bail};
use base64::engine::general_purpose::STANDARD;
use etcd_types::{Header, KeyValue, Mem, Reply};
use serde_json::{Map, Value};
use std::alloc::Global;

type Members = Map<String, Value>;

/// The text of a range's answer.
pub(crate) fn write(alloc: Global, reply: &Reply) -> Result<Vec<u8>> {
    let Reply::Range {
        header,
        count,
        kvs,
        more,
    } = reply
    else {
        bail!("this answer is not measured");
    };
    let value = range(alloc, header, *count, kvs.as_slice(), *more)?;
    Ok(value.to_vec(alloc)?)
}

fn insert(alloc: Global, members: &mut Members, name: &str, value: Value) -> Mem<()> {
    members.insert(String::from_str(alloc, name)?, value)?;
    Ok(())
}

fn insert_text(alloc: Global, members: &mut Members, name: &str, text: &str) -> Mem<()> {
    let text = String::from_str(alloc, text)?;
    insert(alloc, members, name, Value::String(text))
}

fn insert_unsigned(alloc: Global, members: &mut Members, name: &str, number: u64) -> Mem<()> {
    if number == 0 {
        return Ok(());
    }
    let mut buffer = itoa::Buffer::new();
    insert_text(alloc, members, name, buffer.format(number))
}

fn insert_signed(alloc: Global, members: &mut Members, name: &str, number: i64) -> Mem<()> {
    if number == 0 {
        return Ok(());
    }
    let mut buffer = itoa::Buffer::new();
    insert_text(alloc, members, name, buffer.format(number))
}

fn insert_bytes(alloc: Global, members: &mut Members, name: &str, bytes: &[u8]) -> Mem<()> {
    if bytes.is_empty() {
        return Ok(());
    }
    let text = STANDARD.encode(alloc, bytes)?;
    insert(alloc, members, name, Value::String(text))
}

fn header_value(alloc: Global, header: &Header) -> Mem<Value> {
    let mut members = Map::new(alloc);
    insert_unsigned(alloc, &mut members, "cluster_id", header.cluster)?;
    insert_text(alloc, &mut members, "member_id", "1")?;
    insert_text(alloc, &mut members, "raft_term", "1")?;
    insert_signed(alloc, &mut members, "revision", header.revision)?;
    Ok(Value::Object(members))
}

fn row_value(alloc: Global, row: &KeyValue) -> Mem<Value> {
    let mut members = Map::new(alloc);
    insert_unsigned(alloc, &mut members, "create_revision", row.create_revision)?;
    insert_bytes(alloc, &mut members, "key", row.key.as_slice())?;
    insert_signed(alloc, &mut members, "lease", row.lease)?;
    insert_unsigned(alloc, &mut members, "mod_revision", row.mod_revision)?;
    insert_bytes(alloc, &mut members, "value", row.value.as_slice())?;
    insert_unsigned(alloc, &mut members, "version", row.version)?;
    Ok(Value::Object(members))
}

fn rows_value(alloc: Global, kvs: &[KeyValue]) -> Mem<Value> {
    let mut rows = Vec::with_capacity(alloc, kvs.len())?;
    for kv in kvs {
        rows.push(row_value(alloc, kv)?)?;
    }
    Ok(Value::Array(rows))
}

fn range(alloc: Global, header: &Header, count: u64, kvs: &[KeyValue], more: bool) -> Mem<Value> {
    let mut members = Map::new(alloc);
    insert_unsigned(alloc, &mut members, "count", count)?;
    insert(alloc, &mut members, "header", header_value(alloc, header)?)?;
    insert_rows(alloc, &mut members, kvs, more)?;
    Ok(Value::Object(members))
}

/// The rows, if there are some, and whether there are more.
fn insert_rows(alloc: Global, members: &mut Members, kvs: &[KeyValue], more: bool) -> Mem<()> {
    if !kvs.is_empty() {
        insert(alloc, members, "kvs", rows_value(alloc, kvs)?)?;
    }
    if more {
        insert(alloc, members, "more", Value::Bool(true))?;
    }
    Ok(())
}
