//! Reads a body into a JSON value, and picks the members out of it. It knows the underscored names
//! and one alphabet of base64 alone.
use anyhow::{Context, Result, bail};
use base64::engine::general_purpose::STANDARD;
use etcd_types::{Call, List, Op, PutReq, RangeReq, SortOrder, SortTarget, Step, TxnReq};
use serde_json::Value;
use std::alloc::Global;

/// The step that a body asks for.
pub(crate) fn read(alloc: Global, call: Call, body: &str) -> Result<Step> {
    let value = Value::from_str(alloc, body)?;
    step_of(alloc, call, &value)
}

fn step_of(alloc: Global, call: Call, value: &Value) -> Result<Step> {
    Ok(match call {
        Call::Put => Step::Put(put(alloc, value)?),
        Call::Range => Step::Range(range(alloc, value)?),
        Call::Txn => Step::Txn(txn(alloc, value)?),
        _ => bail!("this call is not measured"),
    })
}

fn text<'a>(value: &'a Value, name: &str) -> Option<&'a str> {
    match value.get(name) {
        Some(Value::String(text)) => Some(text.as_str()),
        _ => None,
    }
}

fn bytes(alloc: Global, value: &Value, name: &str) -> Result<List<u8>> {
    match text(value, name) {
        Some(text) => Ok(List::from_vec(STANDARD.decode(alloc, text.as_bytes())?)),
        None => Ok(List::new(alloc)),
    }
}

fn number(value: &Value, name: &str) -> Result<i64> {
    match value.get(name) {
        None => Ok(0),
        Some(Value::String(text)) => Ok(text.as_str().parse()?),
        Some(other) => other.as_i64().context("a number is wanted"),
    }
}

fn flag(value: &Value, name: &str) -> bool {
    matches!(value.get(name), Some(Value::Bool(true)))
}

fn sort_order(value: &Value) -> SortOrder {
    match text(value, "sort_order") {
        Some("ASCEND") => SortOrder::Ascend,
        Some("DESCEND") => SortOrder::Descend,
        _ => SortOrder::Unsorted,
    }
}

fn sort_target(value: &Value) -> SortTarget {
    match text(value, "sort_target") {
        Some("VERSION") => SortTarget::Version,
        Some("CREATE") => SortTarget::Create,
        Some("MOD") => SortTarget::Mod,
        Some("VALUE") => SortTarget::Value,
        _ => SortTarget::Key,
    }
}

fn put(alloc: Global, value: &Value) -> Result<PutReq> {
    Ok(PutReq {
        lease: number(value, "lease")?,
        prev_kv: flag(value, "prev_kv"),
        ignore_value: flag(value, "ignore_value"),
        ignore_lease: flag(value, "ignore_lease"),
        key: bytes(alloc, value, "key")?,
        value: bytes(alloc, value, "value")?,
    })
}

fn range(alloc: Global, value: &Value) -> Result<RangeReq> {
    Ok(RangeReq {
        limit: number(value, "limit")?,
        revision: number(value, "revision")?,
        sort_order: sort_order(value),
        sort_target: sort_target(value),
        serializable: flag(value, "serializable"),
        keys_only: flag(value, "keys_only"),
        count_only: flag(value, "count_only"),
        min_mod_revision: number(value, "min_mod_revision")?,
        max_mod_revision: number(value, "max_mod_revision")?,
        min_create_revision: number(value, "min_create_revision")?,
        max_create_revision: number(value, "max_create_revision")?,
        key: bytes(alloc, value, "key")?,
        range_end: bytes(alloc, value, "range_end")?,
    })
}

fn operation(alloc: Global, value: &Value) -> Result<Op> {
    let request = value.get("request_put").context("a put is wanted")?;
    Ok(Op::Put(put(alloc, request)?))
}

fn operations(alloc: Global, value: &Value, name: &str) -> Result<List<Op>> {
    let mut operations = List::new(alloc);
    if let Some(Value::Array(values)) = value.get(name) {
        for value in values.as_slice() {
            operations.push(operation(alloc, value)?)?;
        }
    }
    Ok(operations)
}

/// A transaction with no compares.
fn txn(alloc: Global, value: &Value) -> Result<TxnReq> {
    Ok(TxnReq {
        success: operations(alloc, value, "success")?,
        failure: operations(alloc, value, "failure")?,
        compare: List::new(alloc),
    })
}
