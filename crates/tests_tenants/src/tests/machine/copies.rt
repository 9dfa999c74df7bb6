//! What is copied of calls and their replies.
use super::{Tenant, let_go};
use etcd_types::{Call, CopyOf, Mem, Reply, Step};
use gateway_json::read_step;
use std::alloc::Global;
use std::test::Fail;

/// Calls whose steps and replies have each kind of list in them.
const CALLS: [(Call, &'static str); 9] = [
    (Call::Put, r#"{"key":"YQ==","value":"MQ=="}"#),
    (
        Call::Watch,
        r#"{"create_request":{"key":"YQ==","range_end":"AA==","start_revision":"2","prev_kv":true}}"#,
    ),
    (Call::Grant, r#"{"TTL":"60","ID":"7"}"#),
    (Call::Put, r#"{"key":"Yw==","lease":"7"}"#),
    (Call::TimeToLive, r#"{"ID":"7","keys":true}"#),
    (Call::Leases, "{}"),
    (
        Call::Txn,
        r#"{"compare":[{"key":"YQ==","target":"VALUE","value":"MQ=="}],"success":[
            {"request_range":{"key":"YQ==","range_end":"AA=="}},
            {"request_put":{"key":"Yg==","value":"Mg==","prev_kv":true}},
            {"request_delete_range":{"key":"YQ==","prev_kv":true}}]}"#,
    ),
    (
        Call::Range,
        r#"{"key":"YQ==","range_end":"AA==","limit":"1"}"#,
    ),
    (Call::DeleteRange, r#"{"key":"Yg==","prev_kv":true}"#),
];

fn is_step_copied(alloc: Global, step: &Step) -> Mem<bool> {
    Ok(step.copy_of(alloc)?.same_as(step))
}

fn is_reply_copied(alloc: Global, reply: &Reply) -> Mem<bool> {
    Ok(reply.copy_of(alloc)?.same_as(reply))
}

/// Whether copies of a step and of its reply are the same.
fn are_copied(alloc: Global, tenant: &mut Tenant, step: &Step) -> Mem<bool> {
    let reply = tenant.step(alloc, step);
    Ok(is_step_copied(alloc, step)? && is_reply_copied(alloc, &reply)?)
}

/// How many of the calls, and of the take of their watch, are copied.
fn copied(alloc: Global, tenant: &mut Tenant) -> Result<usize, Fail> {
    let mut count = 0usize;
    for (call, body) in CALLS {
        let step = read_step(alloc, call, body.as_bytes())?;
        count = count.saturating_add(usize::from(are_copied(alloc, tenant, &step)?));
    }
    let taken = are_copied(alloc, tenant, &Step::Take(0))?;
    Ok(count.saturating_add(usize::from(taken)))
}

/// The same of a new tenant.
fn copied_of_new(alloc: Global) -> Result<usize, Fail> {
    let mut tenant = Tenant::new(alloc, 1024)?;
    let count = copied(alloc, &mut tenant);
    let_go(tenant);
    count
}

// With ample memory a copy is made: no clause says so.
#[test]
fn copies(rt: HostRuntime) -> Result<(), Fail> {
    let count = copied_of_new(rt.alloc())?;
    assert_eq!(rt; count, CALLS.len() + 1);
    Ok(())
}
