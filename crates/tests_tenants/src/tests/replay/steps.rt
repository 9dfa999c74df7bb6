//! Rows as lists of steps: all that a row asks of its tenants is asked of a host at once, and what is written of the
//! replies is what the row is answered. So no row is among them with a call that asks for no step.
//!
//! One small function owns the host: each way out of it is long to prove.
use super::single::step_of;
use super::write_answer;
use crate::tests::rows::{Row, rows};
use etcd_types::limits::DEFAULT_SEGMENTS;
use etcd_types::{Mem, Step};
use gateway_json::target_of;
use gateway_text::write_reply;
use host_front::{LentEvent, LentLine};
use script_replay::{Asked, read_line};
use std::alloc::Global;
use std::process::Abort;
use std::test::Fail;
use steps_core::Host;

/// Whom an event asks: nobody, if a call's target names no tenant.
fn tenant_of(event: LentEvent<'_>) -> &[u8] {
    match event {
        LentEvent::Call { target, .. } => target_of(target).map_or(b"".as_slice(), |it| it.tenant),
        LentEvent::Take { tenant, .. }
        | LentEvent::DropWatch { tenant, .. }
        | LentEvent::Tick { tenant, .. }
        | LentEvent::CatchUp { tenant, .. } => tenant,
    }
}

fn call_of(alloc: Global, event: LentEvent<'_>) -> Result<(Vec<u8>, Step), Fail> {
    let tenant = Vec::from_slice(alloc, tenant_of(event))?;
    let step = step_of(alloc, event)?;
    Ok((tenant, step))
}

/// A tenant is added now, and told; what tenants are asked is added to the list.
fn take_line(
    host: &mut Host,
    alloc: Global,
    line: LentLine<'_>,
    calls: &mut Vec<(Vec<u8>, Step)>,
    told: &mut Vec<u8>,
) -> Result<(), Fail> {
    match line {
        LentLine::Event(event) => calls.push(call_of(alloc, event)?)?,
        LentLine::Add {
            name,
            cluster,
            quota,
            first,
        } => {
            if host.add(alloc, name, cluster, quota, first).is_ok() {
                told.extend_from_slice(b"ok\n")?;
            }
        }
        _ => {}
    }
    Ok(())
}

fn take_lines(
    host: &mut Host,
    alloc: Global,
    script: &[u8],
    calls: &mut Vec<(Vec<u8>, Step)>,
    told: &mut Vec<u8>,
) -> Result<(), Fail> {
    for text in script.split(|byte| *byte == b'\n') {
        if let Some(Asked::Live(line)) = read_line(text, false) {
            take_line(host, alloc, line, calls, told)?;
        }
    }
    Ok(())
}

/// Asks all at once, and adds what is written of the replies.
fn run(host: &mut Host, alloc: Global, calls: &[(Vec<u8>, Step)], told: &mut Vec<u8>) -> Mem<()> {
    let replies = host.run(alloc, calls)?;
    for reply in replies.as_slice() {
        let (status, body) = write_reply(alloc, reply)?;
        write_answer(alloc, told, status, &body)?;
    }
    Ok(())
}

fn told_by(host: &mut Host, alloc: Global, script: &[u8]) -> Result<Vec<u8>, Fail> {
    let mut told = Vec::new(alloc);
    let mut calls = Vec::new(alloc);
    take_lines(host, alloc, script, &mut calls, &mut told)?;
    run(host, alloc, &calls, &mut told)?;
    Ok(told)
}

/// What the script of a row is told by a new host.
fn told_of(alloc: Global, row: &Row) -> Result<Vec<u8>, Fail> {
    let mut host = Host::new(alloc, DEFAULT_SEGMENTS)?;
    told_by(&mut host, alloc, row.script.as_bytes())
}

fn assert_told(rt: &impl Abort, alloc: Global, row: &Row) -> Result<(), Fail> {
    let told = told_of(alloc, row)?;
    assert!(rt; told.as_slice() == row.answers.as_bytes());
    Ok(())
}

/// A first put, what is read after it, and neighbours: the first rows of calls, and the last of leases.
#[test]
fn rows_are_steps_made_at_once(rt: HostRuntime) -> Result<(), Fail> {
    let [calls, leases, _] = rows();
    for row in calls.iter().take(2) {
        assert_told(&rt, rt.alloc(), row)?;
    }
    if let Some(neighbours) = leases.last() {
        assert_told(&rt, rt.alloc(), neighbours)?;
    }
    Ok(())
}
