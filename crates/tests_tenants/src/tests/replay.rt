//! Rows, over each source of segments, and some as lists of steps. Over the host's pool they are asked of the program,
//! by `tools/check-rows`, and so are scripts by chance.
mod single;
mod steps;

use crate::tests::rows::{Row, rows};
use etcd_types::Mem;
use host_front::LentLine;
use script_replay::{Asked, read_line};
use single::Singles;
use std::alloc::Global;
use std::process::Abort;
use test_segments::{SOURCES, Source};

/// What a script is answered by tenants that each have segments of their own from a source.
fn answers_over(alloc: Global, source: Source, script: &[u8]) -> Mem<Vec<u8>> {
    let mut singles = Singles::new(alloc, source);
    let mut answers = Vec::new(alloc);
    for line in script.split(|byte| *byte == b'\n') {
        let is_first = answers.is_empty();
        write_over(alloc, &mut singles, read_line(line, is_first), &mut answers)?;
    }
    Ok(answers)
}

fn write_over(
    alloc: Global,
    singles: &mut Singles,
    asked: Option<Asked<'_>>,
    answers: &mut Vec<u8>,
) -> Mem<()> {
    match asked {
        Some(Asked::Pool { segments }) => {
            singles.segments = segments;
            answers.extend_from_slice(b"ok\n")
        }
        Some(Asked::Live(LentLine::Event(event))) => {
            let (status, body) = singles.answer(alloc, event)?;
            write_answer(alloc, answers, status, &body)
        }
        Some(Asked::Live(line)) => {
            answers.extend_from_slice(singles.operate(alloc, line)?.as_bytes())?;
            answers.extend_from_slice(b"\n")
        }
        None => Ok(()),
    }
}

fn write_answer(alloc: Global, answers: &mut Vec<u8>, status: u16, body: &[u8]) -> Mem<()> {
    let status = format!(in alloc; "{status}")?;
    answers.extend_from_slice(status.as_bytes())?;
    write_body(answers, body)
}

/// A space and the body, if there is one, and the line's end, which some bodies have.
fn write_body(answers: &mut Vec<u8>, body: &[u8]) -> Mem<()> {
    if !body.is_empty() {
        answers.push(b' ')?;
        answers.extend_from_slice(body)?;
    }
    if !body.ends_with(b"\n") {
        answers.push(b'\n')?;
    }
    Ok(())
}

/// A row is answered so over this source of segments.
fn assert_row_over(rt: &impl Abort, alloc: Global, source: Source, row: &Row) -> Mem<()> {
    let answers = answers_over(alloc, source, row.script.as_bytes())?;
    assert!(rt; answers.as_slice() == row.answers.as_bytes());
    Ok(())
}

fn assert_row_over_each(rt: &impl Abort, alloc: Global, row: &Row) -> Mem<()> {
    for source in SOURCES {
        assert_row_over(rt, alloc, source, row)?;
    }
    Ok(())
}

fn assert_list_over_each(rt: &impl Abort, alloc: Global, list: &[Row]) -> Mem<()> {
    for row in list {
        assert_row_over_each(rt, alloc, row)?;
    }
    Ok(())
}

#[test]
fn rows_are_answered_over_each_source(rt: HostRuntime) -> Mem<()> {
    for list in rows() {
        assert_list_over_each(&rt, rt.alloc(), list)?;
    }
    Ok(())
}
