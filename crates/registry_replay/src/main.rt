//! Answers the script on standard input by tenants under locks, whom two seats call in turn, and then closes the audits.
//!
//! The answer lines are those of `etcd_replay`. The first argument is how many entries an audit takes, or 0. With a
//! second one tenants are called by keys, which stay out until the end.
//!
//! The status is 0 where the audits close and 1 where they do not, 2 where a line can't be read, 3 where input or output
//! failed and 4 for want of memory; the reason stands on standard error.
#![tactic(auto)]

mod callers;
mod steps;

use callers::{Callers, Way};
use etcd_types::limits::DEFAULT_SEGMENTS;
use script_replay::{AnswerWriter, Asked, ReplayFault, read_line, write_answer};
use std::alloc::{AllocGlobal, Global};
use std::env;
use std::io::{self, Input, Read, Write};
use std::process::ExitCode;
use std::rt::{Clock, Env};
use std::sync::Wait;

fn main(rt: HostRuntime) -> ExitCode {
    match replay(&rt) {
        Ok(true) => ExitCode::from(0),
        Ok(false) => {
            let _ = eprintln!(rt; "registry_replay: the audits are not the seats' lists");
            ExitCode::from(1)
        }
        Err(fault) => {
            let _ = eprintln!(rt; "registry_replay: {fault}");
            ExitCode::from(fault.status())
        }
    }
}

/// Answers the whole script, and says whether the audits closed. What was answered is written, also before a fault.
fn replay<R: Wait + Clock + Env + AllocGlobal + Input + Print>(
    rt: &R,
) -> Result<bool, ReplayFault> {
    let way = way(rt)?;
    let script = script(rt, rt.alloc())?;
    let mut told = Vec::new(rt.alloc());
    let ended = answer_all(rt, rt.alloc(), &script, way, &mut told);
    if io::writer(rt).write_all(&told).is_err() {
        return Err(ReplayFault::Io);
    }
    ended
}

/// What the arguments ask for.
fn way<R: Env + AllocGlobal>(rt: &R) -> Result<Way, ReplayFault> {
    let Ok(mut words) = env::args(rt) else {
        return Err(ReplayFault::Memory);
    };
    let _program = words.next();
    let entries = words
        .next()
        .map_or(0, |word| word.as_str().parse().unwrap_or(0));
    Ok(Way {
        entries,
        by_key: words.next().is_some(),
    })
}

/// All that stands on standard input.
fn script<R: Input>(rt: &R, alloc: Global) -> Result<Vec<u8>, ReplayFault> {
    let mut script = Vec::new(alloc);
    match rt.reader().read_to_end(&mut script) {
        Ok(_) => Ok(script),
        Err(_) => Err(ReplayFault::Io),
    }
}

/// Answers each line, and closes.
fn answer_all<R: Wait + Clock>(
    rt: &R,
    alloc: Global,
    script: &[u8],
    way: Way,
    told: &mut Vec<u8>,
) -> Result<bool, ReplayFault> {
    let mut callers = Callers::new(alloc, segments_of(script), way)?;
    answer_lines(rt, alloc, &mut callers, script, told)?;
    callers.close(alloc)
}

/// The segments that a script's first line names, or as many as usual.
fn segments_of(script: &[u8]) -> u32 {
    let first = script.split(|byte| *byte == b'\n').next();
    match read_line(first.unwrap_or(b""), true) {
        Some(Asked::Pool { segments }) => segments,
        _ => DEFAULT_SEGMENTS,
    }
}

fn answer_lines<R: Wait + Clock>(
    rt: &R,
    alloc: Global,
    callers: &mut Callers,
    script: &[u8],
    told: &mut Vec<u8>,
) -> Result<(), ReplayFault> {
    let lines = script.strip_suffix(b"\n").unwrap_or(script);
    let mut number = 0u32;
    for line in lines.split(|byte| *byte == b'\n') {
        let is_first = number == 0;
        number = number.saturating_add(1);
        let Some(asked) = read_line(line, is_first) else {
            return Err(ReplayFault::Line(number));
        };
        answer_line(rt, alloc, callers, &asked, told)?;
    }
    Ok(())
}

/// The line's answer. The registry was made with the segments that the first line names.
fn answer_line<R: Wait + Clock>(
    rt: &R,
    alloc: Global,
    callers: &mut Callers,
    asked: &Asked<'_>,
    told: &mut Vec<u8>,
) -> Result<(), ReplayFault> {
    let answer = callers.answer(rt, alloc, asked)?;
    match write_answer(&mut AnswerWriter::new(told), &answer) {
        Ok(()) => Ok(()),
        Err(_) => Err(ReplayFault::Memory),
    }
}
