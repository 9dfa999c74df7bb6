//! The rows as lists: all lines of a script asked at once, and each run of its events.
use crate::tests::rows::{Row, live_rows, rows};
use etcd_types::Mem;
use etcd_types::limits::{DEFAULT_SEGMENTS, MAX_SEGMENTS};
use host_front::{Answer, Front, HostEvent, HostLine, LentEvent, LentLine, LineAnswer};
use script_replay::{AnswerWriter, Asked, read_line, write_answer};
use std::alloc::Global;
use std::mem;
use std::process::Abort;
use steps_core::Host;

/// A script's lines, and how many segments its host has.
#[derive(Drop)]
struct Script {
    segments: u32,
    /// What was answered to a line that asks for the segments.
    told: Vec<u8>,
    lines: Vec<HostLine>,
    /// The events that are asked at once next.
    run: Vec<HostEvent>,
}

impl Script {
    fn new(alloc: Global) -> Script {
        Script {
            segments: DEFAULT_SEGMENTS,
            told: Vec::new(alloc),
            lines: Vec::new(alloc),
            run: Vec::new(alloc),
        }
    }

    fn take(&mut self, alloc: Global, text: &[u8]) -> Mem<()> {
        match read_line(text, self.lines.is_empty()) {
            Some(Asked::Pool { segments }) => {
                self.segments = segments;
                self.told.extend_from_slice(b"ok\n")
            }
            Some(Asked::Live(line)) => Ok(self.lines.push(line_of(alloc, line)?)?),
            None => Ok(()),
        }
    }

    fn front(&self, alloc: Global) -> Mem<Front> {
        let segments = self.segments.clamp(1, MAX_SEGMENTS);
        Ok(Front::new(Host::new(alloc, segments)?))
    }
}

fn script_of(alloc: Global, row: &Row) -> Mem<Script> {
    let mut script = Script::new(alloc);
    for text in row.script.as_bytes().split(|byte| *byte == b'\n') {
        script.take(alloc, text)?;
    }
    Ok(script)
}

fn line_of(alloc: Global, line: LentLine<'_>) -> Mem<HostLine> {
    Ok(match line {
        LentLine::Event(event) => HostLine::Event(event_of(alloc, event)?),
        LentLine::Add {
            name,
            cluster,
            quota,
            first,
        } => HostLine::Add {
            name: Vec::from_slice(alloc, name)?,
            cluster,
            quota,
            first,
        },
        LentLine::Resize { name, quota } => HostLine::Resize {
            name: Vec::from_slice(alloc, name)?,
            quota,
        },
        LentLine::Remove { name } => HostLine::Remove {
            name: Vec::from_slice(alloc, name)?,
        },
    })
}

fn event_of(alloc: Global, event: LentEvent<'_>) -> Mem<HostEvent> {
    Ok(match event {
        LentEvent::Call {
            method,
            target,
            body,
        } => call_of(alloc, method, target, body)?,
        LentEvent::Take { tenant, slot } => HostEvent::Take {
            tenant: Vec::from_slice(alloc, tenant)?,
            slot,
        },
        LentEvent::DropWatch { tenant, slot } => HostEvent::DropWatch {
            tenant: Vec::from_slice(alloc, tenant)?,
            slot,
        },
        LentEvent::Tick { tenant, moment } => HostEvent::Tick {
            tenant: Vec::from_slice(alloc, tenant)?,
            moment,
        },
        LentEvent::CatchUp { tenant, budget } => HostEvent::CatchUp {
            tenant: Vec::from_slice(alloc, tenant)?,
            budget,
        },
    })
}

fn call_of(alloc: Global, method: &[u8], target: &[u8], body: &[u8]) -> Mem<HostEvent> {
    Ok(HostEvent::Call {
        method: Vec::from_slice(alloc, method)?,
        target: Vec::from_slice(alloc, target)?,
        body: Vec::from_slice(alloc, body)?,
    })
}

/// Adds the line of an answer.
fn tell(rt: &impl Abort, told: &mut Vec<u8>, answer: &LineAnswer) {
    let written = write_answer(&mut AnswerWriter::new(told), answer);
    assert!(rt; written.is_ok());
}

/// What all lines are told, asked at once.
fn live_all(rt: &impl Abort, alloc: Global, script: &mut Script) -> Mem<()> {
    let mut front = script.front(alloc)?;
    live_lines(rt, alloc, &mut front, script)
}

fn live_lines(rt: &impl Abort, alloc: Global, front: &mut Front, script: &mut Script) -> Mem<()> {
    let answers = front.live_all(alloc, &script.lines)?;
    for answer in answers.as_slice() {
        tell(rt, &mut script.told, answer);
    }
    Ok(())
}

/// What the run of events is told, asked at once. Then there is none.
fn answer_run(rt: &impl Abort, alloc: Global, front: &mut Front, script: &mut Script) -> Mem<()> {
    let answers = front.answer_all(alloc, &script.run)?;
    tell_events(rt, &mut script.told, answers);
    script.run.clear();
    Ok(())
}

fn tell_events(rt: &impl Abort, told: &mut Vec<u8>, answers: Vec<Answer>) {
    for answer in answers {
        tell(rt, told, &LineAnswer::Event(answer));
    }
}

fn live_line(
    rt: &impl Abort,
    alloc: Global,
    front: &mut Front,
    script: &mut Script,
    line: HostLine,
) -> Mem<()> {
    match line {
        HostLine::Event(event) => Ok(script.run.push(event)?),
        line => live_operator(rt, alloc, front, script, &line),
    }
}

/// What the run of events is told, and then a line of the operator's.
fn live_operator(
    rt: &impl Abort,
    alloc: Global,
    front: &mut Front,
    script: &mut Script,
    line: &HostLine,
) -> Mem<()> {
    answer_run(rt, alloc, front, script)?;
    tell(rt, &mut script.told, &front.live(alloc, line));
    Ok(())
}

/// What the lines are told, of which each run of events is asked at once.
fn live_in_runs(rt: &impl Abort, alloc: Global, script: &mut Script) -> Mem<()> {
    let mut front = script.front(alloc)?;
    live_runs(rt, alloc, &mut front, script)
}

fn live_runs(rt: &impl Abort, alloc: Global, front: &mut Front, script: &mut Script) -> Mem<()> {
    for line in mem::replace(&mut script.lines, Vec::new(alloc)) {
        live_line(rt, alloc, front, script, line)?;
    }
    answer_run(rt, alloc, front, script)
}

fn assert_told(rt: &impl Abort, script: &Script, row: &Row) {
    assert!(rt; script.told.as_slice() == row.answers.as_bytes());
}

fn assert_all_told(rt: &impl Abort, alloc: Global, script: &mut Script, row: &Row) -> Mem<()> {
    live_all(rt, alloc, script)?;
    assert_told(rt, script, row);
    Ok(())
}

fn assert_runs_told(rt: &impl Abort, alloc: Global, script: &mut Script, row: &Row) -> Mem<()> {
    live_in_runs(rt, alloc, script)?;
    assert_told(rt, script, row);
    Ok(())
}

fn assert_lived(rt: &impl Abort, alloc: Global, row: &Row) -> Mem<()> {
    let mut script = script_of(alloc, row)?;
    assert_all_told(rt, alloc, &mut script, row)
}

fn assert_lived_in_runs(rt: &impl Abort, alloc: Global, row: &Row) -> Mem<()> {
    let mut script = script_of(alloc, row)?;
    assert_runs_told(rt, alloc, &mut script, row)
}

fn assert_list_lived(rt: &impl Abort, alloc: Global, list: &[Row]) -> Mem<()> {
    for row in list {
        assert_lived(rt, alloc, row)?;
    }
    Ok(())
}

fn assert_list_lived_in_runs(rt: &impl Abort, alloc: Global, list: &[Row]) -> Mem<()> {
    for row in list {
        assert_lived_in_runs(rt, alloc, row)?;
    }
    Ok(())
}

#[test]
fn rows_are_answered_at_once(rt: HostRuntime) -> Mem<()> {
    for list in rows() {
        assert_list_lived(&rt, rt.alloc(), list)?;
    }
    assert_list_lived(&rt, rt.alloc(), live_rows())
}

#[test]
fn runs_of_events_are_answered_at_once(rt: HostRuntime) -> Mem<()> {
    for list in rows() {
        assert_list_lived_in_runs(&rt, rt.alloc(), list)?;
    }
    assert_list_lived_in_runs(&rt, rt.alloc(), live_rows())
}
