//! Answers the script on standard input: one answer line for each line, on standard output.
//!
//! The status is 0 at the script's end, 2 where a line can't be read, 3 where input or output failed
//! and 4 where a line or the pool can't be held; the reason stands on standard error.
#![tactic(auto)]

use script_replay::{AnswerWriter, ReplayFault, ScriptReader, run};
use std::io::{self, BufReader, BufWriter};
use std::process::ExitCode;

fn main(rt: HostRuntime) -> ExitCode {
    let Ok(reader) = BufReader::new(rt.alloc(), rt.reader()) else {
        return report(&rt, ReplayFault::Memory);
    };
    let Ok(writer) = BufWriter::new(rt.alloc(), io::writer(&rt)) else {
        return report(&rt, ReplayFault::Memory);
    };
    let mut reader = ScriptReader::new(reader);
    let mut writer = AnswerWriter::new(writer);
    let result = run(rt.alloc(), &mut reader, &mut writer);
    // What was answered is written, also before a fault.
    if writer.flush().is_err() {
        return report(&rt, ReplayFault::Io);
    }
    match result {
        Ok(()) => ExitCode::from(0),
        Err(fault) => report(&rt, fault),
    }
}

/// Says on standard error why the script ended early.
fn report(rt: &HostRuntime, fault: ReplayFault) -> ExitCode {
    // Where that can't be said either, the status still tells.
    let _ = eprintln!(rt; "etcd_replay: {fault}");
    ExitCode::from(fault.status())
}
