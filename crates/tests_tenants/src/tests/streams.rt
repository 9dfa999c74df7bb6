//! A script is answered whole, and over streams that fail: that is told, and remembered.
use etcd_types::Mem;
use host_front::{LentEvent, LentLine, LineAnswer};
use script_replay::{AnswerWriter, Asked, Replay, ReplayFault, ScriptReader, run};
use std::alloc::{AllocError, Global};
use std::io::{self, BufReader, Error, ErrorKind, Read, Write};
use std::process::Abort;

/// Each line is answered `ok`.
const SCRIPT: &[u8] = b"pool 4\nadd a 1 8 1\nremove a\n";
/// How much is read at once.
const PIECE: usize = 8;
/// How many reads and writes the script takes.
const READS: u32 = 5;

const WRITES: u32 = 3;

/// A script, or what takes its answers. After so many calls one tells an error.
#[derive(Drop)]
struct Stream {
    script: &'static [u8],
    calls: u32,
    error: ErrorKind,
}

impl Stream {
    fn new(calls: u32, error: ErrorKind) -> Stream {
        Stream {
            script: SCRIPT,
            calls,
            error,
        }
    }

    fn call(&mut self) -> io::Result<()> {
        let calls = self.calls;
        self.calls = calls.wrapping_sub(1);
        if calls == 0 {
            return Err(Error::from(self.error));
        }
        Ok(())
    }
}

impl Read for Stream {
    fn read(&mut self, buf: &mut [u8]) -> io::Result<usize> {
        self.call()?;
        self.script.read(buf)
    }
}

impl Write for Stream {
    fn write(&mut self, buf: &[u8]) -> io::Result<usize> {
        self.call()?;
        Ok(buf.len())
    }

    fn flush(&mut self) -> io::Result<()> {
        Ok(())
    }
}

/// What a script is told, and whether its reader and its writer failed.
#[derive(Clone, Copy, PartialEq, Eq)]
struct Told {
    fault: Option<ReplayFault>,
    read_failed: bool,
    write_failed: bool,
}

fn told_over(alloc: Global, reads: Stream, writes: Stream) -> io::Result<Told> {
    let mut reader = ScriptReader::new(BufReader::with_capacity(alloc, PIECE, reads)?);
    let mut writer = AnswerWriter::new(writes);
    let result = run(alloc, &mut reader, &mut writer);
    Ok(Told {
        fault: result.err(),
        read_failed: reader.has_failed(),
        write_failed: writer.has_failed(),
    })
}

/// A read and a write that tell this error come to this fault. So late that none is left they come to none.
fn assert_fault(
    rt: &impl Abort,
    alloc: Global,
    calls: u32,
    error: ErrorKind,
    read: Option<ReplayFault>,
    write: Option<ReplayFault>,
) -> io::Result<()> {
    let fault = read.filter(|_| calls < READS);
    let told = told_over(
        alloc,
        Stream::new(calls, error),
        Stream::new(u32::MAX, error),
    )?;
    assert!(rt;
        told == Told {
            fault,
            read_failed: fault.is_some(),
            write_failed: false
        }
    );
    let fault = write.filter(|_| calls < WRITES);
    let told = told_over(
        alloc,
        Stream::new(u32::MAX, error),
        Stream::new(calls, error),
    )?;
    assert!(rt;
        told == Told {
            fault,
            read_failed: false,
            write_failed: fault.is_some()
        }
    );
    Ok(())
}

#[test]
fn failures_are_told_and_remembered(rt: HostRuntime) -> io::Result<()> {
    let io = Some(ReplayFault::Io);
    let memory = Some(ReplayFault::Memory);
    for calls in 0..READS + 1 {
        assert_fault(&rt, rt.alloc(), calls, ErrorKind::BrokenPipe, io, io)?;
        assert_fault(&rt, rt.alloc(), calls, ErrorKind::OutOfMemory, memory, io)?;
        assert_fault(&rt, rt.alloc(), calls, ErrorKind::Interrupted, None, None)?;
    }
    Ok(())
}

/// What a put is asked and answered, on a tenant that was just added.
const PUT: &[u8] =
    b"add one 7 1024 1\ncall POST /t/one/v3/kv/put {\"key\":\"Zm9v\",\"value\":\"YmFy\"}\n";

const PUT_ANSWERS: &[u8] =
    b"ok\n200 {\"header\":{\"cluster_id\":\"7\",\"member_id\":\"1\",\"raft_term\":\"1\",\"revision\":\"2\"}}\n";

#[test]
fn a_script_is_answered_whole(rt: HostRuntime) {
    let mut room = [0; PUT_ANSWERS.len()];
    let mut reader = ScriptReader::new(PUT);
    let mut writer = AnswerWriter::new(room.as_mut_slice());
    let result = run(rt.alloc(), &mut reader, &mut writer);
    assert!(rt; result.is_ok() && !writer.has_failed() && !reader.has_failed());
    drop(writer);
    assert!(rt; room.as_slice() == PUT_ANSWERS);
}

#[test]
fn a_replay_answers_line_by_line(rt: HostRuntime) -> Mem<()> {
    let mut replay = Replay::new();
    let add = Asked::Live(LentLine::Add {
        name: b"one",
        cluster: 7,
        quota: 1024,
        first: 1,
    });
    assert!(rt; matches!(replay.answer(rt.alloc(), &add)?, LineAnswer::Done));
    let tick = Asked::Live(LentLine::Event(LentEvent::Tick {
        tenant: b"one",
        moment: 5,
    }));
    let LineAnswer::Event(told) = replay.answer(rt.alloc(), &tick)? else {
        return Err(AllocError);
    };
    assert!(rt; told.status == 204 && told.body.bytes().is_empty());
    Ok(())
}

#[test]
fn a_writer_that_takes_no_more_has_failed(rt: HostRuntime) {
    let mut room = [0; PUT_ANSWERS.len()];
    for taken in 0..room.len() {
        let mut reader = ScriptReader::new(PUT);
        let mut writer = AnswerWriter::new(&mut room[..taken]);
        let result = run(rt.alloc(), &mut reader, &mut writer);
        assert!(rt; result == Err(ReplayFault::Io));
        assert!(rt; writer.has_failed() && !reader.has_failed());
        drop(writer);
        assert!(rt; room[..taken] == PUT_ANSWERS[..taken]);
    }
}
