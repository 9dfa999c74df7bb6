//! A script's lines, one at a time.
ghost use Rattle.std.specs.Prelude.{◌≡◌, ◌≢◌, ◌+◌, ◌<◌, ◌≤◌, ◌-◌, All, length, min, take, true, false};
ghost use Rattle.std.specs.Prelude.{IfOk, IfErr, OnErr, OnOk, OnSome, Ok};
ghost use Rattle.std.specs.Io.{StartsWith, StopsAt, IsEmptyOrEndsWith, appended_bytes};
ghost use Rattle.std.specs.Io.KnownBytes.{Consumes, IsAtEnd, Keeps};
ghost use Rattle.std.specs.IoError.{error_kind};
ghost use Rattle.std.specs.Io.BufRead.{strip_last, DropsThrough};
ghost use Rattle.etcd_types.specs.Limits.{max_script_line};
ghost use Rattle.script_replay.specs.Failing.{OneFailed};
ghost use Rattle.script_replay.specs.Lines.{BeginsTooLong, BeginsWithLine, NamesNoLine};

use crate::fault::ReplayFault;
use crate::writer::AnswerWriter;
use etcd_types::limits::MAX_SCRIPT_LINE;
use std::io::{BufRead, Error, ErrorKind, Write};

/// What was taken of a script.
#[derive(Clone, Copy, PartialEq, Eq)]
pub(crate) enum TakenLine {
    /// A line with its newline, which the last may lack; at the script's end nothing.
    Line,
    /// The front of a line that is longer than a line may be.
    TooLong,
}

/// A script's reader, which remembers whether it failed: it told an error that is no interruption.
///
/// What was interrupted is tried again. After 18,446,744,073,709,551,615 tries at a line it has failed too.
#[derive(Drop)]
pub struct ScriptReader<R> {
    pub(crate) stream: R,
    /// All that the reader had at hand is taken: it may wait for more.
    is_drained: bool,
    failed: bool,
    /// Lines that were taken, the script's end too.
    lines: u32,
}

impl<R: BufRead> ScriptReader<R> {
    /// A reader that has not failed.
    pub fn new(stream: R) -> ScriptReader<R>
        ensures stream { result.stream ≡ stream }
        ensures unmarked { result.failed ≡ false }
        ensures lines { result.lines ≡ 0 }
    {
        ScriptReader {
            stream,
            is_drained: true,
            failed: false,
            lines: 0,
        }
    }

    /// Whether a read has failed.
    pub fn has_failed(&self) -> bool
        ensures { result ≡ self.now.failed }
    {
        self.failed
    }

    /// Takes the next line. No more is held than the longest line has with its newline. The writer is flushed
    /// before the reader may wait, so no answer is held back.
    pub(crate) fn take_line<W: Write>(
        &mut self,
        writer: &mut AnswerWriter<W>,
        line: &mut Vec<u8>,
    ) -> Result<TakenLine, ReplayFault>
        ensures line { result ≡ Ok TakenLine.Line → BeginsWithLine (R.remaining self.old.stream) line.new.items }
        ensures rest { result ≡ Ok TakenLine.Line
            → DropsThrough (R.remaining self.old.stream) (R.remaining self.new.stream) 10 }
        ensures held { length line.new.items ≤ max_script_line + 1 }
        ensures long { result ≡ Ok TakenLine.TooLong → BeginsTooLong (R.remaining self.old.stream) }
        ensures count { result ≡ Ok TakenLine.Line → self.new.lines ≡ min (self.old.lines + 1) u32.MAX }
        ensures written { Keeps (W.contents writer.old.stream) (W.contents writer.new.stream) }
        ensures unmarked { OnOk result (self.new.failed ≡ self.old.failed) }
        ensures answers_unmarked { OnOk result (writer.new.failed ≡ writer.old.failed) }
        ensures marked { IfErr result (λ f. f ≡ ReplayFault.Io → OneFailed self.new.failed writer.new.failed) }
        ensures fault { NamesNoLine result }
    {
        line.clear();
        for _ in 0..u64::MAX {
            if line.len() > MAX_SCRIPT_LINE {
                return Ok(TakenLine::TooLong);
            }
            let most = MAX_SCRIPT_LINE + 1 - line.len();
            if self.take_some(writer, most, line)? {
                self.lines = self.lines.saturating_add(1);
                return Ok(TakenLine::Line);
            }
        }
        // A reader that was interrupted so often has failed.
        self.failed = true;
        Err(ReplayFault::Io)
    }

    /// Moves what the reader has at hand to the line, up to a newline and at most so many bytes. Says
    /// whether the line is whole.
    fn take_some<W: Write>(
        &mut self,
        writer: &mut AnswerWriter<W>,
        most: usize,
        line: &mut Vec<u8>,
    ) -> Result<bool, ReplayFault>
        requires { 0 < most }
        ensures appends { StartsWith line.new.items line.old.items }
        ensures most { length line.new.items ≤ length line.old.items + most }
        ensures bytes { OnOk result (Consumes (R.remaining self.old.stream) (R.remaining self.new.stream)
            (appended_bytes line.old.items line.new.items)) }
        ensures stops { StopsAt (appended_bytes line.old.items line.new.items) 10 }
        ensures plain { result ≡ Ok false → All (λ x. x ≢ 10) (appended_bytes line.old.items line.new.items) }
        ensures whole { result ≡ Ok true
            → IsEmptyOrEndsWith (appended_bytes line.old.items line.new.items) 10 }
        ensures end { result ≡ Ok true → length (appended_bytes line.old.items line.new.items) ≡ 0
            → OnSome (R.remaining self.old.stream) (IsAtEnd (R.remaining self.new.stream)) }
        ensures count { self.new.lines ≡ self.old.lines }
        ensures written { Keeps (W.contents writer.old.stream) (W.contents writer.new.stream) }
        ensures unmarked { OnOk result (self.new.failed ≡ self.old.failed) }
        ensures answers_unmarked { OnOk result (writer.new.failed ≡ writer.old.failed) }
        ensures marked { IfErr result (λ f. f ≡ ReplayFault.Io → OneFailed self.new.failed writer.new.failed) }
        ensures fault { NamesNoLine result }
    {
        if self.is_drained && writer.flush().is_err() {
            return Err(ReplayFault::Io);
        }
        let available = match self.stream.fill_buf() {
            Ok(available) => available,
            Err(error) => return self.note(&error),
        };
        let end = len_through(&available[..most.min(available.len())]);
        if line.extend_from_slice(&available[..end]).is_err() {
            return Err(ReplayFault::Memory);
        }
        let is_whole = end == 0 || available[end - 1] == b'\n';
        self.is_drained = end == available.len();
        self.stream.consume(end);
        Ok(is_whole)
    }

    /// What an error of the reader comes to. It is remembered, unless the read was only interrupted.
    fn note(&mut self, error: &Error) -> Result<bool, ReplayFault>
        ensures stream { self.new.stream ≡ self.old.stream }
        ensures count { self.new.lines ≡ self.old.lines }
        ensures again { IfOk result (λ whole. whole ≡ false) }
        ensures interrupted { OnOk result (error_kind error.now ≡ ErrorKind.Interrupted) }
        ensures other { OnErr result (error_kind error.now ≢ ErrorKind.Interrupted) }
        ensures memory { IfErr result (λ f. f ≡ ReplayFault.Memory
            → error_kind error.now ≡ ErrorKind.OutOfMemory) }
        ensures io { IfErr result (λ f. f ≡ ReplayFault.Io → error_kind error.now ≢ ErrorKind.OutOfMemory) }
        ensures unmarked { OnOk result (self.new.failed ≡ self.old.failed) }
        ensures marked { OnErr result (self.new.failed ≡ true) }
        ensures fault { NamesNoLine result }
    {
        let told = unless_interrupted(error);
        if told.is_err() {
            self.failed = true;
        }
        told
    }
}

/// A read that was interrupted is tried again.
fn unless_interrupted(error: &Error) -> Result<bool, ReplayFault>
    ensures again { IfOk result (λ whole. whole ≡ false) }
    ensures interrupted { OnOk result (error_kind error.now ≡ ErrorKind.Interrupted) }
    ensures other { OnErr result (error_kind error.now ≢ ErrorKind.Interrupted) }
    ensures memory { IfErr result (λ f. f ≡ ReplayFault.Memory
        → error_kind error.now ≡ ErrorKind.OutOfMemory) }
    ensures io { IfErr result (λ f. f ≡ ReplayFault.Io → error_kind error.now ≢ ErrorKind.OutOfMemory) }
    ensures fault { NamesNoLine result }
{
    match error.kind() {
        ErrorKind::Interrupted => Ok(false),
        ErrorKind::OutOfMemory => Err(ReplayFault::Memory),
        _ => Err(ReplayFault::Io),
    }
}

/// The length up to and including the first newline, or the whole length.
fn len_through(bytes: &[u8]) -> usize
    ensures bound { result ≤ length bytes.now }
    ensures some { 0 < length bytes.now → 0 < result }
    ensures before { All (λ x. x ≢ 10) (take (result - 1) bytes.now) }
{
    match bytes.iter().position(|byte| *byte == b'\n') {
        Some(at) => at + 1,
        None => bytes.len(),
    }
}

/// A line without its newline.
pub(crate) fn without_newline(line: &[u8]) -> &[u8]
    ensures { result.now ≡ strip_last 10 line.now }
{
    if let [front @ .., b'\n'] = line {
        front
    } else {
        line
    }
}
