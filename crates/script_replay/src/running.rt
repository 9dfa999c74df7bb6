//! Answers a script's lines in turn.
ghost use Rattle.std.specs.Prelude.{◌≡◌, IfErr, None};
ghost use Rattle.script_replay.specs.Failing.{MarksNone, TellsWhy};
ghost use Rattle.script_replay.specs.Written.{Replays};

use crate::answer::write_answer;
use crate::fault::ReplayFault;
use crate::lines::{ScriptReader, TakenLine, without_newline};
use crate::replay::Replay;
use crate::script::read_line;
use crate::writer::AnswerWriter;
use std::alloc::Global;
use std::io::{BufRead, Write};

/// Answers the lines of a script in turn, and writes one answer line for each. One line is held at a
/// time.
///
/// The writer is flushed before the reader may wait for more of the script. After an early end that is left
/// to the caller. Where the reader or the writer failed, what was written is a front of the answers.
///
/// It ends early at the first line that can't be read, at a fault of the reader or the writer, after
/// 4,294,967,295 lines, and where a line or the pool can't be held. Input or output is told only if the reader or the
/// writer has failed by then, or after so many lines.
pub fn run<R: BufRead, W: Write>(
    alloc: Global,
    reader: &mut ScriptReader<R>,
    writer: &mut AnswerWriter<W>,
) -> Result<(), ReplayFault>
    ensures answers { Replays (R.remaining reader.old.stream) (W.contents writer.old.stream)
        (W.contents writer.new.stream) result }
    ensures failed { IfErr result (λ fault. fault ≡ ReplayFault.Io
        → TellsWhy (R.remaining reader.old.stream) reader.new.failed writer.new.failed reader.new.lines) }
    ensures reader { MarksNone reader.old.failed reader.new.failed result }
    ensures writer { MarksNone writer.old.failed writer.new.failed result }
{
    let mut replay = Replay::new();
    let mut text = Vec::new(alloc);
    run_lines(alloc, reader, writer, &mut replay, &mut text)
}

/// The same with a replay that has no host yet, and with the memory for a line.
fn run_lines<R: BufRead, W: Write>(
    alloc: Global,
    reader: &mut ScriptReader<R>,
    writer: &mut AnswerWriter<W>,
    replay: &mut Replay,
    text: &mut Vec<u8>,
) -> Result<(), ReplayFault>
    requires { replay.old.front ≡ None }
    ensures answers { Replays (R.remaining reader.old.stream) (W.contents writer.old.stream)
        (W.contents writer.new.stream) result }
    ensures failed { IfErr result (λ fault. fault ≡ ReplayFault.Io
        → TellsWhy (R.remaining reader.old.stream) reader.new.failed writer.new.failed reader.new.lines) }
    ensures reader { MarksNone reader.old.failed reader.new.failed result }
    ensures writer { MarksNone writer.old.failed writer.new.failed result }
{
    for n in 0..u32::MAX {
        if let TakenLine::TooLong = reader.take_line(writer, text)? {
            return Err(ReplayFault::Line(n + 1));
        }
        if text.is_empty() {
            return Ok(());
        }
        let Some(asked) = read_line(without_newline(text), n == 0) else {
            return Err(ReplayFault::Line(n + 1));
        };
        let Ok(answer) = replay.answer(alloc, &asked) else {
            return Err(ReplayFault::Memory);
        };
        let Ok(()) = write_answer(writer, &answer) else {
            return Err(ReplayFault::Io);
        };
    }
    Err(ReplayFault::Io)
}
