//! What is answered to a line of a script.
ghost use Rattle.std.specs.Prelude.{◌≡◌, OnErr, OnOk, true};
ghost use Rattle.std.specs.Io.KnownBytes.{Appends};
ghost use Rattle.script_replay.specs.Answers.{answer_line, body_line, word_of};
ghost use Rattle.script_replay.specs.Fronts.{AppendsFront};

use crate::writer::AnswerWriter;
use host_front::LineAnswer;
use std::io::{self, Write};
use steps_core::OperatorFault;

fn word(fault: OperatorFault) -> &'static str
    ensures { result.now ≡ word_of fault }
{
    match fault {
        OperatorFault::Name => "name",
        OperatorFault::Limits => "limits",
        OperatorFault::Taken => "taken",
        OperatorFault::NoTenant => "tenant",
        OperatorFault::Short => "short",
        OperatorFault::Memory => "memory",
    }
}

/// Writes the answer line, or a front of it where the writer fails. It takes no memory.
///
/// The line is `ok`, or `no` and the fault's word, or the status in decimal, and a space and the body where there is
/// one. It ends with a newline, which is the body's own where that has one.
pub fn write_answer<W: Write>(writer: &mut AnswerWriter<W>, answer: &LineAnswer) -> io::Result<()>
    ensures whole { OnOk result (Appends (W.contents writer.old.stream) (W.contents writer.new.stream) (answer_line answer.now)) }
    ensures cut { OnErr result (AppendsFront (W.contents writer.old.stream) (W.contents writer.new.stream) (answer_line answer.now)) }
    ensures unmarked { OnOk result (writer.new.failed ≡ writer.old.failed) }
    ensures marked { OnErr result (writer.new.failed ≡ true) }
{
    match answer {
        LineAnswer::Done => writer.write_bytes(b"ok\n"),
        LineAnswer::No(fault) => {
            writer.write_bytes(b"no ")?;
            writer.write_bytes(word(*fault).as_bytes())?;
            writer.write_bytes(b"\n")
        }
        LineAnswer::Event(answer) => {
            let mut digits = itoa::Buffer::new();
            writer.write_bytes(digits.format(answer.status).as_bytes())?;
            write_body(writer, answer.body.bytes())
        }
    }
}

/// Writes a space and the body, where there is one, and a newline unless the body ends with one.
fn write_body<W: Write>(writer: &mut AnswerWriter<W>, body: &[u8]) -> io::Result<()>
    ensures whole { OnOk result (Appends (W.contents writer.old.stream) (W.contents writer.new.stream) (body_line body.now)) }
    ensures cut { OnErr result (AppendsFront (W.contents writer.old.stream) (W.contents writer.new.stream) (body_line body.now)) }
    ensures unmarked { OnOk result (writer.new.failed ≡ writer.old.failed) }
    ensures marked { OnErr result (writer.new.failed ≡ true) }
{
    if body.is_empty() {
        return writer.write_bytes(b"\n");
    }
    writer.write_bytes(b" ")?;
    writer.write_bytes(body)?;
    match body {
        [.., b'\n'] => Ok(()),
        _ => writer.write_bytes(b"\n"),
    }
}
