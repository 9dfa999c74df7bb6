//! A writer that remembers whether it failed.
ghost use Rattle.std.specs.Prelude.{◌≡◌, ◌≢◌, ◌<◌, length, true, false, IfErr, IfOk, IsErr, OnErr, OnOk};
ghost use Rattle.std.specs.Io.{WritesAtMost};
ghost use Rattle.std.specs.Io.KnownBytes.{Appends, Keeps, WriteAppends};
ghost use Rattle.std.specs.IoError.{error_kind};
ghost use Rattle.script_replay.specs.Fronts.{AppendsFront};

use std::io::{self, Error, ErrorKind, Write};

/// A writer that remembers whether it failed: it took none of some bytes, or told an error that is no interruption.
///
/// What was interrupted is tried again. After 18,446,744,073,709,551,615 tries it has failed too.
#[derive(Drop)]
pub struct AnswerWriter<W> {
    pub(crate) stream: W,
    failed: bool,
}

impl<W: Write> AnswerWriter<W> {
    /// A writer that has not failed.
    pub fn new(stream: W) -> AnswerWriter<W>
        ensures stream { result.stream ≡ stream }
        ensures unmarked { result.failed ≡ false }
    {
        AnswerWriter {
            stream,
            failed: false,
        }
    }

    /// Whether a write or a flush has failed.
    pub fn has_failed(&self) -> bool
        ensures { result ≡ self.now.failed }
    {
        self.failed
    }

    /// Has the writer hand on what it holds back.
    pub fn flush(&mut self) -> io::Result<()>
        ensures written { Keeps (W.contents self.old.stream) (W.contents self.new.stream) }
        ensures unmarked { OnOk result (self.new.failed ≡ self.old.failed) }
        ensures marked { OnErr result (self.new.failed ≡ true) }
    {
        for _ in 0..u64::MAX {
            match self.flush_once() {
                Err(error) if error.kind() == ErrorKind::Interrupted => {}
                told => return told,
            }
        }
        self.give_up()
    }

    /// One flush.
    fn flush_once(&mut self) -> io::Result<()>
        ensures written { Keeps (W.contents self.old.stream) (W.contents self.new.stream) }
        ensures unmarked { OnOk result (self.new.failed ≡ self.old.failed) }
        ensures failed { IfErr result (λ e. error_kind e ≢ ErrorKind.Interrupted → self.new.failed ≡ true) }
        ensures interrupted { IfErr result
            (λ e. error_kind e ≡ ErrorKind.Interrupted → self.new.failed ≡ self.old.failed) }
    {
        match self.stream.flush() {
            Ok(()) => Ok(()),
            Err(error) => Err(self.note(error)),
        }
    }

    /// Writes the bytes, or a front of them where the writer fails.
    ///
    /// The library's `write_all` does the same, and does not say what was written where it fails.
    pub(crate) fn write_bytes(&mut self, bytes: &[u8]) -> io::Result<()>
        ensures whole { OnOk result
            (Appends (W.contents self.old.stream) (W.contents self.new.stream) bytes.now) }
        ensures cut { OnErr result
            (AppendsFront (W.contents self.old.stream) (W.contents self.new.stream) bytes.now) }
        ensures unmarked { OnOk result (self.new.failed ≡ self.old.failed) }
        ensures marked { OnErr result (self.new.failed ≡ true) }
    {
        let mut rest = bytes;
        for _ in 0..u64::MAX {
            if rest.is_empty() {
                return Ok(());
            }
            match self.write_once(rest) {
                Ok(taken) => rest = &rest[taken..],
                Err(error) if error.kind() == ErrorKind::Interrupted => {}
                Err(error) => return Err(error),
            }
        }
        self.give_up()
    }

    /// One write. A writer that takes none of the bytes has failed.
    fn write_once(&mut self, bytes: &[u8]) -> io::Result<usize>
        requires { 0 < length bytes.now }
        ensures bound { WritesAtMost result bytes.now }
        ensures some { IfOk result (λ n. 0 < n) }
        ensures bytes { WriteAppends (W.contents self.old.stream) (W.contents self.new.stream) result
            bytes.now }
        ensures unmarked { OnOk result (self.new.failed ≡ self.old.failed) }
        ensures failed { IfErr result (λ e. error_kind e ≢ ErrorKind.Interrupted → self.new.failed ≡ true) }
        ensures interrupted { IfErr result
            (λ e. error_kind e ≡ ErrorKind.Interrupted → self.new.failed ≡ self.old.failed) }
    {
        match self.stream.write(bytes) {
            Ok(0) => Err(self.note(Error::from(ErrorKind::WriteZero))),
            Ok(taken) => Ok(taken),
            Err(error) => Err(self.note(error)),
        }
    }

    /// Remembers what an error says: it is a failure, unless it is an interruption.
    fn note(&mut self, error: Error) -> Error
        ensures same { result ≡ error }
        ensures stream { self.new.stream ≡ self.old.stream }
        ensures failed { error_kind error ≢ ErrorKind.Interrupted → self.new.failed ≡ true }
        ensures interrupted { error_kind error ≡ ErrorKind.Interrupted → self.new.failed ≡ self.old.failed }
    {
        if error.kind() != ErrorKind::Interrupted {
            self.failed = true;
        }
        error
    }

    /// A writer that was interrupted so often has failed.
    fn give_up(&mut self) -> io::Result<()>
        ensures fails { IsErr result }
        ensures stream { self.new.stream ≡ self.old.stream }
        ensures marked { self.new.failed ≡ true }
    {
        self.failed = true;
        Err(Error::from(ErrorKind::Other))
    }
}
