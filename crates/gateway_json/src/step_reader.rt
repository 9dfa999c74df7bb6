//! Reading one body after another.
ghost use Rattle.std.specs.Prelude.{◌≡◌, ◌<◌, ◌≤◌, length, Err, IfSome, IsSome};
ghost use Rattle.etcd_model.specs.Calls.{read_body, read_members, read_step};
ghost use Rattle.etcd_model.specs.Members.{IsAnswer, and_then};
ghost use Rattle.gateway_json.specs.Unread.{oversize};

use crate::call::{check_fields, read_step};
use crate::pair::{Pair, PairCall};
use etcd_types::{Call, Mem, Refusal, Step};
use json::{Reader, Scratch};
use simdutf8::compat;
use std::alloc::Global;

/// The longest body, in bytes, that is read by what is kept: so much memory stays taken.
const LONGEST: usize = 4_096;

/// Reads bodies to steps, as `read_step` does. What reading a short one takes is kept for the next: it is cleared once, which
/// takes longer than to read one.
pub struct StepReader {
    scratch: Box<Scratch>,
}

impl Drop for StepReader {
    fn drop(self) {
        let StepReader { scratch: _ } = self;
    }
}

impl StepReader {
    /// One that has read nothing.
    pub fn new(alloc: Global) -> Mem<StepReader> {
        Ok(StepReader {
            scratch: Box::new(alloc, Scratch::new(alloc))?,
        })
    }

    /// The step that a call's body asks for, or why it is refused, as `read_step` tells them.
    pub fn read(&mut self, alloc: Global, call: Call, body: &[u8]) -> Result<Step, Refusal>
        ensures step { IsAnswer result (read_step call body.now) }
        ensures exact { length body.now ≡ 0 → result ≡ read_step call body.now }
        ensures unread { IfSome (oversize body.now) (λ refusal. result ≡ Err refusal) }
    {
        match self.read_pair(alloc, call, body) {
            Some(read) => check_fields(read?),
            None => read_step(alloc, call, body),
        }
    }

    /// The step of a short body that has a key and at most one text beside it; none of any other.
    fn read_pair(&mut self, alloc: Global, call: Call, body: &[u8]) -> Option<Result<Step, Refusal>>
        ensures read { IfSome result (λ read. IsAnswer read (and_then (read_body body.now) (read_members call))) }
        ensures some { IsSome result → 0 < length body.now }
        ensures short { IsSome result → length body.now ≤ 4096 }
    {
        let pair_call = PairCall::of(call)?;
        if body.is_empty() || body.len() > LONGEST {
            return None;
        }
        let text = compat::from_utf8(body).ok()?;
        let Ok(mut tokens) = Reader::new(text, &mut *self.scratch) else {
            return Some(Err(Refusal::Memory));
        };
        let pair = Pair::read(&mut tokens, pair_call)?;
        Some(pair.step(alloc, pair_call))
    }
}
