//! What an event is answered.
ghost use Rattle.std.specs.Prelude.{◌≡◌, IfOk, IsOk, true};
ghost use Rattle.etcd_model.specs.ReplyText.{memory_answer, text};
ghost use Rattle.host_front.specs.Answering.{has_fixed_text, Refuses};
ghost use Rattle.host_front.specs.Bodies.{body_bytes};
ghost use Rattle.tenant_machine.specs.Finding.{found_reply};

use etcd_types::{Mem, Refusal, Reply};
use gateway_text::{memory_text, write_in_place, write_reply};
use std::alloc::Global;
use std::marker::Model;
use tenant_machine::FoundAnswer;

/// A body's bytes.
#[derive(Drop)]
pub enum Body {
    /// Made for this answer.
    Made(Vec<u8>),
    /// Always the same.
    Fixed(&'static [u8]),
}

impl Body {
    /// The bytes, made or fixed.
    pub fn bytes(&self) -> &[u8]
        ensures { result.now ≡ body_bytes self.now }
    {
        match self {
            Body::Made(bytes) => bytes.as_slice(),
            Body::Fixed(bytes) => bytes,
        }
    }
}

/// A status of HTTP and a body. Contracts see the body as its bytes.
#[derive(Drop)]
pub struct Answer {
    pub status: u16,
    pub body: Body,
}

impl Model for Answer {
    ghost use Rattle.etcd_model.specs.ReplyText as texts;
    ghost use Rattle.host_front.specs.Bodies.{body_bytes};

    ghost Value = { texts.Answer };

    ghost view = { λ a. record { status = a.status; body = body_bytes a.body } };
}

impl Answer {
    /// The text of a reply. It fails only for want of memory, and takes none for a reply with a fixed text.
    pub(crate) fn to(alloc: Global, reply: &Reply) -> Mem<Answer>
        ensures told { IfOk result (λ answer. answer ≡ text reply.now) }
        ensures sure { has_fixed_text reply.now ≡ true → IsOk result }
    {
        match reply {
            Reply::Quiet => Ok(Answer::fixed(204, b"")),
            _ => {
                let (status, body) = write_reply(alloc, reply)?;
                Ok(Answer {
                    status,
                    body: Body::Made(body),
                })
            }
        }
    }

    /// The text of an answer whose rows lie in their cells. It fails only for want of memory.
    pub(crate) fn of_found(alloc: Global, found: &FoundAnswer<'_>) -> Mem<Answer>
        ensures { IfOk result (λ answer. answer ≡ text (found_reply found.now)) }
    {
        let (status, body) = write_in_place(alloc, found)?;
        Ok(Answer {
            status,
            body: Body::Made(body),
        })
    }

    /// A refusal, or want of memory for its text.
    pub(crate) fn refused(alloc: Global, refusal: Refusal) -> Answer
        ensures { Refuses refusal result }
    {
        match Answer::to(alloc, &Reply::Refused(refusal)) {
            Ok(answer) => answer,
            Err(_) => Answer::no_memory(),
        }
    }

    pub(crate) fn no_memory() -> Answer
        ensures { result ≡ memory_answer }
    {
        Answer::fixed(Refusal::Memory.status(), memory_text())
    }

    fn fixed(status: u16, body: &'static [u8]) -> Answer
        ensures { result ≡ record { status = status; body = body.now } }
    {
        Answer {
            status,
            body: Body::Fixed(body),
        }
    }
}
