//! What a request is told, and that it is told once.
//!
//! Each request has one `Unanswered`, made where it comes in, which can't be copied. The answer of the call that was made for it
//! uses it up, or a refusal; and of nothing else comes what the request is told. So a request is answered once, and one that was
//! handed in is not refused beside.
ghost use Rattle.std.specs.Prelude.{◌≡◌, IfSome};
ghost use Rattle.fair_turns.specs.Answers.{Refuses};
ghost use Rattle.pending_calls.specs.Requests.{AsksTheSame, IsAnswerOf};

use crate::request::{Request, RequestBody, Route};
use etcd_types::Refusal;
use fair_turns::Answer;
use std::alloc::Global;
use std::sync::{Arc, Wait};

/// A request that was not answered yet.
#[derive(Drop)]
pub struct Unanswered {
    /// It is made here alone.
    sealed: (),
}

impl Unanswered {
    /// That of a request which comes in.
    pub fn new() -> Unanswered {
        Unanswered { sealed: () }
    }

    /// The request is refused, and was not handed in.
    pub fn refused<R: Wait + Drop>(self, alloc: Global, refusal: Refusal) -> Told<R>
        ensures { Refuses refusal result.answer }
    {
        Told {
            answer: refusal_of(alloc, refusal),
        }
    }
}

/// A request that was read and is not answered yet.
#[derive(Drop)]
pub struct OpenRequest {
    request: Request,
    unanswered: Unanswered,
}

impl OpenRequest {
    /// A request whose body was read.
    pub fn new(unanswered: Unanswered, route: Route, body: RequestBody) -> OpenRequest
        ensures { result.request ≡ record { route = route; body = body } }
    {
        OpenRequest {
            request: Request { route, body },
            unanswered,
        }
    }

    /// The request itself.
    pub fn request(&self) -> &Request
        ensures { result.now ≡ self.now.request }
    {
        &self.request
    }

    /// What it is told at once.
    pub fn told<R: Wait + Drop>(self, answer: Answer<R>) -> Told<R>
        requires { ∥ IsAnswerOf self.request answer ∥₁ }
        ensures { result.answer ≡ answer }
    {
        let OpenRequest {
            request: _,
            unanswered: _,
        } = self;
        Told { answer }
    }

    /// The request, and that it is not answered.
    pub fn into_parts(self) -> (Request, Unanswered)
        ensures { result.0 ≡ self.request }
    {
        let OpenRequest {
            request,
            unanswered,
        } = self;
        (request, unanswered)
    }
}

/// The answer of a refusal; want of memory takes none.
pub(crate) fn refusal_of<R: Wait + Drop>(alloc: Global, refusal: Refusal) -> Answer<R>
    ensures { Refuses refusal result }
{
    match refusal {
        Refusal::Memory => Answer::no_memory(),
        refusal => Answer::refused(alloc, refusal),
    }
}

/// What a request is told, for its response.
pub struct Told<R: Wait + Drop> {
    answer: Answer<R>,
}

impl<R: Wait + Drop> Drop for Told<R> {
    fn drop(self) {
        let Told { answer: _ } = self;
    }
}

impl<R: Wait + Drop> Told<R> {
    /// The answer, for who counts it.
    pub fn answer(&self) -> &Answer<R>
        ensures { result.now ≡ self.now.answer }
    {
        &self.answer
    }

    /// The answer, for who sends it.
    pub fn into_answer(self) -> Answer<R>
        ensures { result ≡ self.answer }
    {
        let Told { answer } = self;
        answer
    }
}

/// The answer of a request that was handed in, with the request.
#[derive(Drop)]
pub(crate) struct OwnAnswer<R: Wait + Drop> {
    request: Arc<Request>,
    answer: Answer<R>,
    ghost is: { ∥ IsAnswerOf request.value answer ∥₁ },
}

impl<R: Wait + Drop> OwnAnswer<R> {
    /// A request is answered.
    pub(crate) fn new(
        _unanswered: Unanswered,
        request: Arc<Request>,
        answer: Answer<R>,
    ) -> OwnAnswer<R>
        requires { ∥ IsAnswerOf request.value answer ∥₁ }
        ensures request { result.request ≡ request }
        ensures answer { result.answer ≡ answer }
    {
        OwnAnswer { request, answer }
    }

    pub(crate) fn request(&self) -> &Request
        ensures { result.now ≡ self.now.request.value }
    {
        &*self.request
    }

    pub(crate) fn answer(&self) -> &Answer<R>
        ensures { result.now ≡ self.now.answer }
    {
        &self.answer
    }

    /// What this request is told, if the answer is its own.
    #[tactic(auto, using(crate::proofs::RequestLemmas::of_the_same))]
    pub(crate) fn of(self, asked: &Request) -> Option<Told<R>>
        ensures answers { IfSome result (λ told. ∥ IsAnswerOf asked.now told.answer ∥₁) }
        ensures answer { IfSome result (λ told. told.answer ≡ self.answer) }
        ensures same { IfSome result (λ _. AsksTheSame self.request.value asked.now) }
    {
        let OwnAnswer { request, answer } = self;
        if request.is_same(asked) {
            Some(Told { answer })
        } else {
            None
        }
    }
}
