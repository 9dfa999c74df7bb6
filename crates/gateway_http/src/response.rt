//! An answer as HTTP sends it.
ghost use Rattle.std.specs.Prelude.{◌≡◌, ◌++◌, [], IfOk, IfSome, OnOk, Some};
ghost use Rattle.futures.specs.Task.{IsArmed, Keeps};
ghost use Rattle.futures.specs.Poll.{IfReady, OnPending};
ghost use Rattle.futures.specs.Runs.{After, Within};
ghost use Rattle.http_header.specs.HeaderMap.{insert};
ghost use Rattle.fair_turns.specs.Answers.{bytes_of};
ghost use Rattle.http_body.specs.SizeHint.{exact};
ghost use Rattle.gateway_http.specs.Bodies.{Counts, GivesNext, bytes_left, frames_of, length_left, run_of, text_of, told_of, watch_of};
ghost use Rattle.gateway_http.specs.Responses.{Sends};

use crate::exchange::Standing;
use crate::giving_way::polls_for;
use crate::piece::{Piece, Unsent};
use fair_turns::{TakenText, Text, WatchTexts};
use futures::ready;
use futures::task::{Context, Poll};
use http::response::Parts;
use http_body::{Body, Frame, SizeHint};
use hyper::header::{self, HeaderMap, HeaderName, HeaderValue};
use hyper::{Response, StatusCode, Version};
use pending_calls::Told;
use std::alloc::{AllocError, Global};
use std::rt::Clock;
use std::sync::Wait;

/// For so many fields of a request room is kept, while the request is under way.
const MOST_FIELDS: usize = 24;

/// The body of a response: a text, and behind that of a watch the texts that follow.
pub struct ResponseBody<R: Wait + Clock + Drop> {
    /// The text whose pieces are handed over: at first that of the answer.
    unsent: Option<Unsent>,
    /// For how many polls the other connections of the loop come before its next piece.
    rests: usize,
    following: Option<WatchTexts<R>>,
    /// The request is under way until all was handed over.
    standing: Standing<R>,
}

impl<R: Wait + Clock + Drop> Drop for ResponseBody<R> {
    fn drop(self) {
        let ResponseBody {
            unsent: _,
            rests: _,
            following: _,
            standing: _,
        } = self;
    }
}

/// The response to what a request is told, with its kind of text; behind that of a connection too many the connection ends. A text
/// that can't be shared ends it too: its call stays made.
pub(crate) fn respond<R: Wait + Clock + Drop>(
    told: Told<R>,
    standing: Standing<R>,
    fields: HeaderMap,
) -> Result<Response<ResponseBody<R>>, hyper::Error>
    ensures { IfOk result (λ response. Sends response told.answer) }
{
    let answer = told.into_answer();
    // No answer has another status than one of HTTP.
    let Ok(status) = StatusCode::from_u16(answer.status()) else {
        return Err(hyper::Error::from(AllocError));
    };
    let (text, following) = answer.into_texts();
    let ends = matches!(standing, Standing::OneTooMany);
    let body = ResponseBody::of(text, following, standing)?;
    let mut headers = fields;
    headers.clear();
    let kind = HeaderValue::from_static("application/json");
    set(&mut headers, header::CONTENT_TYPE, kind)?;
    if ends {
        let close = HeaderValue::from_static("close");
        set(&mut headers, header::CONNECTION, close)?;
    }
    let head = Parts {
        status,
        version: Version::HTTP_11,
        headers,
    };
    Ok(Response::from_parts(head, body))
}

/// The room of a request's fields, which are let go. That of many fields is let go too: a request may wait for long.
pub(crate) fn room_for_fields(alloc: Global, fields: HeaderMap) -> HeaderMap {
    if fields.capacity() > MOST_FIELDS {
        return HeaderMap::new(alloc);
    }
    let mut fields = fields;
    fields.clear();
    fields
}

fn set(headers: &mut HeaderMap, name: HeaderName, value: HeaderValue) -> Result<(), AllocError>
    ensures { OnOk result (headers.new ≡ insert headers.old name value) }
{
    match headers.insert(name, value) {
        Ok(_) => Ok(()),
        Err(_) => Err(AllocError),
    }
}

impl<R: Wait + Clock + Drop> ResponseBody<R> {
    fn of(
        first: Text,
        following: Option<WatchTexts<R>>,
        standing: Standing<R>,
    ) -> Result<ResponseBody<R>, AllocError>
        ensures text { IfOk result (λ body. text_of body.unsent ≡ Some (bytes_of first)) }
        ensures following { IfOk result (λ body. body.following ≡ following) }
    {
        Ok(ResponseBody {
            unsent: Some(Unsent::new(first)?),
            rests: 0,
            following,
            standing,
        })
    }

    /// The next piece: of the answer's text, and behind it of the texts of a watch, each once.
    fn poll_piece(&mut self, cx: &mut Context<'_>) -> Poll<Option<Result<Piece, AllocError>>>
        ensures given { IfReady result (λ told. GivesNext self.old told self.new) }
        ensures counted { IfReady result (λ told. Counts self.old told self.new) }
        ensures text { OnPending result (text_of self.new.unsent ≡ text_of self.old.unsent) }
        ensures waits { OnPending result (told_of self.new.following ≡ told_of self.old.following) }
        ensures watch { watch_of self.new.following ≡ watch_of self.old.following }
        ensures registered { OnPending result (IsArmed cx.new) }
        ensures kept { Keeps cx.old cx.new }
    {
        if self.rests > 0 {
            self.rests -= 1;
            return cx.yield_now();
        }
        if let Some(text) = self.unsent.take() {
            return Poll::Ready(Some(self.piece_of(text)));
        }
        let Some(texts) = &mut self.following else {
            return Poll::Ready(None);
        };
        match ready!(texts.poll_text(cx)) {
            Some(taken) => Poll::Ready(Some(self.watched(taken))),
            None => Poll::Ready(None),
        }
    }

    /// The next piece of a text, of which the rest is kept.
    fn piece_of(&mut self, text: Unsent) -> Result<Piece, AllocError>
        ensures piece { IfOk result (λ piece. piece ++ bytes_left (text_of self.new.unsent) ≡ text.text) }
        ensures following { self.new.following ≡ self.old.following }
    {
        let mut text = text;
        let whole = text.len();
        let piece = text.next_piece();
        let left = text.len();
        self.rests = if left > 0 {
            polls_for(whole.saturating_sub(left))
        } else {
            0
        };
        self.unsent = if left > 0 { Some(text) } else { None };
        piece
    }

    /// The first piece of a text of a watch. One that can't be shared ends the connection: what was taken of a watch is not
    /// given again.
    fn watched(&mut self, taken: TakenText) -> Result<Piece, AllocError>
        ensures piece { IfOk result (λ piece. piece ++ bytes_left (text_of self.new.unsent) ≡ taken.text.bytes.items) }
        ensures following { self.new.following ≡ self.old.following }
    {
        self.piece_of(Unsent::taken(taken)?)
    }
}

impl<R: Wait + Clock + Drop> Body for ResponseBody<R> {
    type Data = Piece;

    type Error = AllocError;

    ghost yields = { run_of };

    fn poll_frame(&mut self, cx: &mut Context<'_>) -> Poll<Option<Result<Frame<Piece>, AllocError>>>
        ensures value { IfReady result (frames_of self.old []) }
        ensures rest { IfReady result (λ told. IfSome told (λ item. After (frames_of self.old) item (frames_of self.new))) }
        ensures counted { IfReady result (λ told. Counts self.old told self.new) }
        ensures same { OnPending result (Within (frames_of self.old) (frames_of self.new)) }
        ensures waits { OnPending result (told_of self.new.following ≡ told_of self.old.following) }
        ensures registered { OnPending result (IsArmed cx.new) }
        ensures kept { Keeps cx.old cx.new }
    {
        match ready!(self.poll_piece(cx)) {
            Some(Ok(piece)) => Poll::Ready(Some(Ok(Frame::data(piece)))),
            Some(Err(e)) => Poll::Ready(Some(Err(e))),
            None => Poll::Ready(None),
        }
    }

    fn is_end_stream(&self) -> bool {
        self.unsent.is_none() && self.following.is_none()
    }

    fn size_hint(&self) -> SizeHint
        ensures { exact result ≡ length_left (text_of self.now.unsent) (watch_of self.now.following) }
    {
        match (&self.unsent, &self.following) {
            (_, Some(_)) => SizeHint::new(),
            (Some(text), None) => SizeHint::with_exact(text.len() as u64),
            (None, None) => SizeHint::with_exact(0),
        }
    }
}
