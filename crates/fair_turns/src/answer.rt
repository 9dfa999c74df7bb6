//! What a call is answered.
ghost use Rattle.std.specs.Prelude.{◌≡◌, Some, None};
ghost use Rattle.etcd_types.specs.declared.refusal.Refusal.TheVariants as refusal;
ghost use Rattle.fair_turns.specs.Answers.{Refuses, Shows};

use crate::budget::MadeText;
use crate::watch_texts::WatchTexts;
use etcd_types::{Refusal, Reply};
use gateway_text::{memory_text, write_reply};
use std::alloc::Global;
use std::sync::Wait;

/// A status and a text, and behind that of a watch which was created its texts as they come.
pub struct Answer<R: Wait + Drop> {
    status: u16,
    /// Why the call was refused, if it was.
    refusal: Option<Refusal>,
    text: Text,
    following: Option<WatchTexts<R>>,
}

impl<R: Wait + Drop> Drop for Answer<R> {
    fn drop(self) {
        let Answer {
            status: _,
            refusal: _,
            text: _,
            following: _,
        } = self;
    }
}

/// The text of an answer.
#[derive(Drop)]
pub enum Text {
    /// It was made for this answer.
    Made(MadeText),
    /// `memory_text`, which takes no memory.
    OutOfMemory,
}

impl Text {
    /// How many bytes it has.
    pub fn len(&self) -> usize {
        match self {
            Text::Made(text) => text.len(),
            Text::OutOfMemory => memory_text().len(),
        }
    }
}

impl<R: Wait + Drop> Answer<R> {
    /// A status and a text of its own, of a refusal or of what was asked for.
    pub fn text(status: u16, refusal: Option<Refusal>, text: MadeText) -> Answer<R>
        ensures shows { Shows result status text.bytes.items refusal }
        ensures last { result.following ≡ None }
    {
        Answer {
            status,
            refusal,
            text: Text::Made(text),
            following: None,
        }
    }

    /// What the create of a watch was answered, and its texts as they come.
    pub fn watch(
        status: u16,
        refusal: Option<Refusal>,
        created: MadeText,
        texts: WatchTexts<R>,
    ) -> Answer<R>
        ensures shows { Shows result status created.bytes.items refusal }
        ensures following { result.following ≡ Some texts }
    {
        Answer {
            status,
            refusal,
            text: Text::Made(created),
            following: Some(texts),
        }
    }

    /// The answer of a refusal, or out of memory where there is none for its text.
    pub fn refused(alloc: Global, refusal: Refusal) -> Answer<R>
        ensures { Refuses refusal result }
    {
        match write_reply(alloc, &Reply::Refused(refusal)) {
            Ok((status, text)) => Answer::text(status, Some(refusal), MadeText::short(text)),
            Err(_) => Answer::no_memory(),
        }
    }

    /// Out of memory: an answer that takes none.
    pub fn no_memory() -> Answer<R>
        ensures { Refuses refusal.Memory result }
    {
        Answer {
            status: Refusal::Memory.status(),
            refusal: Some(Refusal::Memory),
            text: Text::OutOfMemory,
            following: None,
        }
    }

    pub fn status(&self) -> u16
        ensures { result ≡ self.now.status }
    {
        self.status
    }

    /// Why the call was refused, if it was.
    pub fn refusal(&self) -> Option<Refusal>
        ensures { result ≡ self.now.refusal }
    {
        self.refusal
    }

    /// Its text, and those that follow it where it is of a watch.
    pub fn into_texts(self) -> (Text, Option<WatchTexts<R>>)
        ensures text { result.0 ≡ self.text }
        ensures following { result.1 ≡ self.following }
    {
        let Answer {
            status: _,
            refusal: _,
            text,
            following,
        } = self;
        (text, following)
    }

    /// How many bytes its text has; a watch has no end.
    pub fn len(&self) -> usize {
        if self.following.is_some() {
            return 0;
        }
        self.text.len()
    }
}
