//! The pieces of a response's body.
//!
//! Each is made of the text of an answer, or of a text that was taken of a watch, and of nothing else: so what serves connections
//! sends no bytes of its own making.
ghost use Rattle.std.specs.Prelude.{◌≡◌, ◌++◌, length, IfOk};
ghost use Rattle.fair_turns.specs.Answers.{bytes_of};

use bytes::{Buf, Bytes};
use fair_turns::{MadeText, Share, TakenText, Text};
use gateway_text::memory_text;
use std::alloc::AllocError;
use std::marker::Model;

/// How many bytes of a text are handed to the connection at once, which copies them. So a long text is held here,
/// with its share of the tenant's budget, until the last piece of it is taken.
const PIECE: usize = 65_536;

/// A piece of a body, for the connection.
#[derive(Drop)]
pub struct Piece {
    bytes: Bytes,
}

impl Model for Piece {
    ghost use Rattle.std.specs.Prelude.{List, ℕ};

    ghost Value = { List ℕ };

    ghost view = { λ piece. piece.bytes };
}

impl Buf for Piece {
    ghost unread = { λ piece. piece };

    fn remaining(&self) -> usize {
        self.bytes.len()
    }

    fn chunk(&self) -> &[u8] {
        self.bytes.chunk()
    }

    fn advance(&mut self, cnt: usize) {
        self.bytes.advance(cnt)
    }
}

impl From<Piece> for Bytes {
    ghost from_gives = { λ piece bytes. bytes ≡ piece };

    fn from(piece: Piece) -> Bytes {
        let Piece { bytes } = piece;
        bytes
    }
}

/// What is left of the text of an answer, or of one that was taken of a watch.
#[derive(Drop)]
pub(crate) struct Unsent {
    text: Bytes,
    share: Option<Share>,
}

impl Unsent {
    /// The whole text of an answer.
    pub(crate) fn new(text: Text) -> Result<Unsent, AllocError>
        ensures { IfOk result (λ unsent. unsent.text ≡ bytes_of text) }
    {
        match text {
            Text::Made(text) => Unsent::made(text),
            Text::OutOfMemory => Ok(Unsent {
                text: Bytes::from_static(memory_text()),
                share: None,
            }),
        }
    }

    /// The whole text that was taken of a watch.
    pub(crate) fn taken(taken: TakenText) -> Result<Unsent, AllocError>
        ensures { IfOk result (λ unsent. unsent.text ≡ taken.text.bytes.items) }
    {
        Unsent::made(taken.into_text())
    }

    fn made(text: MadeText) -> Result<Unsent, AllocError>
        ensures { IfOk result (λ unsent. unsent.text ≡ text.bytes.items) }
    {
        let (bytes, share) = text.into_parts();
        let Ok(text) = Bytes::from_vec(bytes) else {
            return Err(AllocError);
        };
        Ok(Unsent { text, share })
    }

    /// How many bytes are left.
    pub(crate) fn len(&self) -> usize
        ensures { result ≡ length self.now.text }
    {
        self.text.len()
    }

    /// The next piece; the last one may be all.
    pub(crate) fn next_piece(&mut self) -> Result<Piece, AllocError>
        ensures { IfOk result (λ piece. piece ++ self.new.text ≡ self.old.text) }
    {
        let length = self.text.len().min(PIECE);
        let bytes = self.text.split_to(length)?;
        Ok(Piece { bytes })
    }
}
