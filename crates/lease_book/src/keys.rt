//! The keys of a lease, one after another.
ghost use Rattle.std.specs.Prelude.{◌≡◌, length, nat_eq};

use crate::attachments::Attachment;
use chunk_list::Walk;
use etcd_types::CellNo;
use std::marker::Model;

/// The cells of the newest records of a lease's keys, by ascending key. Contracts see it as the list of those
/// that are left.
#[derive(Drop)]
pub struct Keys<'a> {
    pub(crate) attachments: Walk<'a, Attachment>,
}

impl<'a> Keys<'a> {
    /// Whether no key is left.
    pub fn is_empty(&self) -> bool
        ensures { result ≡ nat_eq (length self.now) 0 }
    {
        self.attachments.is_empty()
    }
}

impl<'a> Model for Keys<'a> {
    ghost use Rattle.std.specs.Prelude.{List, ℕ, map};

    ghost Value = { List ℕ };

    ghost view = { λ k. map (λ a. a.head) k.attachments };
}

impl<'a> Iterator for Keys<'a> {
    ghost use Rattle.std.specs.Iterator.{YieldsFirst, item_count};

    type Item = CellNo;

    ghost next_gives = { YieldsFirst (λ rest. rest) };

    ghost remaining = { item_count (λ rest. rest) };

    fn next(&mut self) -> Option<CellNo> {
        let attachment = self.attachments.next()?;
        Some(attachment.head)
    }
}
