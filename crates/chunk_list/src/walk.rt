//! Items one after another.
ghost use Rattle.std.specs.Prelude.{◌≡◌, ◌++◌, [], length, nat_eq, take};
ghost use Rattle.chunk_list.specs.Chunks.{chunk_items};
ghost use Rattle.chunk_list.specs.Shelves.{HasLeft, chunks_in};

use crate::span::Span;
use std::marker::Model;

/// Some of a list's items in order. Contracts see it as the list of those that are left.
#[derive(Drop)]
pub struct Walk<'a, T> {
    /// All places of the list's chunks.
    places: &'a [T],
    /// The items that are left of the chunk at hand.
    at_hand: &'a [T],
    /// The chunks after it.
    spans: &'a [Span],
    left: usize,
}

impl<'a, T: Copy> Walk<'a, T> {
    /// So many items: those at hand, and then those of chunks.
    pub(crate) fn over(
        places: &'a [T],
        at_hand: &'a [T],
        spans: &'a [Span],
        left: usize,
    ) -> Walk<'a, T>
        requires { HasLeft places.now at_hand.now spans.now left }
        ensures { result ≡ take left (at_hand.now ++ chunk_items (chunks_in places.now spans.now)) }
    {
        Walk {
            places,
            at_hand,
            spans,
            left,
        }
    }
}

impl<'a, T> Walk<'a, T> {
    /// No item.
    pub fn none() -> Walk<'a, T>
        ensures { result ≡ [] }
    {
        Walk {
            places: &[],
            at_hand: &[],
            spans: &[],
            left: 0,
        }
    }

    /// The first so many of the items that are left, or all of them if there are fewer. This walk stays where it is.
    pub fn first(&self, count: usize) -> Walk<'a, T>
        ensures { result ≡ take count self.now }
    {
        Walk {
            places: self.places,
            at_hand: self.at_hand,
            spans: self.spans,
            left: self.left.min(count),
        }
    }

    /// All items that are left, to go over while this walk stays where it is.
    pub fn again(&self) -> Walk<'a, T>
        ensures { result ≡ self.now }
    {
        self.first(self.left)
    }

    /// How many items are left.
    pub fn len(&self) -> usize
        ensures { result ≡ length self.now }
    {
        self.left
    }

    /// Whether no item is left.
    pub fn is_empty(&self) -> bool
        ensures { result ≡ nat_eq (length self.now) 0 }
    {
        self.len() == 0
    }
}

impl<'a, T> Model for Walk<'a, T> {
    ghost use Rattle.std.specs.Prelude.{◌++◌, List, take};
    ghost use Rattle.chunk_list.specs.Chunks.{chunk_items};
    ghost use Rattle.chunk_list.specs.Shelves.{HasLeft, chunks_in};

    ghost Value = { List T };

    ghost view = { λ w. take w.left (w.at_hand.now ++ chunk_items (chunks_in w.places.now w.spans.now)) };

    ghost invariant = { λ w. HasLeft w.places.now w.at_hand.now w.spans.now w.left };
}

impl<'a, T: Copy> Iterator for Walk<'a, T> {
    ghost use Rattle.std.specs.Iterator.{YieldsFirst, item_count};

    type Item = T;

    ghost next_gives = { YieldsFirst (λ rest. rest) };

    ghost remaining = { item_count (λ rest. rest) };

    fn next(&mut self) -> Option<T> {
        if self.left == 0 {
            return None;
        }
        if self.at_hand.is_empty() {
            let span = self.spans[0];
            self.at_hand = &self.places[span.first..span.first + span.len];
            self.spans = &self.spans[1..];
        }
        let item = self.at_hand[0];
        self.at_hand = &self.at_hand[1..];
        self.left -= 1;
        Some(item)
    }
}
