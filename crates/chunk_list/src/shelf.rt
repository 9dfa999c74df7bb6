//! The chunks of a list, all in one allocation.
ghost use Rattle.std.specs.Prelude.{◌≡◌, ◌+◌, ◌-◌, ◌<◌, ◌≤◌, ◌++◌, ◌∷◌, [], length, take, drop, slice_index_or};
ghost use Rattle.std.specs.Prelude.{slice_set, max, IfOk, OnOk, OnErr, vec_capacity, ◌*◌, ◌^◌};
ghost use Rattle.std.specs.List.{insert, remove};
ghost use Rattle.chunk_list.specs.Chunks.{IsChanged, IsDense, IsLast, chunk_at, chunk_items, size_of_two};
ghost use Rattle.chunk_list.specs.Shelves.{TakesBay};

use crate::place::Place;
use crate::span::{MOST, Span};
use crate::stretch::{copy_items, fill, put_before};
use crate::walk::Walk;
use std::alloc::{AllocError, Global};
use std::marker::Model;

/// Chunks in order, of at most `MOST` items each. The memory for all of them is taken at once, and a
/// part of it is not touched before a chunk needs it.
#[derive(Drop)]
pub(crate) struct Shelf<T> {
    /// The bays that were made so far, one after another. Behind a chunk's items stand others.
    places: Vec<T>,
    /// The chunks in order, each in a bay of its own.
    spans: Vec<Span>,
    /// The first places of the bays that chunks gave back.
    free: Vec<usize>,
    /// How many chunks there may be.
    most: usize,
}

impl<T> Model for Shelf<T> {
    ghost use Rattle.std.specs.Prelude.{vec_capacity};
    ghost use Rattle.chunk_list.specs.Shelves.{Shelved, shelved_code, chunks_in, IsShelf};

    ghost Value = { Shelved T };

    ghost coded = { shelved_code T.code };

    ghost view = { λ a. record { chunks = chunks_in a.places.items a.spans.items; most = a.most } };

    ghost invariant = { λ a.
        IsShelf a.places.items a.spans.items a.free.items a.most
        (vec_capacity a.places) (vec_capacity a.spans) (vec_capacity a.free) };
}

impl<T: Copy> Shelf<T> {
    /// One chunk with no item, and room for so many chunks.
    pub(crate) fn new(alloc: Global, most: usize) -> Result<Shelf<T>, AllocError>
        requires { 0 < most }
        ensures chunks { IfOk result (λ shelf. shelf.chunks ≡ [] ∷ []) }
        ensures most { IfOk result (λ shelf. shelf.most ≡ most) }
    {
        let room = places_for(most)?;
        let places = Vec::with_capacity(alloc, room)?;
        let mut spans = Vec::with_capacity(alloc, most)?;
        let free = Vec::with_capacity(alloc, most)?;
        spans.push_reserved(Span { first: 0, len: 0 });
        Ok(Shelf {
            places,
            spans,
            free,
            most,
        })
    }

    /// Makes room for so many chunks. Where it finds no memory, nothing changes, and nothing is kept of what
    /// was taken by then.
    pub(crate) fn grow(&mut self, most: usize) -> Result<(), AllocError>
        ensures chunks { self.new.chunks ≡ self.old.chunks }
        ensures ok { OnOk result (self.new.most ≡ max self.old.most most) }
        ensures err { OnErr result (self.new.most ≡ self.old.most) }
    {
        if most > self.most {
            let room = places_for(most)?;
            // Spans and bays are few: they move, so that only the last step changes the memory that there is.
            let alloc = *self.spans.allocator();
            let spans = moved(alloc, &self.spans, most)?;
            let free = moved(alloc, &self.free, most)?;
            self.places
                .reserve_exact(room.saturating_sub(self.places.len()))?;
            self.spans = spans;
            self.free = free;
            self.most = most;
        }
        Ok(())
    }

    /// How many places there is memory for.
    pub(crate) fn places(&self) -> usize
        ensures { result ≡ self.now.most * MOST }
    {
        self.places.capacity()
    }

    /// The place of the first item, or where it would go.
    pub(crate) fn start(&self) -> Place
        ensures { result ≡ record { chunk = 0; offset = 0 } }
    {
        Place {
            chunk: 0,
            offset: 0,
        }
    }

    /// How many chunks there are.
    pub(crate) fn count(&self) -> usize
        ensures { result ≡ length self.now.chunks }
    {
        self.spans.len()
    }

    /// How many items a chunk has.
    pub(crate) fn len(&self, chunk: usize) -> usize
        requires { chunk < length self.now.chunks }
        ensures len { result ≡ length (chunk_at self.now.chunks chunk) }
        ensures short { result ≤ MOST }
        // So the next chunk has a number.
        ensures fits { chunk + 1 < 2 ^ 64 }
    {
        self.spans[chunk].len
    }

    pub(crate) fn items(&self, chunk: usize) -> &[T]
        requires { chunk < length self.now.chunks }
        ensures { result.now ≡ chunk_at self.now.chunks chunk }
    {
        let span = self.spans[chunk];
        &self.places[span.first..span.first + span.len]
    }

    pub(crate) fn get(&self, chunk: usize, offset: usize) -> T
        requires chunk { chunk < length self.now.chunks }
        requires offset { offset < length (chunk_at self.now.chunks chunk) }
        ensures { result ≡ slice_index_or (chunk_at self.now.chunks chunk) offset result }
    {
        self.places[self.spans[chunk].first + offset]
    }

    pub(crate) fn last(&self, chunk: usize) -> T
        requires chunk { chunk < length self.now.chunks }
        requires some { 0 < length (chunk_at self.now.chunks chunk) }
        ensures { IsLast (chunk_at self.now.chunks chunk) result }
    {
        let span = self.spans[chunk];
        self.places[span.first + (span.len - 1)]
    }

    /// So many items from an offset of a chunk on, in order.
    pub(crate) fn walk(&self, chunk: usize, offset: usize, count: usize) -> Walk<'_, T>
        requires chunk { chunk < length self.now.chunks }
        requires offset { offset ≤ length (chunk_at self.now.chunks chunk) }
        requires dense { IsDense self.now.chunks }
        requires count { offset + count ≤ length (chunk_items (drop chunk self.now.chunks)) }
        ensures { result ≡ take count (drop offset (chunk_items (drop chunk self.now.chunks))) }
    {
        let items = self.items(chunk);
        Walk::over(
            &self.places,
            &items[offset..],
            &self.spans[chunk + 1..],
            count,
        )
    }

    pub(crate) fn set(&mut self, chunk: usize, offset: usize, item: T)
        requires chunk { chunk < length self.old.chunks }
        requires offset { offset < length (chunk_at self.old.chunks chunk) }
        ensures chunks { IsChanged self.old.chunks self.new.chunks chunk (λ p. slice_set p offset item) }
        ensures most { self.new.most ≡ self.old.most }
    {
        let place = self.spans[chunk].first + offset;
        self.places[place] = item;
    }

    pub(crate) fn insert(&mut self, chunk: usize, offset: usize, item: T)
        requires chunk { chunk < length self.old.chunks }
        requires offset { offset ≤ length (chunk_at self.old.chunks chunk) }
        requires room { length (chunk_at self.old.chunks chunk) < MOST }
        ensures chunks { IsChanged self.old.chunks self.new.chunks chunk (λ p. insert p offset item) }
        ensures most { self.new.most ≡ self.old.most }
    {
        let span = self.spans[chunk];
        // The first bay of all is made here, since before there is no item to fill it with.
        fill(&mut self.places, span.first + MOST, item);
        put_before(
            &mut self.places,
            span.first + offset,
            span.len - offset,
            item,
        );
        self.spans[chunk] = Span {
            first: span.first,
            len: span.len + 1,
        };
    }

    pub(crate) fn remove(&mut self, chunk: usize, offset: usize) -> T
        requires chunk { chunk < length self.old.chunks }
        requires offset { offset < length (chunk_at self.old.chunks chunk) }
        ensures value { result ≡ slice_index_or (chunk_at self.old.chunks chunk) offset result }
        ensures chunks { IsChanged self.old.chunks self.new.chunks chunk (λ p. remove p offset) }
        ensures most { self.new.most ≡ self.old.most }
    {
        let span = self.spans[chunk];
        let place = span.first + offset;
        let left = span.len - 1;
        let item = self.places[place];
        copy_items(&mut self.places, place + 1, left - offset, place);
        self.spans[chunk] = Span {
            first: span.first,
            len: left,
        };
        item
    }

    /// Takes away a chunk's items from an offset on.
    pub(crate) fn truncate(&mut self, chunk: usize, keep: usize)
        requires chunk { chunk < length self.old.chunks }
        requires keep { keep ≤ length (chunk_at self.old.chunks chunk) }
        ensures chunks { IsChanged self.old.chunks self.new.chunks chunk (λ p. take keep p) }
        ensures most { self.new.most ≡ self.old.most }
    {
        let span = self.spans[chunk];
        self.spans[chunk] = Span {
            first: span.first,
            len: keep,
        };
    }

    /// Makes a chunk with no item after one that has some.
    pub(crate) fn open_after(&mut self, chunk: usize)
        requires chunk { chunk < length self.old.chunks }
        requires some { 0 < length (chunk_at self.old.chunks chunk) }
        requires room { length self.old.chunks < self.old.most }
        ensures chunks { self.new.chunks ≡ insert self.old.chunks (chunk + 1) [] }
        ensures most { self.new.most ≡ self.old.most }
    {
        let item = self.places[self.spans[chunk].first];
        let first = take_bay(&mut self.free, self.spans.len());
        fill(&mut self.places, first + MOST, item);
        insert_span(&mut self.spans, chunk + 1, Span { first, len: 0 });
    }

    /// Copies a chunk's items from an offset on into the next chunk, in place of its own.
    pub(crate) fn copy_on(&mut self, chunk: usize, keep: usize)
        requires chunk { chunk + 1 < length self.old.chunks }
        requires keep { keep ≤ length (chunk_at self.old.chunks chunk) }
        ensures chunks { IsChanged self.old.chunks self.new.chunks (chunk + 1)
            (λ _. drop keep (chunk_at self.old.chunks chunk)) }
        ensures most { self.new.most ≡ self.old.most }
    {
        let span = self.spans[chunk];
        let next = self.spans[chunk + 1];
        let moved = span.len - keep;
        copy_items(&mut self.places, span.first + keep, moved, next.first);
        self.spans[chunk + 1] = Span {
            first: next.first,
            len: moved,
        };
    }

    /// Copies the next chunk's items to the end of a chunk.
    pub(crate) fn append_next(&mut self, chunk: usize)
        requires chunk { chunk + 1 < length self.old.chunks }
        requires few { size_of_two self.old.chunks chunk ≤ MOST }
        ensures chunks { IsChanged self.old.chunks self.new.chunks chunk
            (λ p. p ++ chunk_at self.old.chunks (chunk + 1)) }
        ensures most { self.new.most ≡ self.old.most }
    {
        let span = self.spans[chunk];
        let next = self.spans[chunk + 1];
        copy_items(
            &mut self.places,
            next.first,
            next.len,
            span.first + span.len,
        );
        self.spans[chunk] = Span {
            first: span.first,
            len: span.len + next.len,
        };
    }

    /// Takes the chunk after one away, and its bay is free.
    pub(crate) fn close_next(&mut self, chunk: usize)
        requires { chunk + 1 < length self.old.chunks }
        ensures chunks { self.new.chunks ≡ remove self.old.chunks (chunk + 1) }
        ensures most { self.new.most ≡ self.old.most }
    {
        let span = self.spans.remove(chunk + 1);
        self.free.push_reserved(span.first);
    }
}

/// Puts a span before others, where there is room for it.
fn insert_span(spans: &mut Vec<Span>, at: usize, span: Span)
    requires at { at ≤ length spans.old.items }
    requires room { length spans.old.items < vec_capacity spans.old }
    ensures items { spans.new.items ≡ insert spans.old.items at span }
    ensures capacity { vec_capacity spans.new ≡ vec_capacity spans.old }
{
    let inserted = spans.insert(at, span);
    if let Err(_) = inserted {
        unreachable!()
    }
}

/// The first place of a bay: one that was given back, or else the next after those that were made.
fn take_bay(free: &mut Vec<usize>, made: usize) -> usize
    requires { made * MOST < 2 ^ 64 }
    ensures bay { TakesBay free.old.items free.new.items made result }
    ensures capacity { vec_capacity free.new ≡ vec_capacity free.old }
{
    match free.pop() {
        Some(first) => first,
        None => made * MOST,
    }
}

/// The same items, in a vector with room for so many.
fn moved<I: Copy>(alloc: Global, items: &[I], room: usize) -> Result<Vec<I>, AllocError>
    requires { length items.now ≤ room }
    ensures items { IfOk result (λ all. all.items ≡ items.now) }
    ensures capacity { IfOk result (λ all. vec_capacity all ≡ room) }
{
    let mut all = Vec::with_capacity(alloc, room)?;
    'moving: for i in 0..items.len() {
        all.push_reserved(items[i]);
    }
    Ok(all)
}

/// How many places so many chunks need.
fn places_for(most: usize) -> Result<usize, AllocError>
    ensures { IfOk result (λ room. (room ≡ most * MOST) × (room < 2 ^ 64)) }
{
    most.checked_mul(MOST).ok_or(AllocError)
}
