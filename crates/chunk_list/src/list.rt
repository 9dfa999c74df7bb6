//! A list in chunks.
ghost use Rattle.std.specs.Prelude.{◌≡◌, ℕ, ◌+◌, ◌-◌, ◌<◌, ◌≤◌, ◌++◌, ◌∷◌, [], List, length, slice_index_or};
ghost use Rattle.std.specs.Prelude.{slice_set, take, drop, filter, max, IfOk, IsOk, IsTrue, OnOk, OnErr, ◌↔◌};
ghost use Rattle.std.specs.List.{All, insert, remove};
ghost use Rattle.chunk_list.specs.Chunked.{TurnsAt, HasItem, HasItems, IsPlace, IsPlaceAt, places_for, position_of};

use crate::moves::{give_back, open, refill};
use crate::place::Place;
use crate::search::{Test, first_chunk, first_item};
use crate::shelf::Shelf;
use crate::span::LEAST;
use crate::walk::Walk;
use std::alloc::{AllocError, Global};
use std::marker::Model;

/// Items in order, for at most as many as there is room.
#[derive(Drop)]
pub struct ChunkList<T> {
    /// The chunks that have the items, in order. There is one at least, and the last may be empty.
    shelf: Shelf<T>,
    /// How many items there are.
    count: usize,
    room: usize,
}

impl<T> Model for ChunkList<T> {
    ghost use Rattle.std.specs.Prelude.{length, map};
    ghost use Rattle.chunk_list.specs.Chunked.{Chunked, chunked_code};
    ghost use Rattle.chunk_list.specs.Chunks.{AreChunks, chunk_items};

    ghost Value = { Chunked T };

    ghost coded = { chunked_code T.code };

    ghost view = { λ a. record {
      items = chunk_items a.shelf.chunks;
      sizes = map (λ c. length c) a.shelf.chunks;
      room = a.room;
    } };

    ghost invariant = { λ a. AreChunks a.shelf.chunks a.shelf.most a.count a.room };
}

impl<T: Copy> ChunkList<T> {
    /// A list with no item, and room for so many. It takes memory for `places` of that room, and only `grow_room`
    /// takes more later.
    pub fn new(alloc: Global, room: usize) -> Result<ChunkList<T>, AllocError>
        ensures items { IfOk result (λ list. list.items ≡ []) }
        ensures room { IfOk result (λ list. list.room ≡ room) }
    {
        Ok(ChunkList {
            shelf: Shelf::new(alloc, room / LEAST + 2)?,
            count: 0,
            room,
        })
    }

    /// Makes room for so many items in all: the room is never less than before, and all places stay. Where there is
    /// as much, no memory is taken, and where it finds none, nothing changes and none is kept.
    pub fn grow_room(&mut self, room: usize) -> Result<(), AllocError>
        ensures ok { OnOk result (self.new ≡ record self.old { room = max self.old.room room }) }
        ensures err { OnErr result (self.new ≡ self.old) }
        ensures sure { room ≤ self.old.room → IsOk result }
    {
        if room > self.room {
            self.shelf.grow(room / LEAST + 2)?;
            self.room = room;
        }
        Ok(())
    }

    /// How many items there are.
    pub fn len(&self) -> usize
        ensures len { result ≡ length self.now.items }
        ensures within { result ≤ self.now.room }
    {
        self.count
    }

    /// For how many items there is room in all.
    pub fn room(&self) -> usize
        ensures { result ≡ self.now.room }
    {
        self.room
    }

    /// How many places in memory the list has taken: as many as its room asks for, and no more.
    pub fn places(&self) -> usize
        ensures { result ≡ places_for self.now.room }
    {
        self.shelf.places()
    }

    /// The place of the first item, or where it would go.
    pub fn start(&self) -> Place
        ensures { IsPlaceAt self.now result 0 }
    {
        self.shelf.start()
    }

    /// The place after the last item.
    pub fn end(&self) -> Place
        ensures { IsPlaceAt self.now result (length self.now.items) }
    {
        let chunk = self.shelf.count() - 1;
        let offset = self.shelf.len(chunk);
        Place { chunk, offset }
    }

    /// The place after an item's.
    pub fn next(&self, place: Place) -> Place
        requires { HasItem self.now.sizes place }
        ensures { IsPlaceAt self.now result (position_of self.now.sizes place + 1) }
    {
        let len = self.shelf.len(place.chunk);
        if place.offset + 1 == len && place.chunk + 1 < self.shelf.count() {
            return Place {
                chunk: place.chunk + 1,
                offset: 0,
            };
        }
        Place {
            chunk: place.chunk,
            offset: place.offset + 1,
        }
    }

    /// The place before which so many items stand. It looks at each chunk before it.
    pub fn place_at(&self, position: usize) -> Place
        requires { position ≤ length self.now.items }
        ensures { IsPlaceAt self.now result position }
    {
        let last = self.shelf.count() - 1;
        let mut left = position;
        'passing: for chunk in 0..last {
            let len = self.shelf.len(chunk);
            if left < len {
                return Place {
                    chunk,
                    offset: left,
                };
            }
            left -= len;
        }
        Place {
            chunk: last,
            offset: left,
        }
    }

    /// How many items stand before a place. It looks at each chunk before it.
    pub fn position(&self, place: Place) -> usize
        requires { IsPlace self.now.sizes place }
        ensures { result ≡ position_of self.now.sizes place }
    {
        self.count_between(self.start(), place)
    }

    /// How many items stand from one place up to another, and none where that comes before. It looks at each
    /// chunk between them.
    pub fn count_between(&self, from: Place, to: Place) -> usize
        requires from { IsPlace self.now.sizes from }
        requires to { IsPlace self.now.sizes to }
        ensures { result ≡ position_of self.now.sizes to - position_of self.now.sizes from }
    {
        // What always holds of a list is known here once a field is read.
        let _count = self.count;
        if to.chunk < from.chunk {
            return 0;
        }
        let mut passed = 0;
        'adding: for chunk in from.chunk..to.chunk {
            passed += self.shelf.len(chunk);
        }
        (passed + to.offset).saturating_sub(from.offset)
    }

    /// The first place at whose item a test doesn't hold, if it holds up to some place and not from there on.
    pub fn search<S: Test<T>>(&self, test: &S) -> Place
        requires { All (S.can test.now) self.now.items }
        ensures place { IsPlace self.now.sizes result }
        ensures turn { (k : ℕ) → TurnsAt (S.test test.now) self.now.items k → IsPlaceAt self.now result k }
    {
        let chunk = first_chunk(&self.shelf, test);
        let offset = first_item(self.shelf.items(chunk), test);
        Place { chunk, offset }
    }

    /// The same, where that is likely the last item's place: it looks there first.
    pub fn search_last<S: Test<T>>(&self, test: &S) -> Place
        requires { All (S.can test.now) self.now.items }
        ensures place { IsPlace self.now.sizes result }
        ensures turn { (k : ℕ) → TurnsAt (S.test test.now) self.now.items k → IsPlaceAt self.now result k }
    {
        let Place { chunk, offset: end } = self.end();
        if end < 2 {
            return self.search(test);
        }
        let before = Place {
            chunk,
            offset: end - 2,
        };
        let last = Place {
            chunk,
            offset: end - 1,
        };
        if test.holds(self.get(before)) && !test.holds(self.get(last)) {
            last
        } else {
            self.search(test)
        }
    }

    /// Whether an item stands at a place.
    pub fn has_item(&self, place: Place) -> bool
        ensures item { IsTrue result ↔ HasItem self.now.sizes place }
        ensures within { IsTrue result → position_of self.now.sizes place < length self.now.items }
    {
        place.chunk < self.shelf.count() && place.offset < self.shelf.len(place.chunk)
    }

    /// So many items from a place on, in order.
    pub fn walk(&self, from: Place, count: usize) -> Walk<'_, T>
        requires { HasItems self.now from count }
        ensures { result ≡ take count (drop (position_of self.now.sizes from) self.now.items) }
    {
        self.shelf.walk(from.chunk, from.offset, count)
    }

    /// The item at a place.
    pub fn get(&self, place: Place) -> T
        requires { HasItem self.now.sizes place }
        ensures { result ≡ slice_index_or self.now.items (position_of self.now.sizes place) result }
    {
        self.shelf.get(place.chunk, place.offset)
    }

    /// Writes an item over the one at a place. All places stay.
    pub fn set(&mut self, place: Place, item: T)
        requires { HasItem self.old.sizes place }
        ensures items { self.new.items ≡ slice_set self.old.items (position_of self.old.sizes place) item }
        ensures sizes { self.new.sizes ≡ self.old.sizes }
        ensures room { self.new.room ≡ self.old.room }
    {
        self.shelf.set(place.chunk, place.offset, item);
    }

    /// Puts an item at a place, before what stood there.
    pub fn insert(&mut self, place: Place, item: T)
        requires place { IsPlace self.old.sizes place }
        requires room { length self.old.items < self.old.room }
        ensures items { self.new.items ≡ insert self.old.items (position_of self.old.sizes place) item }
        ensures room { self.new.room ≡ self.old.room }
    {
        let opened = open(&mut self.shelf, place);
        self.shelf.insert(opened.chunk, opened.offset, item);
        self.count += 1;
    }

    /// Puts an item after all others.
    pub fn append(&mut self, item: T)
        requires { length self.old.items < self.old.room }
        ensures items { self.new.items ≡ self.old.items ++ item ∷ [] }
        ensures room { self.new.room ≡ self.old.room }
    {
        let end = self.end();
        self.insert(end, item);
    }

    /// Takes the item at a place away.
    pub fn remove(&mut self, place: Place) -> T
        requires { HasItem self.old.sizes place }
        ensures value { result ≡ slice_index_or self.old.items (position_of self.old.sizes place) result }
        ensures items { self.new.items ≡ remove self.old.items (position_of self.old.sizes place) }
        ensures room { self.new.room ≡ self.old.room }
    {
        let item = self.shelf.remove(place.chunk, place.offset);
        let left = self.shelf.len(place.chunk);
        self.count -= 1;
        if left < LEAST {
            refill(&mut self.shelf, place.chunk);
        }
        item
    }

    /// Takes away all items from a place on.
    pub fn truncate(&mut self, place: Place)
        requires { IsPlace self.old.sizes place }
        ensures items { self.new.items ≡ take (position_of self.old.sizes place) self.old.items }
        ensures room { self.new.room ≡ self.old.room }
    {
        let left = self.position(place);
        give_back(&mut self.shelf, place.chunk);
        self.shelf.truncate(place.chunk, place.offset);
        self.count = left;
    }

    /// Takes away all items at which a test doesn't hold, in one pass.
    pub fn retain<S: Test<T>>(&mut self, test: &S)
        requires { All (S.can test.now) self.old.items }
        ensures items { self.new.items ≡ filter (S.test test.now) self.old.items }
        ensures room { self.new.room ≡ self.old.room }
    {
        let mut read = self.start();
        let mut write = self.start();
        'keeping: for _read in 0..self.len() {
            let item = self.get(read);
            read = self.next(read);
            if test.holds(item) {
                self.set(write, item);
                write = self.next(write);
            }
        }
        self.truncate(write);
    }
}
