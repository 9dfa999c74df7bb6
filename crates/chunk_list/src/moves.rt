//! How chunks are cut in two, joined and evened out.
ghost use Rattle.std.specs.Prelude.{◌≡◌, ◌+◌, ◌<◌, ◌≤◌, length, take};
ghost use Rattle.chunk_list.specs.Chunks.{IsDense, IsOpened, LacksOne};
ghost use Rattle.chunk_list.specs.Chunks.{chunk_at, chunk_items, cut_in_two, joined, shifted, size_of_two};

use crate::place::Place;
use crate::shelf::Shelf;
use crate::span::{LEAST, MOST};

/// Where a full chunk is cut.
const HALF: usize = 256;

/// Cuts a chunk in two at an offset: a new chunk takes what stands from there on.
pub(crate) fn split<T: Copy>(shelf: &mut Shelf<T>, at: usize, keep: usize)
    requires at { at < length shelf.old.chunks }
    requires keep { keep ≤ length (chunk_at shelf.old.chunks at) }
    requires some { 0 < keep }
    requires room { length shelf.old.chunks < shelf.old.most }
    ensures chunks { shelf.new.chunks ≡ cut_in_two shelf.old.chunks at keep }
    ensures most { shelf.new.most ≡ shelf.old.most }
{
    shelf.open_after(at);
    shelf.copy_on(at, keep);
    shelf.truncate(at, keep);
}

/// Joins a chunk with the next one.
pub(crate) fn join<T: Copy>(shelf: &mut Shelf<T>, at: usize)
    requires at { at + 1 < length shelf.old.chunks }
    requires few { size_of_two shelf.old.chunks at ≤ MOST }
    ensures chunks { shelf.new.chunks ≡ joined shelf.old.chunks at }
    ensures most { shelf.new.most ≡ shelf.old.most }
{
    shelf.append_next(at);
    shelf.close_next(at);
}

/// Moves the first item of the next chunk to the end of a chunk.
pub(crate) fn shift<T: Copy>(shelf: &mut Shelf<T>, at: usize)
    requires at { at + 1 < length shelf.old.chunks }
    requires few { length (chunk_at shelf.old.chunks at) < MOST }
    requires some { 0 < length (chunk_at shelf.old.chunks (at + 1)) }
    ensures chunks { shelf.new.chunks ≡ shifted shelf.old.chunks at }
    ensures most { shelf.new.most ≡ shelf.old.most }
{
    let end = shelf.len(at);
    let item = shelf.remove(at + 1, 0);
    shelf.insert(at, end, item);
}

/// Makes room at a place: a full chunk is cut in two. It gives the place as it is then.
pub(crate) fn open<T: Copy>(shelf: &mut Shelf<T>, place: Place) -> Place
    requires chunk { place.chunk < length shelf.old.chunks }
    requires offset { place.offset ≤ length (chunk_at shelf.old.chunks place.chunk) }
    requires dense { IsDense shelf.old.chunks }
    requires room { length shelf.old.chunks < shelf.old.most }
    ensures opened { IsOpened shelf.old.chunks shelf.new.chunks place result }
    ensures most { shelf.new.most ≡ shelf.old.most }
{
    let len = shelf.len(place.chunk);
    if len < MOST {
        return place;
    }
    if place.offset == MOST && place.chunk + 1 == shelf.count() {
        split(shelf, place.chunk, MOST);
        return Place {
            chunk: place.chunk + 1,
            offset: 0,
        };
    }
    split(shelf, place.chunk, HALF);
    if place.offset < HALF {
        place
    } else {
        Place {
            chunk: place.chunk + 1,
            offset: place.offset - HALF,
        }
    }
}

/// Joins a chunk that lacks an item with the next one, or has an item of it.
pub(crate) fn refill<T: Copy>(shelf: &mut Shelf<T>, at: usize)
    requires at { at < length shelf.old.chunks }
    requires short { LacksOne shelf.old.chunks at }
    requires few { length (chunk_at shelf.old.chunks at) < LEAST }
    ensures items { chunk_items shelf.new.chunks ≡ chunk_items shelf.old.chunks }
    ensures dense { IsDense shelf.new.chunks }
    ensures some { 0 < length shelf.new.chunks }
    ensures most { shelf.new.most ≡ shelf.old.most }
{
    let here = shelf.len(at);
    if at + 1 < shelf.count() {
        let next = shelf.len(at + 1);
        if here + next <= MOST {
            join(shelf, at);
        } else {
            shift(shelf, at);
        }
    }
}

/// Takes away the chunks after one.
pub(crate) fn give_back<T: Copy>(shelf: &mut Shelf<T>, last: usize)
    requires { last < length shelf.old.chunks }
    ensures chunks { shelf.new.chunks ≡ take (last + 1) shelf.old.chunks }
    ensures most { shelf.new.most ≡ shelf.old.most }
{
    'giving: while shelf.count() - 1 > last {
        shelf.close_next(shelf.count() - 2);
    }
}
