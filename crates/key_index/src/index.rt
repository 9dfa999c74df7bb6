//! The index.
ghost use Rattle.std.specs.Prelude.{◌≡◌, ◌+◌, ◌<◌, ◌≤◌, length, max};
ghost use Rattle.std.specs.Prelude.{MatchOption, IfOk, IfSome, IsOk, IsSome, OnOk, OnErr};
ghost use Rattle.key_index.specs.Links.{IsChained, IsLast, IsPlaced, NoneUpTo, SameChanges, without};
ghost use Rattle.key_index.specs.Compaction.{Frees, IsCompacted, IsCompactedAt};
ghost use Rattle.key_index.specs.Index.{AreHeadsIn, AreParted, IsHeadOf, IsIndexOf, IsSpread};
ghost use Rattle.key_index.specs.Index.{NoneOfKey, is_put_of, key_count, no_heads, wider};
ghost use Rattle.key_index.specs.Moving.{IsMoved};

use crate::compaction::{cut_head, cut_heads};
use crate::last_place::LastPlace;
use crate::records::{Records, RecordsMut};
use crate::search::{Sought, last_up_to, search, search_near};
use crate::span::span;
use chunk_list::{ChunkList, Place, Walk};
use etcd_types::{CellNo, Mem};
use std::alloc::{AllocError, Global};
use std::marker::Model;

/// The newest record of each key, by ascending key: those of keys that are live apart from those of keys that
/// are deleted, so that the live ones of an interval are counted and given without a look at the others.
#[derive(Drop)]
pub struct KeyIndex {
    live: ChunkList<CellNo>,
    /// Its room is what the index has: `grow_rooms` makes room among the live ones first.
    dead: ChunkList<CellNo>,
    /// In one of them.
    last: LastPlace,
}

impl Model for KeyIndex {
    ghost use Rattle.std.specs.Prelude.{◌≤◌};
    ghost use Rattle.key_index.specs.Index.{Heads};

    ghost Value = { Heads };

    ghost view = { λ a. record {
      live = a.live.items;
      dead = a.dead.items;
      capacity = a.dead.room;
      taken = a.live.room;
    } };

    ghost invariant = { λ a. a.dead.room ≤ a.live.room };
}

impl KeyIndex {
    /// For this many keys at most, with memory for as many. Only `grow_rooms` takes more later.
    pub fn new(alloc: Global, capacity: usize) -> Result<KeyIndex, AllocError>
        ensures { IfOk result (λ index. index ≡ no_heads capacity) }
    {
        Ok(KeyIndex {
            live: ChunkList::new(alloc, capacity)?,
            dead: ChunkList::new(alloc, capacity)?,
            last: LastPlace::new(),
        })
    }

    /// Makes room for as many keys as there are cells. The room is never less than before, and where there is
    /// as much, no memory is taken. Where none is found, nothing changes but what was taken by then.
    pub fn grow_rooms(&mut self, cells: u32) -> Mem<()>
        ensures ok { OnOk result (self.new ≡ wider cells self.old) }
        ensures err { OnErr result (self.new ≡ record self.old { taken = self.new.taken }) }
        ensures within { self.new.taken ≤ max self.old.taken cells }
        ensures sure { cells ≤ self.old.capacity → IsOk result }
    {
        self.live.grow_room(cells as usize)?;
        self.dead.grow_room(cells as usize)
    }

    /// The newest records of the keys of an interval that are live, by ascending key. The interval begins at
    /// `key` and ends before `range_end`. With an empty end it is the one key, and with the single byte 0 it
    /// has no end.
    pub fn span<R: Records>(&self, records: &R, key: &[u8], range_end: &[u8]) -> Walk<'_, CellNo>
        requires { IsIndexOf (R.cells records.now) self.now.live self.now.dead }
        ensures { AreHeadsIn (R.cells records.now) self.now.live key.now range_end.now result }
    {
        heads_in(&self.live, &self.last, records, key, range_end)
    }

    /// The same of the keys that are deleted.
    pub fn dead_span<R: Records>(
        &self,
        records: &R,
        key: &[u8],
        range_end: &[u8],
    ) -> Walk<'_, CellNo>
        requires { IsIndexOf (R.cells records.now) self.now.live self.now.dead }
        ensures { AreHeadsIn (R.cells records.now) self.now.dead key.now range_end.now result }
    {
        heads_in(&self.dead, &self.last, records, key, range_end)
    }

    /// The last change of the key at a revision at most this one.
    pub fn at<R: Records>(&self, records: &R, key: &[u8], revision: u64) -> Option<CellNo>
        requires index { IsIndexOf (R.cells records.now) self.now.live self.now.dead }
        requires chained { IsChained (R.cells records.now) }
        ensures { MatchOption result (NoneUpTo (R.cells records.now) key.now revision)
            (IsLast (R.cells records.now) key.now revision) }
    {
        match self.find(records, key) {
            Some(head) => last_up_to(head, records, revision),
            None => None,
        }
    }

    /// The newest record of a key: a put where the key is live, and a delete where it is deleted.
    pub fn find<R: Records>(&self, records: &R, key: &[u8]) -> Option<CellNo>
        requires { IsIndexOf (R.cells records.now) self.now.live self.now.dead }
        ensures { MatchOption result (NoneOfKey (R.cells records.now) key.now)
            (IsHeadOf (R.cells records.now) key.now) }
    {
        match search(&self.live, records, &Sought::Key(key)) {
            Ok(place) => Some(self.live.get(place)),
            Err(_) => match search(&self.dead, records, &Sought::Key(key)) {
                Ok(place) => Some(self.dead.get(place)),
                Err(_) => None,
            },
        }
    }

    /// Takes up a new record, which is newer than the others of its key.
    pub fn add<R: RecordsMut>(&mut self, records: &mut R, cell: CellNo)
        requires capacity { key_count self.old < self.old.capacity }
        requires placed { IsPlaced (R.cells records.old) cell }
        requires index { IsIndexOf (without (R.cells records.old) cell) self.old.live self.old.dead }
        requires chained { IsChained (without (R.cells records.old) cell) }

        ensures index { IsIndexOf (R.cells records.new) self.new.live self.new.dead }
        ensures chained { IsChained (R.cells records.new) }
        ensures same { SameChanges (R.cells records.old) (R.cells records.new) }
        ensures capacity { self.new.capacity ≡ self.old.capacity }
        ensures taken { self.new.taken ≡ self.old.taken }
        ensures count { key_count self.new ≤ key_count self.old + 1 }
        ensures free { R.free records.new ≡ R.free records.old }
        ensures rest { R.same_rest records.old records.new }
    {
        let near = self.last.get();
        let older = if records.is_put(cell) {
            move_head(&mut self.live, &mut self.dead, records, cell, near)
        } else {
            move_head(&mut self.dead, &mut self.live, records, cell, near)
        };
        records.set_older(cell, older);
    }

    /// Drops what a compaction at this revision doesn't keep of the key of a record, and the place of the key if none
    /// of it is left.
    pub fn cut_key<R: RecordsMut>(&mut self, records: &mut R, cell: CellNo, revision: u64)
        requires index { IsIndexOf (R.cells records.old) self.old.live self.old.dead }
        requires chained { IsChained (R.cells records.old) }
        requires there { IsSome (R.cells records.old cell) }

        ensures index { IsIndexOf (R.cells records.new) self.new.live self.new.dead }
        ensures chained { IsChained (R.cells records.new) }
        ensures compacted { IfSome (R.cells records.old cell)
            (λ e. IsCompactedAt (R.cells records.old) (R.cells records.new) revision e.change.key) }
        ensures capacity { self.new.capacity ≡ self.old.capacity }
        ensures taken { self.new.taken ≡ self.old.taken }
        ensures free { Frees R.cost R.cells R.free records.old records.new }
        ensures rest { R.same_rest records.old records.new }
    {
        let sought = Sought::KeyOf(cell);
        match search(&self.live, records, &sought) {
            Ok(place) => cut_head(&mut self.live, records, place, revision),
            Err(_) => match search(&self.dead, records, &sought) {
                Ok(place) => cut_head(&mut self.dead, records, place, revision),
                // A record's key stands in one of the two lists.
                Err(_) => unreachable!(),
            },
        }
    }

    /// Drops what a compaction at this revision doesn't keep of any key.
    pub fn cut<R: RecordsMut>(&mut self, records: &mut R, revision: u64)
        requires index { IsIndexOf (R.cells records.old) self.old.live self.old.dead }
        requires chained { IsChained (R.cells records.old) }

        ensures index { IsIndexOf (R.cells records.new) self.new.live self.new.dead }
        ensures chained { IsChained (R.cells records.new) }
        ensures compacted { IsCompacted (R.cells records.old) (R.cells records.new) revision }
        ensures capacity { self.new.capacity ≡ self.old.capacity }
        ensures taken { self.new.taken ≡ self.old.taken }
        ensures free { Frees R.cost R.cells R.free records.old records.new }
        ensures rest { R.same_rest records.old records.new }
    {
        cut_heads(&mut self.live, records, revision);
        cut_heads(&mut self.dead, records, revision);
    }
}

/// The newest records of the keys of an interval among those of a list. Where that begins is kept.
fn heads_in<'a, R: Records>(
    heads: &'a ChunkList<CellNo>,
    last: &LastPlace,
    records: &R,
    key: &[u8],
    range_end: &[u8],
) -> Walk<'a, CellNo>
    requires { IsSpread (R.cells records.now) heads.now.items }
    ensures { AreHeadsIn (R.cells records.now) heads.now.items key.now range_end.now result }
{
    let (from, count) = span(heads, records, key, range_end);
    last.keep(from);
    heads.walk(from, count)
}

/// Makes a record the newest of its key, in the list of those that are of its kind: the one before leaves its
/// place there, or the list of the others. Answers that one. Where the key was looked up last, it is looked for first.
fn move_head<R: Records>(
    these: &mut ChunkList<CellNo>,
    others: &mut ChunkList<CellNo>,
    records: &R,
    cell: CellNo,
    near: Place,
) -> Option<CellNo>
    requires room { length these.old.items < these.old.room }
    requires placed { IsPlaced (R.cells records.now) cell }
    requires parted { AreParted (without (R.cells records.now) cell)
        (is_put_of (R.cells records.now cell)) these.old.items others.old.items }
    requires chained { IsChained (without (R.cells records.now) cell) }
    ensures moved { IsMoved (R.cells records.now) cell result these.new.items others.new.items }
    ensures count { length these.new.items + length others.new.items
        ≤ length these.old.items + length others.old.items + 1 }
    ensures these_room { these.new.room ≡ these.old.room }
    ensures others_room { others.new.room ≡ others.old.room }
{
    let sought = Sought::KeyOf(cell);
    match search_near(these, records, &sought, near) {
        Ok(place) => {
            let head = these.get(place);
            these.set(place, cell);
            Some(head)
        }
        Err(place) => {
            these.insert(place, cell);
            match search_near(others, records, &sought, near) {
                Ok(place) => Some(others.remove(place)),
                Err(_) => None,
            }
        }
    }
}
