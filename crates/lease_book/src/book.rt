//! The book.
ghost use Rattle.std.specs.Prelude.{◌≡◌, ◌<◌, ◌≤◌, [], int_le, length, pos, true, slice_get, slice_index_or};
ghost use Rattle.std.specs.Prelude.{IfOk, IfSome, IsOk, IsSome, MatchResult, OnErr, OnOk, Some, drop, max};
ghost use Rattle.std.specs.Prelude.{option_map};
ghost use Rattle.std.specs.List.{insert, remove};
ghost use Rattle.std.specs.List.Sorted.{IsStrictlySortedBy};
ghost use Rattle.etcd_types.specs.Limits.{last_moment, max_ttl};
ghost use Rattle.etcd_model.specs.Held.{by_id};
ghost use Rattle.etcd_model.specs.Leases.{lease_at, put_lease, run_out};
ghost use Rattle.etcd_model.specs.Operations.{has_lease};
ghost use Rattle.etcd_model.specs.Order.{put_in};
ghost use Rattle.model_laws.specs.Leases.{without_lease};
ghost use Rattle.lease_book.specs.Attached.{AreAttached, heads_of, with_attachment};
ghost use Rattle.lease_book.specs.Attached.{without_attachment, without_keys};
ghost use Rattle.lease_book.specs.Book.{Book, cells_of, empty_book, ids_below, leases_of, wider};
ghost use Rattle.lease_book.specs.Granting.{Fits, IsIdOf, id_refusal};

use crate::attachments::{Attachment, drop_key, drop_keys, keys_in, put_key};
use crate::choosing::choose_id;
use crate::ending::{collect, first_due, soonest_end, sort_by_end};
use crate::granting::NewLease;
use crate::keys::Keys;
use crate::places::{find, place_of, place_with};
use chunk_list::{ChunkList, Walk};
use etcd_model::state::Lease;
use etcd_types::limits::LAST_LEASE_ID;
use etcd_types::{CellNo, Mem, Refusal};
use key_index::Records;
use std::alloc::Global;
use std::marker::Model;

/// A lease, and the cell of its record.
#[derive(Clone, Copy)]
pub struct Booked {
    pub lease: Lease,
    pub cell: CellNo,
}

/// One tenant's leases, and their keys.
pub struct LeaseBook {
    /// By ascending ID.
    list: ChunkList<Booked>,
    /// By ascending ID, and of one lease by ascending key.
    attachments: ChunkList<Attachment>,
    /// The number from which IDs are chosen.
    counter: u64,
    /// No lease ends before this moment.
    soonest: u64,
    /// The leases that had run out when they were last collected, in the order in which they end.
    due: Vec<Lease>,
    /// How many of those have been taken.
    taken: usize,
}

impl Drop for LeaseBook {
    fn drop(self) {
        let LeaseBook {
            list: _,
            attachments: _,
            counter: _,
            soonest: _,
            due: _,
            taken: _,
        } = self;
    }
}

impl Model for LeaseBook {
    ghost use Rattle.std.specs.Prelude.{drop, vec_capacity};
    ghost use Rattle.lease_book.specs.Book.{Book, IsKeyedBook, book_code, leases_of, cells_of};

    ghost Value = { Book };

    ghost coded = { book_code };

    ghost view = { λ b. record {
      leases = leases_of b.list.items;
      cells = cells_of b.list.items;
      counter = b.counter;
      room = b.list.room;
      taken = vec_capacity b.due;
      attachments = b.attachments.items;
      due = drop b.taken b.due.items;
    } };

    ghost invariant = { λ b. IsKeyedBook
        (leases_of b.list.items) b.soonest b.list.room b.attachments.items b.attachments.room
        (vec_capacity b.due) };
}

impl LeaseBook {
    /// A book with no lease, and room for so many leases and as many attached keys, for which it takes memory.
    pub fn new(alloc: Global, room: u32) -> Mem<LeaseBook>
        ensures { IfOk result (λ book. book ≡ empty_book room) }
    {
        let list = ChunkList::new(alloc, room as usize)?;
        let attachments = ChunkList::new(alloc, room as usize)?;
        let due = Vec::with_capacity(alloc, room as usize)?;
        Ok(LeaseBook {
            list,
            attachments,
            counter: 1,
            soonest: u64::MAX,
            due,
            taken: 0,
        })
    }

    /// Makes room for so many leases and as many attached keys. The room is never less than before, and where
    /// there is as much, no memory is taken. Where none is found, nothing changes but what was taken by then.
    pub fn grow_rooms(&mut self, cells: u32) -> Mem<()>
        ensures ok { OnOk result (self.new ≡ wider cells self.old) }
        ensures err { OnErr result (self.new ≡ record self.old { taken = self.new.taken }) }
        ensures within { self.new.taken ≤ max self.old.taken cells }
        ensures sure { cells ≤ self.old.room → IsOk result }
    {
        let room = cells as usize;
        if room > self.list.room() {
            // First, since this is what the book tells that it has taken.
            self.due.reserve_exact(room.saturating_sub(self.due.len()))?;
            self.attachments.grow_room(room)?;
            // Only now, since this is the room that the book tells.
            self.list.grow_room(room)?;
        }
        Ok(())
    }

    /// What always holds of a book: its leases ascend. Nothing is done: a caller knows it from here on.
    pub fn use_invariant(&self)
        ensures { IsStrictlySortedBy by_id self.now.leases }
    {
        let _ = &self.list;
    }

    /// How many leases there are.
    pub fn len(&self) -> usize
        ensures leases { result ≡ length self.now.leases }
        ensures cells { result ≡ length self.now.cells }
        ensures within { result ≤ self.now.room }
    {
        self.list.len()
    }

    /// For how many leases there is room in all, and for how many attached keys.
    pub fn room(&self) -> usize
        ensures { result ≡ self.now.room }
    {
        self.list.room()
    }

    /// The number from which IDs are chosen.
    pub fn counter(&self) -> u64
        ensures { result ≡ self.now.counter }
    {
        self.counter
    }

    /// The leases by ascending ID, each with the cell of its record.
    pub fn walk(&self) -> Walk<'_, Booked>
        ensures leases { leases_of result ≡ self.now.leases }
        ensures cells { cells_of result ≡ self.now.cells }
    {
        self.list.walk(self.list.start(), self.list.len())
    }

    /// The lease with this ID.
    pub fn lease(&self, id: i64) -> Option<Lease>
        ensures lease { result ≡ lease_at self.now.leases id }
        ensures ttl { IfSome result (λ lease. int_le (pos lease.ttl) max_ttl ≡ true) }
    {
        let place = find(&self.list, id)?;
        Some(self.list.get(place).lease)
    }

    /// Whether a lease has this ID.
    pub fn has(&self, id: i64) -> bool
        ensures { result ≡ has_lease self.now.leases id }
    {
        self.lease(id).is_some()
    }

    /// The ID of a grant, its own or the one that is chosen for it, and the counter afterwards.
    pub(crate) fn plan_id(&self, wanted: i64) -> Result<(i64, u64), Refusal>
        ensures { MatchResult result (IsIdOf self.now wanted)
            (λ refusal. id_refusal self.now wanted ≡ Some refusal) }
    {
        if wanted != 0 {
            return if self.has(wanted) {
                Err(Refusal::LeaseExists)
            } else {
                Ok((wanted, self.counter))
            };
        }
        if self.counter >= LAST_LEASE_ID {
            return Err(Refusal::UsedUp);
        }
        let id = choose_id(&self.list, self.counter);
        Ok((id as i64, id + 1))
    }

    /// Takes up a lease that is to be granted, with the cell of its record.
    pub fn grant(&mut self, new: NewLease, cell: CellNo)
        requires fits { Fits self.old new }
        requires room { length self.old.leases < self.old.room }
        ensures leases { self.new.leases ≡ put_in by_id self.old.leases new.lease }
        ensures cells { self.new.cells ≡ insert self.old.cells (ids_below self.old.leases new.lease.id) cell }
        ensures counter { self.new.counter ≡ new.counter }
        ensures room { self.new.room ≡ self.old.room }
        ensures taken { self.new.taken ≡ self.old.taken }
        ensures attachments { self.new.attachments ≡ self.old.attachments }
        ensures due { self.new.due ≡ self.old.due }
    {
        let place = place_of(&self.list, new.lease.id);
        self.soonest = self.soonest.min(new.lease.end);
        self.counter = new.counter;
        self.list.insert(
            place,
            Booked {
                lease: new.lease,
                cell,
            },
        );
    }

    /// Gives a lease the end that it would have if it was granted at this moment.
    pub fn renew(&mut self, id: i64, moment: u64)
        requires has { has_lease self.old.leases id ≡ true }
        requires moment { moment ≤ last_moment }
        ensures leases { IfSome (lease_at self.old.leases id)
            (λ lease. self.new.leases ≡ put_lease moment self.old.leases id lease.ttl) }
        ensures cells { self.new.cells ≡ self.old.cells }
        ensures counter { self.new.counter ≡ self.old.counter }
        ensures room { self.new.room ≡ self.old.room }
        ensures taken { self.new.taken ≡ self.old.taken }
        ensures attachments { self.new.attachments ≡ self.old.attachments }
        ensures due { self.new.due ≡ self.old.due }
    {
        let place = place_with(&self.list, id);
        let mut booked = self.list.get(place);
        booked.lease.end = moment + booked.lease.ttl;
        self.soonest = self.soonest.min(booked.lease.end);
        self.list.set(place, booked);
    }

    /// Takes a lease away with its attachments, and gives the cell of its record.
    pub fn end(&mut self, id: i64) -> CellNo
        requires { has_lease self.old.leases id ≡ true }
        ensures value { result ≡ slice_index_or self.old.cells (ids_below self.old.leases id) result }
        ensures leases { self.new.leases ≡ without_lease self.old.leases id }
        ensures cells { self.new.cells ≡ remove self.old.cells (ids_below self.old.leases id) }
        ensures counter { self.new.counter ≡ self.old.counter }
        ensures room { self.new.room ≡ self.old.room }
        ensures taken { self.new.taken ≡ self.old.taken }
        ensures attachments { self.new.attachments ≡ without_keys self.old.attachments id }
        ensures due { self.new.due ≡ self.old.due }
    {
        drop_keys(&mut self.attachments, id);
        let place = place_with(&self.list, id);
        self.list.remove(place).cell
    }

    /// Of the leases that have run out at a moment, the one that ends first.
    pub fn due(&self, moment: u64) -> Option<i64>
        ensures { result ≡ option_map (λ lease. lease.id) (slice_get (run_out moment self.now.leases) 0) }
    {
        if moment < self.soonest {
            return None;
        }
        let lease = first_due(&self.list, moment)?;
        Some(lease.id)
    }

    /// Collects the leases that have run out at a moment, in the order in which they end, so that they can be
    /// taken one after another. What was left of those before goes.
    pub fn collect_due(&mut self, moment: u64)
        ensures { self.new ≡ record self.old { due = run_out moment self.old.leases } }
    {
        self.due.clear();
        self.taken = 0;
        if self.soonest <= moment {
            collect(&self.list, moment, &mut self.due);
            sort_by_end(&mut self.due);
            self.look_on();
        }
    }

    /// If nothing was collected, finds anew the moment before which no lease ends.
    fn look_on(&mut self)
        ensures { self.new ≡ self.old }
    {
        if self.due.is_empty() {
            self.look_ahead();
        }
    }

    /// Takes the first of the leases that were collected and are not taken yet: its ID. The lease stays in
    /// the book.
    pub fn next_due(&mut self) -> Option<i64>
        ensures value { result ≡ option_map (λ lease. lease.id) (slice_get self.old.due 0) }
        ensures due { self.new ≡ record self.old { due = drop 1 self.old.due } }
    {
        let id = self.due.get(self.taken)?.id;
        self.taken += 1;
        Some(id)
    }

    /// Finds anew the moment before which no lease ends, in one pass over them. Until then one comparison
    /// tells that nothing has run out.
    pub fn look_ahead(&mut self)
        ensures { self.new ≡ self.old }
    {
        self.soonest = soonest_end(&self.list);
    }

    /// How many keys are attached to leases.
    pub fn key_count(&self) -> usize
        ensures count { result ≡ length self.now.attachments }
        ensures within { result ≤ self.now.room }
    {
        self.attachments.len()
    }

    /// The newest records of a lease's keys, by ascending key.
    pub fn keys_of(&self, id: i64) -> Keys<'_>
        ensures { result ≡ heads_of self.now.attachments id }
    {
        keys_in(&self.attachments, id)
    }

    /// Attaches a key to a lease, by the cell of its newest record. If the key is attached to the lease
    /// already, that record takes the place of the one before.
    pub fn attach<R: Records>(&mut self, id: i64, head: CellNo, records: &R)
        requires attached { AreAttached (R.cells records.now) self.old.attachments }
        requires head { IsSome (R.cells records.now head) }
        requires room { length self.old.attachments < self.old.room }
        ensures value { self.new ≡ record self.old {
          attachments = with_attachment
              (R.cells records.now) self.old.attachments (record { id = id; head = head });
        } }
        ensures attached { AreAttached (R.cells records.now) self.new.attachments }
    {
        put_key(&mut self.attachments, &Attachment { id, head }, records);
    }

    /// Detaches a key from a lease, by the cell of a record of the key. Nothing changes if it is not attached
    /// to the lease.
    pub fn detach<R: Records>(&mut self, id: i64, head: CellNo, records: &R)
        requires attached { AreAttached (R.cells records.now) self.old.attachments }
        requires head { IsSome (R.cells records.now head) }
        ensures value { self.new ≡ record self.old {
          attachments = without_attachment
              (R.cells records.now) self.old.attachments (record { id = id; head = head });
        } }
        ensures attached { AreAttached (R.cells records.now) self.new.attachments }
    {
        drop_key(&mut self.attachments, &Attachment { id, head }, records);
    }
}
