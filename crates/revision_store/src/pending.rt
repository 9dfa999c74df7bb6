//! Changes that are pending.
ghost use Rattle.std.specs.Prelude.{◌≡◌, ◌+◌, ◌<◌, ◌≤◌, ◌^◌, [], false, length, map, pos, vec_capacity, Some, None};
ghost use Rattle.std.specs.Prelude.{IfOk, OnOk, OnErr};
ghost use Rattle.etcd_types.specs.declared.reply.OpReply.TheVariants.{Delete as DeleteReply};
ghost use Rattle.etcd_types.specs.declared.txn.Op.TheVariants.{Range as RangeOp, Put as PutOp};
ghost use Rattle.etcd_types.specs.declared.txn.Op.TheVariants.{Delete as DeleteOp};
ghost use Rattle.etcd_model.specs.Operations.{and_changes, op_reply};
ghost use Rattle.etcd_model.specs.Ranges.{range_reply};
ghost use Rattle.etcd_model.specs.Reads.{revision_read, unreadable};
ghost use Rattle.revision_store.specs.Room.{most_room};
ghost use Rattle.revision_store.specs.Stored.{IsPlanFor, cells, changes_of, look, reads, row_at};
ghost use Rattle.revision_store.specs.Pending.{changes_key, pending_reads, puts_inside, puts_within};

use crate::growing::make_room;
use crate::mixing::mixed_reply;
use crate::overlaying::{needs_first, overlaid_reply};
use crate::pending_deletes::left_cells;
use crate::pending_puts::{puts_in, puts_of, unput_cells};
use crate::plan::{Plan, Write};
use crate::putting::DecidedPut;
use crate::ranging::{range_reply, walked_reply};
use crate::rows::rows_asked;
use crate::store::Store;
use etcd_types::{CellNo, DeleteReq, KeyValue, List, Mem, OpReply, PutReq, RangeReq};
use std::alloc::Global;
use std::marker::Model;

/// A store, with changes that are to be its next revision.
#[derive(Drop)]
pub struct Pending<'a> {
    store: &'a Store,
    /// In the order of their operations.
    plan: Plan,
    /// Where the puts stand in the plan.
    puts: Vec<usize>,
    deletes: Vec<&'a DeleteReq>,
}

impl<'a> Model for Pending<'a> {
    ghost use Rattle.std.specs.Prelude.{map};
    ghost use Rattle.revision_store.specs.Stored.{changes_of};
    ghost use Rattle.revision_store.specs.Pending.{PendingState, IsPending, pending_code};

    ghost Value = { PendingState };

    ghost coded = { pending_code };

    ghost view = { λ p. record { store = p.store.now; changes = changes_of p.store.now p.plan } };

    ghost invariant = { λ p.
        IsPending p.store.now p.plan p.puts.items (map (λ d. d.now) p.deletes.items) };
}

impl<'a> Pending<'a> {
    /// With nothing pending. It takes no memory.
    pub fn new(alloc: Global, store: &'a Store) -> Pending<'a>
        ensures { result ≡ record { store = store.now; changes = [] } }
    {
        store.use_invariant();
        Pending {
            store,
            plan: Plan::new(alloc),
            puts: Vec::new(alloc),
            deletes: Vec::new(alloc),
        }
    }

    /// The current revision: with changes pending, the one that they are to be.
    pub fn current(&self) -> u64
        ensures current { result ≡ (pending_reads self.now).current }
        ensures short { result < 2 ^ 63 }
    {
        if self.plan.is_empty() {
            self.store.current()
        } else {
            self.store.current() + 1
        }
    }

    /// Reads an interval, the newest rows with what is pending among them, or at a revision above 0
    /// the store's.
    pub fn range(&self, alloc: Global, request: &RangeReq) -> Mem<OpReply>
        requires { unreadable (reads self.now.store)
            (revision_read (reads self.now.store) request.now.revision) ≡ None }
        ensures { IfOk result
            (λ reply. reply
            ≡ op_reply (pending_reads self.now) (pending_reads self.now).current (RangeOp request.now)) }
    {
        let key = request.key.as_slice();
        let range_end = request.range_end.as_slice();
        if request.revision > 0 {
            return self.store.range_at(alloc, request, self.current());
        }
        if puts_in(self.plan.writes(), &self.puts, key, range_end) {
            return self.mixed_range(alloc, request);
        }
        let store = self.store;
        if self.deletes.is_empty() {
            let cells = store.log.newest_cells(key, range_end);
            return walked_reply(alloc, &store.log, request, cells, self.current());
        }
        let cells = self.live_cells(alloc, key, range_end)?;
        range_reply(alloc, &store.log, request, cells, self.current())
    }

    /// The same of the newest rows with the puts that are pending among them. Where nothing is deleted and the first of
    /// them will do, no more of the store's are listed than are given and put.
    fn mixed_range(&self, alloc: Global, request: &RangeReq) -> Mem<OpReply>
        ensures { IfOk result
            (λ reply. reply
            ≡ range_reply (pending_reads self.now).current request.now
            ((pending_reads self.now).rows request.now.key request.now.range_end)) }
    {
        let key = request.key.as_slice();
        let range_end = request.range_end.as_slice();
        let store = self.store;
        let puts = puts_of(alloc, self.plan.writes(), &self.puts, key, range_end)?;
        if self.deletes.is_empty() && needs_first(request) {
            store.log.use_few_rows();
            let cells = store.log.newest_cells(key, range_end);
            return overlaid_reply(alloc, &store.log, request, cells, &puts, self.current());
        }
        let live = store.log.newest_list(alloc, key, range_end)?;
        let left = left_cells(alloc, &store.log, live, &self.deletes)?;
        let left = unput_cells(&store.log, left, &puts);
        mixed_reply(alloc, &store.log, request, left, &puts, self.current())
    }

    /// Puts a key that nothing pending changes, and answers as if it was done. Without memory
    /// nothing changes.
    pub fn add_put(&mut self, alloc: Global, request: &PutReq) -> Mem<OpReply>
        requires once { changes_key request.now.key self.old.changes ≡ false }
        requires revisions { self.old.store.kept.current + 1 < 2 ^ 63 }
        ensures changes { OnOk result (self.new
            ≡ record {
              store = self.old.store;
              changes = and_changes (look self.old.store) self.old.changes (PutOp request.now);
            }) }
        ensures reply { IfOk result
            (λ reply. reply
            ≡ op_reply (pending_reads self.old) (self.old.store.kept.current + 1) (PutOp request.now)) }
        ensures memory { OnErr result (self.new ≡ self.old) }
    {
        make_room(&mut self.puts, 1)?;
        let live = self.store.live(request.key.as_slice());
        let DecidedPut { row, reply } = self.store.decide_put(alloc, request, live)?;
        let place = self.plan.len();
        self.plan.push(Write::Put(row))?;
        self.puts.push_reserved(place);
        Ok(reply)
    }

    /// Deletes the live keys of an interval that nothing pending puts, and answers as if it was
    /// done. Without memory nothing changes.
    pub fn add_delete(&mut self, alloc: Global, request: &'a DeleteReq) -> Mem<OpReply>
        requires once { puts_inside request.now self.old.changes ≡ false }
        requires revisions { self.old.store.kept.current + 1 < 2 ^ 63 }
        ensures changes { OnOk result (self.new
            ≡ record {
              store = self.old.store;
              changes = and_changes (look self.old.store) self.old.changes (DeleteOp request.now);
            }) }
        ensures reply { IfOk result
            (λ reply. reply
            ≡ op_reply (pending_reads self.old) (pending_reads self.new).current (DeleteOp request.now)) }
        ensures memory { OnErr result (self.new ≡ self.old) }
    {
        let cells = self.live_cells(alloc, request.key.as_slice(), request.range_end.as_slice())?;
        let store = self.store;
        let prev_kvs = rows_asked(alloc, &store.log, &cells, request.prev_kv)?;
        make_room(&mut self.deletes, 1)?;
        self.plan.push_deletes(&cells)?;
        self.deletes.push_reserved(request);
        Ok(delete_reply(self.current(), cells.len() as u64, prev_kvs))
    }

    /// The cells of the rows of an interval that nothing pending puts.
    fn live_cells(&self, alloc: Global, key: &[u8], range_end: &[u8]) -> Mem<Vec<CellNo>>
        requires { puts_within key.now range_end.now self.now.changes ≡ false }
        ensures cells { IfOk result
            (λ found. map (row_at (cells self.now.store)) found.items
            ≡ map Some ((pending_reads self.now).rows key.now range_end.now)) }
        ensures room { IfOk result (λ found. vec_capacity found ≤ most_room (length found.items)) }
    {
        let store = self.store;
        let live = store.log.newest_list(alloc, key, range_end)?;
        left_cells(alloc, &store.log, live, &self.deletes)
    }

    /// What is pending, to be committed.
    pub fn finish(self) -> Plan
        ensures plan { IsPlanFor self.entry.store result }
        ensures changes { changes_of self.entry.store result ≡ self.entry.changes }
    {
        let Pending {
            store: _,
            plan,
            puts: _,
            deletes: _,
        } = self;
        plan
    }
}

/// The answer to a delete.
fn delete_reply(revision: u64, deleted: u64, prev_kvs: List<KeyValue>) -> OpReply
    requires { revision < 2 ^ 63 }
    ensures { result ≡ DeleteReply (pos revision) deleted prev_kvs }
{
    OpReply::Delete {
        revision: revision as i64,
        deleted,
        prev_kvs,
    }
}
