//! Ranges that give the rows of an interval that changed last, found among the last changes where those left enough.
ghost use Rattle.std.specs.Prelude.{◌≡◌, ◌<◌, ◌≤◌, ◌^◌, IfOk, IfSome, IsSome, length, map, min, option_and_then, true, vec_capacity};
ghost use Rattle.std.specs.List.{AllByRecursion};
ghost use Rattle.etcd_model.specs.Changes.{rows, since};
ghost use Rattle.etcd_model.specs.Interval.{is_in};
ghost use Rattle.etcd_model.specs.Ranges.{range_reply};
ghost use Rattle.range_rows.specs.Reading.{read};
ghost use Rattle.range_rows.specs.Taking.{HaveOwnKeys, first_of, most_held};
ghost use Rattle.revision_store.specs.Latest.{LeavesNoneAt, gives_last, row_left_at, rows_left_at};
ghost use Rattle.revision_store.specs.Stored.{cells, row_at};

use crate::keys::lies_in;
use crate::ranging::reply_of;
use crate::store::Store;
use crate::taking::row_read;
use crate::walking::Changes;
use etcd_types::{CellNo, KeyValue, Mem, OpReply, RangeReq, SortOrder, SortTarget};
use key_index::Records;
use range_rows::{is_cut, keep_few, keep_first, limit_of, most_held, shown, wants_all};
use std::alloc::Global;

/// For so many rows of an interval one change is looked at, at most. To look up what a change left takes as long as to
/// read about four rows, so where too few are found in the end, little time is lost.
const ROWS_FOR_A_CHANGE: usize = 16;

/// Where so many changes left no row of the interval, those before them are not looked at: often they are deletes too,
/// and each takes a while to be told as one.
const TELLING: usize = 100;

/// What a look at some of the last changes gives.
struct Look {
    /// The reply, where they left as many rows as are given.
    reply: Option<OpReply>,
    /// They left a row of the interval, or are too many to look at.
    found: bool,
}

/// A range gives rows in the order of their last changes, the last one first, and has no filter.
pub(crate) fn gives_last(request: &RangeReq) -> bool
    ensures { result ≡ gives_last request.now }
{
    !request.count_only
        && (wants_all(request)
            && matches!(
                (request.sort_order, request.sort_target),
                (SortOrder::Descend, SortTarget::Mod)
            ))
}

impl Store {
    /// What such a range of the newest rows is answered at a revision, where its interval has so many rows: if few of
    /// the last changes left as many of them as are given. More and more are looked at, as long as to read all rows
    /// would take longer and some left a row.
    pub(crate) fn last_reply(
        &self,
        alloc: Global,
        request: &RangeReq,
        count: usize,
        revision: u64,
    ) -> Mem<Option<OpReply>>
        requires last { gives_last request.now ≡ true }
        requires count { count
            ≡ length (rows (is_in request.now.key request.now.range_end) self.now.kept.current
            self.now.kept.changes) }
        requires revision { revision < 2 ^ 63 }
        ensures { IfOk result
            (λ found. IfSome found (λ reply. reply
            ≡ range_reply revision request.now
            (rows (is_in request.now.key request.now.range_end) self.now.kept.current
            self.now.kept.changes))) }
    {
        let limit = limit_of(request, count);
        let mut looked = limit.saturating_mul(2).saturating_add(1);
        while looked <= count / ROWS_FOR_A_CHANGE {
            let from = self.revision_before(looked);
            let Look { reply, found } = self.look_since(alloc, request, from, count, revision)?;
            if reply.is_some() || (looked >= TELLING && !found) {
                return Ok(reply);
            }
            looked = looked.saturating_mul(8);
        }
        Ok(None)
    }

    /// The same, of the changes from a revision on.
    fn look_since(
        &self,
        alloc: Global,
        request: &RangeReq,
        from: u64,
        count: usize,
        revision: u64,
    ) -> Mem<Look>
        requires last { gives_last request.now ≡ true }
        requires count { count
            ≡ length (rows (is_in request.now.key request.now.range_end) self.now.kept.current
            self.now.kept.changes) }
        requires revision { revision < 2 ^ 63 }
        ensures { IfOk result
            (λ look. IfSome look.reply (λ reply. reply
            ≡ range_reply revision request.now
            (rows (is_in request.now.key request.now.range_end) self.now.kept.current
            self.now.kept.changes))) }
    {
        self.use_invariant();
        self.log.use_own_revisions();
        let changes = self.since(from);
        if changes.len() > count / ROWS_FOR_A_CHANGE {
            return Ok(Look {
                reply: None,
                found: true,
            });
        }
        let limit = limit_of(request, count);
        let rows = self.last_rows(alloc, request, changes, limit)?;
        if rows.len() < limit {
            return Ok(Look {
                reply: None,
                found: !rows.is_empty(),
            });
        }
        let more = is_cut(request, count);
        let kvs = shown(alloc, request, rows);
        Ok(Look {
            reply: Some(reply_of(revision, count as u64, kvs, more)),
            found: true,
        })
    }

    /// A revision from which on there are so many changes, or all. Each step goes twice as far back.
    fn revision_before(&self, count: usize) -> u64
        ensures { min count (length self.now.kept.changes) ≤ length (since result self.now.kept.changes) }
    {
        let current = self.current();
        let mut back = 1;
        while back < current {
            let from = current - back;
            if self.since(from).len() >= count {
                return from;
            }
            back *= 2;
        }
        0
    }

    /// So many of the rows of an interval that some changes left, the first ones in the order of a range. No more than
    /// about twice as many are held at a time.
    fn last_rows(
        &self,
        alloc: Global,
        request: &RangeReq,
        mut changes: Changes<'_>,
        limit: usize,
    ) -> Mem<Vec<KeyValue>>
        requires there { AllByRecursion (λ c. IsSome (cells self.now c)) changes }
        requires gone { AllByRecursion
            (LeavesNoneAt (cells self.now) (is_in request.now.key request.now.range_end)
            self.now.kept.current self.now.kept.changes) changes }
        requires own { HaveOwnKeys
            (rows_left_at (cells self.now) (is_in request.now.key request.now.range_end)
            self.now.kept.current self.now.kept.changes changes) }
        ensures rows { IfOk result
            (λ found. found.items
            ≡ first_of request.now limit
            (map (read request.now)
            (rows_left_at (cells self.now) (is_in request.now.key request.now.range_end)
            self.now.kept.current self.now.kept.changes changes.entry))) }
        ensures room { IfOk result (λ found. vec_capacity found ≡ most_held limit (length changes.entry)) }
    {
        let mut rows = Vec::with_capacity(alloc, most_held(limit, changes.len()))?;
        while let Some(cell) = changes.next() {
            if let Some(left) = self.row_left(alloc, request, cell)? {
                keep_few(&mut rows, request, limit);
                rows.push_reserved(row_read(alloc, &self.log, request, left)?);
            }
        }
        keep_first(&mut rows, request, limit);
        Ok(rows)
    }

    /// The cell of the row that a change left to its key, if the key lies in the interval of a range and shows that row.
    /// A delete left none, and to look its key up would take as long as to read some rows.
    fn row_left(&self, alloc: Global, request: &RangeReq, cell: CellNo) -> Mem<Option<CellNo>>
        requires there { IsSome (cells self.now cell) }
        requires gone { LeavesNoneAt (cells self.now) (is_in request.now.key request.now.range_end)
            self.now.kept.current self.now.kept.changes cell }
        ensures row { IfOk result
            (λ found. option_and_then (row_at (cells self.now)) found
            ≡ row_left_at (cells self.now) (is_in request.now.key request.now.range_end)
            self.now.kept.current self.now.kept.changes cell) }
        ensures there { IfOk result (λ found. IfSome found (λ c. IsSome (row_at (cells self.now) c))) }
    {
        let records = self.records();
        if !records.is_put(cell) {
            return Ok(None);
        }
        if !lies_in(
            &records,
            cell,
            request.key.as_slice(),
            request.range_end.as_slice(),
        ) {
            return Ok(None);
        }
        let key = self.key(alloc, cell)?;
        match self.live(key.as_slice()) {
            Some(live) if self.log.revisions(live).1 == records.revision(cell) => Ok(Some(live)),
            _ => Ok(None),
        }
    }
}
