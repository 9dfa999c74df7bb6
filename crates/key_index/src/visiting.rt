//! A compaction of all keys. It visits the changes since the last one, up to its revision, and no others; unless they
//! are so many that one walk over all keys is faster.
//!
//! The cells of all records stand in two lists, in the order of their changes. The first has the settled ones: what
//! compactions went over and left, from below their revisions. They are puts, and each is the first record of its
//! key. The second has the recent ones, from the revision of the last compaction on. A key with no recent change up to
//! a revision has at most its settled put up to it, and that stays. So what a compaction drops is of a key that
//! it visits.
//!
//! An example: a is put at 2, b at 3, a again at 4, b is deleted at 5, and c is put at 6.
//!
//! | compaction at | visits | drops | settled then | recent then |
//! |---|---|---|---|---|
//! | 4 | 2, 3, 4 | 2 | 3 | 4, 5, 6 |
//! | 6 | 4, 5, 6 | 3, 5 | 4 | 6 |
ghost use Rattle.std.specs.Prelude.{◌≡◌, ◌+◌, ◌≤◌, ◌++◌, length, take, drop, IfSome};
ghost use Rattle.chunk_list.specs.Chunked.{TurnsAt};
ghost use Rattle.key_index.specs.Compaction.{Frees, IsCompacted, times};
ghost use Rattle.key_index.specs.Order.{with_records};
ghost use Rattle.key_index.specs.declared.visiting.Until.TheVariants.{Through};
ghost use Rattle.key_index.specs.Visiting.{AreLeft, AreOrders, IsIndexed, IsLeft, IsOrdered, Visits};
ghost use Rattle.key_index.specs.Visiting.{has_within, is_within, without_cell};

use crate::index::KeyIndex;
use crate::records::{Records, RecordsMut};
use chunk_list::{ChunkList, Test};
use etcd_types::CellNo;

/// A visit looks a key up, which takes about as long as a walk over all keys takes for so many of them.
const VISIT: usize = 32;

/// Up to which revision changes count: below it, or through it.
#[derive(Clone, Copy)]
enum Until {
    Before(u64),
    Through(u64),
}

/// Drops what a compaction at a revision doesn't keep: the records, the places of keys of which none is left, and
/// their cells in the order, of which those that it leaves from below the revision are settled. It takes no memory.
pub fn cut_changes<R: RecordsMut>(
    index: &mut KeyIndex,
    settled: &mut ChunkList<CellNo>,
    recent: &mut ChunkList<CellNo>,
    records: &mut R,
    revision: u64,
)
    requires indexed { IsIndexed (R.cells records.old) index.old }
    requires orders { AreOrders (R.cells records.old) settled.old.items recent.old.items }
    requires room { length settled.old.items + length recent.old.items ≤ settled.old.room }

    ensures indexed { IsIndexed (R.cells records.new) index.new }
    ensures compacted { IsCompacted (R.cells records.old) (R.cells records.new) revision }
    ensures left { AreLeft (R.cells records.new) settled.old recent.old settled.new recent.new }
    ensures capacity { index.new.capacity ≡ index.old.capacity }
    ensures taken { index.new.taken ≡ index.old.taken }
    ensures free { Frees R.cost R.cells R.free records.old records.new }
    ensures rest { R.same_rest records.old records.new }
{
    let passed = count_until(recent, records, Until::Through(revision));
    let below = count_until(recent, records, Until::Before(revision));
    drop_all(index, settled, recent, records, passed, revision);
    settle(settled, recent, records, below);
}

/// Drops the records that a compaction doesn't keep, by visits of so many recent changes, which are those through
/// the revision; or by one walk over all keys, where there are so many that the visits would take longer.
fn drop_all<R: RecordsMut>(
    index: &mut KeyIndex,
    settled: &mut ChunkList<CellNo>,
    recent: &ChunkList<CellNo>,
    records: &mut R,
    count: usize,
    revision: u64,
)
    requires indexed { IsIndexed (R.cells records.old) index.old }
    requires orders { AreOrders (R.cells records.old) settled.old.items recent.now.items }
    requires turns { TurnsAt (has_within (R.cells records.old) (Through revision)) recent.now.items count }

    ensures indexed { IsIndexed (R.cells records.new) index.new }
    ensures compacted { IsCompacted (R.cells records.old) (R.cells records.new) revision }
    ensures left { IsLeft (R.cells records.new) settled.old settled.new }
    ensures capacity { index.new.capacity ≡ index.old.capacity }
    ensures taken { index.new.taken ≡ index.old.taken }
    ensures free { Frees R.cost R.cells R.free records.old records.new }
    ensures rest { R.same_rest records.old records.new }
{
    if count < settled.len() / VISIT + recent.len() / VISIT {
        visit_all(index, settled, recent, records, count, revision);
    } else {
        index.cut(records, revision);
        keep_recorded(settled, records);
    }
}

/// Leaves the cells of an order that have a record.
fn keep_recorded<R: Records>(order: &mut ChunkList<CellNo>, records: &R)
    ensures { IsLeft (R.cells records.now) order.old order.new }
{
    order.retain(&HasRecord { records });
}

/// Visits so many of the recent changes, which are those through the revision.
fn visit_all<R: RecordsMut>(
    index: &mut KeyIndex,
    settled: &mut ChunkList<CellNo>,
    recent: &ChunkList<CellNo>,
    records: &mut R,
    count: usize,
    revision: u64,
)
    requires indexed { IsIndexed (R.cells records.old) index.old }
    requires orders { AreOrders (R.cells records.old) settled.old.items recent.now.items }
    requires turns { TurnsAt (has_within (R.cells records.old) (Through revision)) recent.now.items count }

    ensures indexed { IsIndexed (R.cells records.new) index.new }
    ensures compacted { IsCompacted (R.cells records.old) (R.cells records.new) revision }
    ensures left { IsLeft (R.cells records.new) settled.old settled.new }
    ensures capacity { index.new.capacity ≡ index.old.capacity }
    ensures taken { index.new.taken ≡ index.old.taken }
    ensures free { Frees R.cost R.cells R.free records.old records.new }
    ensures rest { R.same_rest records.old records.new }
{
    let mut place = recent.start();
    'visiting: for _visited in 0..count {
        let cell = recent.get(place);
        place = recent.next(place);
        visit(index, settled, records, cell, revision);
    }
}

/// Compacts the key of the record under a cell, unless a change of the key that was visited before took that with it.
fn visit<R: RecordsMut>(
    index: &mut KeyIndex,
    settled: &mut ChunkList<CellNo>,
    records: &mut R,
    cell: CellNo,
    revision: u64,
)
    requires indexed { IsIndexed (R.cells records.old) index.old }
    requires ordered { IsOrdered (R.cells records.old) settled.old.items }
    requires once { IfSome (R.cells records.old cell)
        (λ e. IfSome e.older (λ d. times d settled.old.items ≡ 1)) }

    ensures indexed { IsIndexed (R.cells records.new) index.new }
    ensures visits { Visits (R.cells records.old cell) (R.cells records.old) (R.cells records.new) revision
        settled.old.items settled.new.items }
    ensures capacity { index.new.capacity ≡ index.old.capacity }
    ensures taken { index.new.taken ≡ index.old.taken }
    ensures room { settled.new.room ≡ settled.old.room }
    ensures free { Frees R.cost R.cells R.free records.old records.new }
    ensures rest { R.same_rest records.old records.new }
{
    if records.has(cell) {
        // What it is linked to is older than all recent ones, so it is settled, and goes.
        if let Some(older) = records.older(cell) {
            take_out(settled, records, older);
        }
        index.cut_key(records, cell, revision);
    }
}

/// Takes a cell out of an order in which it stands.
fn take_out<R: Records>(order: &mut ChunkList<CellNo>, records: &R, cell: CellNo)
    requires ordered { IsOrdered (R.cells records.now) order.old.items }
    requires once { times cell order.old.items ≡ 1 }
    ensures items { order.new.items ≡ without_cell (Some cell) order.old.items }
    ensures room { order.new.room ≡ order.old.room }
{
    let until = Until::Before(records.revision(cell));
    let mut place = order.search(&HasWithin { records, until });
    while order.get(place) != cell {
        place = order.next(place);
    }
    order.remove(place);
}

/// Takes so many changes off the recent ones, and settles those that are left of them.
fn settle<R: Records>(
    settled: &mut ChunkList<CellNo>,
    recent: &mut ChunkList<CellNo>,
    records: &R,
    count: usize,
)
    requires within { count ≤ length recent.old.items }
    requires room { length settled.old.items + count ≤ settled.old.room }
    ensures settled { settled.new.items
        ≡ settled.old.items ++ with_records (R.cells records.now) (take count recent.old.items) }
    ensures recent { recent.new.items ≡ drop count recent.old.items }
    ensures settled_room { settled.new.room ≡ settled.old.room }
    ensures recent_room { recent.new.room ≡ recent.old.room }
{
    'settling: for _settled in 0..count {
        let first = recent.start();
        let cell = recent.remove(first);
        if records.has(cell) {
            settled.append(cell);
        }
    }
}

/// How many changes of an order are at revisions that count.
fn count_until<R: Records>(order: &ChunkList<CellNo>, records: &R, until: Until) -> usize
    requires { IsOrdered (R.cells records.now) order.now.items }
    ensures { TurnsAt (has_within (R.cells records.now) until) order.now.items result }
{
    let end = order.search(&HasWithin { records, until });
    order.count_between(order.start(), end)
}

/// Whether a cell has a record.
#[derive(Drop)]
struct HasRecord<'a, R> {
    records: &'a R,
}

impl<'a, R: Records> Test<CellNo> for HasRecord<'a, R> {
    ghost use Rattle.std.specs.Prelude.{is_some};

    ghost can = { λ s c. Unit {0} };

    ghost test = { λ s c. is_some (R.cells s.records.now c) };

    fn holds(&self, cell: CellNo) -> bool {
        self.records.has(cell)
    }
}

/// Whether the change under a cell is at a revision that counts.
#[derive(Drop)]
struct HasWithin<'a, R> {
    records: &'a R,
    until: Until,
}

impl<'a, R: Records> Test<CellNo> for HasWithin<'a, R> {
    ghost use Rattle.std.specs.Prelude.{IsSome};
    ghost use Rattle.key_index.specs.Visiting.{has_within};

    ghost can = { λ s c. IsSome (R.cells s.records.now c) };

    ghost test = { λ s c. has_within (R.cells s.records.now) s.until c };

    fn holds(&self, cell: CellNo) -> bool {
        is_within(self.until, self.records.revision(cell))
    }
}

fn is_within(until: Until, revision: u64) -> bool
    ensures { result ≡ is_within until revision }
{
    match until {
        Until::Before(end) => revision < end,
        Until::Through(last) => revision <= last,
    }
}
