//! The events that a watch is told, read from the cells of their records.
ghost use Rattle.std.specs.Prelude.{◌≡◌, ◌+◌, ◌≤◌, [], IfOk, IfSome, IsOk, IsSome, false, map, nat_le, true};
ghost use Rattle.std.specs.List.{AllByRecursion};
ghost use Rattle.etcd_types.specs.Limits.{progress_seconds};
ghost use Rattle.etcd_types.specs.declared.reply.Reply.TheVariants.{Events};
ghost use Rattle.etcd_model.specs.Watches.{bare, is_due, response};
ghost use Rattle.key_index.specs.Links.{change_at};
ghost use Rattle.revision_store.specs.Stored.{cells};
ghost use Rattle.watch_sync.specs.Ahead.{ahead, is_put_at};
ghost use Rattle.watch_sync.specs.Agreeing.{Agrees};
ghost use Rattle.watch_sync.specs.Gathering.{first_changes, next_told};
ghost use Rattle.watch_sync.specs.Telling.{IsKept, event_of, events_at, row_asked};

use crate::noted::Noted;
use crate::wanting::{is_put_at, revision_at};
use crate::watch::OpenWatch;
use etcd_model::state::Watch;
use etcd_types::limits::PROGRESS_SECONDS;
use etcd_types::{CellNo, Event, EventKind, Header, KeyValue, List, Mem, Reply};
use revision_store::Store;
use std::alloc::Global;

/// Of a deleted key the key and the revision alone.
fn bare(alloc: Global, key: List<u8>, revision: u64) -> KeyValue
    ensures { result ≡ bare key revision }
{
    KeyValue {
        key,
        create_revision: 0,
        mod_revision: revision,
        version: 0,
        value: List::new(alloc),
        lease: 0,
    }
}

/// The row before a change, if the watch asks for it and no compaction forgot it.
fn row_before(alloc: Global, store: &Store, watch: &Watch, cell: CellNo) -> Mem<Option<KeyValue>>
    requires { IsSome (cells store.now cell) }
    ensures { IfOk result (λ row. IfSome (change_at (cells store.now) cell)
        (λ x. row ≡ row_asked store.now.kept watch.now x)) }
{
    if watch.prev_kv {
        store.row_before(alloc, cell)
    } else {
        Ok(None)
    }
}

/// The event of a put.
fn put_event(alloc: Global, store: &Store, watch: &Watch, cell: CellNo) -> Mem<Event>
    requires kept { IsKept store.now cell }
    requires put { is_put_at (cells store.now) cell ≡ true }
    ensures { IfOk result (λ event. IfSome (change_at (cells store.now) cell)
        (λ x. event ≡ event_of store.now.kept watch.now x)) }
{
    store.use_invariant();
    let prev_kv = row_before(alloc, store, watch, cell)?;
    let kv = store.row(alloc, cell)?;
    Ok(Event {
        kind: EventKind::Put,
        kv,
        prev_kv,
    })
}

/// The event of a delete.
fn delete_event(alloc: Global, store: &Store, watch: &Watch, cell: CellNo) -> Mem<Event>
    requires kept { IsKept store.now cell }
    requires delete { is_put_at (cells store.now) cell ≡ false }
    ensures { IfOk result (λ event. IfSome (change_at (cells store.now) cell)
        (λ x. event ≡ event_of store.now.kept watch.now x)) }
{
    let prev_kv = row_before(alloc, store, watch, cell)?;
    let key = store.key(alloc, cell)?;
    Ok(Event {
        kind: EventKind::Delete,
        kv: bare(alloc, key, revision_at(store, cell)),
        prev_kv,
    })
}

/// The event of the change under a cell.
fn event_of(alloc: Global, store: &Store, watch: &Watch, cell: CellNo) -> Mem<Event>
    requires { IsKept store.now cell }
    ensures { IfOk result (λ event. IfSome (change_at (cells store.now) cell)
        (λ x. event ≡ event_of store.now.kept watch.now x)) }
{
    if is_put_at(store, cell) {
        put_event(alloc, store, watch, cell)
    } else {
        delete_event(alloc, store, watch, cell)
    }
}

/// The events of some changes.
pub(crate) fn events_of(
    alloc: Global,
    store: &Store,
    watch: &Watch,
    notes: &[Noted],
) -> Mem<List<Event>>
    requires { AllByRecursion (λ n. IsKept store.now n.cell) notes.now }
    ensures { IfOk result
        (λ events. events ≡ events_at (cells store.now) store.now.kept watch.now notes.now) }
{
    let mut events = Vec::with_capacity(alloc, notes.len())?;
    for note in notes {
        events.push_reserved(event_of(alloc, store, watch, note.cell)?);
    }
    Ok(List::from_vec(events))
}

impl OpenWatch {
    /// Whether its last response was so long ago that word of no event is due.
    fn has_waited(&self, moment: u64) -> bool
        ensures { result ≡ nat_le (self.now.watch.told + progress_seconds) moment }
    {
        moment.saturating_sub(self.told_at()) >= PROGRESS_SECONDS
    }

    /// Whether it is to be told that there is no event.
    pub fn is_due(&self, store: &Store, moment: u64) -> bool
        ensures { result ≡ is_due store.now.kept.current moment self.now.watch }
    {
        self.asks_progress() && self.next() <= store.current() + 1 && self.has_waited(moment)
    }

    /// The answer where there is no event.
    fn no_event(&self, store: &Store, header: Header, moment: u64) -> Reply
        ensures { result ≡ response header self.now.watch.id
            (is_due store.now.kept.current moment self.now.watch) [] }
    {
        if self.is_due(store, moment) {
            Reply::Progress {
                header,
                watch_id: self.watch.id,
            }
        } else {
            Reply::Quiet
        }
    }

    /// The answer with some events.
    fn reply(&self, header: Header, events: List<Event>) -> Reply
        ensures { result ≡ Events header self.now.watch.id events }
    {
        Reply::Events {
            header,
            watch_id: self.watch.id,
            events,
        }
    }

    /// The events of some changes.
    fn events(&self, alloc: Global, store: &Store, notes: &[Noted]) -> Mem<List<Event>>
        requires { AllByRecursion (λ n. IsKept store.now n.cell) notes.now }
        ensures { IfOk result
            (λ events. events ≡ events_at (cells store.now) store.now.kept self.now.watch notes.now) }
    {
        events_of(alloc, store, &self.watch, notes)
    }

    /// What the watch is told next at a moment, and the revision at which it goes on after that.
    pub fn tell(
        &self,
        alloc: Global,
        store: &Store,
        header: Header,
        moment: u64,
    ) -> Mem<(Reply, u64)>
        requires whole { store.now.kept.compacted ≤ self.now.watch.next }
        requires agrees { Agrees self.now store.now }
        ensures reply { IfOk result (λ told. told.0 ≡ response header self.now.watch.id
            (is_due store.now.kept.current moment self.now.watch) (map (event_of store.now.kept self.now.watch)
            (first_changes (ahead self.now.watch store.now.kept.changes)))) }
        ensures next { IfOk result (λ told. told.1
            ≡ next_told store.now.kept.current self.now.watch (ahead self.now.watch store.now.kept.changes)) }
        ensures later { IfOk result (λ told. self.now.watch.next ≤ told.1) }
        ensures sure { ahead self.now.watch store.now.kept.changes ≡ [] → IsOk result }
    {
        let found = self.gather(alloc, store)?;
        let next = found.next(store.current(), self.next());
        let notes = found.notes();
        if notes.is_empty() {
            return Ok((self.no_event(store, header, moment), next));
        }
        let events = self.events(alloc, store, notes)?;
        let reply = self.reply(header, events);
        Ok((reply, next))
    }
}
