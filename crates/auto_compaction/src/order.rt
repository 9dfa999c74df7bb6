//! When a tenant is compacted by its standing order, with the meaning that etcd gives it.
//!
//! - `Seconds`: the current revision is noted ten times a period, a period being an hour at the most. Once a revision was
//!   noted so long ago, the tenant is compacted once a period, at the last one that is old enough.
//! - `Revisions`: every five minutes the tenant is compacted at the current revision less those that are kept, if that is
//!   above 0 and was not done before.
//!
//! The worked example for 100 seconds, with a put each ten seconds from revision 2 on: revisions 1, 2, 3, .. are noted at the
//! seconds 10, 20, 30, ..; at 110 the one of second 10 is 100 seconds old, and the tenant is compacted there; again at 210.
ghost use Rattle.std.specs.Prelude.{◌≡◌, ◌<◌, ◌≤◌, ◌+◌, ◌+ℤ◌, ℤ, pos, length, max, min, Some, IfSome, IfOk, IsSome};
ghost use Rattle.std.specs.List.{HoldsAt};
ghost use Rattle.auto_compaction.specs.declared.retention.Retention.TheVariants.{Seconds, Revisions};
ghost use Rattle.auto_compaction.specs.Sparing.{is_old, is_due, count_seconds, look_seconds, max_notes, max_period, period_seconds};
ghost use Rattle.auto_compaction.specs.Sparing.{step_seconds, IsChange, IsDue, IsLast, IsNew, IsNoted, IsNotedAs, IsLastDue, MayGo};

use crate::retention::{MAX_RETENTION, Retention};
use etcd_types::Mem;
use std::alloc::Global;
use std::collections::VecDeque;

/// The longest time between two compactions, in seconds.
const MAX_PERIOD: u64 = 3_600;

/// How often a revision is noted in a period.
const NOTES_A_PERIOD: u64 = 10;

/// The most notes that there are: of 30 days one each six minutes, and one that is older.
const MAX_NOTES: u64 = 7_201;

/// How many seconds lie between two compactions that keep a number of revisions.
const SECONDS_A_COUNT: u64 = 300;

/// The revision that was current at a moment.
#[derive(Clone, Copy)]
struct Note {
    moment: u64,
    revision: i64,
}

impl Note {
    /// It was made so many seconds ago, or earlier.
    fn is_old(self, seconds: u64, moment: u64) -> bool
        ensures { result ≡ is_old self seconds moment }
    {
        self.moment <= moment && moment - self.moment >= seconds
    }
}

/// A revision that a tenant's standing order lets go. Orders alone tell one, of their own tenants, and it is used once.
#[derive(Drop)]
pub struct DueRevision {
    tenant: u64,
    revision: i64,
}

impl DueRevision {
    /// The number of the tenant.
    pub fn tenant(&self) -> u64
        ensures { result ≡ self.now.tenant }
    {
        self.tenant
    }

    /// The revision before which the history goes.
    pub fn revision(&self) -> i64
        ensures { result ≡ self.now.revision }
    {
        self.revision
    }
}

/// A tenant's standing order, and how far it was carried out.
pub struct StandingOrder {
    /// The number of the tenant.
    tenant: u64,
    retention: Retention,
    /// The moment from which on the revision is to be looked at again.
    next: u64,
    /// The moment from which on the tenant may be compacted again.
    compacts: u64,
    /// What was noted, the oldest first. There is room for all that is to be noted.
    notes: VecDeque<Note>,
    /// The last revision that the tenant was compacted at.
    last: i64,
}

impl Drop for StandingOrder {
    fn drop(self) {
        let StandingOrder {
            tenant: _,
            retention: _,
            next: _,
            compacts: _,
            notes: _,
            last: _,
        } = self;
    }
}

impl StandingOrder {
    /// An order that is carried out from when the tenant of that number has it. It is an error where there is no memory.
    pub fn new(alloc: Global, tenant: u64, retention: Retention) -> Mem<StandingOrder>
        ensures { IfOk result (IsNew tenant retention) }
    {
        Ok(StandingOrder {
            tenant,
            retention,
            next: 0,
            compacts: 0,
            notes: VecDeque::with_capacity(alloc, notes_of(retention))?,
            last: 0,
        })
    }

    /// The number of the tenant.
    pub fn tenant(&self) -> u64
        ensures { result ≡ self.now.tenant }
    {
        self.tenant
    }

    /// The tenant's revision is to be looked at.
    pub fn is_due(&self, moment: u64) -> bool
        ensures { result ≡ is_due self.now moment }
    {
        self.retention != Retention::All && moment >= self.next
    }

    /// The revision at which the tenant is to be compacted now, if it is, whose current revision this is. What its order
    /// keeps stays.
    pub fn look(&mut self, moment: u64, revision: i64) -> Option<DueRevision>
        ensures spares { IfSome result
            (λ due. MayGo self.new.retention self.new.notes.items moment revision due.revision) }
        ensures due { IsDue self.old self.new.notes.items moment revision self.old.retention → IsSome result }
        ensures whose { IfSome result (λ due. due.tenant ≡ self.old.tenant) }
        ensures notes { IsNoted self.old.notes.items (record { moment = moment; revision = revision }) self.new.notes.items }
        ensures next { self.new.next ≤ max self.old.next (moment + look_seconds self.old.retention) }
        ensures again { self.new.compacts ≤ max self.old.compacts (moment + period_seconds self.old.retention) }
        ensures last { IsLastDue self.old.last result self.new.last }
        ensures stays { self.new.retention ≡ self.old.retention }
        ensures tenant { self.new.tenant ≡ self.old.tenant }
    {
        let due = match self.retention {
            Retention::All => None,
            Retention::Seconds(seconds) => self.look_at_time(moment, revision, seconds),
            Retention::Revisions(count) => self.look_at_count(moment, revision, count),
        };
        match due {
            Some(revision) => Some(DueRevision {
                tenant: self.tenant,
                revision,
            }),
            None => None,
        }
    }

    fn look_at_time(&mut self, moment: u64, revision: i64, seconds: u64) -> Option<i64>
        ensures oldest { IfSome result (λ at. HoldsAt (IsNotedAs seconds moment at) self.new.notes.items 0) }
        ensures due { IsDue self.old self.new.notes.items moment revision (Seconds seconds) → IsSome result }
        ensures notes { IsNoted self.old.notes.items (record { moment = moment; revision = revision }) self.new.notes.items }
        ensures next { self.new.next ≤ moment + step_seconds seconds }
        ensures again { self.new.compacts ≤ max self.old.compacts (moment + min seconds max_period) }
        ensures last { IsLast self.old.last result self.new.last }
        ensures order { self.new.retention ≡ self.old.retention }
        ensures whose { self.new.tenant ≡ self.old.tenant }
    {
        self.next = moment.saturating_add(step_of(seconds));
        keep(&mut self.notes, Note { moment, revision }, seconds);
        if moment < self.compacts {
            return None;
        }
        let oldest = self.oldest(seconds, moment)?;
        self.compacts = moment.saturating_add(seconds.min(MAX_PERIOD));
        self.changed(oldest)
    }

    /// What was noted first, if that is old enough.
    fn oldest(&self, seconds: u64, moment: u64) -> Option<i64>
        ensures is { IfSome result (λ at. HoldsAt (IsNotedAs seconds moment at) self.now.notes.items 0) }
        ensures due { (at : ℤ) → 0 < length self.now.notes.items
            → HoldsAt (IsNotedAs seconds moment at) self.now.notes.items 0 → result ≡ Some at }
    {
        let oldest = self.notes.front()?;
        if oldest.is_old(seconds, moment) {
            Some(oldest.revision)
        } else {
            None
        }
    }

    fn look_at_count(&mut self, moment: u64, revision: i64, count: u64) -> Option<i64>
        ensures counted { IfSome result (λ at. at +ℤ pos count ≡ revision) }
        ensures due { IsDue self.old self.new.notes.items moment revision (Revisions count) → IsSome result }
        ensures notes { self.new.notes ≡ self.old.notes }
        ensures next { self.new.next ≤ moment + count_seconds }
        ensures again { self.new.compacts ≡ self.old.compacts }
        ensures last { IsLast self.old.last result self.new.last }
        ensures order { self.new.retention ≡ self.old.retention }
        ensures whose { self.new.tenant ≡ self.old.tenant }
    {
        self.next = moment.saturating_add(SECONDS_A_COUNT);
        let count = i64::try_from(count).ok()?;
        if revision <= count {
            return None;
        }
        self.changed(revision - count)
    }

    /// A revision at which the tenant was not compacted last.
    fn changed(&mut self, revision: i64) -> Option<i64>
        ensures told { IfSome result (λ at. at ≡ revision) }
        ensures due { IsChange self.old.last revision → IsSome result }
        ensures last { IsLast self.old.last result self.new.last }
        ensures next { self.new.next ≡ self.old.next }
        ensures again { self.new.compacts ≡ self.old.compacts }
        ensures order { self.new.retention ≡ self.old.retention }
        ensures whose { self.new.tenant ≡ self.old.tenant }
        ensures notes { self.new.notes ≡ self.old.notes }
    {
        if revision <= 0 || revision == self.last {
            return None;
        }
        self.last = revision;
        Some(revision)
    }

    /// The compaction that was due could not be made: it is due again the next time.
    pub fn put_off(&mut self)
        ensures again { self.new.compacts ≡ 0 }
        ensures last { self.new.last ≡ pos 0 }
        ensures stays { self.new.retention ≡ self.old.retention }
        ensures tenant { self.new.tenant ≡ self.old.tenant }
        ensures notes { self.new.notes ≡ self.old.notes }
    {
        self.compacts = 0;
        self.last = 0;
    }
}

/// Keeps a note, and lets go those before the last that is old enough.
fn keep(notes: &mut VecDeque<Note>, note: Note, seconds: u64)
    ensures { IsNoted notes.old.items note notes.new.items }
{
    for _ in 0..notes.len() {
        match notes.get(1) {
            Some(second) if second.is_old(seconds, note.moment) => {}
            _ => break,
        }
        let _ = notes.pop_front();
    }
    // There is room for it.
    let _ = notes.push_back(note);
}

/// How many seconds lie between two looks at the revision.
fn step_of(seconds: u64) -> u64
    ensures { result ≡ step_seconds seconds }
{
    (seconds.min(MAX_PERIOD) / NOTES_A_PERIOD).max(1)
}

/// How many notes there are at the most: those that are younger than what is kept, and one that is not.
fn notes_of(retention: Retention) -> usize
    ensures { result ≤ max_notes }
{
    match retention {
        Retention::Seconds(seconds) => {
            let seconds = seconds.min(MAX_RETENTION);
            (seconds.div_ceil(step_of(seconds)) + 1).min(MAX_NOTES) as usize
        }
        Retention::All | Retention::Revisions(_) => 0,
    }
}
