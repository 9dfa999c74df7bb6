//! What was served on a tenant, in order, from its opening on, with the quotas that it was given.
ghost use Rattle.std.specs.Prelude.{◌≡◌, ◌≤◌, length, IfOk, OnErr, OnOk};
ghost use Rattle.tenant_audit.specs.Audits.{KeepsStep, entry, entry_at, opened_log, step_at, turn_of};
ghost use Rattle.tenant_audit.specs.Audits.{with_change_at};
ghost use Rattle.tenant_audit.specs.Seats.{call};

use crate::tally::MadeCall;
use etcd_types::{CopyOf, Mem, Reply, Step};
use std::alloc::Global;
use std::marker::Model;

/// What a tenant is opened with.
#[derive(Clone, Copy, PartialEq, Eq)]
pub struct Opening {
    /// The tenant's number, which no other tenant of its registry ever has.
    pub number: u64,
    /// The cluster's ID.
    pub cluster: u64,
    /// The cells that the tenant may use.
    pub quota: u32,
    /// The revision of the empty store.
    pub first: i64,
    /// How many entries the audit takes.
    pub cap: u32,
}

/// One step that was served: who asked it, what was asked, and what was answered.
pub struct Entry {
    /// The number of the caller's seat.
    pub seat: u8,
    pub step: Step,
    pub reply: Reply,
}

impl Drop for Entry {
    fn drop(self) {
        let Entry {
            seat: _,
            step: _,
            reply: _,
        } = self;
    }
}

impl Entry {
    /// A copy of what an audit keeps of a step, if it has a turn there.
    pub fn copy_at(
        alloc: Global,
        turn: Option<u32>,
        seat: u8,
        step: &Step,
        reply: &Reply,
    ) -> Mem<Option<Entry>>
        ensures { IfOk result (λ mine. mine ≡ entry_at turn seat step.now reply.now) }
    {
        match turn {
            None => Ok(None),
            Some(_) => Ok(Some(Entry::copied(alloc, seat, step, reply)?)),
        }
    }

    /// An entry with copies of a step and of its reply.
    fn copied(alloc: Global, seat: u8, step: &Step, reply: &Reply) -> Mem<Entry>
        ensures { IfOk result (λ mine. mine ≡ entry seat step.now reply.now) }
    {
        let step = step.copy_of(alloc)?;
        let reply = reply.copy_of(alloc)?;
        Ok(Entry { seat, step, reply })
    }

    /// What it is on its seat's list: a call that has this turn.
    pub(crate) fn into_call(self, turn: u32) -> MadeCall
        ensures { result ≡ call turn self.step self.reply }
    {
        let Entry {
            seat: _,
            step,
            reply,
        } = self;
        MadeCall { turn, step, reply }
    }
}

/// The steps that were served on a tenant, in order, up to a number of them, and the quotas that it was given
/// meanwhile. Once it has so many steps, nothing that comes later is kept.
pub struct Audit {
    opening: Opening,
    /// There is room for all that it takes.
    entries: Vec<Entry>,
    quotas: Vec<(u32, u32)>,
}

impl Drop for Audit {
    fn drop(self) {
        let Audit {
            opening: _,
            entries: _,
            quotas: _,
        } = self;
    }
}

impl Model for Audit {
    ghost use Rattle.tenant_audit.specs.Audits.{Log};

    ghost Value = { Log };

    ghost use Rattle.tenant_audit.specs.AuditInside.{IsWithin, log_of};

    ghost view = { log_of };

    ghost invariant = { IsWithin };
}

impl Audit {
    /// An audit with no entries, and with room for all that it takes.
    pub fn new(alloc: Global, opening: Opening) -> Mem<Audit>
        ensures { IfOk result (λ audit. audit ≡ opened_log opening) }
    {
        let entries = Vec::with_capacity(alloc, opening.cap as usize)?;
        Ok(Audit {
            opening,
            entries,
            quotas: Vec::new(alloc),
        })
    }

    /// What its tenant was opened with.
    pub fn opening(&self) -> Opening
        ensures { result ≡ self.now.opening }
    {
        self.opening
    }

    /// The number of its tenant.
    pub fn number(&self) -> u64
        ensures { result ≡ self.now.opening.number }
    {
        self.opening.number
    }

    /// The ID of the cluster that its tenant is.
    pub fn cluster(&self) -> u64
        ensures { result ≡ self.now.opening.cluster }
    {
        self.opening.cluster
    }

    /// The cells that its tenant could use at first.
    pub fn quota(&self) -> u32
        ensures { result ≡ self.now.opening.quota }
    {
        self.opening.quota
    }

    /// The revision of its tenant's empty store.
    pub fn first(&self) -> i64
        ensures { result ≡ self.now.opening.first }
    {
        self.opening.first
    }

    /// How many entries it takes.
    pub fn cap(&self) -> u32
        ensures { result ≡ self.now.opening.cap }
    {
        self.opening.cap
    }

    /// What was served, in order: no more than it takes.
    pub fn entries(&self) -> &[Entry]
        ensures entries { result.now ≡ self.now.entries }
        ensures within { length result.now ≤ self.now.opening.cap }
    {
        self.entries.as_slice()
    }

    /// The quotas that its tenant was given since, in order, each in cells, after the number of entries that were there
    /// before.
    pub fn quotas(&self) -> &[(u32, u32)]
        ensures { result.now ≡ self.now.quotas }
    {
        self.quotas.as_slice()
    }

    /// How many entries it has.
    pub(crate) fn len(&self) -> u32
        ensures { result ≡ length self.now.entries }
    {
        self.entries.len().min(self.opening.cap as usize) as u32
    }

    /// The place of the next entry, counted from 0, unless the audit is full.
    pub fn next_turn(&self) -> Option<u32>
        ensures { result ≡ turn_of self.now }
    {
        let turn = self.len();
        if turn < self.opening.cap {
            Some(turn)
        } else {
            None
        }
    }

    /// A copy of a step that it is to keep; none where it is full.
    pub fn copy_of_step(&self, alloc: Global, step: &Step) -> Mem<Option<Step>>
        ensures { IfOk result (λ kept. kept ≡ step_at (turn_of self.now) step.now) }
    {
        match self.next_turn() {
            Some(_) => Ok(Some(step.copy_of(alloc)?)),
            None => Ok(None),
        }
    }

    /// Appends the copy of a step, and its reply, unless the audit is full.
    pub fn keep(&mut self, seat: u8, step: Option<Step>, reply: Reply)
        ensures { KeepsStep step seat reply self.old self.new }
    {
        let has_room = self.next_turn().is_some();
        match step {
            Some(step) if has_room => self.entries.push_reserved(Entry { seat, step, reply }),
            _ => {}
        }
    }

    /// Appends another quota, after the entries that are there, unless the audit is full. If it finds no
    /// memory, nothing changes.
    pub fn keep_quota(&mut self, quota: u32) -> Mem<()>
        ensures ok { OnOk result (self.new ≡ with_change_at (turn_of self.old) quota self.old) }
        ensures err { OnErr result (self.new ≡ self.old) }
    {
        if let Some(turn) = self.next_turn() {
            self.quotas.push((turn, quota))?;
        }
        Ok(())
    }
}
