//! What lies under a tenant's lock, how a step is served there, and another quota.
mod ended;
mod found;
mod prepared;
mod reading;
mod resized;

ghost use Rattle.std.specs.Prelude.{◌≡◌, ◌+◌, ◌++◌, ◌≤◌, true, false, None, IfErr, IfOk, IfSome, IsOk, OnOk, OnErr};
ghost use Rattle.std.specs.Prelude.{option_map};
ghost use Rattle.std.specs.List.Sorted.{IsPermutation};
ghost use Rattle.cell_arena.specs.Loan.{segments_for};
ghost use Rattle.etcd_model.specs.Held.{Holds};
ghost use Rattle.etcd_types.specs.Limits.{max_quota};
ghost use Rattle.tenant_machine.specs.Reserving.{reservation};
ghost use Rattle.tenant_machine.specs.Tenants.{tenant};
ghost use Rattle.tenant_rules.specs.declared.fault.OperatorFault.TheVariants.{Short};
ghost use Rattle.tenant_audit.specs.Audits.{IsAllowed, IsLawful, entry_at, opened_log, opening_of};
ghost use Rattle.tenant_audit.specs.Receipts.{slip_of};
ghost use Rattle.tenant_registry.specs.Keeping.{segments_of};
ghost use Rattle.tenant_registry.specs.Removing.{GivesBack};
ghost use Rattle.tenant_registry.specs.Resizing.{HoldsSame, Resizes, Stays, lacks_segments, unresized};
ghost use Rattle.tenant_audit.specs.Seats.{AddsCall, AddsMissed, HasRoomOn, call};
ghost use Rattle.tenant_registry.specs.Serving.{Serves};

use crate::replies::{is_cancel, refusal_of, slot_of};
pub use ended::Ended;
use etcd_types::{Mem, Refusal, Reply, Step};
use gateway_text::write_reply;
use prepared::prepared;
pub use resized::Resized;
use segment_pool::Stock;
use std::alloc::{AllocError, Global};
use std::marker::Model;
use tenant_audit::{Audit, Entry, Opening, Seat};
use tenant_machine::{Machine, segments_for};
use tenant_rules::OperatorFault;

/// What a call was answered. Only `Kept::serve` makes one.
pub struct Receipt {
    number: u64,
    seat: u8,
    turn: Option<u32>,
    step: Step,
    status: u16,
    body: Vec<u8>,
    slot: Option<u8>,
    canceled: bool,
    refusal: Option<Refusal>,
}

impl Drop for Receipt {
    fn drop(self) {
        let Receipt {
            number: _,
            seat: _,
            turn: _,
            step,
            status: _,
            body: _,
            slot: _,
            canceled: _,
            refusal: _,
        } = self;
        drop(step);
    }
}

impl Model for Receipt {
    ghost use Rattle.tenant_audit.specs.Receipts.{Slip};

    ghost Value = { Slip };

    ghost view = { λ r. record {
      number = r.number;
      seat = r.seat;
      turn = r.turn;
      step = r.step;
      status = r.status;
      body = r.body.items;
      slot = r.slot;
      canceled = r.canceled;
      refusal = r.refusal;
    } };
}

impl Receipt {
    /// The number of the tenant that was called.
    pub fn number(&self) -> u64
        ensures { result ≡ self.now.number }
    {
        self.number
    }

    /// The number of the seat that called it.
    pub fn seat(&self) -> u8
        ensures { result ≡ self.now.seat }
    {
        self.seat
    }

    /// The call's place in the audit, counted from 0, unless the audit was full.
    pub fn turn(&self) -> Option<u32>
        ensures { result ≡ self.now.turn }
    {
        self.turn
    }

    /// The status of HTTP.
    pub fn status(&self) -> u16
        ensures { result ≡ self.now.status }
    {
        self.status
    }

    /// The answer's text.
    pub fn body(&self) -> &[u8]
        ensures { result.now ≡ self.now.body }
    {
        self.body.as_slice()
    }

    /// The answer's text, by value.
    pub fn into_body(self) -> Vec<u8>
        ensures { result.items ≡ self.body }
    {
        let Receipt {
            number: _,
            seat: _,
            turn: _,
            step,
            status: _,
            body,
            slot: _,
            canceled: _,
            refusal: _,
        } = self;
        drop(step);
        body
    }

    /// The slot of the watch that the call created.
    pub fn slot(&self) -> Option<u8>
        ensures { result ≡ self.now.slot }
    {
        self.slot
    }

    /// The call was a take of a watch, which it found cancelled.
    pub fn canceled(&self) -> bool
        ensures { result ≡ self.now.canceled }
    {
        self.canceled
    }

    /// Why the call was refused, if it was.
    pub fn refusal(&self) -> Option<Refusal>
        ensures { result ≡ self.now.refusal }
    {
        self.refusal
    }

    /// The receipt of a tenant's reply to a seat's step, with its text.
    fn of(
        alloc: Global,
        number: u64,
        seat: u8,
        turn: Option<u32>,
        step: Step,
        reply: &Reply,
    ) -> Mem<Receipt>
        ensures { IfOk result (λ receipt. receipt ≡ slip_of number seat turn step reply.now) }
    {
        let Ok((status, body)) = write_reply(alloc, reply) else {
            drop(step);
            return Err(AllocError);
        };
        Ok(Receipt {
            number,
            seat,
            turn,
            step,
            status,
            body,
            slot: slot_of(reply),
            canceled: is_cancel(reply),
            refusal: refusal_of(reply),
        })
    }
}

/// A step that was served. It can't be let go, so that no step is served which no seat keeps.
pub struct Served {
    receipt: Receipt,
    /// A copy of the audit's entry, which its seat keeps, unless the audit was full.
    mine: Option<Entry>,
}

impl Served {
    /// What a seat's call of a tenant is given of a reply.
    fn of(
        alloc: Global,
        number: u64,
        seat: u8,
        turn: Option<u32>,
        step: Step,
        reply: &Reply,
    ) -> Mem<Served>
        ensures receipt { IfOk result (λ served. served.receipt ≡ slip_of number seat turn step reply.now) }
        ensures mine { IfOk result (λ served. served.mine ≡ entry_at turn seat step reply.now) }
    {
        let receipt = Receipt::of(alloc, number, seat, turn, step, reply)?;
        let mine = Entry::copy_at(alloc, turn, seat, &receipt.step, reply)?;
        Ok(Served { receipt, mine })
    }

    /// What the caller is answered.
    pub fn receipt(&self) -> &Receipt
        ensures { result.now ≡ self.now.receipt }
    {
        &self.receipt
    }

    /// A copy of the entry that the audit got, unless it was full.
    pub fn mine(&self) -> Option<&Entry>
        ensures { option_map (λ entry. entry.now) result ≡ self.now.mine }
    {
        self.mine.as_ref()
    }

    /// Gives its receipt, and keeps the call on a seat's list of its tenant's calls, or counts it there if it has no turn.
    pub(crate) fn keep(self, seat: &mut Seat, tenant: &[u8]) -> Receipt
        requires { HasRoomOn tenant.now seat.old }
        ensures receipt { result ≡ self.receipt }
        ensures call { IfSome self.receipt.turn (λ turn. IfSome self.mine
            (λ mine. AddsCall tenant.now (call turn mine.step mine.reply) seat.old seat.new)) }
        ensures missed { self.receipt.turn ≡ None → AddsMissed tenant.now seat.old seat.new }
    {
        let Served { receipt, mine } = self;
        match mine {
            Some(entry) => keep_entry(seat, tenant, receipt.turn, entry),
            _ => seat.miss(tenant),
        }
        receipt
    }
}

/// Keeps an entry at its turn on a seat's list, or counts it there if it has none.
fn keep_entry(seat: &mut Seat, tenant: &[u8], turn: Option<u32>, entry: Entry)
    requires { HasRoomOn tenant.now seat.old }
    ensures call { IfSome turn
        (λ turn. AddsCall tenant.now (call turn entry.step entry.reply) seat.old seat.new) }
    ensures missed { turn ≡ None → AddsMissed tenant.now seat.old seat.new }
{
    match turn {
        Some(turn) => seat.record(tenant, turn, entry),
        None => {
            drop(entry);
            seat.miss(tenant);
        }
    }
}

/// One tenant, as its lock keeps it: its machine, its audit, and the segments that it may draw and has not.
pub struct Kept {
    machine: Machine,
    audit: Audit,
    left: Stock,
    /// How many segments are reserved, drawn ones among them.
    reserved: u32,
    alloc: Global,
}

impl Drop for Kept {
    fn drop(self) {
        let Kept {
            machine,
            audit: _,
            left: _,
            reserved: _,
            alloc: _,
        } = self;
        drop(machine);
    }
}

impl Model for Kept {
    ghost use Rattle.std.specs.Coded.{codes};
    ghost use Rattle.tenant_registry.specs.Keeping.{Content, content_code};

    ghost Value = { Content };

    ghost coded = { content_code (Prim.hlevel codes) };

    ghost use Rattle.tenant_registry.specs.KeptInside.{IsKeptInside, content_of};

    ghost view = { content_of };

    ghost invariant = { IsKeptInside };
}

impl Kept {
    /// A tenant at its opening, with the segments that its quota takes, which are moved from the free ones.
    /// If it finds no memory, none was moved.
    pub(crate) fn open(alloc: Global, opening: Opening, free: &mut Stock) -> Mem<Kept>
        requires allowed { IsAllowed opening }
        requires enough { segments_for opening.quota ≤ free.old.held }
        ensures holds { IfOk result (λ kept. Holds (opening_of opening) (tenant kept.machine)) }
        ensures audit { IfOk result (λ kept. kept.audit ≡ opened_log opening) }
        ensures moved { OnOk result (free.new.held + segments_for opening.quota ≡ free.old.held) }
        ensures segments { IfOk result
            (λ kept. IsPermutation free.old.numbers (free.new.numbers ++ segments_of kept)) }
        ensures room { IfOk result (λ kept. kept.left.room ≡ 0) }
        ensures err { OnErr result (free.new ≡ free.old) }
    {
        let segments = segments_for(opening.quota);
        let mut left = Stock::new(alloc, 0)?;
        left.make_room(segments)?;
        let audit = Audit::new(alloc, opening)?;
        let machine = Machine::new(alloc, opening.cluster, opening.quota, opening.first)?;
        // From here on no memory is taken, so no segment is lost.
        free.move_to(&mut left, segments);
        Ok(Kept {
            machine,
            audit,
            left,
            reserved: segments,
            alloc,
        })
    }

    /// What it was opened with.
    pub(crate) fn opening(&self) -> Opening
        ensures { result ≡ self.now.audit.opening }
    {
        self.audit.opening()
    }

    /// It was opened so.
    pub(crate) fn is_of(&self, opening: Opening) -> bool
        ensures { result ≡ true → self.now.audit.opening ≡ opening }
    {
        self.opening() == opening
    }

    /// Serves one step of the machine. Unless the audit is full, it keeps the step with its reply. All memory
    /// is taken before the commit, and if there is none, nothing changes.
    pub fn serve(&mut self, seat: u8, step: Step) -> Mem<Served>
        ensures ok { IfOk result (λ served. Serves self.old seat step served self.new) }
        ensures err { OnErr result (self.new ≡ self.old) }
    {
        match self.find(&step) {
            Ok(Some(answer)) => {
                return Served::of_found(self.alloc, self.audit.number(), seat, step, &answer);
            }
            Ok(None) => {}
            Err(_) => {
                drop(step);
                return Err(AllocError);
            }
        }
        self.serve_planned(seat, step)
    }

    /// The same of a step that is planned, and then committed.
    fn serve_planned(&mut self, seat: u8, step: Step) -> Mem<Served>
        ensures ok { IfOk result (λ served. Serves self.old seat step served self.new) }
        ensures err { OnErr result (self.new ≡ self.old) }
    {
        let Ok(planned) = self.machine.plan(self.alloc, &step) else {
            drop(step);
            return Err(AllocError);
        };
        let told = planned.reply();
        let Ok(ready) = prepared(self.alloc, &self.audit, seat, step, told) else {
            drop(planned);
            return Err(AllocError);
        };
        let (kept, served) = ready;
        let reply = self.machine.commit(&mut self.left, planned);
        self.audit.keep(seat, kept, reply);
        Ok(served)
    }

    /// Gives the tenant another quota of so many cells, also one below what it uses, and reserves the segments
    /// that it takes with it: they come from the free ones, or go there. Nothing else of the tenant changes.
    /// Unless the audit is full, it keeps the quota. After a fault nothing changed but for rooms.
    pub fn resize(&mut self, quota: u32, free: &mut Stock) -> Result<Resized, OperatorFault>
        requires quota { quota ≤ max_quota }
        ensures told { IfOk result
            (λ told. told ≡ record { number = self.old.audit.opening.number; quota = quota }) }
        ensures ok { OnOk result (Resizes quota self.old free.old self.new free.new) }
        ensures enough { OnOk result (lacks_segments quota self.old free.old ≡ false) }
        ensures fault { IfErr result (λ f. f ≡ unresized quota self.old free.old) }
        ensures err { OnErr result (Stays self.old self.new) }
        ensures free { OnErr result (HoldsSame free.old free.new) }
        ensures short { IfErr result (λ f. f ≡ Short → (self.new ≡ self.old) × (free.new ≡ free.old)) }
    {
        let segments = self.machine.reservation(quota);
        if segments.saturating_sub(self.reserved) > free.held() {
            return Err(OperatorFault::Short);
        }
        let number = self.audit.opening().number;
        match self.reserve(quota, segments, free) {
            Ok(()) => Ok(Resized { number, quota }),
            Err(_) => Err(OperatorFault::Memory),
        }
    }

    /// Gives the tenant a quota with which it takes so many segments, which are there.
    fn reserve(&mut self, quota: u32, segments: u32, free: &mut Stock) -> Mem<()>
        requires quota { quota ≤ max_quota }
        requires segments { segments ≡ reservation self.old.machine quota }
        requires enough { lacks_segments quota self.old free.old ≡ false }
        ensures ok { OnOk result (Resizes quota self.old free.old self.new free.new) }
        ensures err { OnErr result (Stays self.old self.new) }
        ensures free { OnErr result (HoldsSame free.old free.new) }
    {
        let drawn = self.reserved - self.left.held();
        let more = segments.saturating_sub(self.reserved);
        let fewer = self.reserved.saturating_sub(segments);
        self.machine.grow_rooms(quota)?;
        self.left.make_room(more + drawn)?;
        free.make_room(fewer)?;
        self.audit.keep_quota(quota)?;
        // From here on no memory is taken, so that nothing has to be undone.
        free.move_to(&mut self.left, more);
        self.left.move_to(free, fewer);
        self.machine.set_quota(quota);
        self.reserved = segments;
        Ok(())
    }

    /// Ends the tenant: all its segments go to the free ones, as they are, and its audit is handed out. If
    /// there is no memory to hold them there, nothing changes, and the tenant comes back.
    pub(crate) fn end(self, free: &mut Stock) -> Result<Ended, Kept>
        ensures same { IfOk result (λ ended. ended.audit ≡ self.audit) }
        ensures lawful { IfOk result (λ ended. IsLawful ended.audit) }
        ensures count { IfOk result (λ ended. ended.segments ≡ self.machine.store.share.reserved) }
        ensures back { OnOk result (GivesBack free.old self free.new) }
        ensures sure { self.machine.store.share.reserved ≤ free.old.room → IsOk result }
        ensures kept { IfErr result (λ kept. kept ≡ self) }
        ensures err { OnErr result (free.new ≡ free.old) }
    {
        if free.make_room(self.reserved).is_err() {
            return Err(self);
        }
        let Kept {
            machine,
            audit,
            mut left,
            reserved: segments,
            alloc: _,
        } = self;
        // A machine that is dropped would take the segments with it that it drew.
        machine.give_up(&mut left);
        let count = left.held();
        left.move_to(free, count);
        Ok(Ended { audit, segments })
    }

    /// Its audit.
    pub(crate) fn into_audit(self) -> Audit
        ensures same { result ≡ self.audit }
        ensures lawful { IsLawful result }
    {
        let Kept {
            machine,
            audit,
            left: _,
            reserved: _,
            alloc: _,
        } = self;
        drop(machine);
        audit
    }
}
