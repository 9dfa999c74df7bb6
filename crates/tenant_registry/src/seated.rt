//! How the threads of a server call tenants: by keys, each with a seat of its own.
ghost use Rattle.std.specs.Prelude.{◌≡◌, map, IfErr, IfOk};
ghost use Rattle.tenant_calls.specs.Answers.{IsRevision, IsTold, IsUncalled};
ghost use Rattle.tenant_calls.specs.Counts.{IsNoMore, IsOneMore};
ghost use Rattle.tenant_registry.specs.Counting.{calls_counted};

use crate::gate::Gate;
use crate::kept::Receipt;
use crate::key::Key;
use etcd_types::{Mem, Refusal, Step};
use std::alloc::Global;
use std::rt::Clock;
use std::sync::Wait;
use tenant_audit::Seat;
use tenant_calls::{CallReceipt, TakeHint, TenantCalls};
use tenant_machine::Hint;

/// A seat by which a thread calls tenants, past a gate that may hold it back.
#[derive(Drop)]
pub struct SeatedCalls<'x, G> {
    seat: Seat,
    gate: &'x G,
}

impl<'x, G> SeatedCalls<'x, G> {
    /// Calls with this seat.
    pub fn new(seat: Seat, gate: &'x G) -> SeatedCalls<'x, G>
        ensures { result.seat ≡ seat }
    {
        SeatedCalls { seat, gate }
    }

    /// Calls with each of these seats, in their order.
    pub fn all(alloc: Global, seats: Vec<Seat>, gate: &'x G) -> Mem<Vec<SeatedCalls<'x, G>>>
        ensures { IfOk result (λ calls. map (λ own. own.seat) calls.items ≡ seats.items) }
    {
        let mut calls = Vec::with_capacity(alloc, seats.len())?;
        for seat in seats {
            calls.push(SeatedCalls::new(seat, gate))?;
        }
        Ok(calls)
    }

    /// The seats, in the order of those that called with them.
    pub fn into_seats(alloc: Global, calls: Vec<SeatedCalls<'x, G>>) -> Mem<Vec<Seat>>
        ensures { IfOk result (λ seats. seats.items ≡ map (λ own. own.seat) calls.entry.items) }
    {
        let mut seats = Vec::with_capacity(alloc, calls.len())?;
        for own in calls {
            seats.push(own.into_seat())?;
        }
        Ok(seats)
    }

    /// The seat, with the calls that were made.
    pub fn into_seat(self) -> Seat
        ensures { result ≡ self.entry.seat }
    {
        let SeatedCalls { seat, gate: _ } = self;
        seat
    }
}

/// Which takes of a tenant's watches may not be quiet.
#[derive(Clone, Copy, Drop)]
pub struct WatchHint {
    hint: Hint,
}

impl TakeHint for WatchHint {
    fn has(&self, slot: u8) -> bool {
        self.hint.has(slot)
    }

    fn is_far_behind(&self, slot: u8) -> bool {
        self.hint.is_far_behind(slot)
    }
}

impl CallReceipt for Receipt {
    ghost slip_of = { λ receipt. receipt };

    fn status(&self) -> u16 {
        self.status()
    }

    fn body(&self) -> &[u8] {
        self.body()
    }

    fn into_body(self) -> Vec<u8> {
        self.into_body()
    }

    fn slot(&self) -> Option<u8> {
        self.slot()
    }

    fn canceled(&self) -> bool {
        self.canceled()
    }

    fn refusal(&self) -> Option<Refusal> {
        self.refusal()
    }
}

impl<G: Gate> TenantCalls for SeatedCalls<'_, G> {
    type Key = Key;

    type Hint = WatchHint;

    type Receipt = Receipt;

    ghost made = { λ it. calls_counted it.seat };

    ghost gives = { IsTold };

    ghost reads = { IsRevision };

    #[tactic(auto, using(crate::proofs::SeatedLemmas::told_of, crate::proofs::SeatedLemmas::one_more, crate::proofs::SeatedLemmas::no_more))]
    fn call<R: Wait + Clock>(&mut self, rt: &R, key: &Key, step: Step) -> Result<Receipt, Refusal>
        ensures given { IfOk result (λ receipt. IsTold key.now.opening.number step receipt) }
        ensures refused { IfErr result (λ r. IsUncalled r) }
        ensures made { IfOk result
            (λ _. IsOneMore key.now.name (calls_counted self.old.seat) (calls_counted self.new.seat)) }
        ensures unmade { IfErr result (λ _. IsNoMore (calls_counted self.old.seat) (calls_counted self.new.seat)) }
    {
        let receipt = key.call(rt, &mut self.seat, self.gate, step)?;
        Ok(receipt)
    }

    #[tactic(auto, using(crate::proofs::SeatedLemmas::revision_of))]
    fn revision<R: Wait>(&self, rt: &R, key: &Key) -> Result<i64, Refusal>
        ensures read { IfOk result (λ revision. IsRevision key.now.opening.number revision) }
        ensures refused { IfErr result (λ r. IsUncalled r) }
    {
        key.revision(rt)
    }

    fn hint<R: Wait>(&self, rt: &R, key: &Key) -> Option<WatchHint> {
        match key.hint(rt) {
            Some(hint) => Some(WatchHint { hint }),
            None => None,
        }
    }

    fn weight<R: Wait>(&self, rt: &R, key: &Key, step: &Step, enough: u64) -> Result<u64, Refusal>
        ensures { IfErr result (λ r. IsUncalled r) }
    {
        key.weight(rt, step, enough)
    }

    ghost tells = { λ number step slip given. given };

    ghost was = { λ number revision read. read };
}
