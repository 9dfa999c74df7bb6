//! A thread's way to the tenants.
ghost use Rattle.std.specs.Prelude.{◌≡◌, ◌<◌, false, length, vec_capacity, IfErr, IfOk};
ghost use Rattle.etcd_types.specs.declared.step.Step.{Step};
ghost use Rattle.etcd_types.specs.declared.step.Step.TheVariants.{CatchUp, Compact, DropWatch, Take, Tick};
ghost use Rattle.fair_turns.specs.Answers.{Conveys, IsAnswer};
ghost use Rattle.tenant_calls.specs.Answers.{IsTold, IsUncalled};
ghost use Rattle.tenant_calls.specs.Counts.{IsNoMore};
ghost use Rattle.tenant_scheduler.specs.Makes.{IsCounted, IsMade, IsOpened};
ghost use Rattle.tenant_scheduler.specs.OwnSteps.{IsMoment, IsOrdered, IsOwnMade};
ghost use Rattle.pending_calls.specs.Requests.{IsAnswerOf, IsStepOf};
ghost use Rattle.tenant_scheduler.specs.Watches.{IsListed, opens};

use crate::clients::{Clients, key_of};
use crate::clock::Moment;
use auto_compaction::DueRevision;
use etcd_types::{Refusal, Step};
use fair_turns::{
    Answer, Budget, LONGEST_ROW, MadeText, ServedWatch, Share, TextShare, WatchEnds, WatchTake,
};
use pending_calls::{JobAnswer, NamedTenant, OpenRequest, Told, Unserved};
use std::alloc::Global;
use std::rt::Clock;
use std::sync::Wait;
use tenant_calls::{CallReceipt, TenantCalls, TenantKey};

/// What a thread calls tenants by.
#[derive(Drop)]
pub(crate) struct Caller<R, C> {
    rt: R,
    calls: C,
}

impl<R: Wait + Clock + Drop, C: TenantCalls> Caller<R, C> {
    /// The way to tenants that these calls are; none was made.
    pub(crate) fn new(rt: R, calls: C) -> Caller<R, C>
        ensures { result.calls ≡ calls }
    {
        Caller { rt, calls }
    }

    /// The tenant's clock comes to a moment, which its ticks have counted, if the key is to it.
    pub(crate) fn tick(&mut self, clients: &Clients<C::Key>, moment: Moment) -> Result<(), Refusal>
        requires { IsMoment clients.now.running moment }
        ensures refused { IfErr result (λ r. IsUncalled r) }
        ensures made { IfOk result (λ _. IsOwnMade C.Key.number_of C.Key.name_of C.gives clients.now.key
            moment.tenant (Tick moment.seconds) (C.made self.old.calls) (C.made self.new.calls)) }
        ensures unmade { IfErr result (λ _. IsNoMore (C.made self.old.calls) (C.made self.new.calls)) }
    {
        self.own(&clients.key, moment.tenant(), Step::Tick(moment.seconds()))?;
        Ok(())
    }

    /// Watches of the tenant of that number catch up over so many changes, if they are behind and the key is to it.
    pub(crate) fn catch_up(
        &mut self,
        key: &Option<C::Key>,
        number: u64,
        budget: u32,
    ) -> Result<(), Refusal>
        ensures refused { IfErr result (λ r. IsUncalled r) }
        ensures made { IfOk result (λ _. IsOwnMade C.Key.number_of C.Key.name_of C.gives key.now number (CatchUp budget)
            (C.made self.old.calls) (C.made self.new.calls)) }
        ensures unmade { IfErr result (λ _. IsNoMore (C.made self.old.calls) (C.made self.new.calls)) }
    {
        self.own(key, number, Step::CatchUp(budget))?;
        Ok(())
    }

    /// A tenant's history goes before a revision that its standing order lets go, if the key is to it.
    pub(crate) fn compact(
        &mut self,
        clients: &Clients<C::Key>,
        due: DueRevision,
    ) -> Result<(), Refusal>
        requires { IsOrdered C.reads clients.now.standing clients.now.running due }
        ensures refused { IfErr result (λ r. IsUncalled r) }
        ensures made { IfOk result (λ _. IsOwnMade C.Key.number_of C.Key.name_of C.gives clients.now.key
            due.tenant (Compact due.revision) (C.made self.old.calls) (C.made self.new.calls)) }
        ensures unmade { IfErr result (λ _. IsNoMore (C.made self.old.calls) (C.made self.new.calls)) }
    {
        self.own(&clients.key, due.tenant(), Step::Compact(due.revision()))?;
        Ok(())
    }

    /// The client of a watch has gone: its slot is freed, if the key is to its tenant. Where that is refused, it stays.
    pub(crate) fn end_watch(
        &mut self,
        key: &Option<C::Key>,
        watch: ServedWatch,
    ) -> Result<(), ServedWatch>
        ensures made { IfOk result (λ _. IsOwnMade C.Key.number_of C.Key.name_of C.gives key.now
            watch.tenant (DropWatch watch.slot) (C.made self.old.calls) (C.made self.new.calls)) }
        ensures stays { IfErr result (λ left. left ≡ watch) }
        ensures unmade { IfErr result (λ _. IsNoMore (C.made self.old.calls) (C.made self.new.calls)) }
    {
        match self.own(key, watch.tenant(), Step::DropWatch(watch.slot())) {
            Ok(_) => Ok(()),
            Err(_) => Err(watch),
        }
    }

    /// What the watch in a slot tells next, on the tenant of that number, if the key is to it.
    pub(crate) fn take(
        &mut self,
        key: &Option<C::Key>,
        number: u64,
        slot: u8,
    ) -> Result<WatchTake<C::Receipt>, Refusal>
        ensures given { IfOk result (λ take. C.gives number (Take slot) (C.Receipt.slip_of take.receipt)) }
        ensures made { IfOk result (λ _. IsOwnMade C.Key.number_of C.Key.name_of C.gives key.now number (Take slot)
            (C.made self.old.calls) (C.made self.new.calls)) }
        ensures unmade { IfErr result (λ _. IsNoMore (C.made self.old.calls) (C.made self.new.calls)) }
    {
        let receipt = self.own(key, number, Step::Take(slot))?;
        Ok(WatchTake::new(receipt))
    }

    /// One step of this thread's own, of the tenant of that number, if the key is to it.
    fn own(&mut self, key: &Option<C::Key>, number: u64, step: Step) -> Result<C::Receipt, Refusal>
        ensures given { IfOk result (λ receipt. C.gives number step (C.Receipt.slip_of receipt)) }
        ensures refused { IfErr result (λ r. IsUncalled r) }
        ensures made { IfOk result (λ _. IsOwnMade C.Key.number_of C.Key.name_of C.gives key.now number step
            (C.made self.old.calls) (C.made self.new.calls)) }
        ensures unmade { IfErr result (λ _. IsNoMore (C.made self.old.calls) (C.made self.new.calls)) }
    {
        match key_of(key, number) {
            Some(key) => self.calls.call(&self.rt, key, step),
            None => Err(Refusal::NoTenant),
        }
    }

    /// Answers a request by its step, which opens nothing. It is refused before it is planned where its answer may be long and
    /// the tenant's budget has no room for that.
    pub(crate) fn answer(
        &mut self,
        alloc: Global,
        clients: &Clients<C::Key>,
        unserved: Unserved<R>,
        step: Step,
    ) -> JobAnswer<R>
        requires step { IsStepOf unserved.request.value step }
        requires opens { opens step ≡ false }
        ensures request { result.own.request ≡ unserved.request }
        ensures made { IsMade C.Key.number_of C.Key.name_of C.gives unserved.request.value.route.tenant.value step
            result.own.answer (C.made self.old.calls) (C.made self.new.calls) }
    {
        let answer = self.told(alloc, clients, unserved.request().tenant(), step);
        unserved.answered(answer)
    }

    /// The same for a request that nobody waits for elsewhere.
    pub(crate) fn answer_at_once(
        &mut self,
        alloc: Global,
        clients: &Clients<C::Key>,
        asked: OpenRequest,
        step: Step,
    ) -> Told<R>
        requires step { IsStepOf asked.request step }
        requires opens { opens step ≡ false }
        ensures answered { ∥ IsAnswerOf asked.request result.answer ∥₁ }
        ensures made { IsMade C.Key.number_of C.Key.name_of C.gives asked.request.route.tenant.value step
            result.answer (C.made self.old.calls) (C.made self.new.calls) }
    {
        let answer = self.told(alloc, clients, asked.request().tenant(), step);
        asked.told(answer)
    }

    /// Answers a request that creates a watch, which is kept with its tenant's clients: there is room for it.
    pub(crate) fn open(
        &mut self,
        alloc: Global,
        clients: &mut Clients<C::Key>,
        unserved: Unserved<R>,
        step: Step,
        ends: WatchEnds<R>,
    ) -> JobAnswer<R>
        requires step { IsStepOf unserved.request.value step }
        requires room { length clients.old.watches.items < vec_capacity clients.old.watches }
        ensures request { result.own.request ≡ unserved.request }
        ensures made { IsOpened C.Key.number_of C.Key.name_of C.gives unserved.request.value.route.tenant.value step
            result.own.answer clients.old.watches.items clients.new.watches.items (C.made self.old.calls) (C.made self.new.calls) }
    {
        let answer = self.created(alloc, clients, unserved.request().tenant(), step, ends);
        unserved.answered(answer)
    }

    /// One step of a client, of the tenant that it names, if the key is to it.
    fn serve(
        &mut self,
        key: &Option<C::Key>,
        tenant: &NamedTenant,
        step: Step,
    ) -> Result<C::Receipt, Refusal>
        ensures given { IfOk result (λ receipt. C.gives tenant.now.number step (C.Receipt.slip_of receipt)) }
        ensures refused { IfErr result (λ r. IsUncalled r) }
        ensures made { IfOk result (λ _. IsCounted C.Key.number_of C.Key.name_of tenant.now
            (C.made self.old.calls) (C.made self.new.calls)) }
        ensures unmade { IfErr result (λ _. IsNoMore (C.made self.old.calls) (C.made self.new.calls)) }
    {
        match key_of(key, tenant.number) {
            Some(key) if key.name() == tenant.name.as_slice() => {
                self.calls.call(&self.rt, key, step)
            }
            _ => Err(Refusal::NoTenant),
        }
    }

    /// What a step is answered that opens nothing.
    fn told(
        &mut self,
        alloc: Global,
        clients: &Clients<C::Key>,
        tenant: &NamedTenant,
        step: Step,
    ) -> Answer<R>
        ensures answer { IsAnswer tenant.now.number step result }
        ensures made { IsMade C.Key.number_of C.Key.name_of C.gives tenant.now step result
            (C.made self.old.calls) (C.made self.new.calls) }
    {
        if !step.may_be_long() || (step.is_brief() && clients.budget.left() >= LONGEST_ROW) {
            return self.told_within(alloc, clients, tenant, step, None);
        }
        match self.reserve(clients, &step) {
            Ok(Some(share)) => self.told_within(alloc, clients, tenant, step, Some(share)),
            Ok(None) => Answer::no_memory(),
            Err(refusal) => Answer::refused(alloc, refusal),
        }
    }

    fn told_within(
        &mut self,
        alloc: Global,
        clients: &Clients<C::Key>,
        tenant: &NamedTenant,
        step: Step,
        reserved: Option<Share>,
    ) -> Answer<R>
        ensures answer { IsAnswer tenant.now.number step result }
        ensures made { IsMade C.Key.number_of C.Key.name_of C.gives tenant.now step result
            (C.made self.old.calls) (C.made self.new.calls) }
    {
        match self.serve(&clients.key, tenant, step) {
            Ok(receipt) => {
                let (status, refusal) = (receipt.status(), receipt.refusal());
                let text = clients.budget.charge(reserved, receipt.into_body());
                Answer::text(status, refusal, text)
            }
            Err(refusal) => Answer::refused(alloc, refusal),
        }
    }

    /// What the create of a watch is answered.
    fn created(
        &mut self,
        alloc: Global,
        clients: &mut Clients<C::Key>,
        tenant: &NamedTenant,
        step: Step,
        ends: WatchEnds<R>,
    ) -> Answer<R>
        requires { length clients.old.watches.items < vec_capacity clients.old.watches }
        ensures answer { IsAnswer tenant.now.number step result }
        ensures made { IsOpened C.Key.number_of C.Key.name_of C.gives tenant.now step result
            clients.old.watches.items clients.new.watches.items (C.made self.old.calls) (C.made self.new.calls) }
    {
        match self.serve(&clients.key, tenant, step) {
            Ok(receipt) => opened(clients, tenant.number, receipt, ends),
            Err(refusal) => Answer::refused(alloc, refusal),
        }
    }

    /// The share of what a step may take until its answer is sent, if the budget has so much.
    fn reserve(&self, clients: &Clients<C::Key>, step: &Step) -> Result<Option<Share>, Refusal>
        ensures { IfErr result (λ r. IsUncalled r) }
    {
        let Some(key) = &clients.key else {
            return Err(Refusal::NoTenant);
        };
        let enough = clients.budget.left() as u64;
        let weight = self.calls.weight(&self.rt, key, step, enough)?;
        Ok(clients.budget.reserve(weight))
    }

    /// The share of what a watch may be told next; none where its tenant's budget has not so much now.
    pub(crate) fn reserve_text(
        &self,
        key: &Option<C::Key>,
        budget: &Budget,
        watch: &ServedWatch,
    ) -> Result<Option<TextShare>, Refusal> {
        let Some(key) = key else {
            return Err(Refusal::NoTenant);
        };
        let weight = self.weight_of_take(key, watch.slot(), budget.left())?;
        Ok(budget.reserve_text(weight))
    }

    /// What the next take of a slot may take until its text is sent, as exact as so many bytes are enough to know.
    fn weight_of_take(&self, key: &C::Key, slot: u8, enough: usize) -> Result<u64, Refusal> {
        self.calls
            .weight(&self.rt, key, &Step::Take(slot), enough as u64)
    }

    /// The current revision of the tenant of that number, if the key is to it.
    pub(crate) fn revision(&self, key: &Option<C::Key>, number: u64) -> Result<i64, Refusal>
        ensures read { IfOk result (λ revision. C.reads number revision) }
        ensures refused { IfErr result (λ r. IsUncalled r) }
    {
        let Some(key) = key_of(key, number) else {
            return Err(Refusal::NoTenant);
        };
        self.calls.revision(&self.rt, key)
    }

    /// Which takes of a tenant's watches may not be quiet.
    pub(crate) fn hint(&self, key: &Option<C::Key>) -> Option<C::Hint> {
        match key {
            Some(key) => self.calls.hint(&self.rt, key),
            None => None,
        }
    }

    pub(crate) fn into_calls(self) -> C
        ensures { result ≡ self.calls }
    {
        self.calls
    }
}

/// The answer of a watch that was created, which is kept with its tenant's clients, or of what was told instead.
#[tactic(auto, using(crate::proofs::WatchLemmas::unlisted))]
fn opened<R: Wait + Drop, K: TenantKey, T: CallReceipt>(
    clients: &mut Clients<K>,
    number: u64,
    receipt: T,
    ends: WatchEnds<R>,
) -> Answer<R>
    requires room { length clients.old.watches.items < vec_capacity clients.old.watches }
    requires told { (step : Step) × IsTold number step (T.slip_of receipt) }
    ensures answer { (step : Step) → IsTold number step (T.slip_of receipt) → IsAnswer number step result }
    ensures shows { Conveys result (T.slip_of receipt) }
    ensures listed { IsListed number (T.slip_of receipt).slot clients.old.watches.items clients.new.watches.items }
{
    let (status, refusal) = (receipt.status(), receipt.refusal());
    let Some(slot) = receipt.slot() else {
        return Answer::text(status, refusal, MadeText::short(receipt.into_body()));
    };
    let (watch, texts) = ends.open(number, slot);
    // There is room.
    let _ = clients.watches.push(watch);
    let created = MadeText::short(receipt.into_body());
    Answer::watch(status, refusal, created, texts)
}
