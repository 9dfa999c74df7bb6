//! From a watch to its client: one text at a time.
//!
//! The next text is taken from the registry only when the client has read the last one, so a client that is slow
//! holds one text, and one that stops reading holds up nobody. A second place is for the text that is taken right
//! before a compaction.
ghost use Rattle.std.specs.Prelude.{◌≡◌, ◌+◌, false, true, IfOk, IfSome};
ghost use Rattle.etcd_types.specs.declared.step.Step.TheVariants.{Take};
ghost use Rattle.futures.specs.Task.{IsArmed, Keeps};
ghost use Rattle.futures.specs.Poll.{IfReady, OnPending};
ghost use Rattle.tenant_calls.specs.Answers.{IsTold};
ghost use Rattle.fair_turns.specs.Watching.{IsCreated, IsTaken};

use crate::budget::{Budget, TextShare};
use crate::scheduler::TenantTurns;
use crate::taken_text::{TakenText, TextCount, WatchTake};
use etcd_types::Mem;
use futures::ready;
use futures::task::{Context, Poll};
use std::alloc::{AllocError, Global};
use std::sync::atomic::{AtomicBool, Ordering};
use std::sync::{Arc, Wait};
use tenant_calls::CallReceipt;
use tokio::sync::mpsc;
use tokio::sync::mpsc::error::TrySendError;

/// How many texts a watch has room for.
const ROOM: usize = 2;

/// Why no text can be put in.
#[derive(Clone, Copy)]
pub enum NoRoom {
    /// The client has not read what it was told, or has gone.
    Unread,
    Memory,
}

/// Both ends of a watch that was not created yet. They come apart when it is, so each watch has its own.
pub struct WatchEnds<R: Wait + Drop> {
    rt: R,
    sender: mpsc::Sender<TakenText>,
    receiver: mpsc::Receiver<TakenText>,
    may_have_more: Arc<AtomicBool>,
    asked_for_more: Arc<AtomicBool>,
    turns: Arc<TenantTurns>,
}

impl<R: Wait + Drop> Drop for WatchEnds<R> {
    fn drop(self) {
        let WatchEnds {
            rt: _,
            sender: _,
            receiver: _,
            may_have_more: _,
            asked_for_more: _,
            turns: _,
        } = self;
    }
}

/// A watch whose client is there: where its texts are put in.
pub struct ServedWatch {
    tenant: u64,
    slot: u8,
    count: TextCount,
    texts: mpsc::Sender<TakenText>,
    may_have_more: Arc<AtomicBool>,
}

impl Drop for ServedWatch {
    fn drop(self) {
        let ServedWatch {
            tenant: _,
            slot: _,
            count: _,
            texts: _,
            may_have_more: _,
        } = self;
    }
}

/// The texts of an open watch, for its client. Letting go of them ends the watch.
pub struct WatchTexts<R: Wait + Drop> {
    rt: R,
    tenant: u64,
    slot: u8,
    /// How many texts were told.
    told: u64,
    texts: mpsc::Receiver<TakenText>,
    may_have_more: Arc<AtomicBool>,
    turns: Arc<TenantTurns>,
}

/// Room for one text of a watch.
#[derive(Drop)]
pub struct TextRoom<'a> {
    tenant: u64,
    slot: u8,
    count: &'a TextCount,
    permit: mpsc::Permit<'a, TakenText>,
}

impl<R: Wait + Drop> WatchEnds<R> {
    /// Those for a watch of a tenant.
    pub fn new(rt: R, alloc: Global, turns: &Arc<TenantTurns>) -> Mem<WatchEnds<R>> {
        let (sender, receiver) = mpsc::channel(alloc, ROOM)?;
        let may_have_more = Arc::new(alloc, AtomicBool::new(false))?;
        Ok(WatchEnds {
            rt,
            sender,
            receiver,
            asked_for_more: Arc::try_clone(&may_have_more)?,
            may_have_more,
            turns: Arc::try_clone(turns)?,
        })
    }

    /// The watch was created, in this slot of that tenant.
    pub fn open(self, tenant: u64, slot: u8) -> (ServedWatch, WatchTexts<R>)
        requires { IsCreated tenant slot }
        ensures served { (result.0.tenant ≡ tenant) × (result.0.slot ≡ slot) }
        ensures texts { (result.1.tenant ≡ tenant) × (result.1.slot ≡ slot) }
    {
        let WatchEnds {
            rt,
            sender,
            receiver,
            may_have_more,
            asked_for_more,
            turns,
        } = self;
        let served = ServedWatch {
            tenant,
            slot,
            count: TextCount::new(),
            texts: sender,
            may_have_more,
        };
        let texts = WatchTexts {
            rt,
            tenant,
            slot,
            told: 0,
            texts: receiver,
            may_have_more: asked_for_more,
            turns,
        };
        (served, texts)
    }
}

impl ServedWatch {
    /// The number of its tenant.
    pub fn tenant(&self) -> u64
        ensures { result ≡ self.now.tenant }
    {
        self.tenant
    }

    /// Its slot.
    pub fn slot(&self) -> u8
        ensures { result ≡ self.now.slot }
    {
        self.slot
    }

    /// The client has read all that it was told.
    pub fn is_read(&self) -> bool {
        self.texts.capacity() >= ROOM
    }

    /// Room for its next text.
    pub fn room(&self) -> Result<TextRoom<'_>, NoRoom>
        ensures tenant { IfOk result (λ room. room.tenant ≡ self.now.tenant) }
        ensures slot { IfOk result (λ room. room.slot ≡ self.now.slot) }
    {
        match self.texts.try_reserve() {
            Ok(permit) => Ok(TextRoom {
                tenant: self.tenant,
                slot: self.slot,
                count: &self.count,
                permit,
            }),
            Err(TrySendError::OutOfMemory(())) => Err(NoRoom::Memory),
            Err(_) => Err(NoRoom::Unread),
        }
    }

    /// Ends the watch with the text of the take that found it cancelled: how many bytes it has. Where there is no room for it,
    /// its client sees the end alone.
    pub fn end<T: CallReceipt>(self, take: WatchTake<T>, budget: &Budget) -> usize
        requires told { IsTold self.tenant (Take self.slot) (T.slip_of take.receipt) }
        requires canceled { (T.slip_of take.receipt).canceled ≡ true }
    {
        let text = TakenText::new(self.tenant, self.slot, &self.count, take, budget, None);
        let length = text.len();
        match self.texts.try_send(text) {
            Ok(()) => length,
            Err(_) => 0,
        }
    }

    /// The client has gone.
    pub fn is_closed(&self) -> bool {
        self.texts.is_closed()
    }

    /// There may be more: the client asks for it when it has read its text. Whether it has read it already, and so
    /// did not ask, is told.
    pub fn promise_more(&self) -> bool {
        self.may_have_more.store(true, Ordering::SeqCst);
        self.is_read()
    }
}

impl TextRoom<'_> {
    /// Puts in the text that a take of the watch's slot got, with its share of the tenant's budget: how many bytes it has. The
    /// watch is open.
    pub fn put<T: CallReceipt>(self, take: WatchTake<T>, budget: &Budget, share: TextShare) -> usize
        requires told { IsTold self.tenant (Take self.slot) (T.slip_of take.receipt) }
        requires open { (T.slip_of take.receipt).canceled ≡ false }
    {
        let TextRoom {
            tenant,
            slot,
            count,
            permit,
        } = self;
        let reserved = match share {
            TextShare::Reserved(share) => Some(share),
            TextShare::Later => None,
        };
        let text = TakenText::new(tenant, slot, count, take, budget, reserved);
        let length = text.len();
        permit.send(text);
        length
    }
}

impl<R: Wait + Drop> WatchTexts<R> {
    /// The next text, or the end of the watch. Where one is missing, the watch ends: no text is passed over.
    #[tactic(auto, using(crate::proofs::AnswerLemmas::of_the_same_watch))]
    pub fn poll_text(&mut self, cx: &mut Context<'_>) -> Poll<Option<TakenText>>
        ensures taken { IfReady result (λ told. IfSome told (λ taken.
            ∥ IsTaken self.old.tenant self.old.slot taken.text.bytes.items ∥₁)) }
        ensures next { IfReady result (λ told. IfSome told (λ taken. taken.number ≡ self.old.told)) }
        ensures counted { IfReady result (λ told. IfSome told (λ _. self.new.told ≡ self.old.told + 1)) }
        ensures waits { OnPending result (self.new.told ≡ self.old.told) }
        ensures tenant { self.new.tenant ≡ self.old.tenant }
        ensures slot { self.new.slot ≡ self.old.slot }
        ensures registered { OnPending result (IsArmed cx.new) }
        ensures kept { Keeps cx.old cx.new }
    {
        let taken = ready!(self.texts.poll_recv(cx));
        if self.may_have_more.swap(false, Ordering::SeqCst) {
            self.turns.schedule_takes(&self.rt);
        }
        let Some(taken) = taken else {
            return Poll::Ready(None);
        };
        let number = self.told;
        let Some(told) = number.checked_add(1) else {
            return Poll::Ready(None);
        };
        self.told = told;
        Poll::Ready(taken.of(self.tenant, self.slot, number))
    }
}

impl<R: Wait + Drop> Drop for WatchTexts<R> {
    fn drop(self) {
        let WatchTexts {
            rt,
            tenant: _,
            slot: _,
            told: _,
            texts,
            may_have_more: _,
            turns,
        } = self;
        drop(texts);
        turns.schedule_takes(&rt);
    }
}
