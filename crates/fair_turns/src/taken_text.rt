//! What a take of a tenant's watch got, and the text that its client is told of it.
//!
//! A text is made of the receipt of that take alone, and goes to the watch's client as it is.
ghost use Rattle.std.specs.Prelude.{◌≡◌, ◌==◌, length, true, false, IfSome};
ghost use Rattle.etcd_types.specs.declared.step.Step.TheVariants.{Take};
ghost use Rattle.tenant_calls.specs.Answers.{IsTold};
ghost use Rattle.fair_turns.specs.Watching.{IsTaken};

use crate::budget::{Budget, MadeText, Share};
use std::sync::atomic::{AtomicU64, Ordering};
use tenant_calls::CallReceipt;

/// How many texts of a watch were made. Each uses up a number, so where one is lost, its client sees that one is missing.
#[derive(Drop)]
pub(crate) struct TextCount {
    made: AtomicU64,
}

impl TextCount {
    /// None was made.
    pub(crate) fn new() -> TextCount {
        TextCount {
            made: AtomicU64::new(0),
        }
    }

    /// The number of the next one.
    fn next(&self) -> u64 {
        self.made.fetch_add(1, Ordering::Relaxed)
    }
}

/// What a take of a watch got. It can't be let go, so nothing that was taken is lost: its text is put in, or the watch ends with
/// it, or there is nothing to tell.
pub struct WatchTake<T: CallReceipt> {
    receipt: T,
}

impl<T: CallReceipt> WatchTake<T> {
    /// That of this receipt.
    pub fn new(receipt: T) -> WatchTake<T>
        ensures { result.receipt ≡ receipt }
    {
        WatchTake { receipt }
    }

    /// The watch was found cancelled.
    pub fn is_cancel(&self) -> bool
        ensures { result ≡ (T.slip_of self.now.receipt).canceled }
    {
        self.receipt.canceled()
    }

    /// There is nothing to tell.
    pub fn is_quiet(&self) -> bool
        ensures { result ≡ (length (T.slip_of self.now.receipt).body == 0) }
    {
        self.receipt.body().is_empty()
    }

    /// Lets go of what has nothing to tell.
    pub fn end(self)
        requires quiet { (length (T.slip_of self.receipt).body == 0) ≡ true }
        requires open { (T.slip_of self.receipt).canceled ≡ false }
    {
        let WatchTake { receipt } = self;
        drop(receipt);
    }
}

/// A text that was taken of a tenant's watch.
pub struct TakenText {
    tenant: u64,
    slot: u8,
    /// How many texts of its watch came before.
    number: u64,
    text: MadeText,
    ghost is: { ∥ IsTaken tenant slot text.bytes.items ∥₁ },
}

impl Drop for TakenText {
    fn drop(self) {
        let TakenText {
            tenant: _,
            slot: _,
            number: _,
            text: _,
        } = self;
    }
}

impl TakenText {
    /// The text of the receipt that a take of a slot got, with its share of the tenant's budget, of which something may have been
    /// reserved. It is the watch's next one.
    #[tactic(auto, using(crate::proofs::AnswerLemmas::taken))]
    pub(crate) fn new<T: CallReceipt>(
        tenant: u64,
        slot: u8,
        count: &TextCount,
        take: WatchTake<T>,
        budget: &Budget,
        reserved: Option<Share>,
    ) -> TakenText
        requires { IsTold tenant (Take slot) (T.slip_of take.receipt) }
        ensures tenant { result.tenant ≡ tenant }
        ensures slot { result.slot ≡ slot }
        ensures text { result.text.bytes.items ≡ (T.slip_of take.receipt).body }
    {
        let WatchTake { receipt } = take;
        let text = budget.charge(reserved, receipt.into_body());
        TakenText {
            tenant,
            slot,
            number: count.next(),
            text,
        }
    }

    /// How many bytes it has.
    pub(crate) fn len(&self) -> usize {
        self.text.len()
    }

    /// The text, if it is the one of this number of the watch in this slot of that tenant.
    pub(crate) fn of(self, tenant: u64, slot: u8, number: u64) -> Option<TakenText>
        ensures same { IfSome result (λ text. text ≡ self) }
        ensures tenant { IfSome result (λ text. text.tenant ≡ tenant) }
        ensures slot { IfSome result (λ text. text.slot ≡ slot) }
        ensures number { IfSome result (λ text. text.number ≡ number) }
    {
        if self.tenant == tenant && self.slot == slot && self.number == number {
            Some(self)
        } else {
            None
        }
    }

    /// What it is, by value.
    pub fn into_text(self) -> MadeText
        ensures { result ≡ self.text }
    {
        let TakenText {
            tenant: _,
            slot: _,
            number: _,
            text,
        } = self;
        text
    }
}
