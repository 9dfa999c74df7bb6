//! What serves a tenant, as the threads of a server see it.
ghost use Rattle.std.specs.Prelude.{◌≡◌, ℕ, ℤ, List, IfErr, IfOk};
ghost use Rattle.etcd_types.specs.declared.step.Step.{Step};
ghost use Rattle.tenant_audit.specs.Receipts.{Slip};
ghost use Rattle.tenant_calls.specs.Answers.{IsRevision, IsTold, IsUncalled};
ghost use Rattle.tenant_calls.specs.Counts.{Counts, IsNoMore, IsOneMore};

use crate::receipt::CallReceipt;
use etcd_types::{Refusal, Step};
use std::rt::Clock;
use std::sync::Wait;

/// The key to one tenant, for as long as it lives: where the tenant was removed it opens nothing, also if another one was
/// added since.
pub trait TenantKey: Drop {
    ghost number_of: { Self → ℕ };

    ghost name_of: { Self → List ℕ };

    /// The tenant's name.
    fn name(&self) -> &[u8]
        ensures { result.now ≡ name_of self.now };

    /// The tenant's number, which no other tenant of its server ever has.
    fn number(&self) -> u64
        ensures { result ≡ number_of self.now };
}

/// Which takes of a tenant's watches may not be quiet. It promises nothing: a call that comes between may change it.
pub trait TakeHint: Drop {
    /// Whether the take of a slot may not be quiet.
    fn has(&self, slot: u8) -> bool;

    /// Whether the take of a slot would look at many changes, over which catch-ups bring its watch in small steps.
    fn is_far_behind(&self, slot: u8) -> bool;
}

/// What one thread calls tenants by.
pub trait TenantCalls: Drop {
    /// The key to one tenant.
    type Key: TenantKey;

    /// What is told of a tenant's watches.
    type Hint: TakeHint;

    /// What a call is answered.
    type Receipt: CallReceipt;

    ghost made: { Self → Counts };

    // The tenant of a number has given a receipt that tells this, for a step. What serves clients knows no more of it, so it can
    // have it of nothing but what a receipt tells.
    ghost gives: { ℕ → Step → Slip → Type 0 };

    // The tenant of a number has told this as its current revision. What serves clients has it of nothing but what `revision` tells.
    ghost reads: { ℕ → ℤ → Type 0 };

    /// One step of the tenant that has the key: one call is made on it, and its receipt tells the written machine's reply.
    /// It is refused if the tenant was removed, and else only for want of memory; then no call was made.
    fn call<R: Wait + Clock>(
        &mut self,
        rt: &R,
        key: &Self::Key,
        step: Step,
    ) -> Result<Self::Receipt, Refusal>
        ensures given { IfOk result (λ receipt. gives (Self.Key.number_of key.now) step (Self.Receipt.slip_of receipt)) }
        ensures refused { IfErr result (λ r. IsUncalled r) }
        ensures made { IfOk result (λ _. IsOneMore (Self.Key.name_of key.now) (made self.old) (made self.new)) }
        ensures unmade { IfErr result (λ _. IsNoMore (made self.old) (made self.new)) };

    /// The tenant's current revision. It is refused as `call` is.
    fn revision<R: Wait>(&self, rt: &R, key: &Self::Key) -> Result<i64, Refusal>
        ensures read { IfOk result (λ revision. reads (Self.Key.number_of key.now) revision) }
        ensures refused { IfErr result (λ r. IsUncalled r) };

    /// Which takes of its watches may not be quiet; none if it was removed.
    fn hint<R: Wait>(&self, rt: &R, key: &Self::Key) -> Option<Self::Hint>;

    /// How many bytes a step may take until its answer is sent: a bound that need not be more exact than to be no more than
    /// `enough`. It is refused as `call` is.
    fn weight<R: Wait>(
        &self,
        rt: &R,
        key: &Self::Key,
        step: &Step,
        enough: u64,
    ) -> Result<u64, Refusal>
        ensures { IfErr result (λ r. IsUncalled r) };

    // A receipt that a tenant has given tells the written machine's reply.
    ghost tells: { (number : ℕ) → (step : Step) → (slip : Slip) → gives number step slip → IsTold number step slip };

    // A revision that a tenant has told was the written machine's current one.
    ghost was: { (number : ℕ) → (revision : ℤ) → reads number revision → IsRevision number revision };
}
