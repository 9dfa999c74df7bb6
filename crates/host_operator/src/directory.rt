//! The tenants as they are served, for the operator.
use auto_compaction::StandingOrder;
use connection_table::Allowance;
use etcd_types::Mem;
use fair_turns::TenantCounts;
use std::sync::Arc;
use tenant_registry::Key;

/// The tenants that are served. A call that names one which isn't does nothing, and has nothing to tell.
pub trait TenantDirectory: Drop {
    /// A tenant for which all memory is taken, and which only needs its key.
    type New: Drop;

    /// The tenant's number, which no other one ever has.
    fn number(&self, name: &[u8]) -> Option<u64>;

    /// How many bytes of its budget are left.
    fn budget_left(&self, name: &[u8]) -> Option<usize>;

    /// How many watches its clients have open. It waits until the turn that somebody may have there has ended.
    fn open_watches(&self, name: &[u8]) -> Option<usize>;

    /// The same at once; none also where somebody has the turn there.
    fn open_watches_now(&self, name: &[u8]) -> Option<usize>;

    /// What is counted of it.
    fn counts(&self, name: &[u8]) -> Mem<Option<Arc<TenantCounts>>>;

    /// Gives its clients another budget, in bytes.
    fn change_budget(&self, name: &[u8], budget: usize);

    /// Gives it another standing order.
    fn change_order(&self, name: &[u8], order: StandingOrder);

    /// Takes all memory that a new tenant of that number and name needs.
    fn prepare(&self, number: u64, name: &[u8], allowance: Allowance) -> Mem<Self::New>;

    /// Serves a new tenant, which has this key.
    fn admit(&self, new: Self::New, key: Key);

    /// Serves a tenant no more. It waits until the turn that somebody may have there has ended.
    fn retire(&self, name: &[u8]);

    /// Each thread that serves has moved within so many seconds.
    fn have_moved(&self, seconds: u64) -> bool;
}
