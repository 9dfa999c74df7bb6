//! The tenants as the threads of a server serve them, for its operator.
use auto_compaction::StandingOrder;
use connection_table::Allowance;
use etcd_types::Mem;
use fair_turns::TenantCounts;
use host_operator::TenantDirectory;
use std::alloc::Global;
use std::rt::Clock;
use std::sync::{Arc, Wait};
use tenant_registry::Key;
use tenant_scheduler::{NewTenant, ServedTenant, Shared, TenantTerms};
use tenant_server::Opened;

/// The part of `Tenants` that the operator reads, which no event loop does.
const SHARD: usize = 6;

/// The tenants that the threads of a server serve.
pub(crate) struct ServedTenants<R: Wait + Drop> {
    rt: R,
    alloc: Global,
    shared: Arc<Shared<R, Key>>,
}

impl<R: Wait + Drop> Drop for ServedTenants<R> {
    fn drop(self) {
        let ServedTenants {
            rt: _,
            alloc: _,
            shared: _,
        } = self;
    }
}

/// A tenant that is served, lent to whoever asks it or tells it something.
struct LentTenant<R: Wait + Drop> {
    tenant: Arc<ServedTenant<R, Key>>,
}

impl<R: Wait + Drop> Drop for LentTenant<R> {
    fn drop(self) {
        let LentTenant { tenant: _ } = self;
    }
}

impl<R: Wait + Drop> ServedTenants<R> {
    fn lent(&self, name: &[u8]) -> Option<LentTenant<R>> {
        match self.shared.tenants().named(&self.rt, SHARD, name) {
            Some(tenant) => Some(LentTenant { tenant }),
            None => None,
        }
    }
}

impl<R: Wait + Clock + Drop> ServedTenants<R> {
    /// Those of a server that was opened; an error where there is no memory to share them.
    pub(crate) fn of(rt: R, alloc: Global, opened: &Opened<R, Key>) -> Mem<ServedTenants<R>> {
        let shared = Arc::try_clone(opened.shared())?;
        Ok(ServedTenants { rt, alloc, shared })
    }
}

impl<R: Wait + Clock + Copy + Drop> TenantDirectory for ServedTenants<R> {
    type New = NewTenant<R, Key>;

    fn number(&self, name: &[u8]) -> Option<u64> {
        match self.lent(name) {
            Some(lent) => Some(lent.tenant.number()),
            None => None,
        }
    }

    fn budget_left(&self, name: &[u8]) -> Option<usize> {
        match self.lent(name) {
            Some(lent) => Some(lent.tenant.budget_left()),
            None => None,
        }
    }

    fn open_watches(&self, name: &[u8]) -> Option<usize> {
        match self.lent(name) {
            Some(lent) => Some(lent.tenant.open_watches(&self.rt)),
            None => None,
        }
    }

    fn open_watches_now(&self, name: &[u8]) -> Option<usize> {
        match self.lent(name) {
            Some(lent) => lent.tenant.open_watches_now(),
            None => None,
        }
    }

    fn counts(&self, name: &[u8]) -> Mem<Option<Arc<TenantCounts>>> {
        match self.lent(name) {
            Some(lent) => Ok(Some(lent.tenant.share_counts()?)),
            None => Ok(None),
        }
    }

    fn change_budget(&self, name: &[u8], budget: usize) {
        if let Some(lent) = self.lent(name) {
            lent.tenant.change_budget(budget);
        }
    }

    fn change_order(&self, name: &[u8], order: StandingOrder) {
        if let Some(lent) = self.lent(name) {
            lent.tenant.change_order(&self.rt, order);
        }
    }

    fn prepare(&self, number: u64, name: &[u8], allowance: Allowance) -> Mem<NewTenant<R, Key>> {
        let terms = TenantTerms {
            budget: allowance.budget,
            retention: allowance.retention,
        };
        let tenants = self.shared.tenants();
        tenants.prepare(&self.rt, self.alloc, number, name, terms)
    }

    fn admit(&self, new: NewTenant<R, Key>, key: Key) {
        self.shared.tenants().admit(&self.rt, new, key);
    }

    fn retire(&self, name: &[u8]) {
        let tenants = self.shared.tenants();
        tenants.retire(&self.rt, self.alloc, SHARD, name);
    }

    fn have_moved(&self, seconds: u64) -> bool {
        self.shared.have_moved(&self.rt, seconds)
    }
}
