//! How many connections each tenant has and may have, for whoever takes tenants in or out.
use crate::counts::Counts;
use etcd_types::Mem;
use std::sync::Arc;

/// The bounds of the tenants, by their numbers.
pub struct TenantBounds {
    pub(crate) counts: Arc<Counts>,
}

impl Drop for TenantBounds {
    fn drop(self) {
        let TenantBounds { counts: _ } = self;
    }
}

impl TenantBounds {
    /// Takes the memory that one more tenant needs.
    pub fn make_room(&self) -> Mem<()> {
        self.counts.make_room()
    }

    /// A tenant may have so many connections. One that is new takes no memory where there is room.
    pub fn set(&self, tenant: u64, most: usize) {
        self.counts.set_most(tenant, most);
    }

    /// A tenant is there no more. What its clients have open stays, and counts among all.
    pub fn remove(&self, tenant: u64) {
        self.counts.remove(tenant);
    }

    /// How many connections a tenant has.
    pub fn open(&self, tenant: u64) -> usize {
        self.counts.of_owner(tenant).unwrap_or(0)
    }

    /// How many connections are open in all.
    pub fn open_in_all(&self) -> usize {
        self.counts.open()
    }

    /// How many connections were refused, since the table was full and none was idle.
    pub fn refused(&self) -> u64 {
        self.counts.refused()
    }

    /// How many idle connections ended for others.
    pub fn ended(&self) -> u64 {
        self.counts.ended()
    }

    /// How many connections were lost for want of memory.
    pub fn lost(&self) -> u64 {
        self.counts.lost()
    }
}

/// Where it is told that a connection was lost.
pub struct Losses {
    pub(crate) counts: Arc<Counts>,
}

impl Drop for Losses {
    fn drop(self) {
        let Losses { counts: _ } = self;
    }
}

impl Losses {
    /// A connection that the table had taken in was lost for want of memory.
    pub fn add(&self) {
        self.counts.lose();
    }
}
