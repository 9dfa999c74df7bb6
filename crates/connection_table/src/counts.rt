//! How many connections are open, and how many of them each tenant has.
use etcd_types::Mem;
use futures::spin::lock;
use indexmap::IndexMap;
use std::alloc::Global;
use std::sync::Mutex;
use std::sync::atomic::{AtomicU64, AtomicUsize, Ordering};

/// The owner of what no tenant has asked for. Tenants have numbers from 1 on.
pub(crate) const NOBODY: u64 = 0;

/// The connections of one owner.
#[derive(Clone, Copy, Drop)]
struct Owned {
    open: usize,
    most: usize,
}

/// The connections of all, and of each owner. What a tenant has open that is not there any more is in the first alone.
#[derive(Drop)]
pub(crate) struct Counts {
    open: AtomicUsize,
    /// How many were refused, since the table was full and none was idle.
    refused: AtomicU64,
    /// How many idle ones ended for others.
    ended: AtomicU64,
    /// How many were lost for want of memory.
    lost: AtomicU64,
    owners: Mutex<IndexMap<u64, Owned>>,
}

impl Counts {
    /// None is open. Each tenant may have as many as is told of it, in the order of their numbers.
    pub(crate) fn new(alloc: Global, most_of_tenants: Vec<usize>) -> Mem<Counts> {
        let mut owners = IndexMap::new(alloc);
        let mut number = NOBODY;
        owners.insert(number, Owned::new(usize::MAX))?;
        for most in most_of_tenants {
            number = number.saturating_add(1);
            owners.insert(number, Owned::new(most))?;
        }
        Ok(Counts {
            open: AtomicUsize::new(0),
            refused: AtomicU64::new(0),
            ended: AtomicU64::new(0),
            lost: AtomicU64::new(0),
            owners: Mutex::new(owners),
        })
    }

    pub(crate) fn open(&self) -> usize {
        self.open.load(Ordering::SeqCst)
    }

    pub(crate) fn refuse(&self) {
        self.refused.fetch_add(1, Ordering::Relaxed);
    }

    pub(crate) fn refused(&self) -> u64 {
        self.refused.load(Ordering::Relaxed)
    }

    pub(crate) fn end_one(&self) {
        self.ended.fetch_add(1, Ordering::Relaxed);
    }

    pub(crate) fn ended(&self) -> u64 {
        self.ended.load(Ordering::Relaxed)
    }

    pub(crate) fn lose(&self) {
        self.lost.fetch_add(1, Ordering::Relaxed);
    }

    pub(crate) fn lost(&self) -> u64 {
        self.lost.load(Ordering::Relaxed)
    }

    /// How many connections an owner has; none of a tenant that is there no more.
    pub(crate) fn of_owner(&self, owner: u64) -> Option<usize> {
        let owners = lock(&self.owners)?;
        let owned = owners.get(&owner)?;
        Some(owned.open)
    }

    /// Takes the memory that one more tenant needs.
    pub(crate) fn make_room(&self) -> Mem<()> {
        match lock(&self.owners) {
            Some(mut owners) => owners.reserve(1),
            None => Ok(()),
        }
    }

    /// A tenant may have so many. One that is new takes no memory where there is room.
    pub(crate) fn set_most(&self, tenant: u64, most: usize) {
        let Some(mut owners) = lock(&self.owners) else {
            return;
        };
        match owners.get_mut(&tenant) {
            Some(owned) => owned.most = most,
            None => {
                let _ = owners.insert(tenant, Owned::new(most));
            }
        }
    }

    /// A tenant is there no more.
    pub(crate) fn remove(&self, tenant: u64) {
        if let Some(mut owners) = lock(&self.owners) {
            let _ = owners.swap_remove(&tenant);
        }
    }

    /// A connection opens, which is nobody's.
    pub(crate) fn enter(&self) {
        self.open.fetch_add(1, Ordering::SeqCst);
        if let Some(mut owners) = lock(&self.owners)
            && let Some(owned) = owners.get_mut(&NOBODY)
        {
            owned.open = owned.open.saturating_add(1);
        }
    }

    /// A connection of an owner ends.
    pub(crate) fn leave(&self, owner: u64) {
        self.open.fetch_sub(1, Ordering::SeqCst);
        if let Some(mut owners) = lock(&self.owners)
            && let Some(owned) = owners.get_mut(&owner)
        {
            owned.open = owned.open.saturating_sub(1);
        }
    }

    /// A connection goes over from one owner to another, unless that one has as many as it may.
    pub(crate) fn move_over(&self, from: u64, to: u64) -> bool {
        let Some(mut owners) = lock(&self.owners) else {
            return false;
        };
        if let Some(owned) = owners.get_mut(&to) {
            if owned.open >= owned.most {
                return false;
            }
            owned.open = owned.open.saturating_add(1);
        }
        if let Some(owned) = owners.get_mut(&from) {
            owned.open = owned.open.saturating_sub(1);
        }
        true
    }
}

impl Owned {
    fn new(most: usize) -> Owned {
        Owned { open: 0, most }
    }
}
