//! The tenants that are called, and what they are asked.
use anyhow::{Result, bail};
use etcd_types::{List, Mem, PutReq, RangeReq, SortOrder, SortTarget, Step};
use std::alloc::Global;
use tenant_registry::{Registry, TenantConfig};

/// The names of the tenants, one for each thread.
pub(crate) const NAMES: [&[u8]; 4] = [b"one", b"two", b"three", b"four"];

/// The cells of each tenant, which take all puts of a run, and the segments that they are.
const CELLS: u64 = 163_840;

const SEGMENTS: u32 = 2_560;

const KEY: &[u8] = b"a-key-of-16-byte";

const VALUE: &[u8] = b"a-value-that-has-thirty-two-byte";

/// A registry of all tenants, with no audits.
pub(crate) fn opened(alloc: Global) -> Result<Registry> {
    let mut configs = Vec::new(alloc);
    for name in NAMES {
        configs.push(TenantConfig {
            name: Vec::from_slice(alloc, name)?,
            cluster: 7,
            quota: CELLS,
            first: 1,
            audit: 0,
        })?;
    }
    match Registry::new(alloc, configs, 4 * SEGMENTS) {
        Ok(registry) => Ok(registry),
        Err(_) => bail!("the tenants are refused"),
    }
}

/// What a call asks.
#[derive(Clone, Copy)]
pub(crate) enum Asked {
    Read,
    Put,
}

impl Asked {
    /// A read of the key, or a put of it.
    pub(crate) fn step(self, alloc: Global) -> Mem<Step> {
        let key = List::from_slice(alloc, KEY)?;
        match self {
            Asked::Read => Ok(read(alloc, key)),
            Asked::Put => put(alloc, key),
        }
    }
}

fn put(alloc: Global, key: List<u8>) -> Mem<Step> {
    Ok(Step::Put(PutReq {
        key,
        value: List::from_slice(alloc, VALUE)?,
        lease: 0,
        prev_kv: false,
        ignore_value: false,
        ignore_lease: false,
    }))
}

fn read(alloc: Global, key: List<u8>) -> Step {
    Step::Range(RangeReq {
        key,
        range_end: List::new(alloc),
        limit: 0,
        revision: 0,
        sort_order: SortOrder::Unsorted,
        sort_target: SortTarget::Key,
        serializable: false,
        keys_only: false,
        count_only: false,
        min_mod_revision: 0,
        max_mod_revision: 0,
        min_create_revision: 0,
        max_create_revision: 0,
    })
}
