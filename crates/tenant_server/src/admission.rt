//! How many connections there may be, and what tenants are served by.
use connection_table::{Allowance, ConnectionTable};
use etcd_types::Mem;
use std::alloc::Global;
use std::rt::Clock;
use std::time::Instant;
use tenant_scheduler::TenantTerms;

/// How many descriptors are left to what is no connection.
const BESIDE_CONNECTIONS: u64 = 64;

/// Which part of all connections a tenant may have where nothing is told.
const TENANT_PART: usize = 4;

/// As many connections as the system allows descriptors, less those that are left to others.
pub(crate) fn most_connections() -> usize {
    let mut limit = libc::types::rlimit {
        rlim_cur: 0,
        rlim_max: 0,
    };
    if libc::getrlimit(libc::RLIMIT_NOFILE, &mut limit) < 0 {
        return usize::MAX;
    }
    limit.rlim_cur.saturating_sub(BESIDE_CONNECTIONS).max(1) as usize
}

/// How many connections a tenant may have where nothing is told, of so many of all.
pub(crate) fn connections_of_tenant(most: usize) -> usize {
    (most / TENANT_PART).max(1)
}

/// What each tenant is served by, in their order.
pub(crate) fn terms_of(alloc: Global, allowances: &[Allowance]) -> Mem<Vec<TenantTerms>> {
    let mut terms = Vec::with_capacity(alloc, allowances.len())?;
    for allowance in allowances {
        terms.push(TenantTerms {
            budget: allowance.budget,
            retention: allowance.retention,
        })?;
    }
    Ok(terms)
}

/// The table of connections, of which so many may be open.
pub(crate) fn connections<R: Clock + Drop>(
    rt: R,
    alloc: Global,
    start: Instant,
    most: usize,
    allowances: &[Allowance],
) -> Mem<ConnectionTable<R>> {
    let part = connections_of_tenant(most);
    let mut most_of_tenants = Vec::with_capacity(alloc, allowances.len())?;
    for allowance in allowances {
        most_of_tenants.push(allowance.open_connections.unwrap_or(part))?;
    }
    ConnectionTable::new(rt, alloc, start, most, most_of_tenants)
}
