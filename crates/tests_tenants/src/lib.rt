//! Tests of who drew a pool's segments; of a tenant's machine alone: which watches it hints at, a quota of four cells, and
//! rows over each source of segments; of many tenants as one value, in steps and in bytes, and of what the gateway reads
//! and writes; and of tenants under locks: calls, seats, quotas between calls, several threads and closing. The rows are
//! asked of these by `registry_replay`.
#![tactic(auto)]

#[cfg(test)]
mod tests;
