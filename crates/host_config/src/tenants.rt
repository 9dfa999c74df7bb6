//! What a tenant is told to have: its quota, its audit, and what its clients may take.
ghost use Rattle.std.specs.Prelude.{◌≡◌, ◌≤◌, codes, IfErr, IfOk, IfSome, Some, option_map};
ghost use Rattle.serde_json.specs.View.{view};
ghost use Rattle.host_config.specs.Allowing.{AreChanges, IsAllowance, IsBudget, usual_budget};
ghost use Rattle.host_config.specs.Numbers as specs;
ghost use Rattle.host_config.specs.Telling.{IsTenant};

use crate::members::{ConfigFault, number, text_of, told_number};
use crate::retention::retention_of;
use connection_table::Allowance;
use etcd_types::limits::CELL_BYTES;
use fair_turns::DEFAULT_BUDGET;
use serde_json::Value;
use std::alloc::Global;
use tenant_registry::TenantConfig;

/// The least bytes that a budget may be told to have: twice those of the longest body.
const MIN_BUDGET: u64 = 4_194_304;

/// The most bytes that a budget may be told to have: a tebibyte.
const MAX_BUDGET: u64 = 1_099_511_627_776;

/// How many times the bytes of its quota a tenant's budget has beside `DEFAULT_BUDGET`, where none is told.
const QUOTAS_A_BUDGET: u64 = 4;

/// A tenant, by the members of its object. Whether a registry takes it is not looked at.
pub fn tenant_of(alloc: Global, object: &Value) -> Result<TenantConfig, ConfigFault>
    ensures { IfOk result (λ config. IsTenant (view object.now) config) }
{
    let Ok(audit) = u32::try_from(number(object, "audit", 0)?) else {
        return Err(ConfigFault::Unreadable);
    };
    Ok(TenantConfig {
        name: text_of(alloc, object, "name")?.into_bytes(),
        cluster: number(object, "cluster_id", 0)?,
        quota: number(object, "quota", 0)?,
        first: number(object, "first", 1)?,
        audit,
    })
}

/// What the clients of a tenant of that quota may take, by the members of its object.
pub fn allowance_of(object: &Value, quota: u64) -> Result<Allowance, ConfigFault>
    ensures allowance { IfOk result (λ allowance. IsAllowance (view object.now) quota allowance) }
    ensures fault { IfErr result (λ fault. fault ≡ ConfigFault.Unreadable) }
{
    let absent = usual_budget(quota);
    Ok(Allowance {
        budget: budget_within(number(object, "budget", absent)?)?,
        open_connections: open_connections_of(object)?,
        retention: retention_of(object)?,
    })
}

/// A number of connections, from one to those that numbers of 32 bits have.
pub(crate) fn open_connections_of(object: &Value) -> Result<Option<usize>, ConfigFault>
    ensures told { IfOk result
        (λ most. specs.told_number (codes "open_connections") (view object.now) ≡ option_map Some most) }
    ensures some { IfOk result (λ most. IfSome most (λ n. 1 ≤ n)) }
    ensures fault { IfErr result (λ fault. fault ≡ ConfigFault.Unreadable) }
{
    match told_number(object, "open_connections")? {
        None => Ok(None),
        Some(told) => match u32::try_from(told) {
            Ok(connections) if connections >= 1 => Ok(Some(connections as usize)),
            _ => Err(ConfigFault::Unreadable),
        },
    }
}

/// The budget of a tenant of that quota for which none is told.
fn usual_budget(quota: u64) -> u64
    ensures { result ≡ usual_budget quota }
{
    let of_quota = quota.saturating_mul(CELL_BYTES * QUOTAS_A_BUDGET);
    of_quota
        .saturating_add(DEFAULT_BUDGET as u64)
        .min(MAX_BUDGET)
}

fn budget_within(budget: u64) -> Result<usize, ConfigFault>
    ensures same { IfOk result (λ bytes. bytes ≡ budget) }
    ensures bounded { IfOk result (λ bytes. IsBudget bytes) }
    ensures fault { IfErr result (λ fault. fault ≡ ConfigFault.Unreadable) }
{
    if budget < MIN_BUDGET || budget > MAX_BUDGET {
        return Err(ConfigFault::Unreadable);
    }
    Ok(budget as usize)
}

/// Other bounds of a tenant; what is not told stays.
#[derive(Clone, Copy)]
pub struct Changes {
    /// How many cells it may use.
    pub quota: Option<u64>,
    /// How many bytes of bodies and answers may be under way.
    pub budget: Option<usize>,
    /// How many connections may be open.
    pub open_connections: Option<usize>,
}

/// The changes that a body of the operator asks for.
pub fn changes_of(object: &Value) -> Result<Changes, ConfigFault>
    ensures changes { IfOk result (λ changes. AreChanges (view object.now) changes) }
    ensures fault { IfErr result (λ fault. fault ≡ ConfigFault.Unreadable) }
{
    let quota = told_number(object, "quota")?;
    let budget = match told_number(object, "budget")? {
        None => None,
        Some(told) => Some(budget_within(told)?),
    };
    Ok(Changes {
        quota,
        budget,
        open_connections: open_connections_of(object)?,
    })
}

/// How many segments are to be made, by a body of the operator.
pub fn more_segments_of(object: &Value) -> Result<u64, ConfigFault>
    ensures count { IfOk result
        (λ count. specs.told_number (codes "segments") (view object.now) ≡ Some (Some count)) }
    ensures fault { IfErr result (λ fault. fault ≡ ConfigFault.Unreadable) }
{
    match told_number(object, "segments")? {
        Some(count) => Ok(count),
        None => Err(ConfigFault::Unreadable),
    }
}
