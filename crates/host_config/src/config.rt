//! What the server is told at its start.
ghost use Rattle.std.specs.Prelude.{◌≡◌, ◌+◌, ◌≤◌, codes, length, option_map, IfOk, Some};
ghost use Rattle.serde_json.specs.Data.{Data};
ghost use Rattle.serde_json.specs.Read.{read};
ghost use Rattle.serde_json.specs.View.{items_view, view};
ghost use Rattle.host_config.specs.Configuring.{AreTenants, HasTenants, IsConfig, IsOperator};
ghost use Rattle.host_config.specs.Configuring.{IsPatience, IsPatient, token_in};
ghost use Rattle.host_config.specs.Numbers as specs;

use crate::members::{ConfigFault, member, number, object_of, text_of, told_number};
use crate::tenants::{allowance_of, open_connections_of, tenant_of};
use connection_table::{Allowance, LOOPS, MAX_PATIENCE, Patience};
use etcd_types::limits::{DEFAULT_SEGMENTS, MAX_CONFIG, MAX_WORKERS};
use fair_turns::BESIDE_WORKERS;
use serde_json::Value;
use std::alloc::Global;
use std::net::SocketAddr;
use tenant_registry::{TenantConfig, check};

/// How many workers there are where nothing is said.
const DEFAULT_WORKERS: u64 = 4;

/// Where to listen, with how many workers, and which tenants there are.
pub struct Config {
    /// An address and a port, as `127.0.0.1:2379`.
    pub listen: String,
    /// How many segments the pool has.
    pub segments: u32,
    /// How many threads serve the calls that the event loops leave to them, from 1 to 32.
    pub workers: usize,
    /// How many connections are served before the end; without it there is none.
    pub connections: Option<u32>,
    /// How long a peer may keep a connection waiting.
    pub patience: Patience,
    /// How many connections may be open at once; without it as many as the system allows descriptors, less 64.
    pub open_connections: Option<usize>,
    /// The tenants that are there from the start.
    pub tenants: Vec<TenantConfig>,
    /// What the clients of each tenant may take, in the order of the tenants.
    pub allowances: Vec<Allowance>,
    /// Where the operator is served; without it nowhere.
    pub operator: Option<OperatorConfig>,
}

impl Drop for Config {
    fn drop(self) {
        let Config {
            listen: _,
            segments: _,
            workers: _,
            connections: _,
            patience: _,
            open_connections: _,
            tenants: _,
            allowances: _,
            operator: _,
        } = self;
    }
}

/// Where and for whom the operator is served. Without a token the address is one of this machine alone.
#[derive(Drop)]
pub struct OperatorConfig {
    /// An address and a port.
    pub listen: SocketAddr,
    /// What each request has to bring.
    pub token: Option<Vec<u8>>,
}

impl Config {
    /// How many seats `Sessions::serve` is to be given: one for each worker, for the clock, the pump and the
    /// catch-up worker, and for each of the four event loops that read and write sockets.
    pub fn seats(&self) -> usize
        ensures { self.now.workers ≤ MAX_WORKERS
            → result ≡ self.now.workers + (BESIDE_WORKERS + LOOPS) }
    {
        self.workers.saturating_add(BESIDE_WORKERS + LOOPS)
    }
}

/// Reads the JSON object of a configuration, and refuses tenants that no registry takes. Members that it does
/// not know are passed over.
pub fn read_config(alloc: Global, text: &[u8]) -> Result<Config, ConfigFault>
    ensures short { IfOk result (λ config. length text.now ≤ MAX_CONFIG) }
    ensures told { IfOk result
        (λ config. (d : Data) × (read text.now ≡ Some d) × IsConfig d config) }
{
    if text.len() > MAX_CONFIG {
        return Err(ConfigFault::Unreadable);
    }
    let object = object_of(alloc, text)?;
    config_of(alloc, &object)
}

fn config_of(alloc: Global, object: &Value) -> Result<Config, ConfigFault>
    ensures { IfOk result (λ config. IsConfig (view object.now) config) }
{
    let segments = segments_of(object)?;
    let workers = workers_of(object)?;
    let connections = connections_of(object)?;
    let patience = patience_of(object)?;
    let open_connections = open_connections_of(object)?;
    let operator = operator_of(alloc, object)?;
    let (tenants, allowances) = tenants_of(alloc, object)?;
    if check(segments, tenants.as_slice()).is_err() {
        return Err(ConfigFault::Unreadable);
    }
    Ok(Config {
        listen: text_of(alloc, object, "listen")?,
        segments,
        workers,
        connections,
        patience,
        open_connections,
        tenants,
        allowances,
        operator,
    })
}

fn segments_of(object: &Value) -> Result<u32, ConfigFault>
    ensures { IfOk result
        (λ n. specs.number (codes "segments") DEFAULT_SEGMENTS (view object.now) ≡ Some n) }
{
    u32::try_from(number(object, "segments", DEFAULT_SEGMENTS.into())?).map_err(
        |_| ConfigFault::Unreadable,
    )
}

fn workers_of(object: &Value) -> Result<usize, ConfigFault>
    ensures told { IfOk result (λ n. specs.number (codes "workers") 4 (view object.now) ≡ Some n) }
    ensures some { IfOk result (λ n. 1 ≤ n) }
    ensures few { IfOk result (λ n. n ≤ MAX_WORKERS) }
{
    let workers = number(object, "workers", DEFAULT_WORKERS)?;
    if workers == 0 || workers > MAX_WORKERS as u64 {
        return Err(ConfigFault::Unreadable);
    }
    Ok(workers as usize)
}

fn connections_of(object: &Value) -> Result<Option<u32>, ConfigFault>
    ensures { IfOk result (λ n. specs.told_number (codes "connections") (view object.now) ≡ option_map Some n) }
{
    match told_number(object, "connections")? {
        None => Ok(None),
        Some(told) => match u32::try_from(told) {
            Ok(connections) => Ok(Some(connections)),
            Err(_) => Err(ConfigFault::Unreadable),
        },
    }
}

fn patience_of(object: &Value) -> Result<Patience, ConfigFault>
    ensures { IfOk result (λ patience. IsPatience (view object.now) patience) }
{
    let default = Patience::DEFAULT;
    Ok(Patience {
        head: seconds_of(object, "head_seconds", default.head)?,
        body: seconds_of(object, "body_seconds", default.body)?,
        answer: seconds_of(object, "answer_seconds", default.answer)?,
        silence: seconds_of(object, "silence_seconds", default.silence)?,
    })
}

/// A number of seconds, from one to those of a day.
fn seconds_of(object: &Value, name: &str, absent: u32) -> Result<u32, ConfigFault>
    ensures told { IfOk result (λ s. specs.number name.now absent (view object.now) ≡ Some s) }
    ensures bounded { IfOk result (λ s. IsPatient s) }
{
    match u32::try_from(number(object, name, absent.into())?) {
        Ok(seconds) if seconds >= 1 && seconds <= MAX_PATIENCE => Ok(seconds),
        _ => Err(ConfigFault::Unreadable),
    }
}

/// The tenants, with what the clients of each may take.
#[tactic(auto, unfolding(crate::specs::Configuring::HasTenants, crate::specs::Configuring::tenants_in))]
fn tenants_of(
    alloc: Global,
    object: &Value,
) -> Result<(Vec<TenantConfig>, Vec<Allowance>), ConfigFault>
    ensures { IfOk result (λ told. HasTenants (view object.now) told.0.items told.1.items) }
{
    match member(object, "tenants") {
        None => Ok((Vec::new(alloc), Vec::new(alloc))),
        Some(Value::Array(values)) => tenants_in(alloc, values.as_slice()),
        Some(_) => Err(ConfigFault::Unreadable),
    }
}

/// The tenants of a list.
#[tactic(auto, using(crate::proofs::TenantLemmas::tenant_more))]
fn tenants_in(
    alloc: Global,
    values: &[Value],
) -> Result<(Vec<TenantConfig>, Vec<Allowance>), ConfigFault>
    ensures { IfOk result (λ told. AreTenants (items_view values.now) told.0.items told.1.items) }
{
    let mut tenants = Vec::new(alloc);
    let mut allowances = Vec::new(alloc);
    for value in values {
        let tenant = tenant_of(alloc, value)?;
        let allowance = allowance_of(value, tenant.quota)?;
        if allowances.push(allowance).is_err() || tenants.push(tenant).is_err() {
            return Err(ConfigFault::Memory);
        }
    }
    Ok((tenants, allowances))
}

/// Where the operator is served. An address that others reach has to have a token.
fn operator_of(alloc: Global, object: &Value) -> Result<Option<OperatorConfig>, ConfigFault>
    ensures { IfOk result (λ operator. IsOperator (view object.now) operator) }
{
    if member(object, "operator").is_none() {
        return Ok(None);
    }
    let Ok(listen) = text_of(alloc, object, "operator")?.parse::<SocketAddr>() else {
        return Err(ConfigFault::Unreadable);
    };
    let token = token_of(alloc, object)?;
    let is_safe = match &token {
        Some(token) => !token.is_empty(),
        None => listen.ip().is_loopback(),
    };
    if !is_safe {
        return Err(ConfigFault::Unreadable);
    }
    Ok(Some(OperatorConfig { listen, token }))
}

#[tactic(auto, unfolding(crate::specs::Configuring::token_in, crate::specs::Numbers::text))]
fn token_of(alloc: Global, object: &Value) -> Result<Option<Vec<u8>>, ConfigFault>
    ensures { IfOk result (λ token. option_map (λ t. Some t.items) token ≡ token_in (view object.now)) }
{
    match member(object, "operator_token") {
        None => Ok(None),
        Some(_) => Ok(Some(text_of(alloc, object, "operator_token")?.into_bytes())),
    }
}
