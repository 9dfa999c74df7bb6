//! Registries with seats, and what is left of a tenant.
use etcd_types::{Call, Mem};
use gateway_json::read_step;
use std::alloc::Global;
use std::rt::Clock;
use std::sync::Wait;
use std::test::Fail;
use tenant_registry::{OpenGate, Receipt, Registry, Seat, TenantConfig};

/// The seats of two workers, and of the clock, the pump and the catch-up worker, where no sockets are served.
pub(crate) const SEATS: usize = 5;

/// A put of `Zm9v` = `YmFy` on the first tenant.
pub(crate) const PUT_REQUEST: &'static [u8] =
    b"POST /t/one/v3/kv/put HTTP/1.1\r\nhost: h\r\ncontent-length: 29\r\nconnection: close\r\n\r\n{\"key\":\"Zm9v\",\"value\":\"YmFy\"}";

/// A tenant whose audit takes no entry.
fn config(alloc: Global, name: &str, cluster: u64) -> Mem<TenantConfig> {
    Ok(TenantConfig {
        name: Vec::from_slice(alloc, name.as_bytes())?,
        cluster,
        quota: 1024,
        first: 1,
        audit: 0,
    })
}

/// The tenants `one` and `two`.
pub(crate) fn two_tenants(alloc: Global) -> Result<Registry, Fail> {
    let mut configs = Vec::new(alloc);
    configs.push(config(alloc, "one", 7)?)?;
    configs.push(config(alloc, "two", 8)?)?;
    Ok(Registry::new(alloc, configs, 64)?)
}

/// So many seats.
pub(crate) fn seats(
    alloc: Global,
    registry: &mut Registry,
    count: usize,
) -> Result<Vec<Seat>, Fail> {
    let mut seats = Vec::new(alloc);
    for _ in 0..count {
        seats.push(registry.seat()?)?;
    }
    Ok(seats)
}

/// What a tenant answers a call that is made beside the server.
pub(crate) fn ask<R: Wait + Clock>(
    rt: &R,
    alloc: Global,
    registry: &Registry,
    seat: &mut Seat,
    call: Call,
    body: &str,
) -> Result<Receipt, Fail> {
    let step = read_step(alloc, call, body.as_bytes())?;
    Ok(registry.call(rt, seat, &OpenGate, b"one", step)?)
}
