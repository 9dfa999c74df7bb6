//! From the configuration to the end.
ghost use Rattle.std.specs.Prelude.{◌≡◌, ◌≢◌, IfErr, IfOk, OnOk, length};
ghost use Rattle.etcd_host.specs.Closing.{HaveClosed, HaveDiffered};

use crate::fault::HostFault;
use etcd_types::limits::MAX_CONFIG;
use host_sessions::{Config, Sessions, read_config};
use std::alloc::{AllocGlobal, Global};
use std::io::{Input, Read};
use std::mem;
use std::net::Net;
use std::random::RandomSource;
use std::rt::Files;
use std::sync::Wait;
use std::thread::Threads;
use std::time::Clock;
use tenant_registry::{OpenGate, Registry, Seat, SeatFault};
use tenant_rules::OperatorFault;

/// Reads the configuration, makes the registry and its seats, listens, serves, and closes. It ends at the first
/// fault.
pub(crate) fn host<R>(rt: R) -> Result<(), HostFault>
where
    R: Wait
        + Threads
        + Clock
        + Net
        + RandomSource
        + AllocGlobal
        + Files
        + Input
        + Print
        + Eprint
        + Copy
        + Drop
        + Send
        + Sync
        + 'static,
{
    let alloc = rt.alloc();
    let mut config = configured(&rt, alloc)?;
    let tenants = mem::replace(&mut config.tenants, Vec::new(alloc));
    let mut registry = Registry::new(alloc, tenants, config.segments).map_err(refused)?;
    let seats = seats(alloc, &mut registry, config.seats())?;
    let seats = serve(rt, &config, &mut registry, seats)?;
    close(&rt, registry, seats)
}

/// Serves as many connections as are configured, and gives the seats back.
fn serve<R>(
    rt: R,
    config: &Config,
    registry: &mut Registry,
    seats: Vec<Seat>,
) -> Result<Vec<Seat>, HostFault>
where
    R: Wait
        + Threads
        + Clock
        + Net
        + RandomSource
        + AllocGlobal
        + Files
        + Print
        + Eprint
        + Copy
        + Drop
        + Send
        + Sync
        + 'static,
{
    let listening = Sessions::listen(&rt, config)?;
    let Ok(address) = listening.address() else {
        return Err(HostFault::Io);
    };
    let socket = match Sessions::listen_operator(&rt, config) {
        Ok(socket) => socket,
        Err(error) => return Err(HostFault::of_listening(&error)),
    };
    println!(rt; "listening on {address}")?;
    let ended = match socket {
        None => Sessions::serve(rt, listening, &*registry, seats, &OpenGate)?,
        Some(socket) => {
            let address = socket.address()?;
            println!(rt; "operator on {address}")?;
            Sessions::serve_operated(rt, config, listening, registry, seats, &OpenGate, socket)?
        }
    };
    println!(rt; "ended")?;
    Ok(ended.seats)
}

/// Closes the registry, whose audits have to be the seats' lists, and says so.
fn close(rt: &impl Print, registry: Registry, seats: Vec<Seat>) -> Result<(), HostFault>
    ensures ok { OnOk result (HaveClosed registry.tenants seats.items) }
    ensures mismatch { IfErr result
        (λ fault. fault ≡ HostFault.Mismatch → HaveDiffered registry.tenants seats.items) }
{
    let fault = match registry.close(seats) {
        Ok(_) => {
            return match println!(rt; "closed") {
                Ok(()) => Ok(()),
                Err(_) => Err(HostFault::Io),
            };
        }
        Err(fault) => HostFault::from(fault),
    };
    if fault == HostFault::Mismatch {
        println!(rt; "mismatch")?;
    }
    Err(fault)
}

/// The configuration on standard input.
fn configured<R: Input>(rt: &R, alloc: Global) -> Result<Config, HostFault> {
    let mut text = Vec::new(alloc);
    // One byte more than the longest shows that it is too long.
    let mut reader = rt.reader().take(MAX_CONFIG as u64 + 1);
    if let Err(error) = reader.read_to_end(&mut text) {
        return Err(HostFault::of_input(&error));
    }
    Ok(read_config(alloc, text.as_slice())?)
}

/// Why no registry was made: what speaks against its tenants, or want of memory.
fn refused(fault: OperatorFault) -> HostFault
    ensures memory { fault ≡ OperatorFault.Memory → result ≡ HostFault.Memory }
    ensures config { fault ≢ OperatorFault.Memory → result ≡ HostFault.Config }
{
    match fault {
        OperatorFault::Memory => HostFault::Memory,
        _ => HostFault::Config,
    }
}

/// So many seats of a registry.
fn seats(alloc: Global, registry: &mut Registry, count: usize) -> Result<Vec<Seat>, HostFault>
    ensures count { IfOk result (λ seats. length seats.items ≡ count) }
    ensures fault { IfErr result (λ fault. fault ≡ HostFault.Memory) }
{
    let mut seats = Vec::new(alloc);
    'seating: for _seated in 0..count {
        match registry.seat() {
            Ok(seat) => {
                if seats.push(seat).is_err() {
                    return Err(HostFault::Memory);
                }
            }
            Err(SeatFault::Full | SeatFault::Memory) => return Err(HostFault::Memory),
        }
    }
    Ok(seats)
}
