//! A server and its client in one process, over a socket.
use crate::tenants::{PUT_REQUEST, seats};
use host_sessions::{Config, Ended, Listening, ServeFault, Sessions, read_config};
use std::alloc::{AllocGlobal, Global};
use std::io::{self, Read, Write};
use std::mem;
use std::net::{Net, SocketAddr, TcpStream};
use std::random::RandomSource;
use std::sync::Wait;
use std::test::Fail;
use std::thread::{self, Threads};
use std::time::Clock;
use tenant_registry::{OpenGate, Registry, Seat};

/// A tenant, and one connection on a port that the system chooses.
const ONE: &[u8] = br#"{"listen":"127.0.0.1:0","connections":1,"workers":2,
    "tenants":[{"name":"one","cluster_id":"7","quota":"1024","audit":"100"}]}"#;

/// The seats that its server asks for: two workers', those of clock, pump and catch-up worker, and four loops'.
const ONE_SEATS: usize = 2 + 3 + 4;

/// What the put is answered.
const PUT_ANSWER: &[u8] =
    br#"{"header":{"cluster_id":"7","member_id":"1","raft_term":"1","revision":"2"}}"#;

/// What a server of a configuration is made of.
#[derive(Drop)]
struct Server {
    registry: Registry,
    seats: Vec<Seat>,
    listening: Listening,
}

/// The configuration, of which the registry takes the tenants.
fn registry_of(alloc: Global, config: &mut Config) -> Result<Registry, Fail> {
    let tenants = mem::replace(&mut config.tenants, Vec::new(alloc));
    Ok(Registry::new(alloc, tenants, config.segments)?)
}

/// The server of the configuration, with as many seats less as are told.
fn server_with_less<R>(rt: &R, less: usize) -> Result<Server, Fail>
where
    R: Threads + Clock + Net + RandomSource + AllocGlobal,
{
    let alloc = rt.alloc();
    let mut config = read_config(alloc, ONE)?;
    let mut registry = registry_of(alloc, &mut config)?;
    let seats = seats(alloc, &mut registry, config.seats().saturating_sub(less))?;
    let listening = Sessions::listen(rt, &config)?;
    Ok(Server {
        registry,
        seats,
        listening,
    })
}

/// Sends a request, and reads to the end of the connection.
fn asked<R: Net + AllocGlobal>(rt: &R, address: SocketAddr, request: &[u8]) -> io::Result<Vec<u8>> {
    let mut stream = TcpStream::connect(rt, address)?;
    stream.write_all(request)?;
    let mut answer = Vec::new(rt.alloc());
    stream.read_to_end(&mut answer)?;
    Ok(answer)
}

/// Serves one connection, by which a put comes from another thread.
fn serve_a_put<R>(
    rt: R,
    registry: &Registry,
    seats: Vec<Seat>,
    listening: Listening,
) -> Result<(Ended, Vec<u8>), Fail>
where
    R: Wait
        + Threads
        + Clock
        + Net
        + RandomSource
        + AllocGlobal
        + Copy
        + Drop
        + Send
        + Sync
        + 'static,
{
    let address = listening.address()?;
    let (ended, answer) = thread::join(
        &rt,
        move || Sessions::serve(rt, listening, registry, seats, &OpenGate),
        move || asked(&rt, address, PUT_REQUEST),
    );
    Ok((ended?, answer?))
}

#[test]
fn a_put_over_a_socket_is_answered(rt: HostRuntime) -> Result<(), Fail> {
    let Server {
        registry,
        seats,
        listening,
    } = server_with_less(&rt, 0)?;
    let (ended, answer) = serve_a_put(rt, &registry, seats, listening)?;
    assert!(rt; answer.starts_with(b"HTTP/1.1 200 OK\r\n") && answer.ends_with(PUT_ANSWER));
    assert!(rt; ended.connections == 1 && ended.seats.len() == ONE_SEATS);
    assert!(rt; registry.close(ended.seats).is_ok());
    Ok(())
}

#[test]
fn a_seat_too_few_is_told(rt: HostRuntime) -> Result<(), Fail> {
    let Server {
        registry,
        seats,
        listening,
    } = server_with_less(&rt, 1)?;
    let told = Sessions::serve(rt, listening, &registry, seats, &OpenGate);
    assert!(rt; matches!(told, Err(ServeFault::TooFew)));
    Ok(())
}
