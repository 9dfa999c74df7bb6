//! Serves a registry whose tenants come, change and go meanwhile, by its operator's calls.
ghost use Rattle.std.specs.Prelude.{◌≡◌, length, true, Err};
ghost use Rattle.connection_table.specs.declared.allowance.TheConstants.{LOOPS};
ghost use Rattle.tenant_server.specs.Threads.{are_too_few};

use crate::served::ServedTenants;
use crate::sessions::{Ended, Sessions};
use host_config::Config;
use host_operator::{Operator, OperatorSocket, serve_operator};
use std::alloc::AllocGlobal;
use std::io;
use std::net::Net;
use std::random::RandomSource;
use std::rt::Files;
use std::sync::{Arc, Wait};
use std::thread::Threads;
use std::time::Clock;
use tenant_registry::{Gate, Registry, Seat};
use tenant_server::{Listening, ServeFault};

impl Sessions {
    /// Listens for the operator, if the configuration says where.
    pub fn listen_operator<R>(rt: &R, config: &Config) -> io::Result<Option<OperatorSocket>>
    where
        R: Clock + Net + RandomSource + AllocGlobal,
    {
        let Some(operator) = &config.operator else {
            return Ok(None);
        };
        let socket = OperatorSocket::bind(rt, operator, config.patience)?;
        Ok(Some(socket))
    }

    /// Serves a registry as `serve` does, while an operator, who has it to himself, is served on this thread.
    pub fn serve_operated<R, G>(
        rt: R,
        config: &Config,
        listening: Listening,
        registry: &mut Registry,
        seats: Vec<Seat>,
        gate: &G,
        socket: OperatorSocket,
    ) -> Result<Ended, ServeFault>
    where
        R: Wait
            + Threads
            + Clock
            + RandomSource
            + AllocGlobal
            + Files
            + Eprint
            + Copy
            + Drop
            + Send
            + Sync
            + 'static,
        G: Gate + Sync,
        ensures few { are_too_few (length seats.items) LOOPS listening.terms.workers ≡ true
            → result ≡ Err ServeFault.TooFew }
    {
        let alloc = rt.alloc();
        let opened = Sessions::open(rt, listening, &*registry, seats.len())?;
        let served = ServedTenants::of(rt, alloc, &opened)?;
        let mut operator = Operator::new(
            rt,
            alloc,
            registry,
            served,
            opened.bounds()?,
            opened.connections_of_tenant(),
            Arc::try_clone(opened.stopping())?,
        );
        operator.remember(config.allowances.as_slice())?;
        let work = move |ended| serve_operator(rt, alloc, socket, operator, ended);
        Sessions::serve_beside(rt, opened, seats, gate, work)
    }
}
