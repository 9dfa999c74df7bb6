//! Listens, and serves a registry.
ghost use Rattle.std.specs.Prelude.{◌≡◌, length, true, Err};
ghost use Rattle.connection_table.specs.declared.allowance.TheConstants.{LOOPS};
ghost use Rattle.tenant_server.specs.Threads.{are_too_few};

use host_config::Config;
use pending_calls::Jobs;
use std::alloc::{AllocGlobal, Global};
use std::io;
use std::net::{Net, SocketAddr};
use std::random::RandomSource;
use std::sync::Wait;
use std::thread::Threads;
use std::time::Clock;
use tenant_registry::{Gate, Key, Registry, Seat, SeatedCalls};
use tenant_server::{End, Listening, Opened, ServeFault, Terms, serve_one, serve_with};
use tokio::io::{AsyncRead, AsyncWrite};
use tokio::sync::mpsc::UnboundedReceiver;

/// Why nothing listens.
#[derive(Clone, Copy, Debug, PartialEq, Eq)]
pub enum ListenFault {
    /// The text is no address with a port.
    Address,
    /// The system refused the socket.
    Socket,
    Memory,
}

impl ListenFault {
    fn of(error: &io::Error) -> ListenFault {
        match error.kind() {
            io::ErrorKind::OutOfMemory => ListenFault::Memory,
            _ => ListenFault::Socket,
        }
    }
}

/// What serving leaves.
#[derive(Drop)]
pub struct Ended {
    /// How many connections were accepted, up to 4,294,967,295.
    pub connections: u32,
    /// The seats that were given, with the calls that each has made.
    pub seats: Vec<Seat>,
}

impl Ended {
    fn of<'x, G: Gate>(
        alloc: Global,
        ended: tenant_server::Ended<SeatedCalls<'x, G>>,
    ) -> Result<Ended, ServeFault> {
        Ok(Ended {
            connections: ended.connections,
            seats: SeatedCalls::into_seats(alloc, ended.calls)?,
        })
    }
}

/// HTTP/1.1 in front of a registry.
pub struct Sessions;

impl Sessions {
    /// Listens where the configuration says.
    pub fn listen<R>(rt: &R, config: &Config) -> Result<Listening, ListenFault>
    where
        R: Threads + Clock + Net + RandomSource + AllocGlobal,
    {
        let Ok(address) = config.listen.parse::<SocketAddr>() else {
            return Err(ListenFault::Address);
        };
        let Ok(allowances) = Vec::from_slice(rt.alloc(), config.allowances.as_slice()) else {
            return Err(ListenFault::Memory);
        };
        let terms = Terms {
            connections: config.connections,
            open_connections: config.open_connections,
            patience: config.patience,
            workers: config.workers,
            allowances,
        };
        match Listening::bind(rt, address, terms) {
            Ok(listening) => Ok(listening),
            Err(error) => Err(ListenFault::of(&error)),
        }
    }

    /// The server of a registry's tenants, with a thread for each of so many seats. How many there have to be says `serve`.
    pub(crate) fn open<R>(
        rt: R,
        listening: Listening,
        registry: &Registry,
        seats: usize,
    ) -> Result<Opened<R, Key>, ServeFault>
    where
        R: Wait
            + Threads
            + Clock
            + RandomSource
            + AllocGlobal
            + Copy
            + Drop
            + Send
            + Sync
            + 'static,
        ensures few { are_too_few seats LOOPS listening.terms.workers ≡ true
            → result ≡ Err ServeFault.TooFew }
    {
        if listening.needs_more(seats) {
            return Err(ServeFault::TooFew);
        }
        let keys = registry.keys(rt.alloc())?;
        Opened::of(rt, listening, keys, seats)
    }

    /// Serves a registry until as many connections as were told have ended, each as `serve_one` serves one, and hands
    /// the seats back. There has to be a seat for each worker of the configuration, for the clock, the pump, the
    /// catch-up worker and each of the four loops: `Config::seats`. Every other one is a worker's too. Fewer are
    /// `TooFew`. Where a thread can't be made, that is out of memory.
    pub fn serve<'x, R, G>(
        rt: R,
        listening: Listening,
        registry: &'x Registry,
        seats: Vec<Seat>,
        gate: &'x G,
    ) -> Result<Ended, ServeFault>
    where
        R: Wait
            + Threads
            + Clock
            + RandomSource
            + AllocGlobal
            + Copy
            + Drop
            + Send
            + Sync
            + 'static,
        G: Gate + Sync,
        ensures few { are_too_few (length seats.items) LOOPS listening.terms.workers ≡ true
            → result ≡ Err ServeFault.TooFew }
    {
        let alloc = rt.alloc();
        let opened = Sessions::open(rt, listening, registry, seats.len())?;
        Ended::of(
            alloc,
            opened.run(rt, SeatedCalls::all(alloc, seats, gate)?)?,
        )
    }

    /// The same of a server that was opened, while other work is done on this thread, as that of an operator who has the
    /// registry to himself. The work is to go on until the other end of its channel is let go: until the last connection
    /// has ended.
    pub(crate) fn serve_beside<'x, R, G, W>(
        rt: R,
        opened: Opened<R, Key>,
        seats: Vec<Seat>,
        gate: &'x G,
        work: W,
    ) -> Result<Ended, ServeFault>
    where
        R: Wait
            + Threads
            + Clock
            + RandomSource
            + AllocGlobal
            + Copy
            + Drop
            + Send
            + Sync
            + 'static,
        G: Gate + Sync,
        W: FnOnce(UnboundedReceiver<()>) -> io::Result<()> + Drop,
        requires { W.IsAlwaysCallable work }
    {
        let alloc = rt.alloc();
        let calls = SeatedCalls::all(alloc, seats, gate)?;
        Ended::of(alloc, opened.run_beside(rt, calls, work)?)
    }

    /// Serves what a function brings, over streams of any kind by `serve_one`, until it returns; all connections
    /// have to have ended by then. The seats are as for `serve`, but for those of the loops, of which there is none.
    /// Each tenant has the budget that it has where nothing is told.
    pub fn serve_with<'x, R, G, B>(
        rt: R,
        registry: &'x Registry,
        seats: Vec<Seat>,
        gate: &'x G,
        bring: B,
    ) -> Result<Vec<Seat>, ServeFault>
    where
        R: Wait
            + Threads
            + Clock
            + RandomSource
            + AllocGlobal
            + Copy
            + Drop
            + Send
            + Sync
            + 'static,
        G: Gate + Sync,
        B: FnOnce(Jobs<R>) -> Result<(), ServeFault> + Drop,
        requires { B.IsAlwaysCallable bring }
    {
        let alloc = rt.alloc();
        let keys = registry.keys(alloc)?;
        let calls = serve_with(rt, keys, SeatedCalls::all(alloc, seats, gate)?, bring)?;
        Ok(SeatedCalls::into_seats(alloc, calls)?)
    }

    /// Serves one connection over any stream, by the jobs that `serve_with` uses, as `serve` serves each of its own. It
    /// waits for its peer however long that takes.
    pub fn serve_one<R, I>(rt: R, jobs: &Jobs<R>, io: I) -> End
    where
        R: Wait + Clock + RandomSource + AllocGlobal + Copy + Drop,
        I: AsyncRead + AsyncWrite + Drop,
    {
        serve_one(rt, jobs, io)
    }
}
