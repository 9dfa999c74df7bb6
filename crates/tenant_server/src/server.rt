//! From a socket that listens to the last connection.
ghost use Rattle.std.specs.Prelude.{◌≡◌, ◌<◌, length, true, Err};
ghost use Rattle.tenant_server.specs.Threads.{are_too_few};

use crate::admission::{connections, connections_of_tenant, most_connections, terms_of};
use crate::arrivals::Arrivals;
use crate::connections::{SocketLoop, open_loops};
use crate::fault::ServeFault;
use crate::streams::Streams;
use crate::threads::{Ended, are_too_few, run_threads, workers_of};
use connection_table::{Allowance, LOOPS, Patience, Stopping, TenantBounds, give_up};
use etcd_types::Mem;
use event_loop::EventLoop;
use futures::executor::block_on;
use hyper::rt::NoTimer;
use pending_calls::Jobs;
use std::alloc::{AllocError, AllocGlobal};
use std::hash::RandomState;
use std::io;
use std::net::{Net, SocketAddr, TcpListener};
use std::random::RandomSource;
use std::sync::{Arc, Wait};
use std::thread::Threads;
use std::time::{Clock, Instant};
use tenant_calls::{TenantCalls, TenantKey};
use tenant_scheduler::{Shared, open};
use tokio::io::{AsyncRead, AsyncWrite};
use tokio::sync::mpsc::{UnboundedReceiver, unbounded_channel};

/// On what terms connections are served.
pub struct Terms {
    /// After how many connections the server ends; without it there is no end.
    pub connections: Option<u32>,
    /// How many connections may be open at once; without it as many as the system allows descriptors, less 64.
    pub open_connections: Option<usize>,
    /// How long a peer may keep a connection waiting.
    pub patience: Patience,
    /// How many workers there are to be at least.
    pub workers: usize,
    /// What the clients of each tenant may take, in the order of the tenants' keys.
    pub allowances: Vec<Allowance>,
}

impl Drop for Terms {
    fn drop(self) {
        let Terms {
            connections: _,
            open_connections: _,
            patience: _,
            workers: _,
            allowances: _,
        } = self;
    }
}

/// A socket that listens, and what its connections may take.
pub struct Listening {
    event_loops: Vec<EventLoop>,
    listener: TcpListener,
    terms: Terms,
    /// How many connections may be open at once, as the system allowed when the socket began to listen.
    most: usize,
}

impl Drop for Listening {
    fn drop(self) {
        let Listening {
            event_loops: _,
            listener: _,
            terms: _,
            most: _,
        } = self;
    }
}

impl Listening {
    /// Listens at an address.
    pub fn bind<R>(rt: &R, address: SocketAddr, terms: Terms) -> io::Result<Listening>
    where
        R: Threads + Clock + Net + RandomSource + AllocGlobal,
    {
        let event_loops = make_event_loops(rt)?;
        let listener = bind(rt, address, terms.patience)?;
        let most = terms.open_connections.unwrap_or(most_connections());
        Ok(Listening {
            event_loops,
            listener,
            terms,
            most,
        })
    }

    /// The address that clients connect to.
    pub fn address(&self) -> io::Result<SocketAddr> {
        self.listener.local_addr()
    }

    /// Whether a server needs more ways to call tenants than so many: one for each worker that is to be there, for the
    /// clock, the pump, the catch-up worker and each of the four loops.
    pub fn needs_more(&self, count: usize) -> bool
        ensures { result ≡ are_too_few count LOOPS self.now.terms.workers }
    {
        are_too_few(count, LOOPS, self.terms.workers)
    }

    fn into_parts(self) -> (Vec<EventLoop>, TcpListener, Terms, usize) {
        let Listening {
            event_loops,
            listener,
            terms,
            most,
        } = self;
        (event_loops, listener, terms, most)
    }
}

/// A server that is about to run: whoever takes tenants in and out meanwhile is told here by what.
pub struct Opened<R: Wait + Drop, K: TenantKey> {
    threads: (Jobs<R>, Arc<Shared<R, K>>),
    loops: Vec<SocketLoop>,
    arrivals: Arrivals<R, K>,
    /// Closed once the last connection has ended.
    ended: UnboundedReceiver<()>,
    connections_of_tenant: usize,
    /// How many ways to call tenants it is to be given.
    count: usize,
}

impl<R: Wait + Drop, K: TenantKey> Drop for Opened<R, K> {
    fn drop(self) {
        let Opened {
            threads: _,
            loops: _,
            arrivals: _,
            ended: _,
            connections_of_tenant: _,
            count: _,
        } = self;
    }
}

impl<R: Wait + Clock + Drop, K: TenantKey> Opened<R, K> {
    /// What the threads that serve tenants share.
    pub fn shared(&self) -> &Arc<Shared<R, K>> {
        let (_, shared) = &self.threads;
        shared
    }

    /// How many connections each tenant may have, for whoever changes that; an error where there is no memory.
    pub fn bounds(&self) -> Mem<TenantBounds> {
        self.arrivals.table.bounds()
    }

    /// How many connections a tenant may have where nothing is told.
    pub fn connections_of_tenant(&self) -> usize {
        self.connections_of_tenant
    }

    /// Whether connections are accepted, for whoever tells the server to end.
    pub fn stopping(&self) -> &Arc<Stopping> {
        &self.arrivals.stopping
    }
}

impl<R, K> Opened<R, K>
where
    R: Wait + Threads + Clock + RandomSource + AllocGlobal + Copy + Drop + Send + Sync + 'static,
    K: TenantKey + Send,
{
    /// The server of the tenants that have these keys, with so many threads, unless it needs more: one for the clock,
    /// the pump, the catch-up worker and each of the four loops, and a worker's for every other one.
    pub fn of(
        rt: R,
        listening: Listening,
        keys: Vec<K>,
        count: usize,
    ) -> Result<Opened<R, K>, ServeFault>
        ensures few { are_too_few count LOOPS listening.terms.workers ≡ true
            → result ≡ Err ServeFault.TooFew }
    {
        if listening.needs_more(count) {
            return Err(ServeFault::TooFew);
        }
        let (event_loops, listener, terms, most) = listening.into_parts();
        let alloc = rt.alloc();
        let start = Instant::now(&rt).map_err(|error| ServeFault::of(&error))?;
        let allowances = terms.allowances.as_slice();
        let of_tenants = terms_of(alloc, allowances)?;
        let table = connections(rt, alloc, start, most, allowances)?;
        let (serving, ended) = unbounded_channel(alloc)?;
        let (acceptor, loops) = open_loops(
            alloc,
            event_loops,
            terms.patience,
            start,
            &table,
            &serving,
        )?;
        let workers = workers_of(count, loops.len());
        let listener = Arc::new(alloc, listener).map_err(AllocError::from)?;
        let stopping = Stopping::new(Arc::try_clone(&listener)?);
        let threads = open(&rt, alloc, keys, of_tenants.as_slice(), count, workers)?;
        let arrivals = Arrivals {
            acceptor,
            listener,
            stopping: Arc::new(alloc, stopping).map_err(AllocError::from)?,
            table,
            connections: terms.connections,
            tenants: Arc::try_clone(threads.1.tenants())?,
        };
        Ok(Opened {
            threads,
            loops,
            arrivals,
            ended,
            connections_of_tenant: connections_of_tenant(most),
            count,
        })
    }

    /// Runs it until as many connections as were told have ended, and gives back what its threads called tenants by: one
    /// for each thread. With fewer than it was opened for, that is too few. Where a thread can't be made, that is out of
    /// memory.
    pub fn run<C>(self, rt: R, calls: Vec<C>) -> Result<Ended<C>, ServeFault>
    where
        C: TenantCalls<Key = K> + Send,
        C::Hint: Send,
        C::Receipt: Send,
        ensures few { length calls.items < self.count → result ≡ Err ServeFault.TooFew }
    {
        if calls.len() < self.count {
            return Err(ServeFault::TooFew);
        }
        let Opened {
            threads,
            loops,
            arrivals,
            ended: _,
            connections_of_tenant: _,
            count: _,
        } = self;
        let bring = move |_jobs| arrivals.accept(rt);
        run_threads(rt, threads, calls, loops, None, bring)
    }

    /// The same, while other work is done on this thread, as that of an operator who has the registry to himself. The
    /// work is to go on until the other end of its channel is let go: until the last connection has ended. Where it fails
    /// before, the server is told to end.
    pub fn run_beside<C, W>(self, rt: R, calls: Vec<C>, work: W) -> Result<Ended<C>, ServeFault>
    where
        C: TenantCalls<Key = K> + Send,
        C::Hint: Send,
        C::Receipt: Send,
        W: FnOnce(UnboundedReceiver<()>) -> io::Result<()> + Drop,
        requires { W.IsAlwaysCallable work }
        ensures few { length calls.items < self.count → result ≡ Err ServeFault.TooFew }
    {
        if calls.len() < self.count {
            return Err(ServeFault::TooFew);
        }
        let Opened {
            threads,
            loops,
            arrivals,
            ended,
            connections_of_tenant: _,
            count: _,
        } = self;
        let stopping = Arc::try_clone(&arrivals.stopping)?;
        let bring = move |_jobs| match work(ended) {
            Ok(()) => Ok(0),
            Err(error) => {
                stopping.tell();
                Err(ServeFault::of(&error))
            }
        };
        run_threads(rt, threads, calls, loops, Some(arrivals), bring)
    }
}

/// Serves what a function brings, over streams of any kind by `serve_one`, until it returns; all connections have to have
/// ended by then. The threads are as for `Opened::run`, but for those of the loops, of which there is none: fewer than
/// four are too few. Each tenant has the budget that it has where nothing is told.
pub fn serve_with<R, C, B>(
    rt: R,
    keys: Vec<C::Key>,
    calls: Vec<C>,
    bring: B,
) -> Result<Vec<C>, ServeFault>
where
    R: Wait + Threads + Clock + RandomSource + AllocGlobal + Copy + Drop + Send + Sync + 'static,
    C: TenantCalls + Send,
    C::Key: Send,
    C::Hint: Send,
    C::Receipt: Send,
    B: FnOnce(Jobs<R>) -> Result<(), ServeFault> + Drop,
    requires { B.IsAlwaysCallable bring }
    ensures few { are_too_few (length calls.items) 0 1 ≡ true → result ≡ Err ServeFault.TooFew }
{
    if are_too_few(calls.len(), 0, 1) {
        return Err(ServeFault::TooFew);
    }
    let alloc = rt.alloc();
    let workers = workers_of(calls.len(), 0);
    let opened = open(&rt, alloc, keys, &[], calls.len(), workers)?;
    let bring = move |jobs| {
        bring(jobs)?;
        Ok(0)
    };
    let ended = run_threads(rt, opened, calls, Vec::new(alloc), None, bring)?;
    Ok(ended.calls)
}

/// How a connection ended.
#[derive(Clone, Copy, PartialEq, Eq)]
pub enum End {
    Finished,
    /// Its stream failed, what came was no HTTP, or there was no memory to begin.
    Fault,
}

/// Serves one connection over any stream, by the jobs that `serve_with` uses, as a loop serves each of its own. It waits
/// for its peer however long that takes.
pub fn serve_one<R, I>(rt: R, jobs: &Jobs<R>, io: I) -> End
where
    R: Wait + Clock + RandomSource + AllocGlobal + Copy + Drop,
    I: AsyncRead + AsyncWrite + Drop,
{
    let alloc = rt.alloc();
    let Ok(keys) = RandomState::new(&rt) else {
        return End::Fault;
    };
    let Some(jobs) = jobs.share() else {
        return End::Fault;
    };
    let Ok(jobs) = Arc::new(alloc, jobs) else {
        return End::Fault;
    };
    let streams = Streams::new(rt, alloc, keys, jobs, NoTimer, None, Patience::DEFAULT);
    let Ok(connection) = streams.connection(io, None) else {
        return End::Fault;
    };
    match block_on(&rt, connection) {
        Ok(Ok(())) => End::Finished,
        _ => End::Fault,
    }
}

/// As many event loops as a server has.
fn make_event_loops<R>(rt: &R) -> io::Result<Vec<EventLoop>>
where
    R: Clock + Net + RandomSource + AllocGlobal,
{
    let mut event_loops = Vec::new(rt.alloc());
    for _ in 0..LOOPS {
        event_loops.push(EventLoop::new(rt)?)?;
    }
    Ok(event_loops)
}

/// A socket that waits in `accept`, with the longest queue of connections that the system allows, whose peers the
/// system gives up.
fn bind<R: Net>(rt: &R, address: SocketAddr, patience: Patience) -> io::Result<TcpListener> {
    let listener = TcpListener::from(mio::net::TcpListener::bind(rt, address)?);
    listener.set_nonblocking(false)?;
    give_up(&listener, patience)?;
    Ok(listener)
}
