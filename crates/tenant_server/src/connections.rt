//! The event loops: each has its share of the connections, and serves each as a task.

use crate::fault::ServeFault;
use crate::streams::{SocketConnection, Streams};
use crate::threads::ThreadEnd;
use connection_table::{ConnectionTable, LOOPS, Losses, OpenConnection, Patience, Stopping};
use crossbeam_channel::{Receiver, Sender, bounded};
use etcd_types::Mem;
use event_loop::{ConnectionTask, EventLoop, MakesTasks, TaskGroup};
use futures::task::{Context, Poll};
use futures::{Future, ready};
use hyper::rt::TokioTimer;
use pending_calls::{CallServer, Jobs, StepReader};
use std::alloc::{AllocGlobal, Global};
use std::hash::RandomState;
use std::os::fd::AsRawFd;
use std::random::RandomSource;
use std::sync::{Arc, Wait};
use std::time::{Clock, Duration, Instant};
use std::{io, net, thread};
use tenant_calls::TenantCalls;
use tenant_scheduler::{InlineCalls, ServingThread};
use tokio::net::TcpStream;
use tokio::reactor;
use tokio::sync::mpsc::error::SendError;
use tokio::sync::mpsc::{UnboundedReceiver, UnboundedSender, unbounded_channel};
use tokio::time::Interval;

/// How many milliseconds no connection is accepted after one could not be, for want of a file descriptor most
/// likely.
const PAUSE: u64 = 50;

/// How many connections each loop has room for from its start on: for none of the first does its set of tasks take
/// memory.
const ROOMS: usize = 512;

/// How many seconds lie between two moves by which a loop shows that it is not stuck.
const SECONDS_A_BEAT: u64 = 1;

/// A connection that was accepted. It leaves the table before its socket is closed.
#[derive(Drop)]
pub(crate) struct Accepted {
    open: OpenConnection,
    socket: net::TcpStream,
}

/// An event loop over sockets, and where its connections come in.
#[derive(Drop)]
pub(crate) struct SocketLoop {
    event_loop: EventLoop,
    /// From 0 on.
    number: usize,
    sockets: UnboundedReceiver<Accepted>,
    patience: Patience,
    /// When the table of connections began.
    start: Instant,
    losses: Losses,
    ready: Sender<()>,
    /// Let go once the last connection has ended.
    serving: UnboundedSender<()>,
}

impl SocketLoop {
    /// Which of the loops it is, from 0 on.
    pub(crate) fn number(&self) -> usize {
        self.number
    }
}

/// Where a loop's connections go in.
pub(crate) type SocketSender = UnboundedSender<Accepted>;

/// Where connections are dealt out.
#[derive(Drop)]
pub(crate) struct Acceptor {
    senders: Vec<SocketSender>,
    /// Each loop says once that it has all that it needs of the system, memory too.
    ready: Receiver<()>,
}

/// Event loops for the connections of a table that began at a moment, and where they go in. Each keeps a sender until its
/// last connection has ended.
pub(crate) fn open_loops<R: Clock + Drop>(
    alloc: Global,
    event_loops: Vec<EventLoop>,
    patience: Patience,
    start: Instant,
    table: &ConnectionTable<R>,
    serving: &UnboundedSender<()>,
) -> Mem<(Acceptor, Vec<SocketLoop>)> {
    let mut senders = Vec::new(alloc);
    let (is_ready, ready) = bounded(alloc, LOOPS)?;
    let mut loops = Vec::new(alloc);
    for (number, event_loop) in event_loops.into_iter().enumerate() {
        let (sender, sockets) = unbounded_channel(alloc)?;
        senders.push(sender)?;
        loops.push(SocketLoop {
            event_loop,
            number,
            sockets,
            patience,
            start,
            losses: table.losses()?,
            ready: is_ready.clone()?,
            serving: serving.clone()?,
        })?;
    }
    Ok((Acceptor { senders, ready }, loops))
}

/// Accepts connections until as many as were told have come, or until the server is told to end, and gives those that the
/// table admits to the loops in turn. It says how many have come. The first is accepted once each loop is ready, so that no
/// connection takes a file descriptor that a loop still needs.
pub(crate) fn accept_all<R: Wait + Clock + Drop>(
    rt: &R,
    listener: &net::TcpListener,
    stopping: &Stopping,
    acceptor: Acceptor,
    table: &mut ConnectionTable<R>,
    connections: Option<u32>,
) -> Result<u32, ServeFault> {
    let losses = table.losses()?;
    let senders = acceptor.senders.as_slice();
    for _ in senders {
        // A loop that could not begin is told by its end.
        let _ = acceptor.ready.recv(rt);
    }
    stopping.begin();
    let mut accepted = 0u32;
    let mut at = 0usize;
    for _ in rt.forever() {
        if connections == Some(accepted) || stopping.is_told() {
            stopping.end();
            return Ok(accepted);
        }
        let Ok((socket, _)) = listener.accept() else {
            thread::sleep(rt, Duration::from_millis(PAUSE));
            continue;
        };
        accepted = accepted.saturating_add(1);
        let Some(open) = table.admit(socket.as_raw_fd()) else {
            continue;
        };
        let Some(sender) = senders.get(at) else {
            return Err(ServeFault::Memory);
        };
        match sender.send(Accepted { open, socket }) {
            Ok(()) => {}
            // A loop ends early only where the system fails it.
            Err(SendError::Closed(_)) => return Err(ServeFault::Socket),
            Err(SendError::OutOfMemory(_)) => losses.add(),
        }
        at = at.saturating_add(1);
        if at >= senders.len() {
            at = 0;
        }
    }
    unreachable!()
}

/// A connection of a loop.
#[derive(Drop)]
pub(crate) struct Arrived {
    open: OpenConnection,
    stream: TcpStream,
    /// Its socket's number.
    number: u64,
}

/// A connection over a socket as a task.
type SocketTask<R, S> = ConnectionTask<SocketConnection<R, S>, OpenConnection>;

/// Makes tasks of the connections over sockets, as these streams serve them; of none, a task that has ended.
pub(crate) struct TaskMaker<R: Wait + Clock + Copy + Drop, S: CallServer<R>> {
    rt: R,
    alloc: Global,
    /// When the table of connections began.
    start: Instant,
    streams: Streams<R, S, TokioTimer<R>>,
}

impl<R: Wait + Clock + Copy + Drop, S: CallServer<R>> Drop for TaskMaker<R, S> {
    fn drop(self) {
        let TaskMaker {
            rt: _,
            alloc: _,
            start: _,
            streams: _,
        } = self;
    }
}

impl<R, S> MakesTasks<Option<Arrived>, SocketTask<R, S>> for TaskMaker<R, S>
where
    R: Wait + Clock + Copy + Drop,
    S: CallServer<R>,
{
    fn make(&self, arrived: Option<Arrived>) -> Mem<SocketTask<R, S>> {
        let Some(arrived) = arrived else {
            return Ok(ConnectionTask::ended());
        };
        let Arrived {
            open,
            stream,
            number,
        } = arrived;
        let requests = open.requests(self.rt, self.start);
        let answers = open.answers();
        ConnectionTask::of(
            self.alloc,
            Some(open),
            self.streams.socket(stream, number, requests, answers)?,
        )
    }
}

/// Takes a loop's connections in, each as a task of a set. Ready once no more come.
///
/// A connection for which there is no memory is closed, and nothing else happens: what is short may be there again
/// for the next one.
#[derive(Drop)]
struct Connections<'a, R: Wait + Drop, S: CallServer<R>, M, T: Future> {
    rt: R,
    server: &'a S,
    sockets: UnboundedReceiver<Accepted>,
    losses: Losses,
    reactor: reactor::Handle,
    tasks: &'a TaskGroup<T>,
    maker: M,
    beats: Interval,
    /// None once the loop has said that it is ready.
    ready: Option<Sender<()>>,
}

impl<R, S, M, T> Future for Connections<'_, R, S, M, T>
where
    R: Wait + Drop,
    S: CallServer<R>,
    M: MakesTasks<Option<Arrived>, T>,
    T: Future<Output = ()>,
{
    type Output = ();

    fn poll(&mut self, cx: &mut Context<'_>) -> Poll<()> {
        // Once it is polled, the loop has all the memory that it needs for itself.
        if let Some(ready) = self.ready.take() {
            let _ = ready.send(&self.rt, ());
        }
        if self.beats.poll_tick(cx).is_ready() {
            self.server.beat();
            return cx.yield_now();
        }
        let Some(Accepted { open, socket }) = ready!(self.sockets.poll_recv(cx)) else {
            return Poll::Ready(());
        };
        let number = u64::try_from(socket.as_raw_fd()).unwrap_or(0);
        if let Ok(stream) = TcpStream::from_std(socket, &self.reactor) {
            let _ = stream.set_nodelay(true);
            let arrived = Arrived {
                open,
                stream,
                number,
            };
            if !self.tasks.begin(self.maker.make(Some(arrived))) {
                self.losses.add();
            }
        } else {
            self.losses.add();
        }
        cx.yield_now()
    }
}

/// By what the connections of an event loop are served, whose timers are its own.
fn streams_of<R, S>(
    rt: R,
    alloc: Global,
    event_loop: &EventLoop,
    server: Arc<S>,
    patience: Patience,
) -> io::Result<Streams<R, S, TokioTimer<R>>>
where
    R: Wait + Clock + RandomSource + Copy + Drop,
    S: CallServer<R>,
{
    let keys = RandomState::new(&rt)?;
    let timers = event_loop.timers();
    let timer = TokioTimer::new(rt, timers.clone()?);
    let timers = Some(timers.clone()?);
    Ok(Streams::new(rt, alloc, keys, server, timer, timers, patience))
}

/// Serves a loop's connections and their brief calls, until there are no more and the last has ended.
pub(crate) fn serve_connections<R, C>(
    rt: R,
    alloc: Global,
    own: SocketLoop,
    jobs: Jobs<R>,
    thread: ServingThread<R, C>,
) -> ThreadEnd<C>
where
    R: Wait + Clock + RandomSource + AllocGlobal + Copy + Drop,
    C: TenantCalls,
{
    let Ok(reader) = StepReader::new(alloc) else {
        return (Some(thread.into_calls()), Err(ServeFault::Memory));
    };
    let calls = InlineCalls::new(rt, alloc, own.number, jobs, thread, reader);
    let calls = match Arc::new(alloc, calls) {
        Ok(calls) => calls,
        Err(failed) => return (Some(failed.value.into_calls()), Err(ServeFault::Memory)),
    };
    let served = serve_sockets(rt, alloc, own, &calls);
    let served = served.map_err(|error| ServeFault::of(&error));
    // All connections have ended, which shared it.
    let calls = Arc::into_inner(calls).map(InlineCalls::into_calls);
    (calls, served)
}

/// Runs a loop's connections as tasks, whose calls are served so.
fn serve_sockets<R, S>(rt: R, alloc: Global, own: SocketLoop, server: &Arc<S>) -> io::Result<()>
where
    R: Wait + Clock + RandomSource + AllocGlobal + Copy + Drop,
    S: CallServer<R>,
{
    let SocketLoop {
        mut event_loop,
        number: _,
        sockets,
        patience,
        start,
        losses,
        ready,
        serving: _serving,
    } = own;
    let streams = streams_of(rt, alloc, &event_loop, Arc::try_clone(server)?, patience)?;
    let reactor = event_loop.reactor().clone()?;
    let beats = beats_of(&rt, &event_loop)?;
    let maker = TaskMaker {
        rt,
        alloc,
        start,
        streams,
    };
    let arriving = Arriving {
        sockets,
        losses,
        reactor,
        beats,
        ready,
    };
    run_tasks(rt, &mut event_loop, &**server, arriving, maker)
}

/// When a loop shows that it moves.
fn beats_of<R: Clock>(rt: &R, event_loop: &EventLoop) -> io::Result<Interval> {
    let timers = event_loop.timers();
    Ok(timers.interval(rt, Duration::from_secs(SECONDS_A_BEAT))?)
}

/// What a loop's connections come by.
#[derive(Drop)]
struct Arriving {
    sockets: UnboundedReceiver<Accepted>,
    losses: Losses,
    reactor: reactor::Handle,
    beats: Interval,
    ready: Sender<()>,
}

/// Runs a loop's connections as tasks.
fn run_tasks<R, S, M, T>(
    rt: R,
    event_loop: &mut EventLoop,
    server: &S,
    arriving: Arriving,
    maker: M,
) -> io::Result<()>
where
    R: Wait + Clock + RandomSource + AllocGlobal + Copy + Drop,
    S: CallServer<R>,
    M: MakesTasks<Option<Arrived>, T>,
    T: Future<Output = ()>,
{
    let Arriving {
        sockets,
        losses,
        reactor,
        beats,
        ready,
    } = arriving;
    let tasks = event_loop.tasks(&rt)?;
    for _ in 0..ROOMS {
        let _ = tasks.begin(maker.make(None));
    }
    let connections = Connections {
        rt,
        server,
        sockets,
        losses,
        reactor,
        tasks: &tasks,
        maker,
        beats,
        ready: Some(ready),
    };
    event_loop.run(&rt, &tasks, connections)
}
