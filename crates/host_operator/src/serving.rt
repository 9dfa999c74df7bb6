//! The operator's loop: it accepts his connections, and reads and answers their requests.
use crate::calls::OperatorCall;
use crate::connection::{OperatorConnection, OperatorHttp};
use crate::directory::TenantDirectory;
use crate::operator::Operator;
use crate::requests::{OperatorEntrance, OperatorGateway, OperatorOutcome, OperatorRequest};
use connection_table::{Patience, give_up};
use etcd_types::Mem;
use event_loop::{ConnectionTask, EventLoop, MakesTasks, TaskGroup};
use futures::task::{Context, Poll};
use futures::{Future, ready};
use host_config::OperatorConfig;
use std::alloc::{AllocGlobal, Global};
use std::net::{Net, SocketAddr};
use std::random::RandomSource;
use std::rt::Files;
use std::sync::atomic::{AtomicUsize, Ordering};
use std::sync::{Arc, Wait};
use std::time::{Clock, Duration};
use std::{io, net, thread};
use tokio::net::{TcpListener, TcpStream};
use tokio::sync::mpsc::UnboundedReceiver;

/// How many milliseconds no connection is accepted after one could not be.
const PAUSE: u64 = 50;

/// How many seconds connections have to end once the server has. One that is in use, as a dashboard's, would never end.
const SECONDS_AT_THE_END: u64 = 1;

/// Where the operator's connections come in.
pub struct OperatorSocket {
    event_loop: EventLoop,
    guarded: GuardedListener,
}

/// Where he is listened to, and what he has to bring.
struct GuardedListener {
    /// The thread that serves the operator makes it one of its event loop.
    listener: net::TcpListener,
    token: Option<Vec<u8>>,
    patience: Patience,
}

impl Drop for OperatorSocket {
    fn drop(self) {
        let OperatorSocket {
            event_loop: _,
            guarded: _,
        } = self;
    }
}

impl Drop for GuardedListener {
    fn drop(self) {
        let GuardedListener {
            listener: _,
            token: _,
            patience: _,
        } = self;
    }
}

impl GuardedListener {
    /// Listens where the configuration says.
    fn of<R: Net>(
        rt: &R,
        config: &OperatorConfig,
        token: Option<Vec<u8>>,
        patience: Patience,
    ) -> io::Result<GuardedListener> {
        let listener = net::TcpListener::from(mio::net::TcpListener::bind(rt, config.listen)?);
        give_up(&listener, patience)?;
        Ok(GuardedListener {
            listener,
            token,
            patience,
        })
    }

    fn into_parts(self) -> (net::TcpListener, Option<Vec<u8>>, Patience) {
        let GuardedListener {
            listener,
            token,
            patience,
        } = self;
        (listener, token, patience)
    }
}

impl OperatorSocket {
    /// Listens where the configuration says.
    pub fn bind<R>(
        rt: &R,
        config: &OperatorConfig,
        patience: Patience,
    ) -> io::Result<OperatorSocket>
    where
        R: Clock + Net + RandomSource + AllocGlobal,
    {
        let token = match &config.token {
            Some(token) => Some(Vec::from_slice(rt.alloc(), token.as_slice())?),
            None => None,
        };
        let guarded = GuardedListener::of(rt, config, token, patience)?;
        Ok(OperatorSocket {
            event_loop: EventLoop::new(rt)?,
            guarded,
        })
    }

    /// The address that the operator connects to.
    pub fn address(&self) -> io::Result<SocketAddr> {
        self.guarded.listener.local_addr()
    }

    fn into_parts(self) -> (EventLoop, GuardedListener) {
        let OperatorSocket {
            event_loop,
            guarded,
        } = self;
        (event_loop, guarded)
    }
}

/// How many connections of the operator may be open.
const MOST: usize = 16;

/// An open connection, which is counted.
struct Counted {
    open: Arc<AtomicUsize>,
}

impl Counted {
    /// None where there is no memory to share the count.
    fn of(open: &Arc<AtomicUsize>) -> Option<Counted> {
        let open = Arc::try_clone(open).ok()?;
        open.fetch_add(1, Ordering::SeqCst);
        Some(Counted { open })
    }
}

impl Drop for Counted {
    fn drop(self) {
        let Counted { open } = self;
        open.fetch_sub(1, Ordering::SeqCst);
    }
}

/// A connection of the operator as a task.
type OperatorTask<R> = ConnectionTask<OperatorConnection<R>, Counted>;

/// Makes connections of the operator tasks.
struct Receiving<R: Clock + Copy + Drop> {
    rt: R,
    alloc: Global,
    http: OperatorHttp<R>,
    entrance: Arc<OperatorEntrance>,
    /// How many connections are open.
    open: Arc<AtomicUsize>,
}

impl<R: Clock + Copy + Drop> Drop for Receiving<R> {
    fn drop(self) {
        let Receiving {
            rt: _,
            alloc: _,
            http: _,
            entrance: _,
            open: _,
        } = self;
    }
}

impl<R: Clock + RandomSource + Copy + Drop> Receiving<R> {
    /// On an event loop, for peers with so much patience, whose requests are handed in at an entrance.
    fn new(
        rt: R,
        alloc: Global,
        event_loop: &EventLoop,
        patience: Patience,
        entrance: OperatorEntrance,
    ) -> io::Result<Receiving<R>> {
        Ok(Receiving {
            rt,
            alloc,
            http: OperatorHttp::new(rt, alloc, event_loop, patience)?,
            entrance: Arc::new(alloc, entrance)?,
            open: Arc::new(alloc, AtomicUsize::new(0))?,
        })
    }
}

impl<R: Clock + Eprint + Copy + Drop> MakesTasks<TcpStream, OperatorTask<R>> for Receiving<R> {
    fn make(&self, stream: TcpStream) -> Mem<OperatorTask<R>> {
        let gateway = OperatorGateway {
            rt: self.rt,
            alloc: self.alloc,
            entrance: OperatorEntrance::share(&self.entrance),
            bodies: self.http.body_timer(),
        };
        let connection = OperatorConnection::new(&self.http, stream, gateway);
        ConnectionTask::of(self.alloc, Counted::of(&self.open), connection)
    }
}

/// Accepts the operator's connections, each as a task of a set. Ready once the server has ended.
struct Accepting<'a, 'x, R: Wait + Drop, D: TenantDirectory, M, T: Future> {
    rt: R,
    operator: &'a mut Operator<'x, R, D>,
    arriving: Arriving,
    tasks: &'a TaskGroup<T>,
    maker: M,
}

impl<R: Wait + Drop, D: TenantDirectory, M: Drop, T: Future> Drop
    for Accepting<'_, '_, R, D, M, T> {
    fn drop(self) {
        let Accepting {
            rt: _,
            operator: _,
            arriving: _,
            tasks: _,
            maker: _,
        } = self;
    }
}

impl<R, D, M, T> Future for Accepting<'_, '_, R, D, M, T>
where
    R: Wait + Clock + Files + AllocGlobal + Copy + Drop,
    D: TenantDirectory,
    M: MakesTasks<TcpStream, T>,
    T: Future<Output = ()>,
{
    type Output = ();

    fn poll(&mut self, cx: &mut Context<'_>) -> Poll<()> {
        if self.arriving.ended.poll_recv(cx).is_ready() {
            return Poll::Ready(());
        }
        if let Poll::Ready(Some(request)) = self.arriving.requests.poll_recv(cx) {
            serve(self.operator, request);
            return cx.yield_now();
        }
        match ready!(self.arriving.listener.poll_accept(cx)) {
            Ok((stream, _)) => {
                // One too many is closed.
                if self.arriving.open.load(Ordering::SeqCst) < MOST {
                    let _ = self.tasks.begin(self.maker.make(stream));
                }
            }
            Err(_) => thread::sleep(&self.rt, Duration::from_millis(PAUSE)),
        }
        cx.yield_now()
    }
}

/// Does what a request asks. Whether its peer is still there is all one.
fn serve<R, D>(operator: &mut Operator<'_, R, D>, request: OperatorRequest)
where
    R: Wait + Clock + Files + AllocGlobal + Copy + Drop,
    D: TenantDirectory,
{
    let outcome = outcome_of(operator, &request);
    request.reply(outcome);
}

/// What a request comes to.
fn outcome_of<R, D>(operator: &mut Operator<'_, R, D>, request: &OperatorRequest) -> OperatorOutcome
where
    R: Wait + Clock + Files + AllocGlobal + Copy + Drop,
    D: TenantDirectory,
{
    match OperatorCall::of(request.method.as_str(), request.path.as_str()) {
        Ok(call) => operator.answer(call, request.body.as_slice()),
        Err(refusal) => Err(refusal),
    }
}

/// Serves the operator until the server has ended: until the other end of a channel is let go.
pub fn serve_operator<R, D>(
    rt: R,
    alloc: Global,
    socket: OperatorSocket,
    mut operator: Operator<'_, R, D>,
    ended: UnboundedReceiver<()>,
) -> io::Result<()>
where
    R: Wait + Clock + RandomSource + AllocGlobal + Files + Eprint + Copy + Drop,
    D: TenantDirectory,
{
    let (mut event_loop, guarded) = socket.into_parts();
    event_loop.limit_the_end(Duration::from_secs(SECONDS_AT_THE_END));
    serve_from(rt, alloc, &mut event_loop, &mut operator, guarded, ended)
}

/// The same from a listener, on an event loop.
fn serve_from<R, D>(
    rt: R,
    alloc: Global,
    event_loop: &mut EventLoop,
    operator: &mut Operator<'_, R, D>,
    guarded: GuardedListener,
    ended: UnboundedReceiver<()>,
) -> io::Result<()>
where
    R: Wait + Clock + RandomSource + AllocGlobal + Files + Eprint + Copy + Drop,
    D: TenantDirectory,
{
    let (listener, token, patience) = guarded.into_parts();
    let (entrance, requests) = OperatorEntrance::open(alloc, token)?;
    let receiving = Receiving::new(rt, alloc, &*event_loop, patience, entrance)?;
    let arriving = Arriving {
        listener: TcpListener::from_std(listener, event_loop.reactor())?,
        open: Arc::try_clone(&receiving.open)?,
        requests,
        ended,
    };
    run_tasks(rt, event_loop, operator, arriving, receiving)
}

/// What the operator's connections come by.
struct Arriving {
    listener: TcpListener,
    /// How many connections are open.
    open: Arc<AtomicUsize>,
    requests: UnboundedReceiver<OperatorRequest>,
    ended: UnboundedReceiver<()>,
}

impl Drop for Arriving {
    fn drop(self) {
        let Arriving {
            listener: _,
            open: _,
            requests: _,
            ended: _,
        } = self;
    }
}

/// Runs the operator's connections as tasks.
fn run_tasks<R, D, M, T>(
    rt: R,
    event_loop: &mut EventLoop,
    operator: &mut Operator<'_, R, D>,
    arriving: Arriving,
    maker: M,
) -> io::Result<()>
where
    R: Wait + Clock + RandomSource + AllocGlobal + Files + Copy + Drop,
    D: TenantDirectory,
    M: MakesTasks<TcpStream, T>,
    T: Future<Output = ()>,
{
    let tasks = event_loop.tasks(&rt)?;
    let accepting = Accepting {
        rt,
        operator,
        arriving,
        tasks: &tasks,
        maker,
    };
    event_loop.run(&rt, &tasks, accepting)
}
