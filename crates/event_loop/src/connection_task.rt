//! A connection as a task of an event loop.
ghost use Rattle.std.specs.Prelude.{◌≡◌, IfOk, IfSome, None};

use etcd_types::Mem;
use futures::task::{Context, Poll};
use futures::{Future, ready};
use std::alloc::Global;

/// A connection as a task: its end, whatever it is, is the end of the task and of nothing else. It has a place among those that
/// are open, which it leaves before it is closed.
///
/// It stands on the heap: a set of tasks moves a task each time it polls it, and keeps a place for as many as it ever had at
/// once.
pub struct ConnectionTask<C, P> {
    place: Option<P>,
    connection: Option<Box<C>>,
}

impl<C: Drop, P: Drop> Drop for ConnectionTask<C, P> {
    fn drop(self) {
        let ConnectionTask {
            place: _,
            connection: _,
        } = self;
    }
}

impl<C: Future, P: Drop> ConnectionTask<C, P> {
    /// A task with nothing to do.
    pub fn ended() -> ConnectionTask<C, P>
        ensures { result.connection ≡ None }
    {
        ConnectionTask {
            place: None,
            connection: None,
        }
    }

    /// An error where there is no memory.
    pub fn of(alloc: Global, place: Option<P>, connection: C) -> Mem<ConnectionTask<C, P>>
        requires { C.can_poll connection }
        ensures { IfOk result (λ task. IfSome task.connection (λ connection. C.can_poll connection.value)) }
    {
        let connection = Box::new(alloc, connection)?;
        Ok(ConnectionTask {
            place,
            connection: Some(connection),
        })
    }
}

impl<E: Drop, C: Future<Output = Result<(), E>>, P: Drop> Future for ConnectionTask<C, P> {
    type Output = ();

    ghost can_poll = { λ task. IfSome task.connection (λ connection. C.can_poll connection.value) };

    fn poll(&mut self, cx: &mut Context<'_>) -> Poll<()> {
        if let Some(connection) = &mut self.connection {
            let _ = ready!(connection.poll(cx));
            self.place = None;
            self.connection = None;
        }
        Poll::Ready(())
    }
}
