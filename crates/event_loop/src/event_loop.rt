//! What waits for sockets and timers, and what it runs.
ghost use Rattle.std.specs.Prelude.{IfOk};

use etcd_types::Mem;
use futures::Future;
use futures::executor::TaskSet;
use std::alloc::AllocGlobal;
use std::io;
use std::net::Net;
use std::random::RandomSource;
use std::sync::Wait;
use std::time::{Clock, Duration};
use tokio::runtime::LocalRuntime;
use tokio::{reactor, time};

/// What waits for the sockets and the timers of one thread.
pub struct EventLoop {
    runtime: LocalRuntime,
}

impl Drop for EventLoop {
    fn drop(self) {
        let EventLoop { runtime: _ } = self;
    }
}

impl EventLoop {
    /// An error where the system or the memory has no room for one.
    pub fn new<R>(rt: &R) -> io::Result<EventLoop>
    where
        R: Clock + Net + RandomSource + AllocGlobal,
    {
        Ok(EventLoop {
            runtime: LocalRuntime::new(rt)?,
        })
    }

    /// What makes timers of it.
    pub fn timers(&self) -> &time::Handle {
        self.runtime.handle().time()
    }

    /// What waits for its sockets.
    pub fn reactor(&self) -> &reactor::Handle {
        self.runtime.handle().reactor()
    }

    /// No tasks yet; an error where there is no memory for any.
    pub fn tasks<R, T>(&self, rt: &R) -> io::Result<TaskGroup<T>>
    where
        R: RandomSource + AllocGlobal,
        T: Future<Output = ()>,
    {
        Ok(TaskGroup {
            set: self.runtime.task_set(rt)?,
        })
    }

    /// Tasks have so much time to end once the future is ready beside which they run; they are let go then. Else they have as
    /// long as they take.
    pub fn limit_the_end(&mut self, time: Duration) {
        self.runtime.set_shutdown_timeout(Some(time));
    }

    /// Runs tasks on this thread until a future is ready and the last of them has ended, or has to.
    pub fn run<R, T, F>(&mut self, rt: &R, tasks: &TaskGroup<T>, future: F) -> io::Result<F::Output>
    where
        R: Wait + Clock + RandomSource + AllocGlobal,
        T: Future<Output = ()>,
        F: Future,
        F::Output: Drop,
        requires { F.can_poll future }
        ensures { IfOk result (F.gives future) }
    {
        self.runtime.block_on_with(rt, &tasks.set, future)
    }
}

/// What makes tasks of what arrives. Who takes that in proves nothing of what they are made of.
pub trait MakesTasks<A: Drop, T: Future>: Drop {
    /// Its task; an error where there is no memory.
    fn make(&self, arrived: A) -> Mem<T>
        ensures { IfOk result T.can_poll };
}

/// Tasks of one kind, which an event loop runs.
pub struct TaskGroup<T: Future> {
    set: TaskSet<T>,
}

impl<T: Future> Drop for TaskGroup<T> {
    fn drop(self) {
        let TaskGroup { set: _ } = self;
    }
}

impl<T: Future<Output = ()>> TaskGroup<T> {
    /// Begins a task that could be made; `false` where there is no memory for it.
    pub fn begin(&self, made: Mem<T>) -> bool
        requires { IfOk made T.can_poll }
    {
        match made {
            Ok(task) => self.set.spawn(task).is_ok(),
            Err(_) => false,
        }
    }
}
