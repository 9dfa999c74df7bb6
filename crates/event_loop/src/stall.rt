//! Bodies that do not come: how long a connection waits for the next piece of one.
ghost use Rattle.futures.specs.Task.{IsArmed, Keeps};
ghost use Rattle.futures.specs.Poll.{OnPending};

use futures::Future;
use futures::task::{Context, Poll};
use std::rt::Clock;
use std::time::{Duration, Instant};
use tokio::time::{Handle, Sleep};

/// How many milliseconds a body rests that is too costly to read: its client sends no more than four a second then. One that has gone is seen
/// behind it.
const MILLIS_A_REST: u64 = 250;

/// What a connection's bodies are timed by.
#[derive(Drop)]
pub struct BodyTimer {
    pub timers: Handle,
    pub patience: Duration,
}

impl BodyTimer {
    /// The same for another connection; none where there is no memory.
    pub fn share(&self) -> Option<BodyTimer> {
        Some(BodyTimer {
            timers: self.timers.clone().ok()?,
            patience: self.patience,
        })
    }
}

/// The wait for the next piece of a body, which has a timer once a piece did not come at once.
#[derive(Drop)]
pub struct Stall<R> {
    rt: R,
    timer: Option<BodyTimer>,
    sleep: Option<Sleep>,
}

impl<R: Clock + Drop> Stall<R> {
    /// Of a connection without a timer, the next piece is waited for however long that takes.
    pub fn new(rt: R, timer: Option<BodyTimer>) -> Stall<R> {
        Stall {
            rt,
            timer,
            sleep: None,
        }
    }

    /// A piece came, and the next one has its time anew.
    pub fn relent(&mut self) {
        if let Some(timer) = &self.timer {
            let patience = timer.patience;
            self.wait_for(patience);
        }
    }

    /// So much time is waited for from now on, if a timer runs.
    fn wait_for(&mut self, time: Duration) {
        let Some(sleep) = &mut self.sleep else {
            return;
        };
        if let Ok(now) = Instant::now(&self.rt)
            && let Some(deadline) = now.checked_add(time)
        {
            sleep.reset(deadline);
        }
    }

    /// The next piece is left where it is for a while.
    pub fn rest(&mut self) {
        self.begin();
        self.wait_for(Duration::from_millis(MILLIS_A_REST));
    }

    /// No piece is there: ready once the time for it is over; at once where there is no memory for a timer.
    pub fn poll_over(&mut self, cx: &mut Context<'_>) -> Poll<()>
        requires { IsArmed cx.old }
        ensures registered { OnPending result (IsArmed cx.new) }
        ensures kept { Keeps cx.old cx.new }
    {
        self.begin();
        match &mut self.sleep {
            Some(sleep) => sleep.poll(cx).map(|_| ()),
            // Nothing would tell when it is over.
            None if self.timer.is_some() => Poll::Ready(()),
            None => Poll::Pending,
        }
    }

    /// Ready once a rest is over; at once where there is no timer.
    pub fn poll_rest(&mut self, cx: &mut Context<'_>) -> Poll<()>
        ensures registered { OnPending result (IsArmed cx.new) }
        ensures kept { Keeps cx.old cx.new }
    {
        match &mut self.sleep {
            Some(sleep) => sleep.poll(cx).map(|_| ()),
            None => Poll::Ready(()),
        }
    }

    /// The time begins, unless it has, or where there is no memory for a timer.
    fn begin(&mut self) {
        if let (None, Some(timer)) = (&self.sleep, &self.timer) {
            self.sleep = timer.timers.sleep(&self.rt, timer.patience).ok();
        }
    }
}
