//! What the clients of one tenant may have under way, in bytes: long bodies until they are read, what long answers take
//! from their plan on until they are sent, and the texts of watches until they are sent.
//!
//! Each tenant has a budget of its own, and no other tenant can take of it. A long body waits for its share before it
//! is read. A call whose answer may be long reserves what its plan and its text may take, by a weight that is told
//! before it is planned, and is refused where so much is not left; its answer keeps the share of its text. So does a text
//! of a watch, which is taken later where so much is not left. One that may be longer than the whole budget could never be
//! taken so: what is not there once it is made is owed, and paid before anything else is given back.
ghost use Rattle.std.specs.Prelude.{◌≡◌, ◌≤◌};
ghost use Rattle.futures.specs.Task.{IsArmed, Keeps};
ghost use Rattle.futures.specs.Poll.{OnPending};
ghost use Rattle.tokio.specs.Locks.{CanAcquire};

use crate::tree_weight::TreeWeight;
use etcd_types::Mem;
use futures::Future;
use futures::task::{Context, Poll};
use std::alloc::Global;
use std::sync::Arc;
use std::sync::atomic::{AtomicUsize, Ordering};
use tokio::sync::{AcquireOwned, Semaphore};

/// The most bytes of a body or of a text that is short: it takes no share, and a body of it is read by an event loop.
pub const SHORT: usize = 4096;

/// The most bytes that a row may take until it is sent: the longest body has three quarters of it in its key and value,
/// which are held once and written in base64.
pub const LONGEST_ROW: usize = 4_194_304;

/// The budget of a tenant that none is told for: room for eight of the longest bodies.
pub const DEFAULT_BUDGET: usize = 16_777_216;

/// A tenant's budget, which all share that take of it.
pub struct Budget {
    /// What is left, a permit a byte.
    left: Arc<Semaphore>,
    /// What was taken that was not there.
    owed: Arc<AtomicUsize>,
    /// All of it, whoever has it.
    whole: Arc<AtomicUsize>,
}

impl Drop for Budget {
    fn drop(self) {
        let Budget {
            left: _,
            owed: _,
            whole: _,
        } = self;
    }
}

/// The share of a text of a watch that is to be made.
#[derive(Drop)]
pub enum TextShare {
    /// So much is reserved as it may take.
    Reserved(Share),
    /// It may take more than the whole budget, and takes it once it is made.
    Later,
}

impl Budget {
    /// One of so many bytes.
    pub fn new(alloc: Global, bytes: usize) -> Mem<Budget> {
        let bytes = bytes.min(Semaphore::MAX_PERMITS);
        let left = Semaphore::new(alloc, bytes)?;
        Ok(Budget {
            left: Arc::new(alloc, left)?,
            owed: Arc::new(alloc, AtomicUsize::new(0))?,
            whole: Arc::new(alloc, AtomicUsize::new(bytes))?,
        })
    }

    /// The same for another holder.
    pub fn share(&self) -> Mem<Budget> {
        Ok(Budget {
            left: Arc::try_clone(&self.left)?,
            owed: Arc::try_clone(&self.owed)?,
            whole: Arc::try_clone(&self.whole)?,
        })
    }

    /// Another budget from now on. What is under way beyond it is owed.
    pub fn change(&self, bytes: usize) {
        let bytes = bytes.min(Semaphore::MAX_PERMITS);
        let before = self.whole.swap(bytes, Ordering::SeqCst);
        if bytes > before {
            self.give_back(bytes - before);
        } else {
            self.take(before - bytes);
        }
    }

    /// How many bytes are left.
    pub fn left(&self) -> usize {
        if self.owed.load(Ordering::SeqCst) > 0 {
            return 0;
        }
        self.left.available_permits()
    }

    /// A share of so many bytes, if they are left.
    pub fn reserve(&self, bytes: u64) -> Option<Share> {
        let bytes = usize::try_from(bytes).ok()?;
        let budget = self.share().ok()?;
        let there = self.left.forget_permits(bytes);
        let share = Share {
            budget,
            bytes: there,
        };
        if there == bytes { Some(share) } else { None }
    }

    /// The share of a text of a watch that may take so many bytes; none where they are not left, but may be later.
    pub fn reserve_text(&self, bytes: u64) -> Option<TextShare> {
        if bytes > self.whole.load(Ordering::SeqCst) as u64 {
            return if self.left() > 0 {
                Some(TextShare::Later)
            } else {
                None
            };
        }
        self.reserve(bytes).map(TextShare::Reserved)
    }

    /// Whether so much is left as the tree of a body needs, which may be nothing.
    fn has_room_for(&self, tree: TreeWeight) -> bool {
        tree.is_small() || tree.bytes() <= self.left() as u64
    }

    /// A text that was made, with a share of its length, for which something may have been reserved. A short one takes
    /// none.
    pub fn charge(&self, reserved: Option<Share>, bytes: Vec<u8>) -> MadeText
        ensures { result.bytes ≡ bytes }
    {
        if bytes.len() <= SHORT {
            return MadeText::short(bytes);
        }
        let share = match reserved {
            Some(share) => Some(share),
            None => self.reserve(0),
        };
        let share = share.map(|share| share.resized(bytes.len()));
        MadeText { bytes, share }
    }

    /// Takes so many bytes, and owes those that are not left.
    pub fn take(&self, bytes: usize) {
        let there = self.left.forget_permits(bytes);
        self.owed.fetch_add(bytes - there, Ordering::SeqCst);
    }

    /// Gives so many bytes back, less what is owed.
    pub fn give_back(&self, bytes: usize) {
        let paid = self.pay(bytes);
        self.left.add_permits(bytes - paid);
    }

    /// Pays what is owed out of so many bytes, and tells how much that was. It is one step: else who gives back at the
    /// same moment would find nothing owed.
    fn pay(&self, bytes: usize) -> usize
        ensures { result ≤ bytes }
    {
        let paid = |owed: usize| Some(owed.saturating_sub(bytes));
        match self
            .owed
            .fetch_update(Ordering::SeqCst, Ordering::SeqCst, paid)
        {
            Ok(owed) => owed.min(bytes),
            Err(_) => 0,
        }
    }

    /// The share of a body of so many bytes at the most, before it is read.
    pub fn promise(&self, bytes: usize) -> Option<AwaitedShare> {
        let bytes = u32::try_from(bytes).ok()?;
        let budget = self.share().ok()?;
        let left = Arc::try_clone(&self.left).ok()?;
        Some(AwaitedShare {
            budget,
            bytes,
            acquire: Semaphore::acquire_many_owned(left, bytes),
        })
    }
}

/// A share of a tenant's budget, which goes back when it is let go.
pub struct Share {
    budget: Budget,
    bytes: usize,
}

impl Share {
    /// The share with so many bytes, which takes or gives back what differs.
    fn resized(mut self, bytes: usize) -> Share {
        if bytes > self.bytes {
            self.budget.take(bytes - self.bytes);
        } else {
            self.budget.give_back(self.bytes - bytes);
        }
        self.bytes = bytes;
        self
    }
}

impl Drop for Share {
    fn drop(self) {
        let Share { budget, bytes } = self;
        budget.give_back(bytes);
    }
}

/// A share that a body waits for.
#[derive(Drop)]
pub struct AwaitedShare {
    budget: Budget,
    bytes: u32,
    acquire: AcquireOwned,
    ghost may_wait: { CanAcquire acquire },
}

/// The share of a body.
#[derive(Drop)]
pub enum BodyShare {
    /// The body is short, or is not kept.
    None,
    Awaited(AwaitedShare),
    Held(Share),
}

impl BodyShare {
    /// Ready once there is nothing to wait for; `false` where there is no memory to wait.
    pub fn poll_held(self, cx: &mut Context<'_>) -> (BodyShare, Poll<bool>)
        ensures registered { OnPending result.1 (IsArmed cx.new) }
        ensures kept { Keeps cx.old cx.new }
    {
        let BodyShare::Awaited(awaited) = self else {
            return (self, Poll::Ready(true));
        };
        let AwaitedShare {
            budget,
            bytes,
            mut acquire,
        } = awaited;
        match acquire.poll(cx) {
            Poll::Pending => {
                let awaited = AwaitedShare {
                    budget,
                    bytes,
                    acquire,
                };
                (BodyShare::Awaited(awaited), Poll::Pending)
            }
            Poll::Ready(Ok(permit)) => {
                permit.forget();
                let bytes = bytes as usize;
                (BodyShare::Held(Share { budget, bytes }), Poll::Ready(true))
            }
            Poll::Ready(Err(_)) => (BodyShare::None, Poll::Ready(false)),
        }
    }

    /// Whether its budget has room for the tree of the body, as far as that has come.
    pub fn has_room_for(&self, tree: TreeWeight) -> bool {
        match self {
            BodyShare::Held(share) => share.budget.has_room_for(tree),
            BodyShare::None | BodyShare::Awaited(_) => true,
        }
    }

    /// What a body that was read needs of it.
    pub fn for_body(self, bytes: usize) -> Option<Share> {
        match self {
            BodyShare::Held(share) if bytes > SHORT => Some(share.resized(bytes)),
            _ => None,
        }
    }
}

/// A text that was made for a client, with its share of its tenant's budget if it is long.
pub struct MadeText {
    bytes: Vec<u8>,
    share: Option<Share>,
}

impl Drop for MadeText {
    fn drop(self) {
        let MadeText { bytes: _, share: _ } = self;
    }
}

impl MadeText {
    /// A text that is short by what it tells.
    pub fn short(bytes: Vec<u8>) -> MadeText
        ensures { result.bytes ≡ bytes }
    {
        MadeText { bytes, share: None }
    }

    /// How many bytes it has.
    pub fn len(&self) -> usize {
        self.bytes.len()
    }

    pub fn into_parts(self) -> (Vec<u8>, Option<Share>)
        ensures { result.0 ≡ self.bytes }
    {
        let MadeText { bytes, share } = self;
        (bytes, share)
    }
}
