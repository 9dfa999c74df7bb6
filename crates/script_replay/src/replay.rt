//! The host of a script, and what its lines are answered.
ghost use Rattle.std.specs.Prelude.{◌≡◌, IfOk, IsOk, OnOk, IsSome, None};
ghost use Rattle.host_front.specs.Lines.{lent_line};
ghost use Rattle.host_front.specs.Operating.{Lives};
ghost use Rattle.script_replay.specs.Script.{asked_by};
ghost use Rattle.script_replay.specs.Replaying.{host_in, IsInPlace, Tells};

use crate::script::Asked;
use etcd_types::Mem;
use etcd_types::limits::DEFAULT_SEGMENTS;
use host_front::{Front, LentLine, LineAnswer};
use std::alloc::Global;
use steps_core::Host;

/// A script's host, which its first line makes.
#[derive(Drop)]
pub struct Replay {
    pub(crate) front: Option<Front>,
}

impl Replay {
    /// A replay that has no host yet.
    pub fn new() -> Replay
        ensures { result.front ≡ None }
    {
        Replay { front: None }
    }

    /// Answers one line. It fails if the pool can't be held, so never once there is a host.
    ///
    /// Only a replay that has no host yet is asked for a pool, of 1 to 4,194,304 segments. The first line makes
    /// the host, of 1,024 segments if it asks for something else.
    pub fn answer(&mut self, alloc: Global, asked: &Asked<'_>) -> Mem<LineAnswer>
        requires { IsInPlace self.old.front (asked_by asked.now) }
        ensures told { IfOk result
            (λ a. Tells (host_in self.old.front) (asked_by asked.now) a (host_in self.new.front)) }
        ensures sure { IsSome self.old.front → IsOk result }
    {
        match *asked {
            Asked::Pool { segments } => {
                self.front = Some(Front::new(Host::new(alloc, segments)?));
                Ok(LineAnswer::Done)
            }
            Asked::Live(line) => {
                self.begin(alloc)?;
                Ok(self.live(alloc, line))
            }
        }
    }

    /// A script that names no pool has one of the usual size.
    fn begin(&mut self, alloc: Global) -> Mem<()>
        ensures same { host_in self.new.front ≡ host_in self.old.front }
        ensures there { OnOk result (IsSome self.new.front) }
        ensures sure { IsSome self.old.front → IsOk result }
    {
        if self.front.is_none() {
            self.front = Some(Front::new(Host::new(alloc, DEFAULT_SEGMENTS)?));
        }
        Ok(())
    }

    fn live(&mut self, alloc: Global, line: LentLine<'_>) -> LineAnswer
        requires { IsSome self.old.front }
        ensures { Lives (host_in self.old.front) (lent_line line.entry) result (host_in self.new.front) }
    {
        let Some(front) = &mut self.front else {
            unreachable!()
        };
        front.live_lent(alloc, line)
    }
}
