//! Tenants come, take other quotas and go while the host answers.
ghost use Rattle.std.specs.Prelude.{◌≡◌, IfOk, OnErr, length, vec_len};
ghost use Rattle.host_front.specs.Lines.{lent_line, line_of, line_turns_of};
ghost use Rattle.host_front.specs.Operating.{Lives, operator_told};
ghost use Rattle.host_front.specs.Living.{AllLived};

use crate::front::Front;
use crate::line::{HostLine, LentLine, LineAnswer};
use etcd_types::Mem;
use std::alloc::Global;
use steps_core::OperatorFault;

impl Front {
    /// Answers one line: an event of a tenant, or a call of the operator.
    pub fn live(&mut self, alloc: Global, line: &HostLine) -> LineAnswer
        ensures { Lives self.old.host (line_of line.now) result self.new.host }
    {
        self.live_lent(alloc, line.lend())
    }

    /// The same of a line whose bytes are lent.
    pub fn live_lent(&mut self, alloc: Global, line: LentLine<'_>) -> LineAnswer
        ensures { Lives self.old.host (lent_line line.entry) result self.new.host }
    {
        match line {
            LentLine::Event(event) => LineAnswer::Event(self.answer_lent(alloc, event)),
            LentLine::Add {
                name,
                cluster,
                quota,
                first,
            } => told(self.host.add(alloc, name, cluster, quota, first)),
            LentLine::Resize { name, quota } => told(self.host.resize(name, quota)),
            LentLine::Remove { name } => told(self.host.remove(name)),
        }
    }

    /// Answers lines of any tenants and of the operator in any order. If the answers can't be held, none is
    /// asked for.
    pub fn live_all(&mut self, alloc: Global, lines: &[HostLine]) -> Mem<Vec<LineAnswer>>
        ensures lived { IfOk result
            (λ answers. AllLived self.old.host (line_turns_of lines.now answers.items) self.new.host) }
        ensures each { IfOk result (λ answers. vec_len answers ≡ length lines.now) }
        ensures err { OnErr result (self.new.host ≡ self.old.host) }
    {
        let mut answers = Vec::with_capacity(alloc, lines.len())?;
        for line in lines {
            let answer = self.live(alloc, line);
            answers.push_reserved(answer);
        }
        Ok(answers)
    }
}

/// What the operator is told.
fn told(done: Result<(), OperatorFault>) -> LineAnswer
    ensures { result ≡ operator_told done }
{
    match done {
        Ok(()) => LineAnswer::Done,
        Err(fault) => LineAnswer::No(fault),
    }
}
