//! Plans of the maintenance calls.
ghost use Rattle.std.specs.Prelude.{◌≡◌};
ghost use Rattle.etcd_types.specs.declared.step.Step.TheVariants.{Alarm, Status, Defragment};
ghost use Rattle.tenant_machine.specs.Deciding.{Does, past_early};
ghost use Rattle.tenant_machine.specs.Tenants.{tenant};
ghost use Rattle.tenant_machine.specs.Plans.{Fits};

use crate::machine::Machine;
use crate::planned::{Effect, Planned};
use etcd_types::limits::CELL_BYTES;
use etcd_types::{AlarmAction, AlarmKind, AlarmReq, Reply};

impl Machine {
    /// This member's alarm is listed by a get, raised by an activate and taken off by a deactivate.
    /// No other alarm and no other member is there: what is asked of one lists nothing and changes
    /// nothing.
    pub(crate) fn plan_alarm(&self, request: &AlarmReq) -> Planned
        ensures does { Does self.now result (past_early (tenant self.now) (Alarm request.now)) }
        ensures fits { Fits self.now result }
    {
        let is_on = self.quota.alarm();
        let (effect, no_space) = match (request.member <= 1, request.action, request.alarm) {
            (true, AlarmAction::Get, AlarmKind::Any | AlarmKind::NoSpace) => {
                (Effect::Nothing, is_on)
            }
            (true, AlarmAction::Activate, AlarmKind::NoSpace) => (Effect::Alarm(true), true),
            (true, AlarmAction::Deactivate, AlarmKind::NoSpace) => (Effect::Alarm(false), is_on),
            _ => (Effect::Nothing, false),
        };
        Planned {
            effect,
            reply: Reply::Alarms {
                header: self.header(),
                no_space,
            },
        }
    }

    /// The bytes of the quota, and those in use.
    pub(crate) fn plan_status(&self) -> Planned
        ensures does { Does self.now result (past_early (tenant self.now) Status) }
        ensures fits { Fits self.now result }
    {
        Planned::told(Reply::Status {
            header: self.header(),
            size: CELL_BYTES * u64::from(self.quota.cells),
            in_use: CELL_BYTES * self.quota.used,
        })
    }

    /// There is nothing to do: cells have no gaps.
    pub(crate) fn plan_defragment(&self) -> Planned
        ensures does { Does self.now result (past_early (tenant self.now) Defragment) }
        ensures fits { Fits self.now result }
    {
        Planned::told(Reply::Defragmented(self.header()))
    }
}
