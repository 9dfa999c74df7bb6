//! What a tenant uses.
ghost use Rattle.std.specs.Prelude.{◌≡◌, IfOk, OnOk};
ghost use Rattle.etcd_model.specs.declared.state.History.{History};
ghost use Rattle.etcd_model.specs.declared.state.State.{State};
ghost use Rattle.etcd_model.specs.Held.{Holds};
ghost use Rattle.tenant_machine.specs.Tenants.{tenant};
ghost use Rattle.tenant_registry.specs.Using.{HasSegments, TakesOver, UsesOf};
ghost use Rattle.tenant_registry.specs.Using.{count_of_keys, raised_alarms, with_told};

use etcd_types::limits::CELL_BYTES;
use etcd_types::{
    AlarmAction, AlarmKind, AlarmReq, List, Mem, RangeReq, Reply, SortOrder, SortTarget, Step,
};
use std::alloc::Global;
use tenant_audit::Opening;
use tenant_machine::Machine;

/// What a tenant uses at one moment.
#[derive(Clone, Copy, Debug, PartialEq, Eq)]
pub struct Usage {
    /// Its cluster ID.
    pub cluster: u64,
    /// The revision that it was opened at.
    pub first: i64,
    /// How many cells it may use.
    pub quota: u64,
    /// How many cells it uses.
    pub cells: u64,
    /// How many segments are reserved for it.
    pub reserved: u32,
    /// How many of these it has drawn.
    pub drawn: u32,
    /// Its current revision.
    pub revision: i64,
    /// The revision of its last compaction, 0 before the first.
    pub compacted: u64,
    /// How many live keys it has.
    pub keys: u64,
    /// How many leases it has.
    pub leases: u64,
    /// The alarm of its quota is raised.
    pub no_space: bool,
}

impl Usage {
    /// What a machine tells of itself, mostly by steps that are planned and not made, and so many segments. It lists neither
    /// keys nor leases.
    pub(crate) fn of(
        alloc: Global,
        opening: Opening,
        machine: &Machine,
        reserved: u32,
        drawn: u32,
    ) -> Mem<Usage>
        ensures uses { IfOk result
            (λ usage. (S : State History) → Holds S (tenant machine.now) → UsesOf opening S usage) }
        ensures segments { IfOk result (λ usage. HasSegments reserved drawn usage) }
    {
        let mut usage = Usage {
            cluster: opening.cluster,
            first: opening.first,
            quota: 0,
            cells: 0,
            reserved,
            drawn,
            revision: 0,
            compacted: machine.compacted(),
            keys: 0,
            leases: machine.lease_count() as u64,
            no_space: false,
        };
        usage.ask(alloc, machine, Step::Status)?;
        usage.ask(alloc, machine, count_of_keys(alloc)?)?;
        usage.ask(alloc, machine, raised_alarms())?;
        Ok(usage)
    }

    /// Takes over what a machine would reply to a step.
    fn ask(&mut self, alloc: Global, machine: &Machine, step: Step) -> Mem<()>
        ensures takes { OnOk result (TakesOver machine.now step self.old self.new) }
        ensures segments { HasSegments self.old.reserved self.old.drawn self.new }
    {
        let asked = self.ask_for(alloc, machine, &step);
        drop(step);
        asked
    }

    /// The same of a step that is lent.
    fn ask_for(&mut self, alloc: Global, machine: &Machine, step: &Step) -> Mem<()>
        ensures takes { OnOk result (TakesOver machine.now step.now self.old self.new) }
        ensures segments { HasSegments self.old.reserved self.old.drawn self.new }
    {
        let planned = machine.plan(alloc, step)?;
        self.take_over(planned.reply());
        drop(planned);
        Ok(())
    }

    /// Takes over what a reply tells.
    fn take_over(&mut self, reply: &Reply)
        ensures takes { self.new ≡ with_told self.old reply.now }
        ensures segments { HasSegments self.old.reserved self.old.drawn self.new }
    {
        match reply {
            Reply::Status {
                header,
                size,
                in_use,
            } => {
                self.revision = header.revision;
                self.quota = size / CELL_BYTES;
                self.cells = in_use / CELL_BYTES;
            }
            Reply::Range { count, .. } => self.keys = *count,
            Reply::Alarms { no_space, .. } => self.no_space = *no_space,
            _ => {}
        }
    }
}

/// Asks how many live keys there are.
fn count_of_keys(alloc: Global) -> Mem<Step>
    ensures { IfOk result (λ step. step ≡ count_of_keys) }
{
    Ok(Step::Range(RangeReq {
        key: List::from_slice(alloc, &[0])?,
        range_end: List::from_slice(alloc, &[0])?,
        limit: 0,
        revision: 0,
        sort_order: SortOrder::Unsorted,
        sort_target: SortTarget::Key,
        serializable: true,
        keys_only: false,
        count_only: true,
        min_mod_revision: 0,
        max_mod_revision: 0,
        min_create_revision: 0,
        max_create_revision: 0,
    }))
}

/// Asks whether an alarm is raised.
fn raised_alarms() -> Step
    ensures { result ≡ raised_alarms }
{
    Step::Alarm(AlarmReq {
        action: AlarmAction::Get,
        member: 0,
        alarm: AlarmKind::Any,
    })
}
