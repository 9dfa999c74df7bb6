//! Another quota.
ghost use Rattle.std.specs.Prelude.{max, ◌≡◌, ◌≤◌, OnOk, OnErr, IsOk};
ghost use Rattle.etcd_types.specs.Limits.{max_quota};
ghost use Rattle.cell_arena.specs.Loan.{segments_for};
ghost use Rattle.tenant_machine.specs.Reserving.{reservation, roomier, with_quota};

use crate::machine::{Machine, segments_for};
use etcd_types::Mem;
use etcd_types::limits::SEGMENT_CELLS;

impl Machine {
    /// How many segments the tenant takes with a quota of so many cells: those that the quota fills, those
    /// that the cells in use fill, and those that are drawn, whichever are most.
    pub fn reservation(&self, quota: u32) -> u32
        requires quota { quota ≤ max_quota }
        ensures segments { result ≡ reservation self.now quota }
        ensures within { result ≤ max (segments_for quota) self.now.store.share.rooms }
    {
        let in_use = segments_for(self.quota.used as u32);
        segments_for(quota).max(in_use).max(self.store.drawn())
    }

    /// Makes the rooms that a quota of so many cells wants. What the tenant has stays as it is. Where there are as
    /// many, no memory is taken, and where it finds none, nothing has changed.
    pub fn grow_rooms(&mut self, quota: u32) -> Mem<()>
        requires quota { quota ≤ max_quota }
        ensures ok { OnOk result (self.new ≡ roomier (segments_for quota) self.old) }
        ensures err { OnErr result (self.new ≡ self.old) }
        ensures sure { segments_for quota ≤ self.old.store.share.rooms → IsOk result }
    {
        let cells = segments_for(quota) * SEGMENT_CELLS;
        self.leases.grow_rooms(cells)?;
        self.store.grow_rooms(cells)
    }

    /// Gives the tenant another quota, for which there are rooms, and reserves the segments that it takes
    /// then. No alarm is raised or cleared, and it takes no memory and cannot fail.
    pub fn set_quota(&mut self, quota: u32)
        requires quota { quota ≤ max_quota }
        requires rooms { segments_for quota ≤ self.old.store.share.rooms }
        ensures { self.new ≡ with_quota quota self.old }
    {
        let cells = self.reservation(quota) * SEGMENT_CELLS;
        self.store.set_cells(cells);
        self.quota.cells = quota;
    }
}
