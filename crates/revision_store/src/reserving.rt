//! Rooms for more cells, and another number of reserved cells.
ghost use Rattle.std.specs.Prelude.{◌≡◌, ◌/◌, ◌%◌, ◌≤◌, ◌^◌, ◌*◌, OnOk, OnErr, IsOk};
ghost use Rattle.cell_arena.specs.Loan.{CanReserve};
ghost use Rattle.revision_store.specs.Logged.{log_roomier, log_with, used_in};
ghost use Rattle.revision_store.specs.Stored.{roomier, filled_cells, with_cells};

use crate::log::Log;
use crate::store::Store;
use etcd_types::Mem;

impl Log {
    /// Makes rooms for so many cells. The region's come last, so that it never has more than the others.
    fn grow_rooms(&mut self, cells: u32) -> Mem<()>
        requires few { cells ≤ 2 ^ 20 }
        ensures ok { OnOk result (self.new ≡ log_roomier (cells / 64) self.old) }
        ensures err { OnErr result (self.new ≡ self.old) }
        ensures sure { cells ≤ 64 * self.old.share.rooms → IsOk result }
    {
        self.index.grow_rooms(cells)?;
        self.settled.grow_room(cells as usize)?;
        self.recent.grow_room(cells as usize)?;
        self.region.grow_rooms(cells)
    }

    /// Reserves so many cells in the place of those that are.
    fn set_cells(&mut self, cells: u32)
        requires whole { cells % 64 ≡ 0 }
        requires can { CanReserve (cells / 64) self.old.share }
        ensures cells { self.new ≡ log_with cells self.old }
        ensures fits { used_in self.old ≤ cells }
    {
        self.region.set_cells(cells);
    }
}

impl Store {
    /// How many segments are drawn: those with a cell in use.
    pub fn drawn(&self) -> u32
        ensures drawn { result ≡ self.now.share.drawn }
        ensures within { result ≤ self.now.share.reserved }
    {
        self.log.region.drawn()
    }

    /// Makes rooms for so many cells, which are 64 for each segment. What is kept stays as it is. Where there are as
    /// many, no memory is taken, and where it finds none, nothing has changed.
    pub fn grow_rooms(&mut self, cells: u32) -> Mem<()>
        requires few { cells ≤ 2 ^ 20 }
        ensures ok { OnOk result (self.new ≡ roomier (cells / 64) self.old) }
        ensures err { OnErr result (self.new ≡ self.old) }
        ensures sure { cells ≤ 64 * self.old.share.rooms → IsOk result }
    {
        self.log.grow_rooms(cells)
    }

    /// Reserves so many cells in the place of those that are. What is kept stays as it is. It takes no
    /// memory and cannot fail.
    pub fn set_cells(&mut self, cells: u32)
        requires whole { cells % 64 ≡ 0 }
        requires can { CanReserve (cells / 64) self.old.share }
        ensures cells { self.new ≡ with_cells cells self.old }
        ensures fits { filled_cells self.old ≤ cells }
    {
        self.log.set_cells(cells);
    }
}
