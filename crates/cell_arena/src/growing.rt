//! Rooms for more segments, and the end of a table.
ghost use Rattle.std.specs.Prelude.{ℕ, ◌≡◌, ◌+◌, ◌<◌, ◌≤◌, ◌^◌, length, vec_capacity, OnOk, OnErr, IsOk};
ghost use Rattle.cell_arena.specs.Loan.{IsLent, Settles, KeepsShare, with_rooms, returned};
ghost use Rattle.cell_arena.specs.Table.{IsTable, IsTableIn, OpensBay, SameCells, share_of, table_at};

use crate::bay::{self, Bay};
use crate::order;
use crate::segments::{Segment, Segments};
use crate::table::Table;
use etcd_types::Mem;
use std::mem;

/// One more bay without a segment, for which there is room.
fn open_bay(table: &mut Table)
    requires table { IsTableIn (vec_capacity table.old.bays) table.old }
    requires few { length table.old.bays.items < 2 ^ 14 }
    requires room { length table.old.bays.items < vec_capacity table.old.bays }
    ensures table { IsTableIn (vec_capacity table.old.bays) table.new }
    ensures opens { OpensBay table.old table.new }
    ensures cells { SameCells table.old table.new }
{
    order::push(&mut table.order);
    let bay = bay::none(table.alloc);
    table.bays.push_reserved(bay);
}

/// Makes rooms for so many segments, if there are fewer, and takes memory for no more. Where none is found, none
/// is kept.
pub(crate) fn grow(table: &mut Table, bays: u32) -> Mem<()>
    requires table { IsTable table.old }
    requires few { bays ≤ 2 ^ 14 }
    ensures table { IsTable table.new }
    ensures cells { SameCells table.old table.new }
    ensures used { table.new.used ≡ table.old.used }
    ensures ok { OnOk result (share_of table.new ≡ with_rooms bays (share_of table.old)) }
    ensures err { OnErr result (share_of table.new ≡ share_of table.old) }
    ensures sure { bays ≤ (share_of table.old).rooms → IsOk result }
{
    let more = bays.saturating_sub(table.bays.len() as u32);
    if more == 0 {
        return Ok(());
    }
    // The numbers move, so that only the last step changes the memory that there is.
    let order = order::wider(table.alloc, &table.order, bays)?;
    table.bays.reserve_exact(more as usize)?;
    table.order = order;
    'opening: for _i in 0..more {
        open_bay(table);
    }
    Ok(())
}

/// Gives all segments back.
pub(crate) fn give_up<S: Segments>(mut table: Table, segments: &mut S)
    requires table { IsTable table }
    requires lent { IsLent (share_of table) (S.loan segments.old) }
    ensures settles { Settles (share_of table) (S.loan segments.old)
        (returned (share_of table)) (S.loan segments.new) }
{
    'giving: for i in 0..table.bays.len() {
        let nothing = bay::none(table.alloc);
        let Bay {
            number,
            cells,
            first: _,
            free: _,
        } = mem::replace(&mut table.bays[i], nothing);
        if !cells.is_empty() {
            segments.give_back(Segment { number, cells });
        }
    }
}
