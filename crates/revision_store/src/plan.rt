//! What a plan writes.
ghost use Rattle.std.specs.Prelude.{◌≡◌, ◌+◌, ◌≤◌, ◌∷◌, ◌++◌, [], length, map, vec_capacity, OnOk, OnErr};
ghost use Rattle.etcd_model.specs.Fields.{is_empty};
ghost use Rattle.revision_store.specs.declared.plan.Write.TheVariants.{Delete};

use crate::growing::make_room;
use etcd_types::{CellNo, KeyValue, Mem};
use std::alloc::Global;
use std::marker::Model;

/// One change that a plan writes.
#[derive(Drop)]
pub(crate) enum Write {
    /// The row that a put leaves.
    Put(KeyValue),
    /// A delete of the key whose newest change is under this cell.
    Delete(CellNo),
}

/// Changes that are decided, with all memory that their commit needs. It doubles as it grows, and never has room for
/// more than as many changes again as it has, and one more.
#[derive(Drop)]
pub struct Plan {
    writes: Vec<Write>,
}

impl Model for Plan {
    ghost use Rattle.std.specs.Prelude.{◌≤◌, List, length, vec_capacity};
    ghost use Rattle.revision_store.specs.Room.{most_room};
    ghost use Rattle.revision_store.specs.declared.plan.Write.{Write};

    ghost Value = { List Write };

    ghost view = { λ p. p.writes.items };

    ghost invariant = { λ p. vec_capacity p.writes ≤ most_room (length p.writes.items) };
}

impl Plan {
    /// Of no change. It takes no memory.
    pub(crate) fn new(alloc: Global) -> Plan
        ensures { result ≡ [] }
    {
        Plan {
            writes: Vec::new(alloc),
        }
    }

    /// Writes one more change. Without memory it stays as it was.
    pub(crate) fn push(&mut self, write: Write) -> Mem<()>
        ensures ok { OnOk result (self.new ≡ self.old ++ write ∷ []) }
        ensures err { OnErr result (self.new ≡ self.old) }
    {
        make_room(&mut self.writes, 1)?;
        self.writes.push_reserved(write);
        Ok(())
    }

    /// Writes a delete more for each cell, of the key that its row has. Without memory it stays as it was.
    pub(crate) fn push_deletes(&mut self, cells: &[CellNo]) -> Mem<()>
        ensures ok { OnOk result (self.new ≡ self.old ++ map Delete cells.now) }
        ensures err { OnErr result (self.new ≡ self.old) }
    {
        make_room(&mut self.writes, cells.len())?;
        push_deletes(&mut self.writes, cells);
        Ok(())
    }

    /// How many changes it writes.
    pub(crate) fn len(&self) -> usize
        ensures { result ≡ length self.now }
    {
        self.writes.len()
    }

    /// Nothing is written.
    pub fn is_empty(&self) -> bool
        ensures { result ≡ is_empty self.now }
    {
        self.writes.is_empty()
    }

    /// What is written, in order.
    pub(crate) fn writes(&self) -> &[Write]
        ensures { result.now ≡ self.now }
    {
        &self.writes
    }
}

/// One more write for each cell, a delete of the key that its row has.
fn push_deletes(writes: &mut Vec<Write>, cells: &[CellNo])
    requires { length writes.old.items + length cells.now ≤ vec_capacity writes.old }
    ensures items { writes.new.items ≡ writes.old.items ++ map Delete cells.now }
    ensures room { vec_capacity writes.new ≡ vec_capacity writes.old }
{
    for cell in cells {
        writes.push_reserved(Write::Delete(*cell));
    }
}
