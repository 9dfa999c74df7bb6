//! Rows that are read where they lie, so that none has to be made.
ghost use Rattle.std.specs.Prelude.{◌≡◌, Some, IsSome, IfSome, IfOk, OnOk, [], option_map};
ghost use Rattle.etcd_types.specs.Rows.{shape_of};
ghost use Rattle.revision_store.specs.InPlace.{in_place, row_shown};
ghost use Rattle.revision_store.specs.Pending.{AreRows};
ghost use Rattle.revision_store.specs.Plans.{key_at};
ghost use Rattle.revision_store.specs.Recorded.{cells_of};
ghost use Rattle.revision_store.specs.Stored.{row_at};

use crate::log::Log;
use etcd_types::{CellNo, KeyValue, List, Mem, RowShape, RowsInPlace};
use std::alloc::Global;
use std::marker::Model;
use std::mem;

/// Some rows, which lie in their cells. Contracts see it as the list of them.
#[derive(Drop)]
pub struct FoundRows<'a> {
    alloc: Global,
    log: &'a Log,
    cells: Vec<CellNo>,
    /// They are shown without their values.
    keys_only: bool,
}

impl<'a> Model for FoundRows<'a> {
    ghost use Rattle.std.specs.Prelude.{List};
    ghost use Rattle.etcd_types.specs.declared.key_value.KeyValue.{KeyValue};
    ghost use Rattle.revision_store.specs.InPlace.{in_place};
    ghost use Rattle.revision_store.specs.Pending.{AreRows};
    ghost use Rattle.revision_store.specs.Recorded.{cells_of};

    ghost Value = { List KeyValue };

    ghost view = { λ f. in_place (cells_of f.log.now.records) f.keys_only f.cells.items };

    ghost invariant = { λ f. AreRows (cells_of f.log.now.records) f.cells.items };
}

impl<'a> FoundRows<'a> {
    /// The rows under some cells, shown without their values where keys alone are asked for.
    pub(crate) fn new(
        alloc: Global,
        log: &'a Log,
        cells: Vec<CellNo>,
        keys_only: bool,
    ) -> FoundRows<'a>
        requires { AreRows (cells_of log.now.records) cells.items }
        ensures { result ≡ in_place (cells_of log.now.records) keys_only cells.items }
    {
        FoundRows {
            alloc,
            log,
            cells,
            keys_only,
        }
    }
}

impl<'a> RowsInPlace for FoundRows<'a> {
    ghost rows = { λ rows. rows };

    fn len(&self) -> usize {
        self.cells.len()
    }

    fn shape(&self, place: usize) -> RowShape {
        self.log.shape_shown(self.cells[place], self.keys_only)
    }

    fn read(&self, place: usize, row: &mut KeyValue) -> Mem<()> {
        self.log
            .read_row(self.alloc, self.cells[place], self.keys_only, row)
    }
}

impl Log {
    /// The shape of the row under a cell, as it is shown.
    fn shape_shown(&self, cell: CellNo, keys_only: bool) -> RowShape
        requires { IsSome (row_at (cells_of self.now.records) cell) }
        ensures { IfSome (row_at (cells_of self.now.records) cell)
            (λ row. result ≡ shape_of (row_shown keys_only row)) }
    {
        let fields = self.region.fields(cell);
        RowShape {
            key: self.region.key_len(cell) as usize,
            create_revision: fields.create_revision,
            mod_revision: fields.revision,
            version: fields.version,
            value: if keys_only {
                0
            } else {
                self.region.value_len(cell) as usize
            },
            lease: fields.lease,
        }
    }

    /// Reads the row under a cell, as it is shown, into another one, whose memory is used again.
    fn read_row(&self, alloc: Global, cell: CellNo, keys_only: bool, row: &mut KeyValue) -> Mem<()>
        requires { IsSome (row_at (cells_of self.now.records) cell) }
        ensures { OnOk result
            (option_map (row_shown keys_only) (row_at (cells_of self.now.records) cell) ≡ Some row.new) }
    {
        let key = self.read_key(cell, emptied(alloc, &mut row.key))?;
        let mut value = emptied(alloc, &mut row.value);
        if !keys_only {
            value = self.read_value(cell, value)?;
        }
        let numbers = self.numbers(alloc, cell);
        *row = KeyValue {
            key,
            value: List::from_vec(value),
            ..numbers
        };
        Ok(())
    }

    /// The key of the change under a cell, read into an empty list. The list grows only by what is missing.
    fn read_key(&self, cell: CellNo, mut room: Vec<u8>) -> Mem<List<u8>>
        requires there { IsSome (cells_of self.now.records cell) }
        requires empty { room.items ≡ [] }
        ensures { IfOk result (λ key. key ≡ key_at (cells_of self.now.records) cell) }
    {
        room.reserve_exact(self.region.key_len(cell) as usize)?;
        self.region.read_key(cell, &mut room)?;
        Ok(List::from_vec(room))
    }

    /// The same of the value of the row under a cell.
    fn read_value(&self, cell: CellNo, mut room: Vec<u8>) -> Mem<Vec<u8>>
        requires there { IsSome (row_at (cells_of self.now.records) cell) }
        requires empty { room.items ≡ [] }
        ensures { IfOk result (λ value. IfSome (row_at (cells_of self.now.records) cell)
            (λ row. value.items ≡ row.value)) }
    {
        room.reserve_exact(self.region.value_len(cell) as usize)?;
        self.region.read_value(cell, &mut room)?;
        Ok(room)
    }
}

/// The memory of a list, with nothing in it.
fn emptied(alloc: Global, list: &mut List<u8>) -> Vec<u8>
    ensures { result.items ≡ [] }
{
    let mut room = mem::replace(list, List::new(alloc)).into_vec();
    room.clear();
    room
}
