//! What the index is lent: records of changes under cell numbers.
ghost use Rattle.std.specs.Prelude.{◌≡◌, ℕ, ◌+◌, Option, Some, None, IsSome, IfSome, is_some};
ghost use Rattle.etcd_model.specs.Order.{key_cmp as cmp_of_keys};
ghost use Rattle.etcd_model.specs.Changes.{Recorded, change_of};
ghost use Rattle.etcd_model.specs.History.{lease_of};
ghost use Rattle.key_index.specs.Links.{Linked, with_link, without};
ghost use Rattle.key_index.specs.Compaction.{cost_of};

use etcd_types::CellNo;
use std::cmp::Ordering;

/// Records under cell numbers. A call that names a cell asks that a record is there, but for `has`.
pub trait Records {
    /// The record that a cell has.
    ghost cells: { Self → ℕ → Option Linked };

    /// Whether a cell has a record.
    fn has(&self, cell: CellNo) -> bool
        ensures { result ≡ is_some (cells self.now cell) };

    /// How the record's key stands to a key, in byte order.
    fn key_cmp(&self, cell: CellNo, key: &[u8]) -> Ordering
        requires { IsSome (cells self.now cell) }
        ensures { IfSome (cells self.now cell) (λ e. result ≡ cmp_of_keys e.change.key key.now) };

    /// How the record's key stands to that of another record, in byte order.
    fn keys_cmp(&self, cell: CellNo, other: CellNo) -> Ordering
        requires cell { IsSome (cells self.now cell) }
        requires other { IsSome (cells self.now other) }
        ensures { IfSome (cells self.now cell) (λ e. IfSome (cells self.now other)
            (λ f. result ≡ cmp_of_keys e.change.key f.change.key)) };

    /// The revision of the change.
    fn revision(&self, cell: CellNo) -> u64
        requires { IsSome (cells self.now cell) }
        ensures { IfSome (cells self.now cell) (λ e. result ≡ e.change.revision) };

    /// Whether the change is a put, and not a delete.
    fn is_put(&self, cell: CellNo) -> bool
        requires { IsSome (cells self.now cell) }
        ensures { IfSome (cells self.now cell) (λ e. result ≡ is_some e.change.row) };

    /// The lease that a put attaches its key to, and 0 where there is none.
    fn lease(&self, cell: CellNo) -> i64
        requires { IsSome (cells self.now cell) }
        ensures { IfSome (cells self.now cell) (λ e. result ≡ lease_of (change_of e.change)) };

    /// The cell of the change of the key before.
    fn older(&self, cell: CellNo) -> Option<CellNo>
        requires { IsSome (cells self.now cell) }
        ensures { IfSome (cells self.now cell) (λ e. result ≡ e.older) };
}

/// Records whose links can be set, and that can be dropped. Neither takes memory.
pub trait RecordsMut: Records {
    /// How many more cells can be placed.
    ghost free: { Self → ℕ };

    /// The cells that the record of a change takes.
    ghost cost: { Recorded → ℕ };

    /// What isn't said of the cells stays too, as which region a value writes to.
    ghost same_rest: { Self → Self → Type 0 };

    /// Links a record to another one of its key, or to none.
    fn set_older(&mut self, cell: CellNo, older: Option<CellNo>)
        requires { IsSome (Self.cells self.old cell) }
        ensures cells { Self.cells self.new ≡ with_link (Self.cells self.old) cell older }
        ensures free { free self.new ≡ free self.old }
        ensures rest { same_rest self.old self.new };

    /// Drops a record, whose cells are free from now on.
    fn drop_record(&mut self, cell: CellNo)
        requires { IsSome (Self.cells self.old cell) }
        ensures cells { Self.cells self.new ≡ without (Self.cells self.old) cell }
        ensures free { free self.new ≡ free self.old + cost_of cost (Self.cells self.old cell) }
        ensures rest { same_rest self.old self.new };

    ghost stays: { (a : Self) → same_rest a a };

    ghost joins: { (a b c : Self) → same_rest a b → same_rest b c → same_rest a c };
}
