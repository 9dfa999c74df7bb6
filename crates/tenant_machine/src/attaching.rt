//! How the keys of leases follow what a revision changes.
ghost use Rattle.std.specs.Prelude.{◌≡◌, ◌<◌, ◌≤◌, length, IsSome, IfSome};
ghost use Rattle.key_index.specs.Links.{change_at};
ghost use Rattle.lease_book.specs.Attached.{AreAttached};
ghost use Rattle.revision_store.specs.Stored.{cells};
ghost use Rattle.tenant_machine.specs.Keyed.{AreKeysOf, IsNext, Follows, TakesOff, all_rows};

use etcd_types::CellNo;
use key_index::Records;
use lease_book::LeaseBook;
use revision_store::Store;

/// Takes the keys that a revision changed off the leases that they had, and attaches those that it put with a
/// lease. Nothing else of the book changes.
pub(crate) fn follow(leases: &mut LeaseBook, store: &Store, revision: u64)
    requires next { IsNext store.now leases.old revision }
    ensures keys { AreKeysOf (cells store.now) leases.new.attachments (all_rows store.now.kept) }
    ensures others { leases.new ≡ record leases.old { attachments = leases.new.attachments } }
{
    for cell in store.since(revision) {
        follow_change(leases, store, cell);
    }
}

/// Takes the key of a change off the lease that it had, and attaches it to the one that it is put with.
fn follow_change(leases: &mut LeaseBook, store: &Store, cell: CellNo)
    requires attached { AreAttached (cells store.now) leases.old.attachments }
    requires there { IsSome (cells store.now cell) }
    requires room { length leases.old.attachments < leases.old.room }
    ensures follows { IfSome (change_at (cells store.now) cell)
        (λ x. Follows store.now x leases.old.attachments leases.new.attachments) }
    ensures others { leases.new ≡ record leases.old { attachments = leases.new.attachments } }
{
    let records = store.records();
    let lease = records.lease(cell);
    take_off(leases, store, cell, lease);
    if lease != 0 {
        leases.attach(lease, cell, &records);
    }
}

/// Takes the key of a change off the lease that it had, unless it keeps that one.
fn take_off(leases: &mut LeaseBook, store: &Store, cell: CellNo, kept: i64)
    requires attached { AreAttached (cells store.now) leases.old.attachments }
    requires there { IsSome (cells store.now cell) }
    ensures takes_off { IfSome (change_at (cells store.now) cell)
        (λ x. TakesOff store.now x kept leases.old.attachments leases.new.attachments) }
    ensures attached { AreAttached (cells store.now) leases.new.attachments }
    ensures fewer { length leases.new.attachments ≤ length leases.old.attachments }
    ensures others { leases.new ≡ record leases.old { attachments = leases.new.attachments } }
{
    if let Some(before) = store.cell_before(cell) {
        let records = store.records();
        let held = records.lease(before);
        if held != 0 && held != kept {
            leases.detach(held, before, &records);
        }
    }
}
