//! How leases end.
ghost use Rattle.std.specs.Prelude.{◌≡◌, drop, max, min, option_map, slice_get, true};
ghost use Rattle.std.specs.List.Sorted.{IsStrictlySortedBy};
ghost use Rattle.cell_arena.specs.Loan.{IsLent, Settles};
ghost use Rattle.etcd_types.specs.Limits.{last_moment};
ghost use Rattle.etcd_model.specs.Held.{by_id};
ghost use Rattle.etcd_model.specs.Leases.{finish, tick};
ghost use Rattle.etcd_model.specs.Operations.{has_lease};
ghost use Rattle.etcd_model.specs.Store.{kept_store};
ghost use Rattle.lease_book.specs.Attached.{heads_of};
ghost use Rattle.revision_store.specs.Plans.{head_deletes};
ghost use Rattle.revision_store.specs.Stored.{CanCommit, Commits};
ghost use Rattle.tenant_machine.specs.Tenants.{IsLentTo, SettlesWith, at_moment, tenant, with_due};

use crate::machine::Machine;
use cell_arena::Segments;
use etcd_types::limits::LAST_MOMENT;
use lease_book::LeaseBook;
use revision_store::Store;

impl Machine {
    /// Ends a lease that is there. Its keys are deleted in one revision, and its record goes.
    pub(crate) fn end_lease<S: Segments>(&mut self, segments: &mut S, id: i64)
        requires has { has_lease self.old.leases.leases id ≡ true }
        requires lent { IsLentTo self.old (S.loan segments.old) }
        ensures tenant { tenant self.new ≡ finish kept_store (tenant self.old) id }
        ensures due { self.new.leases.due ≡ self.old.leases.due }
        ensures settles { SettlesWith self.old (S.loan segments.old) self.new (S.loan segments.new) }
    {
        self.store.use_invariant();
        self.leases.use_invariant();
        delete_keys(&mut self.store, segments, &self.leases, id);
        self.watchers.note(&self.store);
        let cell = self.leases.end(id);
        self.store.release_lease(segments, cell);
        self.quota.used -= 1;
    }

    /// The clock comes to a moment, or stays at a later one, and the leases that have run out end, in the
    /// order of their ends.
    pub(crate) fn tick<S: Segments>(&mut self, segments: &mut S, moment: u64)
        requires lent { IsLentTo self.old (S.loan segments.old) }
        ensures tenant { tenant self.new ≡ tick kept_store (tenant self.old) moment }
        ensures settles { SettlesWith self.old (S.loan segments.old) self.new (S.loan segments.new) }
    {
        self.set_clock(moment);
        let mut some_ended = false;
        'ending: while let Some(id) = self.next_due() {
            self.end_lease(segments, id);
            some_ended = true;
        }
        if some_ended {
            self.leases.look_ahead();
        }
    }

    /// The clock comes to a moment, or stays at a later one, and the leases that have run out are collected.
    fn set_clock(&mut self, moment: u64)
        ensures { self.new ≡ at_moment self.old (max self.old.moment (min moment last_moment)) }
    {
        self.moment = self.moment.max(moment.min(LAST_MOMENT));
        self.leases.collect_due(self.moment);
    }

    /// Takes the first of the leases that were collected: its ID.
    fn next_due(&mut self) -> Option<i64>
        ensures value { result ≡ option_map (λ lease. lease.id) (slice_get self.old.leases.due 0) }
        ensures after { self.new ≡ with_due self.old (drop 1 self.old.leases.due) }
        ensures ascend { IsStrictlySortedBy by_id self.old.leases.leases }
    {
        self.leases.use_invariant();
        self.leases.next_due()
    }
}

/// Deletes the keys of a lease in one revision, if it has any.
fn delete_keys<S: Segments>(store: &mut Store, segments: &mut S, leases: &LeaseBook, id: i64)
    requires fits { CanCommit store.old (head_deletes (heads_of leases.now.attachments id)) }
    requires lent { IsLent store.old.share (S.loan segments.old) }
    ensures commits { Commits store.old store.new (head_deletes (heads_of leases.now.attachments id)) }
    ensures settles { Settles store.old.share (S.loan segments.old) store.new.share (S.loan segments.new) }
{
    let keys = leases.keys_of(id);
    if !keys.is_empty() {
        store.delete_heads(segments, keys);
    }
}
