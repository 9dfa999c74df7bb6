//! The newest records of the keys of an interval, live and deleted ones, by ascending key.
ghost use Rattle.std.specs.Prelude.{◌≡◌, ◌++◌, ℕ, List, [], IfSome, IsSome, MatchOption};
ghost use Rattle.std.specs.List.{AllByRecursion};
ghost use Rattle.key_index.specs.Index.{IsSpread};
ghost use Rattle.revision_store.specs.Merging.{AreLeft, TakesFirst, live_first};

use chunk_list::Walk;
use etcd_types::CellNo;
use key_index::Records;
use std::marker::Model;
use std::mem;

/// Newest records of live keys and of deleted ones, merged by their keys. Contracts see those that are left.
#[derive(Drop)]
pub(crate) struct HeadsInOrder<'a> {
    next_live: Option<CellNo>,
    live: Walk<'a, CellNo>,
    next_dead: Option<CellNo>,
    dead: Walk<'a, CellNo>,
}

impl<'a> Model for HeadsInOrder<'a> {
    ghost use Rattle.std.specs.Prelude.{◌++◌};
    ghost use Rattle.std.specs.Option.{option_to_list};
    ghost use Rattle.revision_store.specs.Merging.{EndsAt, HeadsLeft, heads_left_code};

    ghost Value = { HeadsLeft };

    ghost coded = { heads_left_code };

    ghost view = { λ h. record {
      live = option_to_list h.next_live ++ h.live;
      dead = option_to_list h.next_dead ++ h.dead;
    } };

    ghost invariant = { λ h. EndsAt h.next_live h.live × EndsAt h.next_dead h.dead };
}

impl<'a> HeadsInOrder<'a> {
    pub(crate) fn new(mut live: Walk<'a, CellNo>, mut dead: Walk<'a, CellNo>) -> HeadsInOrder<'a>
        ensures live { result.live ≡ live.entry }
        ensures dead { result.dead ≡ dead.entry }
    {
        HeadsInOrder {
            next_live: live.next(),
            live,
            next_dead: dead.next(),
            dead,
        }
    }

    /// The first one that is left.
    pub(crate) fn next<R: Records>(&mut self, records: &R) -> Option<CellNo>
        requires { AllByRecursion (λ c. IsSome (R.cells records.now c)) (self.old.live ++ self.old.dead) }
        ensures { (heads : List ℕ) → IsSpread (R.cells records.now) heads
            → AreLeft (R.cells records.now) heads self.old
            → MatchOption result (heads ≡ []) (TakesFirst (R.cells records.now) heads self.new) }
    {
        if is_live_first(records, self.next_live, self.next_dead) {
            let next = self.live.next();
            mem::replace(&mut self.next_live, next)
        } else {
            let next = self.dead.next();
            mem::replace(&mut self.next_dead, next)
        }
    }
}

/// Whether the live one of two heads comes first.
fn is_live_first<R: Records>(records: &R, live: Option<CellNo>, dead: Option<CellNo>) -> bool
    requires live { IfSome live (λ c. IsSome (R.cells records.now c)) }
    requires dead { IfSome dead (λ c. IsSome (R.cells records.now c)) }
    ensures { result ≡ live_first (R.cells records.now) live dead }
{
    match (live, dead) {
        (Some(live), Some(dead)) => records.keys_cmp(live, dead).is_lt(),
        (Some(_), None) => true,
        (None, _) => false,
    }
}
