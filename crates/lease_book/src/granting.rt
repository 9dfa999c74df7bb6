//! A lease that is to be granted.
ghost use Rattle.std.specs.Prelude.{◌≡◌, ◌≤◌, MatchResult, Some};
ghost use Rattle.etcd_types.specs.Limits.{last_moment};
ghost use Rattle.etcd_model.specs.Leases.{granted_ttl};
ghost use Rattle.lease_book.specs.Granting.{grant_refusal, IsGrant};

use crate::book::LeaseBook;
use etcd_model::state::Lease;
use etcd_types::limits::MAX_TTL;
use etcd_types::{GrantReq, Refusal};

/// A lease that a grant adds, and the number from which the next ID is chosen.
#[derive(Clone, Copy)]
pub struct NewLease {
    pub lease: Lease,
    pub counter: u64,
}

impl LeaseBook {
    /// The lease that a grant adds at a moment, with its own ID or, for 0, the one that is chosen for it.
    /// Refused are a time to live above the longest, an ID to choose once the counter is at its end, and an
    /// ID that is in use.
    pub fn plan_grant(&self, moment: u64, request: &GrantReq) -> Result<NewLease, Refusal>
        requires { moment ≤ last_moment }
        ensures { MatchResult result (IsGrant self.now moment request.now)
            (λ refusal. grant_refusal self.now request.now ≡ Some refusal) }
    {
        if request.ttl > MAX_TTL {
            return Err(Refusal::TtlTooLarge);
        }
        let (id, counter) = self.plan_id(request.id)?;
        let ttl = lived(request.ttl);
        Ok(NewLease {
            lease: Lease {
                id,
                ttl,
                end: moment + ttl,
            },
            counter,
        })
    }
}

/// The time to live that is granted, of one that is wanted.
fn lived(wanted: i64) -> u64
    ensures { result ≡ granted_ttl wanted }
{
    wanted.max(1) as u64
}
