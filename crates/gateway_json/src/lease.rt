//! Leases.
ghost use Rattle.std.specs.Prelude.{◌≡◌, Ok};
ghost use Rattle.serde_json.specs.View.{view};
ghost use Rattle.etcd_model.specs.Requests.{read_grant, read_id, read_time_to_live};

use crate::member::read_plain;
use etcd_types::{GrantReq, MemberName, Refusal, Step};
use serde_json::Value;

/// Reads a grant.
#[tactic(auto, unfolding(etcd_model::specs::Requests::read_grant))]
pub(crate) fn read_grant(value: &Value) -> Result<GrantReq, Refusal>
    ensures { result ≡ read_grant (view value.now) }
{
    Ok(GrantReq {
        ttl: read_plain(value, MemberName::Ttl)?,
        id: read_plain(value, MemberName::Id)?,
    })
}

/// Reads the ID of a revoke or a keepalive.
#[tactic(auto, unfolding(etcd_model::specs::Requests::read_id))]
pub(crate) fn read_id(value: &Value) -> Result<i64, Refusal>
    ensures { result ≡ read_id (view value.now) }
{
    read_plain(value, MemberName::Id)
}

/// Reads a question for the time that a lease has to live.
#[tactic(auto, unfolding(etcd_model::specs::Requests::read_time_to_live))]
pub(crate) fn read_time_to_live(value: &Value) -> Result<Step, Refusal>
    ensures { result ≡ read_time_to_live (view value.now) }
{
    Ok(Step::TimeToLive {
        id: read_plain(value, MemberName::Id)?,
        keys: read_plain(value, MemberName::Keys)?,
    })
}
