//! Requests to read and write keys.
ghost use Rattle.std.specs.Prelude.{◌≡◌, Ok};
ghost use Rattle.serde_json.specs.View.{view};
ghost use Rattle.etcd_model.specs.Members.{IsAnswer};
ghost use Rattle.etcd_model.specs.Requests.{read_compaction, read_delete, read_put, read_range};
ghost use Rattle.gateway_json.specs.Taking.{IntervalTakesNone, PutTakesNone};

use crate::member::{HeldMember, PlainMember, member_of, read_held, read_plain};
use crate::others::Others;
use etcd_types::{DeleteReq, MemberName, PutReq, RangeReq, Refusal, Step};
use serde_json::Value;
use std::alloc::Global;

/// Reads a put.
#[tactic(auto, unfolding(etcd_model::specs::Requests::read_put), using(crate::proofs::OtherLemmas::beside_put))]
pub(crate) fn read_put(alloc: Global, value: &Value) -> Result<PutReq, Refusal>
    ensures answer { IsAnswer result (read_put (view value.now)) }
    ensures exact { PutTakesNone (view value.now) → result ≡ read_put (view value.now) }
{
    let key = member_of(value, MemberName::Key);
    let held = member_of(value, MemberName::Value);
    let lease = member_of(value, MemberName::Lease);
    let others = Others::beside(value, key, held, lease);
    Ok(PutReq {
        key: HeldMember::read(alloc, key)?,
        value: HeldMember::read(alloc, held)?,
        lease: PlainMember::read(lease)?,
        prev_kv: others.read(MemberName::PrevKv)?,
        ignore_value: others.read(MemberName::IgnoreValue)?,
        ignore_lease: others.read(MemberName::IgnoreLease)?,
    })
}

/// Reads a range.
#[tactic(auto, unfolding(etcd_model::specs::Requests::read_range), using(crate::proofs::OtherLemmas::beside_range))]
pub(crate) fn read_range(alloc: Global, value: &Value) -> Result<RangeReq, Refusal>
    ensures answer { IsAnswer result (read_range (view value.now)) }
    ensures exact { IntervalTakesNone (view value.now) → result ≡ read_range (view value.now) }
{
    let key = member_of(value, MemberName::Key);
    let range_end = member_of(value, MemberName::RangeEnd);
    let limit = member_of(value, MemberName::Limit);
    let others = Others::beside(value, key, range_end, limit);
    Ok(RangeReq {
        key: HeldMember::read(alloc, key)?,
        range_end: HeldMember::read(alloc, range_end)?,
        limit: PlainMember::read(limit)?,
        revision: others.read(MemberName::Revision)?,
        sort_order: others.read(MemberName::SortOrder)?,
        sort_target: others.read(MemberName::SortTarget)?,
        serializable: others.read(MemberName::Serializable)?,
        keys_only: others.read(MemberName::KeysOnly)?,
        count_only: others.read(MemberName::CountOnly)?,
        min_mod_revision: others.read(MemberName::MinModRevision)?,
        max_mod_revision: others.read(MemberName::MaxModRevision)?,
        min_create_revision: others.read(MemberName::MinCreateRevision)?,
        max_create_revision: others.read(MemberName::MaxCreateRevision)?,
    })
}

/// Reads a delete.
#[tactic(auto, unfolding(etcd_model::specs::Requests::read_delete))]
pub(crate) fn read_delete(alloc: Global, value: &Value) -> Result<DeleteReq, Refusal>
    ensures answer { IsAnswer result (read_delete (view value.now)) }
    ensures exact { IntervalTakesNone (view value.now) → result ≡ read_delete (view value.now) }
{
    Ok(DeleteReq {
        key: read_held(alloc, value, MemberName::Key)?,
        range_end: read_held(alloc, value, MemberName::RangeEnd)?,
        prev_kv: read_plain(value, MemberName::PrevKv)?,
    })
}

/// Reads a compaction.
#[tactic(auto, unfolding(etcd_model::specs::Requests::read_compaction))]
pub(crate) fn read_compaction(value: &Value) -> Result<Step, Refusal>
    ensures { result ≡ read_compaction (view value.now) }
{
    Ok(Step::Compact(read_plain(value, MemberName::Revision)?))
}
