//! The calls, and the steps that their bodies ask for.
ghost use Rattle.std.specs.Prelude.{◌≡◌, Ok, Err, IfSome, nat_lt, length, if◌then◌else◌};
ghost use Rattle.std.specs.Option.{ok_or};
ghost use Rattle.serde_json.specs.View.{view};
ghost use Rattle.etcd_types.specs.Limits.{max_body};
ghost use Rattle.etcd_types.specs.declared.refusal.Refusal.TheVariants.{NoPath, TooLarge};
ghost use Rattle.etcd_model.specs.Members.{IsAnswer};
ghost use Rattle.etcd_model.specs.Calls.{call_of, check_fields, read_call, read_members, read_posted, read_step};
ghost use Rattle.gateway_json.specs.Taking.{TakesNone};
ghost use Rattle.gateway_json.specs.Unread.{call_unread, oversize, posted_unread};

use crate::body::read_body;
use crate::kv::{read_compaction, read_delete, read_put, read_range};
use crate::lease::{read_grant, read_id, read_time_to_live};
use crate::maintenance::read_alarm;
use crate::paths::call_of;
use crate::txn::read_txn;
use crate::watch::read_watch;
use etcd_types::limits::MAX_BODY;
use etcd_types::{Call, Refusal, Step};
use request_checks::fields;
use serde_json::Value;
use std::alloc::Global;

/// The step that the members of a call's object ask for.
#[tactic(auto, unfolding(etcd_model::specs::Calls::read_members))]
fn read_members(alloc: Global, call: Call, value: &Value) -> Result<Step, Refusal>
    ensures answer { IsAnswer result (read_members call (view value.now)) }
    ensures exact { TakesNone call (view value.now) → result ≡ read_members call (view value.now) }
{
    match call {
        Call::Range => read_range(alloc, value).map(Step::Range),
        Call::Put => read_put(alloc, value).map(Step::Put),
        Call::DeleteRange => read_delete(alloc, value).map(Step::Delete),
        Call::Txn => read_txn(alloc, value).map(Step::Txn),
        Call::Compaction => read_compaction(value),
        Call::Watch => read_watch(alloc, value).map(Step::Watch),
        Call::Grant => read_grant(value).map(Step::Grant),
        Call::Revoke => read_id(value).map(Step::Revoke),
        Call::KeepAlive => read_id(value).map(Step::KeepAlive),
        Call::TimeToLive => read_time_to_live(value),
        Call::Leases => Ok(Step::Leases),
        Call::Alarm => read_alarm(value).map(Step::Alarm),
        Call::Status => Ok(Step::Status),
        Call::Defragment => Ok(Step::Defragment),
    }
}

/// A step, unless its fields give a refusal.
pub(crate) fn check_fields(step: Step) -> Result<Step, Refusal>
    ensures { result ≡ check_fields step }
{
    match fields(&step) {
        None => Ok(step),
        Some(refusal) => Err(refusal),
    }
}

/// A body that is too large is refused.
fn check_size(body: &[u8]) -> Result<(), Refusal>
    ensures { result ≡ (if nat_lt max_body (length body.now) then Err TooLarge else Ok tt) }
{
    if body.len() > MAX_BODY {
        Err(Refusal::TooLarge)
    } else {
        Ok(())
    }
}

/// The step that a call's body asks for, or why it is refused: for its size, else for what can't be
/// read, else for its fields. An empty body takes no memory.
#[tactic(auto, unfolding(etcd_model::specs::Calls::read_step), using(crate::proofs::TakingLemmas::empty_takes_none))]
pub fn read_step(alloc: Global, call: Call, body: &[u8]) -> Result<Step, Refusal>
    ensures step { IsAnswer result (read_step call body.now) }
    ensures exact { length body.now ≡ 0 → result ≡ read_step call body.now }
    ensures unread { IfSome (oversize body.now) (λ refusal. result ≡ Err refusal) }
{
    check_size(body)?;
    let value = read_body(alloc, body)?;
    check_fields(read_members(alloc, call, &value)?)
}

/// The call of a path; an unknown path is refused.
fn known_call(path: &[u8]) -> Result<Call, Refusal>
    ensures { result ≡ ok_or (call_of path.now) NoPath }
{
    call_of(path).ok_or(Refusal::NoPath)
}

/// The step that a path, what follows `/v3/`, and a body ask for, or why they are refused: an unknown path, else
/// what `read_step` refuses.
#[tactic(auto, unfolding(etcd_model::specs::Calls::read_call))]
pub fn read_call(alloc: Global, path: &[u8], body: &[u8]) -> Result<Step, Refusal>
    ensures step { IsAnswer result (read_call path.now body.now) }
    ensures exact { length body.now ≡ 0 → result ≡ read_call path.now body.now }
    ensures unread { IfSome (call_unread path.now body.now) (λ refusal. result ≡ Err refusal) }
{
    read_step(alloc, known_call(path)?, body)
}

/// The same with a method: an unknown path, else any method but `POST`, else what `read_step` refuses.
pub fn read_posted(alloc: Global, method: &[u8], path: &[u8], body: &[u8]) -> Result<Step, Refusal>
    ensures step { IsAnswer result (read_posted method.now path.now body.now) }
    ensures exact { length body.now ≡ 0 → result ≡ read_posted method.now path.now body.now }
    ensures unread { IfSome (posted_unread method.now path.now body.now) (λ refusal. result ≡ Err refusal) }
{
    let call = known_call(path)?;
    if method != b"POST".as_slice() {
        return Err(Refusal::NotPost);
    }
    read_step(alloc, call, body)
}
