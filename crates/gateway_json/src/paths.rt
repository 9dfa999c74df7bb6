//! What a request's target names.
ghost use Rattle.std.specs.Prelude.{◌≡◌, ◌==◌, length, option_map};
ghost use Rattle.std.specs.List.{before_first};
ghost use Rattle.etcd_model.specs.Calls.{after_root, call_of, target_of};
ghost use Rattle.gateway_json.specs.Paths.{target_view};

use crate::choice::named;
use etcd_types::Call;

/// A tenant's name, and the path of a call on it: what follows `/v3/`.
#[derive(Clone, Copy)]
pub struct Target<'a> {
    pub tenant: &'a [u8],
    pub path: &'a [u8],
}

/// Where the first mark stands, or the length where none stands.
fn end_of(bytes: &[u8], mark: u8) -> usize
    ensures { result ≡ length (before_first (λ c. c == mark) bytes.now) }
{
    bytes.iter().take_while(|byte| **byte != mark).count()
}

/// The parts of `<tenant>/v3/<path>`.
#[tactic(auto, using(crate::proofs::PathLemmas::starts_with_stripped))]
fn after_root(rest: &[u8]) -> Option<Target<'_>>
    ensures { option_map target_view result ≡ after_root rest.now }
{
    let (tenant, rest) = rest.split_at(end_of(rest, b'/'));
    let path = rest.strip_prefix(b"/v3/")?;
    if tenant.is_empty() {
        return None;
    }
    Some(Target { tenant, path })
}

/// The parts of `/t/<tenant>/v3/<path>`, without what stands from the first `?` on. The tenant's
/// name has a byte at least and no `/`; every other target names nothing.
#[tactic(auto, unfolding(etcd_model::specs::Calls::target_of), using(crate::proofs::PathLemmas::starts_with_stripped))]
pub fn target_of(target: &[u8]) -> Option<Target<'_>>
    ensures { option_map target_view result ≡ target_of target.now }
{
    let path = &target[..end_of(target, b'?')];
    after_root(path.strip_prefix(b"/t/")?)
}

const CALLS: [(&str, Call); 17] = [
    ("kv/range", Call::Range),
    ("kv/put", Call::Put),
    ("kv/deleterange", Call::DeleteRange),
    ("kv/txn", Call::Txn),
    ("kv/compaction", Call::Compaction),
    ("watch", Call::Watch),
    ("lease/grant", Call::Grant),
    ("lease/revoke", Call::Revoke),
    ("kv/lease/revoke", Call::Revoke),
    ("lease/keepalive", Call::KeepAlive),
    ("lease/timetolive", Call::TimeToLive),
    ("kv/lease/timetolive", Call::TimeToLive),
    ("lease/leases", Call::Leases),
    ("kv/lease/leases", Call::Leases),
    ("maintenance/alarm", Call::Alarm),
    ("maintenance/status", Call::Status),
    ("maintenance/defragment", Call::Defragment),
];

/// The call of a path. Two paths may be of one call.
#[tactic(auto, unfolding(etcd_model::specs::Calls::call_of))]
pub fn call_of(path: &[u8]) -> Option<Call>
    ensures { result ≡ call_of path.now }
{
    named(path, &CALLS)
}
