//! Watches.
ghost use Rattle.std.specs.Prelude.{◌≡◌, Ok};
ghost use Rattle.std.specs.List.{list_any};
ghost use Rattle.serde_json.specs.View.{view};
ghost use Rattle.etcd_model.specs.Members.{IsAnswer};
ghost use Rattle.etcd_model.specs.Requests.{leaves_deletes, leaves_puts, read_create, read_watch};
ghost use Rattle.gateway_json.specs.Taking.{CreateTakesNone, WatchTakesNone};

use crate::list::object;
use crate::member::{member_of, read_held, read_plain};
use etcd_types::{EventKind, Filters, List, MemberName, Refusal, WatchReq};
use serde_json::Value;
use std::alloc::Global;

fn leaves_puts(filters: &[EventKind]) -> bool
    ensures { result ≡ list_any leaves_puts filters.now }
{
    filters
        .iter()
        .any(|filter| matches!(filter, EventKind::Put))
}

fn leaves_deletes(filters: &[EventKind]) -> bool
    ensures { result ≡ list_any leaves_deletes filters.now }
{
    filters
        .iter()
        .any(|filter| matches!(filter, EventKind::Delete))
}

/// Reads a new watch. A filter may be named more than once.
#[tactic(auto, unfolding(etcd_model::specs::Requests::read_create))]
fn read_create(alloc: Global, value: &Value) -> Result<WatchReq, Refusal>
    ensures answer { IsAnswer result (read_create (view value.now)) }
    ensures exact { CreateTakesNone (view value.now) → result ≡ read_create (view value.now) }
{
    let key = read_held(alloc, value, MemberName::Key)?;
    let range_end = read_held(alloc, value, MemberName::RangeEnd)?;
    let start_revision = read_plain(value, MemberName::StartRevision)?;
    let left_out: List<EventKind> = read_held(alloc, value, MemberName::Filters)?;
    Ok(WatchReq {
        key,
        range_end,
        start_revision,
        filters: Filters {
            no_put: leaves_puts(left_out.as_slice()),
            no_delete: leaves_deletes(left_out.as_slice()),
        },
        prev_kv: read_plain(value, MemberName::PrevKv)?,
        watch_id: read_plain(value, MemberName::WatchId)?,
        progress_notify: read_plain(value, MemberName::ProgressNotify)?,
    })
}

/// Reads a watch's body: a create. A cancel or a progress request is not offered, since a client
/// closes its connection in its place.
#[tactic(auto, unfolding(etcd_model::specs::Requests::read_watch))]
pub(crate) fn read_watch(alloc: Global, value: &Value) -> Result<WatchReq, Refusal>
    ensures answer { IsAnswer result (read_watch (view value.now)) }
    ensures exact { WatchTakesNone (view value.now) → result ≡ read_watch (view value.now) }
{
    if let Some(create) = member_of(value, MemberName::CreateRequest) {
        return read_create(alloc, object(create)?);
    }
    let cancels = member_of(value, MemberName::CancelRequest).is_some();
    let asks_progress = member_of(value, MemberName::ProgressRequest).is_some();
    if cancels || asks_progress {
        Err(Refusal::NotOffered)
    } else {
        Err(Refusal::BadBody)
    }
}
