//! How the members are spelled.
ghost use Rattle.std.specs.Prelude.{◌≡◌, option_map, unwrap_or};
ghost use Rattle.etcd_model.specs.Members.{underscored, lower_camel};

use etcd_types::MemberName;

/// A member's underscored name, and its lowerCamel one where that is another.
pub(crate) fn spelled(name: MemberName) -> (&'static str, Option<&'static str>)
    ensures underscored { result.0.now ≡ underscored name }
    ensures lower_camel { unwrap_or (option_map (λ s. s.now) result.1) result.0.now ≡ lower_camel name }
{
    match name {
        MemberName::Key => ("key", None),
        MemberName::RangeEnd => ("range_end", Some("rangeEnd")),
        MemberName::Value => ("value", None),
        MemberName::Lease => ("lease", None),
        MemberName::PrevKv => ("prev_kv", Some("prevKv")),
        MemberName::IgnoreValue => ("ignore_value", Some("ignoreValue")),
        MemberName::IgnoreLease => ("ignore_lease", Some("ignoreLease")),
        MemberName::Limit => ("limit", None),
        MemberName::Revision => ("revision", None),
        MemberName::SortOrder => ("sort_order", Some("sortOrder")),
        MemberName::SortTarget => ("sort_target", Some("sortTarget")),
        MemberName::Serializable => ("serializable", None),
        MemberName::KeysOnly => ("keys_only", Some("keysOnly")),
        MemberName::CountOnly => ("count_only", Some("countOnly")),
        MemberName::MinModRevision => ("min_mod_revision", Some("minModRevision")),
        MemberName::MaxModRevision => ("max_mod_revision", Some("maxModRevision")),
        MemberName::MinCreateRevision => ("min_create_revision", Some("minCreateRevision")),
        MemberName::MaxCreateRevision => ("max_create_revision", Some("maxCreateRevision")),
        MemberName::Compare => ("compare", None),
        MemberName::Success => ("success", None),
        MemberName::Failure => ("failure", None),
        MemberName::Result => ("result", None),
        MemberName::Target => ("target", None),
        MemberName::Version => ("version", None),
        MemberName::CreateRevision => ("create_revision", Some("createRevision")),
        MemberName::ModRevision => ("mod_revision", Some("modRevision")),
        MemberName::RequestRange => ("request_range", Some("requestRange")),
        MemberName::RequestPut => ("request_put", Some("requestPut")),
        MemberName::RequestDeleteRange => ("request_delete_range", Some("requestDeleteRange")),
        MemberName::RequestTxn => ("request_txn", Some("requestTxn")),
        MemberName::CreateRequest => ("create_request", Some("createRequest")),
        MemberName::CancelRequest => ("cancel_request", Some("cancelRequest")),
        MemberName::ProgressRequest => ("progress_request", Some("progressRequest")),
        MemberName::StartRevision => ("start_revision", Some("startRevision")),
        MemberName::Filters => ("filters", None),
        MemberName::WatchId => ("watch_id", Some("watchId")),
        MemberName::ProgressNotify => ("progress_notify", Some("progressNotify")),
        MemberName::Ttl => ("TTL", None),
        MemberName::Id => ("ID", None),
        MemberName::Keys => ("keys", None),
        MemberName::Action => ("action", None),
        MemberName::MemberId => ("memberID", None),
        MemberName::Alarm => ("alarm", None),
    }
}
