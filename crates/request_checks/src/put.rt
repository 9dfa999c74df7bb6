//! What a put is refused for.
ghost use Rattle.std.specs.Prelude.{◌≡◌};
ghost use Rattle.etcd_model.specs.Fields.{put_fields, gives_value, gives_lease};

use etcd_types::{PutReq, Refusal};

/// The lowest refusal that the fields of a put give: no key, or a value or a lease where the present one is
/// to stay.
pub fn put_fields(request: &PutReq) -> Option<Refusal>
    ensures { result ≡ put_fields request.now }
{
    if request.key.as_slice().is_empty() {
        Some(Refusal::NoKey)
    } else if gives_value(request) {
        Some(Refusal::ValueGiven)
    } else if gives_lease(request) {
        Some(Refusal::LeaseGiven)
    } else {
        None
    }
}

/// Whether a put has a value, although the present one is to stay.
pub(crate) fn gives_value(request: &PutReq) -> bool
    ensures { result ≡ gives_value request.now }
{
    request.ignore_value && !request.value.as_slice().is_empty()
}

/// Whether a put has a lease, although the present one is to stay.
pub(crate) fn gives_lease(request: &PutReq) -> bool
    ensures { result ≡ gives_lease request.now }
{
    request.ignore_lease && request.lease != 0
}
