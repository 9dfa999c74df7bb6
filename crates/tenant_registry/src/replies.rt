//! What is told of a reply beside its text.
ghost use Rattle.std.specs.Prelude.{◌≡◌};
ghost use Rattle.tenant_audit.specs.Receipts.{is_cancel, refusal_of, slot_of};
ghost use Rattle.tenant_registry.specs.Serving.{told_revision};

use etcd_types::{Refusal, Reply};

/// The slot of the watch that was created.
pub(crate) fn slot_of(reply: &Reply) -> Option<u8>
    ensures { result ≡ slot_of reply.now }
{
    match reply {
        Reply::Created { slot, .. } => Some(*slot),
        _ => None,
    }
}

/// The reply ends a watch.
pub(crate) fn is_cancel(reply: &Reply) -> bool
    ensures { result ≡ is_cancel reply.now }
{
    matches!(reply, Reply::Canceled { .. })
}

/// Why a call was refused that was replied so.
pub(crate) fn refusal_of(reply: &Reply) -> Option<Refusal>
    ensures { result ≡ refusal_of reply.now }
{
    match reply {
        Reply::Refused(refusal) => Some(*refusal),
        _ => None,
    }
}

/// The revision that a status tells.
pub(crate) fn told_revision(reply: &Reply) -> Option<i64>
    ensures { result ≡ told_revision reply.now }
{
    match reply {
        Reply::Status { header, .. } => Some(header.revision),
        _ => None,
    }
}
