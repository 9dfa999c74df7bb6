//! What any step is refused for.
ghost use Rattle.std.specs.Prelude.{◌≡◌};
ghost use Rattle.etcd_model.specs.Fields.{fields};

use crate::put::put_fields;
use crate::txn::check_txn;
use etcd_types::limits::MAX_TTL;
use etcd_types::{AlarmAction, AlarmKind, AlarmReq, Refusal, Step};

/// The lowest refusal that the fields of a step give. Nothing is looked up for it.
///
/// Reads, puts, deletes and transactions are refused for their keys and what they carry, a grant for a time
/// to live above [`MAX_TTL`] seconds, and an alarm where `CORRUPT` is to be activated. No other step is
/// refused.
pub fn fields(step: &Step) -> Option<Refusal>
    ensures { result ≡ fields step.now }
{
    match step {
        Step::Range(request) if request.key.as_slice().is_empty() => Some(Refusal::NoKey),
        Step::Put(request) => put_fields(request),
        Step::Delete(request) if request.key.as_slice().is_empty() => Some(Refusal::NoKey),
        Step::Txn(request) => check_txn(request).err(),
        Step::Grant(request) if request.ttl > MAX_TTL => Some(Refusal::TtlTooLarge),
        Step::Alarm(
            AlarmReq {
                action: AlarmAction::Activate,
                alarm: AlarmKind::Corrupt,
                ..
            },
        ) => Some(Refusal::NotOffered),
        _ => None,
    }
}
