//! Maintenance.
ghost use Rattle.std.specs.Prelude.{◌≡◌, Ok};
ghost use Rattle.serde_json.specs.View.{view};
ghost use Rattle.etcd_model.specs.Requests.{read_alarm_request};

use crate::member::read_plain;
use etcd_types::{AlarmReq, MemberName, Refusal};
use serde_json::Value;

/// Reads a request to the alarm.
#[tactic(auto, unfolding(etcd_model::specs::Requests::read_alarm_request))]
pub(crate) fn read_alarm(value: &Value) -> Result<AlarmReq, Refusal>
    ensures { result ≡ read_alarm_request (view value.now) }
{
    Ok(AlarmReq {
        action: read_plain(value, MemberName::Action)?,
        member: read_plain(value, MemberName::MemberId)?,
        alarm: read_plain(value, MemberName::Alarm)?,
    })
}
