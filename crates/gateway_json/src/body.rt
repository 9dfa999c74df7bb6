//! The JSON value of a body.
ghost use Rattle.std.specs.Prelude.{◌≡◌, Ok, length};
ghost use Rattle.serde_json.specs.View.{view};
ghost use Rattle.etcd_model.specs.Calls.{IsBody, read_body, result_map};

use etcd_types::Refusal;
use serde_json::Value;
use std::alloc::Global;

/// The object of a body; a null stands for one with no members. An empty body takes no memory.
#[tactic(auto, unfolding(etcd_model::specs::Calls::read_body), using(crate::proofs::BodyLemmas::body_value_is))]
pub(crate) fn read_body(alloc: Global, body: &[u8]) -> Result<Value, Refusal>
    ensures body { IsBody result body.now }
    ensures exact { length body.now ≡ 0 → result_map view result ≡ read_body body.now }
{
    if body.is_empty() {
        return Ok(Value::Null);
    }
    match Value::from_slice(alloc, body) {
        Ok(value) => {
            if value.is_object() || value.is_null() {
                Ok(value)
            } else {
                Err(Refusal::BadBody)
            }
        }
        Err(error) => {
            if error.is_memory() {
                Err(Refusal::Memory)
            } else {
                Err(Refusal::BadBody)
            }
        }
    }
}
