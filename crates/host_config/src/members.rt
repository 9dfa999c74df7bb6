//! How the members of a configuration are read, and why they can't be.
ghost use Rattle.std.specs.Prelude.{◌≡◌, true, is_some, IfErr, IfOk, Some, option_map, string_bytes};
ghost use Rattle.serde_json.specs.Find.{as_object};
ghost use Rattle.serde_json.specs.Read.{read};
ghost use Rattle.serde_json.specs.View.{view};
ghost use Rattle.etcd_model.specs.Members.{unsigned_in};
ghost use Rattle.host_config.specs.Numbers as specs;

use gateway_json::read_unsigned;
use serde_json::Value;
use std::alloc::{AllocError, Global};

/// Why there is no configuration.
#[derive(Clone, Copy, Debug, PartialEq, Eq)]
pub enum ConfigFault {
    /// It is too long, no JSON object, or a member is not what it has to be.
    Unreadable,
    /// It can't be held.
    Memory,
}

impl From<AllocError> for ConfigFault {
    fn from(_: AllocError) -> ConfigFault
        ensures { result ≡ ConfigFault.Memory }
    {
        ConfigFault::Memory
    }
}

/// The JSON object that a text is.
pub fn object_of(alloc: Global, text: &[u8]) -> Result<Value, ConfigFault>
    ensures read { IfOk result (λ object. read text.now ≡ Some (view object)) }
    ensures object { IfOk result (λ object. is_some (as_object (view object)) ≡ true) }
{
    match Value::from_slice(alloc, text) {
        Ok(value) if value.is_object() => Ok(value),
        Err(error) if error.is_memory() => Err(ConfigFault::Memory),
        _ => Err(ConfigFault::Unreadable),
    }
}

/// The member of that name; a null is none.
#[tactic(auto, unfolding(crate::specs::Numbers::member))]
pub(crate) fn member<'v>(object: &'v Value, name: &str) -> Option<&'v Value>
    ensures { option_map (λ v. view v.now) result ≡ specs.member name.now (view object.now) }
{
    object.get(name).filter(|member| !member.is_null())
}

/// A number, as a number or as a text.
#[tactic(auto, unfolding(etcd_model::specs::Members::read_unsigned))]
pub(crate) fn number_in(told: &Value) -> Result<u64, ConfigFault>
    ensures number { IfOk result (λ n. unsigned_in (view told.now) ≡ Some n) }
    ensures fault { IfErr result (λ fault. fault ≡ ConfigFault.Unreadable) }
{
    match read_unsigned(Some(told)) {
        Ok(number) => Ok(number),
        Err(_) => Err(ConfigFault::Unreadable),
    }
}

/// The number of that name, or what an absent one stands for.
#[tactic(auto, unfolding(crate::specs::Numbers::number))]
pub(crate) fn number(object: &Value, name: &str, absent: u64) -> Result<u64, ConfigFault>
    ensures number { IfOk result (λ n. specs.number name.now absent (view object.now) ≡ Some n) }
    ensures fault { IfErr result (λ fault. fault ≡ ConfigFault.Unreadable) }
{
    match member(object, name) {
        None => Ok(absent),
        Some(told) => number_in(told),
    }
}

/// The number of that name, if there is one.
#[tactic(auto, unfolding(crate::specs::Numbers::told_number))]
pub(crate) fn told_number(object: &Value, name: &str) -> Result<Option<u64>, ConfigFault>
    ensures number { IfOk result (λ n. specs.told_number name.now (view object.now) ≡ option_map Some n) }
    ensures fault { IfErr result (λ fault. fault ≡ ConfigFault.Unreadable) }
{
    match member(object, name) {
        None => Ok(None),
        Some(told) => Ok(Some(number_in(told)?)),
    }
}

/// A text that has to be there.
#[tactic(auto, unfolding(crate::specs::Numbers::text))]
pub(crate) fn text_of(alloc: Global, object: &Value, name: &str) -> Result<String, ConfigFault>
    ensures { IfOk result (λ text. specs.text name.now (view object.now) ≡ Some (string_bytes text)) }
{
    match member(object, name) {
        Some(Value::String(text)) => Ok(String::from_str(alloc, text.as_str())?),
        _ => Err(ConfigFault::Unreadable),
    }
}
