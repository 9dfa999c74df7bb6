//! The members of a request's object, by their kinds.
ghost use Rattle.std.specs.Prelude.{◌≡◌, ◌==◌, Option, Result, option_map, slice_index};
ghost use Rattle.serde_json.specs.Data.{Data};
ghost use Rattle.serde_json.specs.Find.{get};
ghost use Rattle.serde_json.specs.View.{view};
ghost use Rattle.etcd_types.specs.declared.refusal.Refusal.{Refusal};
ghost use Rattle.etcd_model.specs.Members.{IsAnswer, member_of, unless_null, read_bytes, read_flag};
ghost use Rattle.etcd_model.specs.Members.{read_signed, read_unsigned, signed_text, unsigned_text};
ghost use Rattle.gateway_json.specs.Taking.{HasNoSymbol, IfThere};

use crate::names::spelled;
use base64_text::bytes_of_text;
use etcd_types::{List, MemberName, Refusal};
use serde_json::Value;
use std::alloc::Global;

/// What a member is read as that takes no memory: a number, a truth value or one of a table.
pub(crate) trait PlainMember: Copy {
    ghost reads: { Option Data → Result Self Refusal };

    /// Reads a member, or what an absent one stands for.
    fn read(value: Option<&Value>) -> Result<Self, Refusal>
        ensures { result ≡ reads (option_map (λ v. view v.now) value.entry) };
}

/// What a member is read as that takes memory: bytes or a list.
pub(crate) trait HeldMember: Drop {
    ghost reads: { Option Data → Result Self Refusal };

    /// The members that take none.
    ghost takes_none: { Option Data → Type 0 };

    /// Reads a member, or what an absent one stands for.
    fn read(alloc: Global, value: Option<&Value>) -> Result<Self, Refusal>
        ensures answer { IsAnswer result (reads (option_map (λ v. view v.now) value.entry)) }
        ensures exact { takes_none (option_map (λ v. view v.now) value.entry)
            → result ≡ reads (option_map (λ v. view v.now) value.entry) };
}

impl HeldMember for List<u8> {
    ghost reads = { read_bytes };

    ghost takes_none = { IfThere HasNoSymbol };

    #[tactic(auto, unfolding(etcd_model::specs::Members::read_bytes))]
    fn read(alloc: Global, value: Option<&Value>) -> Result<List<u8>, Refusal> {
        match value {
            None => Ok(List::new(alloc)),
            Some(Value::String(text)) => bytes_of_text(alloc, text.as_str()),
            Some(_) => Err(Refusal::BadBody),
        }
    }
}

fn starts_with_plus(text: &[u8]) -> bool
    ensures { result ≡ (slice_index text.now 0 == 43) }
{
    !text.is_empty() && text[0] == b'+'
}

/// The number of a text: an optional minus and digits.
#[tactic(auto, using(crate::proofs::NumberLemmas::signed_plus, crate::proofs::NumberLemmas::signed_parsed))]
fn signed_of_text(text: &str) -> Option<i64>
    ensures { result ≡ signed_text text.now }
{
    // `parse` takes a plus too.
    if starts_with_plus(text.as_bytes()) {
        return None;
    }
    text.parse().ok()
}

impl PlainMember for i64 {
    ghost reads = { read_signed };

    #[tactic(auto, unfolding(etcd_model::specs::Members::read_signed))]
    fn read(value: Option<&Value>) -> Result<i64, Refusal> {
        let Some(value) = value else {
            return Ok(0);
        };
        let number = match value {
            Value::Number(number) => number.as_i64(),
            Value::String(text) => signed_of_text(text.as_str()),
            _ => None,
        };
        number.ok_or(Refusal::BadBody)
    }
}

/// The number of a text: digits, or an optional minus before a 0.
#[tactic(auto, using(crate::proofs::NumberLemmas::unsigned_is))]
fn unsigned_of_text(text: &str) -> Option<u64>
    ensures { result ≡ unsigned_text text.now }
{
    if starts_with_plus(text.as_bytes()) {
        return None;
    }
    // Wider than what is wanted, so that a minus can be read.
    let number: i128 = text.parse().ok()?;
    number.try_into().ok()
}

/// The number of the unsigned 64 bits that a member is, as a number or as a text; an absent one is 0. Any
/// other is refused.
#[tactic(auto, unfolding(etcd_model::specs::Members::read_unsigned))]
pub fn read_unsigned(value: Option<&Value>) -> Result<u64, Refusal>
    ensures { result ≡ read_unsigned (option_map (λ v. view v.now) value.entry) }
{
    let Some(value) = value else {
        return Ok(0);
    };
    let number = match value {
        Value::Number(number) => number.as_u64(),
        Value::String(text) => unsigned_of_text(text.as_str()),
        _ => None,
    };
    number.ok_or(Refusal::BadBody)
}

impl PlainMember for u64 {
    ghost reads = { read_unsigned };

    fn read(value: Option<&Value>) -> Result<u64, Refusal> {
        read_unsigned(value)
    }
}

impl PlainMember for bool {
    ghost reads = { read_flag };

    #[tactic(auto, unfolding(etcd_model::specs::Members::read_flag))]
    fn read(value: Option<&Value>) -> Result<bool, Refusal> {
        match value {
            None => Ok(false),
            Some(value) => value.as_bool().ok_or(Refusal::BadBody),
        }
    }
}

/// The member of that name, unless it is null.
fn present<'v>(value: &'v Value, name: &str) -> Option<&'v Value>
    ensures { option_map (λ v. view v.now) result ≡ unless_null (get name.now (view value.now)) }
{
    value.get(name).filter(|member| !member.is_null())
}

/// The member under its underscored name, else under its lowerCamel one.
#[tactic(auto, unfolding(etcd_model::specs::Members::member_of))]
pub(crate) fn member_of<'v>(value: &'v Value, name: MemberName) -> Option<&'v Value>
    ensures { option_map (λ v. view v.now) result ≡ member_of name (view value.now) }
{
    let (underscored, lower_camel) = spelled(name);
    match (present(value, underscored), lower_camel) {
        (None, Some(lower_camel)) => present(value, lower_camel),
        (member, _) => member,
    }
}

/// Reads the member of that name, which takes no memory.
pub(crate) fn read_plain<T: PlainMember>(value: &Value, name: MemberName) -> Result<T, Refusal>
    ensures { result ≡ T.reads (member_of name (view value.now)) }
{
    T::read(member_of(value, name))
}

/// Reads the bytes or the list of that name.
pub(crate) fn read_held<T: HeldMember>(
    alloc: Global,
    value: &Value,
    name: MemberName,
) -> Result<T, Refusal>
    ensures answer { IsAnswer result (T.reads (member_of name (view value.now))) }
    ensures exact { T.takes_none (member_of name (view value.now))
        → result ≡ T.reads (member_of name (view value.now)) }
{
    T::read(alloc, member_of(value, name))
}
