//! Tables of names, and the members that are one of a table.
ghost use Rattle.std.specs.Prelude.{◌≡◌, option_map, map};
ghost use Rattle.serde_json.specs.View.{view};
ghost use Rattle.etcd_model.specs.Members.{choice_in, named, placed, read_action, read_alarm};
ghost use Rattle.etcd_model.specs.Members.{read_choice, read_compare_target, read_order, read_result};
ghost use Rattle.etcd_model.specs.Members.{read_sort_target};
ghost use Rattle.etcd_model.specs.Requests.{filter_in};

use crate::list::FromElement;
use crate::member::PlainMember;
use etcd_types::{
    AlarmAction, AlarmKind, CompareResult, CompareTarget, EventKind, Refusal, SortOrder, SortTarget,
};
use serde_json::Value;
use std::alloc::Global;

/// What a name stands for in a table.
#[tactic(auto, using(crate::proofs::TableLemmas::named_here, crate::proofs::TableLemmas::named_later))]
pub(crate) fn named<T: Copy>(name: &[u8], table: &[(&str, T)]) -> Option<T>
    ensures { result ≡ named name.now (map (λ e. (e.0.now, e.1)) table.now) }
{
    for (entry, meant) in table {
        if entry.as_bytes() == name {
            return Some(*meant);
        }
    }
    None
}

/// What stands at a place of a table.
#[tactic(auto, using(crate::proofs::TableLemmas::placed_here, crate::proofs::TableLemmas::placed_past))]
fn placed<T: Copy>(place: u64, table: &[(&str, T)]) -> Option<T>
    ensures { result ≡ placed place (map (λ e. (e.0.now, e.1)) table.now) }
{
    let (_, meant) = table.get(place as usize)?;
    Some(*meant)
}

/// One of a table: by its name, or by its number, which is its place.
#[tactic(auto, unfolding(etcd_model::specs::Members::choice_in))]
fn choice<T: Copy>(value: &Value, table: &[(&str, T)]) -> Option<T>
    ensures { result ≡ choice_in (map (λ e. (e.0.now, e.1)) table.now) (view value.now) }
{
    match value {
        Value::Number(number) => placed(number.as_u64()?, table),
        Value::String(text) => named(text.as_bytes(), table),
        _ => None,
    }
}

/// One of a table, or what an absent member stands for.
#[tactic(auto, unfolding(etcd_model::specs::Members::read_choice))]
fn read_choice<T: Copy>(value: Option<&Value>, table: &[(&str, T)], absent: T) -> Result<T, Refusal>
    ensures { result ≡ read_choice (map (λ e. (e.0.now, e.1)) table.now) absent
        (option_map (λ v. view v.now) value.entry) }
{
    match value {
        None => Ok(absent),
        Some(value) => choice(value, table).ok_or(Refusal::BadBody),
    }
}

const ORDERS: [(&str, SortOrder); 3] = [
    ("NONE", SortOrder::Unsorted),
    ("ASCEND", SortOrder::Ascend),
    ("DESCEND", SortOrder::Descend),
];

impl PlainMember for SortOrder {
    ghost reads = { read_order };

    fn read(value: Option<&Value>) -> Result<SortOrder, Refusal> {
        read_choice(value, &ORDERS, SortOrder::Unsorted)
    }
}

const TARGETS: [(&str, SortTarget); 5] = [
    ("KEY", SortTarget::Key),
    ("VERSION", SortTarget::Version),
    ("CREATE", SortTarget::Create),
    ("MOD", SortTarget::Mod),
    ("VALUE", SortTarget::Value),
];

impl PlainMember for SortTarget {
    ghost reads = { read_sort_target };

    fn read(value: Option<&Value>) -> Result<SortTarget, Refusal> {
        read_choice(value, &TARGETS, SortTarget::Key)
    }
}

const RESULTS: [(&str, CompareResult); 4] = [
    ("EQUAL", CompareResult::Equal),
    ("GREATER", CompareResult::Greater),
    ("LESS", CompareResult::Less),
    ("NOT_EQUAL", CompareResult::NotEqual),
];

impl PlainMember for CompareResult {
    ghost reads = { read_result };

    fn read(value: Option<&Value>) -> Result<CompareResult, Refusal> {
        read_choice(value, &RESULTS, CompareResult::Equal)
    }
}

const COMPARE_TARGETS: [(&str, CompareTarget); 5] = [
    ("VERSION", CompareTarget::Version),
    ("CREATE", CompareTarget::Create),
    ("MOD", CompareTarget::Mod),
    ("VALUE", CompareTarget::Value),
    ("LEASE", CompareTarget::Lease),
];

impl PlainMember for CompareTarget {
    ghost reads = { read_compare_target };

    fn read(value: Option<&Value>) -> Result<CompareTarget, Refusal> {
        read_choice(value, &COMPARE_TARGETS, CompareTarget::Version)
    }
}

const ACTIONS: [(&str, AlarmAction); 3] = [
    ("GET", AlarmAction::Get),
    ("ACTIVATE", AlarmAction::Activate),
    ("DEACTIVATE", AlarmAction::Deactivate),
];

impl PlainMember for AlarmAction {
    ghost reads = { read_action };

    fn read(value: Option<&Value>) -> Result<AlarmAction, Refusal> {
        read_choice(value, &ACTIONS, AlarmAction::Get)
    }
}

const ALARMS: [(&str, AlarmKind); 3] = [
    ("NONE", AlarmKind::Any),
    ("NOSPACE", AlarmKind::NoSpace),
    ("CORRUPT", AlarmKind::Corrupt),
];

impl PlainMember for AlarmKind {
    ghost reads = { read_alarm };

    fn read(value: Option<&Value>) -> Result<AlarmKind, Refusal> {
        read_choice(value, &ALARMS, AlarmKind::Any)
    }
}

const FILTERS: [(&str, EventKind); 2] = [
    ("NOPUT", EventKind::Put),
    ("NODELETE", EventKind::Delete),
];

/// A filter, by the kind of event that it leaves out.
impl FromElement for EventKind {
    ghost reads_element = { filter_in };

    ghost element_takes_none = { λ _. Unit {0} };

    fn read_element(_alloc: Global, value: &Value) -> Result<EventKind, Refusal> {
        choice(value, &FILTERS).ok_or(Refusal::BadBody)
    }
}
