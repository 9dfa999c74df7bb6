//! Members that are lists or objects.
ghost use Rattle.std.specs.Prelude.{◌≡◌, ◌≢◌, Result, IfOk, IfErr, Ok, Err};
ghost use Rattle.serde_json.specs.Data.{Data};
ghost use Rattle.serde_json.specs.View.{view, items_view};
ghost use Rattle.etcd_types.specs.declared.refusal.Refusal.{Refusal};
ghost use Rattle.etcd_types.specs.declared.refusal.Refusal.TheVariants.{Memory};
ghost use Rattle.etcd_model.specs.Calls.{result_map};
ghost use Rattle.etcd_model.specs.Members.{IsAnswer, as_object, read_elements, read_list};
ghost use Rattle.gateway_json.specs.Taking.{HoldsNone, IfThere, IsFirstRefused};

use crate::member::HeldMember;
use etcd_types::{List, Refusal};
use serde_json::Value;
use std::alloc::Global;

/// What an element of a list is read as.
pub(crate) trait FromElement: Drop {
    ghost reads_element: { Data → Result Self Refusal };

    /// The elements that take no memory.
    ghost element_takes_none: { Data → Type 0 };

    fn read_element(alloc: Global, value: &Value) -> Result<Self, Refusal>
        ensures answer { IsAnswer result (reads_element (view value.now)) }
        ensures exact { element_takes_none (view value.now) → result ≡ reads_element (view value.now) };
}

/// Reads the elements of a list, one after another; the first fault is told.
#[tactic(auto, using(crate::proofs::ListLemmas::elements_are))]
fn read_elements<T: FromElement>(alloc: Global, values: &[Value]) -> Result<List<T>, Refusal>
    ensures ok { IfOk result (λ items. read_elements T.reads_element (items_view values.now) ≡ Ok items) }
    ensures err { IfErr result (λ e. e ≢ Memory
        → read_elements T.reads_element (items_view values.now) ≡ Err e) }
    ensures exact { IsFirstRefused T.reads_element T.element_takes_none (items_view values.now)
        → result ≡ read_elements T.reads_element (items_view values.now) }
{
    let mut items = List::new(alloc);
    for value in values {
        let item = T::read_element(alloc, value)?;
        if items.push(item).is_err() {
            return Err(Refusal::Memory);
        }
    }
    Ok(items)
}

impl<T: FromElement> HeldMember for List<T> {
    ghost reads = { read_list T.reads_element };

    ghost takes_none = { IfThere (HoldsNone T.reads_element T.element_takes_none) };

    #[tactic(auto, unfolding(etcd_model::specs::Members::read_list))]
    fn read(alloc: Global, value: Option<&Value>) -> Result<List<T>, Refusal> {
        match value {
            None => Ok(List::new(alloc)),
            Some(Value::Array(values)) => read_elements(alloc, values.as_slice()),
            Some(_) => Err(Refusal::BadBody),
        }
    }
}

/// An object inside another: any other value can't be read.
pub(crate) fn object(value: &Value) -> Result<&Value, Refusal>
    ensures { result_map (λ v. view v.now) result ≡ as_object (view value.now) }
{
    if value.is_object() {
        Ok(value)
    } else {
        Err(Refusal::BadBody)
    }
}
