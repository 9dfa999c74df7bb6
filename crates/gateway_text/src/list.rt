//! Values that stand in lists and in members.
#![tactic(auto, using(crate::proofs::WroteLemmas::wrote_value))]

ghost use Rattle.std.specs.Prelude.{◌≡◌, ◌++◌, IsTrue, IfOk, OnOk, false};
ghost use Rattle.serde_json.specs.Data.{Data, member as with_member};
ghost use Rattle.serde_json.specs.Written.{compact_text, items_text};
ghost use Rattle.etcd_model.specs.ReplyText.{items_of, list_member};
ghost use Rattle.gateway_text.specs.Plain.{is_plain};
ghost use Rattle.gateway_text.specs.Wrote.{WroteMembers};

use crate::member::{write_comma, write_name};
use crate::text::push_byte;
use etcd_types::Mem;

/// A part of an answer that is one JSON value.
pub(crate) trait WriteItem {
    ghost data_of: { Self → Data };

    /// Writes the value's text.
    fn write(&self, out: &mut Vec<u8>) -> Mem<()>
        ensures { OnOk result (out.new.items
            ≡ out.old.items ++ compact_text (data_of self.now)) };
}

/// Writes a member, whatever its value is.
pub(crate) fn write_item<T: WriteItem>(
    out: &mut Vec<u8>,
    later: bool,
    name: &str,
    item: &T,
) -> Mem<bool>
    requires { IsTrue (is_plain name.now) }
    ensures { IfOk result (λ after. WroteMembers out.old.items later out.new.items after
        (with_member name.now (T.data_of item.now))) }
{
    write_name(out, later, name)?;
    item.write(out)?;
    Ok(true)
}

/// Writes a list, unless it is empty.
pub(crate) fn write_list<T: WriteItem>(
    out: &mut Vec<u8>,
    later: bool,
    name: &str,
    items: &[T],
) -> Mem<bool>
    requires { IsTrue (is_plain name.now) }
    ensures { IfOk result (λ after. WroteMembers out.old.items later out.new.items after
        (list_member T.data_of name.now items.now)) }
{
    if items.is_empty() {
        return Ok(later);
    }
    write_name(out, later, name)?;
    push_byte(out, b'[')?;
    write_items(out, items)?;
    Ok(true)
}

/// Writes the items of a list and the bracket after them.
fn write_items<T: WriteItem>(out: &mut Vec<u8>, items: &[T]) -> Mem<()>
    ensures { OnOk result (out.new.items
        ≡ out.old.items ++ items_text false (items_of T.data_of items.now)) }
{
    let mut later = false;
    for item in items {
        write_comma(out, later)?;
        item.write(out)?;
        later = true;
    }
    push_byte(out, b']')?;
    Ok(())
}
