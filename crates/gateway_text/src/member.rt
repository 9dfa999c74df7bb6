//! One member of an object's text.
//!
//! A writer is told whether a member stands before, and says whether one stands before what follows.
//! Where a value is zero, false or empty, the member is left out.
//!
//! Most values are texts. Such a member is given by its opening, `,"name":"`, all that stands before the text, which is
//! written at once.
#![tactic(auto, using(crate::proofs::WroteLemmas::wrote_value))]

ghost use Rattle.std.specs.Prelude.{◌≡◌, ◌++◌, ◌∷◌, [], IsTrue, IfOk, OnOk};
ghost use Rattle.serde_json.specs.Data.{string, number, unsigned, member as with_member};
ghost use Rattle.serde_json.specs.Written.{comma_if, compact_text};
ghost use Rattle.etcd_model.specs.ReplyText.{signed_member, unsigned_member, bytes_data, bytes_member};
ghost use Rattle.etcd_model.specs.ReplyText.{flag_member};
ghost use Rattle.gateway_text.specs.Plain.{is_plain};
ghost use Rattle.gateway_text.specs.Wrote.{IsOpening, WroteMembers, name_in, name_text};

use crate::text::{push_base64, push_byte, push_str};
use etcd_types::Mem;

/// The opening of a member under a name.
macro_rules! opening {
    ($name:literal) => {
        concat!(",\"", $name, "\":\"")
    };
}

pub(crate) use opening;

/// Writes a comma, where something stands before.
pub(crate) fn write_comma(out: &mut Vec<u8>, later: bool) -> Mem<()>
    ensures { OnOk result (out.new.items ≡ out.old.items ++ comma_if later) }
{
    if later {
        push_byte(out, b',')?;
    }
    Ok(())
}

/// Writes a member's name and the colon after it.
pub(crate) fn write_name(out: &mut Vec<u8>, later: bool, name: &str) -> Mem<()>
    requires { IsTrue (is_plain name.now) }
    ensures { OnOk result (out.new.items ≡ out.old.items ++ name_text later name.now) }
{
    write_comma(out, later)?;
    push_byte(out, b'"')?;
    push_str(out, name)?;
    push_str(out, "\":")?;
    Ok(())
}

/// Writes the opening of a member, without its comma where no member stands before.
#[tactic(auto, using(crate::proofs::WroteLemmas::opening_later, crate::proofs::WroteLemmas::opening_first))]
fn write_opening(out: &mut Vec<u8>, later: bool, opening: &str) -> Mem<()>
    requires { IsOpening opening.now }
    ensures { OnOk result (out.new.items
        ≡ out.old.items ++ (name_text later (name_in opening.now) ++ 34 ∷ [])) }
{
    let bytes = opening.as_bytes();
    if later {
        out.extend_from_slice(bytes)
    } else {
        out.extend_from_slice(&bytes[1..])
    }
}

/// Writes a text that needs no escape.
pub(crate) fn write_text(out: &mut Vec<u8>, later: bool, opening: &str, text: &str) -> Mem<bool>
    requires opening { IsOpening opening.now }
    requires text { IsTrue (is_plain text.now) }
    ensures { IfOk result (λ after. WroteMembers out.old.items later out.new.items after
        (with_member (name_in opening.now) (string text.now))) }
{
    write_opening(out, later, opening)?;
    push_str(out, text)?;
    push_byte(out, b'"')?;
    Ok(true)
}

/// Writes a 64-bit number, which is a string of its digits.
#[tactic(auto, using(crate::proofs::PlainLemmas::plain_signed))]
pub(crate) fn write_signed(out: &mut Vec<u8>, later: bool, opening: &str, n: &i64) -> Mem<bool>
    requires { IsOpening opening.now }
    ensures { IfOk result (λ after. WroteMembers out.old.items later out.new.items after
        (signed_member (name_in opening.now) n.now)) }
{
    if *n == 0 {
        return Ok(later);
    }
    let mut buffer = itoa::Buffer::new();
    write_text(out, later, opening, buffer.format(*n))
}

/// Writes a 64-bit number without a sign, which is a string of its digits.
#[tactic(auto, using(crate::proofs::PlainLemmas::plain_decimal))]
pub(crate) fn write_unsigned(out: &mut Vec<u8>, later: bool, opening: &str, n: u64) -> Mem<bool>
    requires { IsOpening opening.now }
    ensures { IfOk result (λ after. WroteMembers out.old.items later out.new.items after
        (unsigned_member (name_in opening.now) n)) }
{
    if n == 0 {
        return Ok(later);
    }
    let mut buffer = itoa::Buffer::new();
    write_text(out, later, opening, buffer.format(n))
}

/// Writes a small number, which is a JSON number.
pub(crate) fn write_number(out: &mut Vec<u8>, later: bool, name: &str, n: u64) -> Mem<bool>
    requires { IsTrue (is_plain name.now) }
    ensures { IfOk result (λ after. WroteMembers out.old.items later out.new.items after
        (with_member name.now (number (unsigned n)))) }
{
    let mut buffer = itoa::Buffer::new();
    write_name(out, later, name)?;
    push_str(out, buffer.format(n))?;
    Ok(true)
}

/// Writes bytes as a string of base64.
pub(crate) fn write_base64(out: &mut Vec<u8>, bytes: &[u8]) -> Mem<()>
    ensures { OnOk result (out.new.items
        ≡ out.old.items ++ compact_text (bytes_data bytes.now)) }
{
    push_byte(out, b'"')?;
    push_base64(out, bytes)?;
    push_byte(out, b'"')?;
    Ok(())
}

/// Writes bytes, which are a string of base64.
pub(crate) fn write_bytes(out: &mut Vec<u8>, later: bool, opening: &str, bytes: &[u8]) -> Mem<bool>
    requires { IsOpening opening.now }
    ensures { IfOk result (λ after. WroteMembers out.old.items later out.new.items after
        (bytes_member (name_in opening.now) bytes.now)) }
{
    if bytes.is_empty() {
        return Ok(later);
    }
    write_opening(out, later, opening)?;
    push_base64(out, bytes)?;
    push_byte(out, b'"')?;
    Ok(true)
}

/// Writes what is true.
pub(crate) fn write_flag(out: &mut Vec<u8>, later: bool, name: &str, flag: bool) -> Mem<bool>
    requires { IsTrue (is_plain name.now) }
    ensures { IfOk result (λ after. WroteMembers out.old.items later out.new.items after
        (flag_member name.now flag)) }
{
    if !flag {
        return Ok(later);
    }
    write_name(out, later, name)?;
    push_str(out, "true")?;
    Ok(true)
}
