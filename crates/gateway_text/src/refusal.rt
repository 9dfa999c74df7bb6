//! The answers that refuse.
ghost use Rattle.std.specs.Prelude.{◌≡◌, ◌++◌, OnOk};
ghost use Rattle.serde_json.specs.Written.{compact_text};
ghost use Rattle.etcd_model.specs.ReplyText.{memory_answer, refusal_data};

use crate::member::{opening, write_number, write_text};
use crate::text::push_byte;
use etcd_types::{Mem, Refusal};

/// The body where memory for a body is wanting.
pub const MEMORY_TEXT: &[u8] =
    b"{\"code\":14,\"error\":\"etcd_host: out of memory\",\"message\":\"etcd_host: out of memory\"}";

/// The body where memory for a body is wanting, which is that of its refusal.
pub fn memory_text() -> &'static [u8]
    ensures { result.now ≡ memory_answer.body }
{
    MEMORY_TEXT
}

/// Writes a refusal's code and its text, which stands twice.
#[tactic(auto, using(crate::proofs::PlainLemmas::plain_refusal))]
pub(crate) fn write_refusal(out: &mut Vec<u8>, refusal: Refusal) -> Mem<()>
    ensures { OnOk result (out.new.items ≡ out.old.items
        ++ compact_text (refusal_data refusal)) }
{
    let text = refusal.text();
    push_byte(out, b'{')?;
    let later = write_number(out, false, "code", refusal.code())?;
    let later = write_text(out, later, opening!("error"), text)?;
    write_text(out, later, opening!("message"), text)?;
    push_byte(out, b'}')?;
    Ok(())
}
