//! Keys with their values, and the events that tell of them.
ghost use Rattle.std.specs.Prelude.{IsTrue, IfOk};
ghost use Rattle.etcd_model.specs.ReplyText.{bytes_data, event_data, key_value_data, kind_member, row_member};
ghost use Rattle.gateway_text.specs.Plain.{is_plain};
ghost use Rattle.gateway_text.specs.Wrote.{WroteMembers};

use crate::list::{WriteItem, write_item};
use crate::member::{opening, write_base64, write_bytes, write_signed, write_text, write_unsigned};
use crate::text::push_byte;
use etcd_types::{Event, EventKind, KeyValue, List, Mem};

impl WriteItem for List<u8> {
    ghost data_of = { bytes_data };

    fn write(&self, out: &mut Vec<u8>) -> Mem<()> {
        write_base64(out, self.as_slice())
    }
}

impl WriteItem for KeyValue {
    ghost data_of = { key_value_data };

    fn write(&self, out: &mut Vec<u8>) -> Mem<()> {
        push_byte(out, b'{')?;
        let later = write_unsigned(
            out,
            false,
            opening!("create_revision"),
            self.create_revision,
        )?;
        let later = write_bytes(out, later, opening!("key"), self.key.as_slice())?;
        let later = write_signed(out, later, opening!("lease"), &self.lease)?;
        let later = write_unsigned(out, later, opening!("mod_revision"), self.mod_revision)?;
        let later = write_bytes(out, later, opening!("value"), self.value.as_slice())?;
        write_unsigned(out, later, opening!("version"), self.version)?;
        push_byte(out, b'}')?;
        Ok(())
    }
}

impl WriteItem for Event {
    ghost data_of = { event_data };

    fn write(&self, out: &mut Vec<u8>) -> Mem<()> {
        push_byte(out, b'{')?;
        let later = write_item(out, false, "kv", &self.kv)?;
        let later = write_row(out, later, "prev_kv", &self.prev_kv)?;
        write_kind(out, later, self.kind)?;
        push_byte(out, b'}')?;
        Ok(())
    }
}

/// Writes a row, if there is one.
pub(crate) fn write_row(
    out: &mut Vec<u8>,
    later: bool,
    name: &str,
    row: &Option<KeyValue>,
) -> Mem<bool>
    requires { IsTrue (is_plain name.now) }
    ensures { IfOk result (λ after. WroteMembers out.old.items later out.new.items after
        (row_member name.now row.now)) }
{
    match row {
        Some(row) => write_item(out, later, name, row),
        None => Ok(later),
    }
}

/// Writes what happened, unless it was a put.
fn write_kind(out: &mut Vec<u8>, later: bool, kind: EventKind) -> Mem<bool>
    ensures { IfOk result (λ after. WroteMembers out.old.items later out.new.items after
        (kind_member kind)) }
{
    match kind {
        EventKind::Put => Ok(later),
        EventKind::Delete => write_text(out, later, opening!("type"), "DELETE"),
    }
}
