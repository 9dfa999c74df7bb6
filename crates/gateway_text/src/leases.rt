//! The answers about leases.
ghost use Rattle.std.specs.Prelude.{◌≡◌, ◌++◌, IfOk, OnOk, codes, false};
ghost use Rattle.serde_json.specs.Written.{compact_text};
ghost use Rattle.etcd_model.specs.ReplyText.{granted_data, header_member, lease_data, leases_data};
ghost use Rattle.etcd_model.specs.ReplyText.{signed_member, time_to_live_data};
ghost use Rattle.gateway_text.specs.Wrote.{WroteMembers};

use crate::list::{WriteItem, write_item, write_list};
use crate::member::{opening, write_signed};
use crate::text::push_byte;
use etcd_types::{Header, List, Mem};

impl WriteItem for i64 {
    ghost data_of = { lease_data };

    fn write(&self, out: &mut Vec<u8>) -> Mem<()> {
        push_byte(out, b'{')?;
        write_signed(out, false, opening!("ID"), self)?;
        push_byte(out, b'}')?;
        Ok(())
    }
}

/// Writes the members of the answer to a grant or a keepalive.
pub(crate) fn write_lease(out: &mut Vec<u8>, header: &Header, id: &i64, ttl: &i64) -> Mem<bool>
    ensures { IfOk result (λ after. WroteMembers out.old.items false out.new.items after
        (λ rest. signed_member (codes "ID") id.now
        (signed_member (codes "TTL") ttl.now (header_member header.now rest)))) }
{
    let later = write_signed(out, false, opening!("ID"), id)?;
    let later = write_signed(out, later, opening!("TTL"), ttl)?;
    write_item(out, later, "header", header)
}

/// Writes the answer to a grant.
pub(crate) fn write_granted(out: &mut Vec<u8>, header: &Header, id: &i64, ttl: &i64) -> Mem<()>
    ensures { OnOk result (out.new.items ≡ out.old.items
        ++ compact_text (granted_data header.now id.now ttl.now)) }
{
    push_byte(out, b'{')?;
    write_lease(out, header, id, ttl)?;
    push_byte(out, b'}')?;
    Ok(())
}

/// Writes how long a lease lives, and its keys.
pub(crate) fn write_time_to_live(
    out: &mut Vec<u8>,
    header: &Header,
    id: &i64,
    ttl: &i64,
    granted_ttl: &i64,
    keys: &[List<u8>],
) -> Mem<()>
    ensures { OnOk result (out.new.items ≡ out.old.items
        ++ compact_text (time_to_live_data header.now id.now ttl.now granted_ttl.now keys.now)) }
{
    push_byte(out, b'{')?;
    let later = write_signed(out, false, opening!("ID"), id)?;
    let later = write_signed(out, later, opening!("TTL"), ttl)?;
    let later = write_signed(out, later, opening!("grantedTTL"), granted_ttl)?;
    let later = write_item(out, later, "header", header)?;
    write_list(out, later, "keys", keys)?;
    push_byte(out, b'}')?;
    Ok(())
}

/// Writes the leases that there are.
pub(crate) fn write_leases(out: &mut Vec<u8>, header: &Header, ids: &[i64]) -> Mem<()>
    ensures { OnOk result (out.new.items ≡ out.old.items
        ++ compact_text (leases_data header.now ids.now)) }
{
    push_byte(out, b'{')?;
    let later = write_item(out, false, "header", header)?;
    write_list(out, later, "leases", ids)?;
    push_byte(out, b'}')?;
    Ok(())
}
