//! The status and the text of a reply.
ghost use Rattle.std.specs.Prelude.{◌≡◌, ◌++◌, IfOk, OnOk, codes, false};
ghost use Rattle.serde_json.specs.Written.{compact_text};
ghost use Rattle.etcd_model.specs.ReplyText.{alarm_list, alarms_data, bare_data, list_member, reply_body};
ghost use Rattle.etcd_model.specs.ReplyText.{reply_status, status_data};
ghost use Rattle.gateway_text.specs.Wrote.{WroteMembers};

use crate::leases::{write_granted, write_leases, write_time_to_live};
use crate::list::write_item;
use crate::member::{opening, write_unsigned};
use crate::refusal::write_refusal;
use crate::responses::write_key_reply;
use crate::size::empty_text;
use crate::streams::write_stream_reply;
use crate::text::{push_byte, push_str};
use etcd_types::{Header, Mem, Reply};
use std::alloc::Global;

/// The status of HTTP and the body of a reply. It fails only for want of memory.
pub fn write_reply(alloc: Global, reply: &Reply) -> Mem<(u16, Vec<u8>)>
    ensures status { IfOk result (λ answer. answer.0 ≡ reply_status reply.now) }
    ensures body { IfOk result (λ answer. answer.1.items ≡ reply_body reply.now) }
{
    let mut out = empty_text(alloc, reply)?;
    write_body(&mut out, reply)?;
    Ok((status_of(reply), out))
}

/// The status of HTTP.
fn status_of(reply: &Reply) -> u16
    ensures { result ≡ reply_status reply.now }
{
    match reply {
        Reply::Quiet => 204,
        Reply::Refused(refusal) => refusal.status(),
        _ => 200,
    }
}

/// Writes a reply's body.
fn write_body(out: &mut Vec<u8>, reply: &Reply) -> Mem<()>
    ensures { OnOk result (out.new.items ≡ out.old.items ++ reply_body reply.now) }
{
    match reply {
        Reply::Range { .. } | Reply::Put { .. } | Reply::Delete { .. } | Reply::Txn { .. } => {
            write_key_reply(out, reply)
        }
        Reply::Created { .. }
        | Reply::Events { .. }
        | Reply::Progress { .. }
        | Reply::Canceled { .. }
        | Reply::KeptAlive { .. } => write_stream_reply(out, reply),
        Reply::Compacted(header) | Reply::Revoked(header) | Reply::Defragmented(header) => {
            write_bare(out, header)
        }
        Reply::Granted { header, id, ttl } => write_granted(out, header, id, ttl),
        Reply::TimeToLive {
            header,
            id,
            ttl,
            granted_ttl,
            keys,
        } => write_time_to_live(out, header, id, ttl, granted_ttl, keys.as_slice()),
        Reply::Leases { header, ids } => write_leases(out, header, ids.as_slice()),
        Reply::Alarms { header, no_space } => write_alarms(out, header, *no_space),
        Reply::Status {
            header,
            size,
            in_use,
        } => write_status(out, header, *size, *in_use),
        Reply::Quiet => Ok(()),
        Reply::Refused(refusal) => write_refusal(out, *refusal),
    }
}

/// Writes an answer that is a header alone.
fn write_bare(out: &mut Vec<u8>, header: &Header) -> Mem<()>
    ensures { OnOk result (out.new.items ≡ out.old.items
        ++ compact_text (bare_data header.now)) }
{
    push_byte(out, b'{')?;
    write_item(out, false, "header", header)?;
    push_byte(out, b'}')?;
    Ok(())
}

/// Writes the alarms that there are.
fn write_alarms(out: &mut Vec<u8>, header: &Header, no_space: bool) -> Mem<()>
    ensures { OnOk result (out.new.items ≡ out.old.items
        ++ compact_text (alarms_data header.now no_space)) }
{
    push_byte(out, b'{')?;
    let later = write_alarm(out, no_space)?;
    write_item(out, later, "header", header)?;
    push_byte(out, b'}')?;
    Ok(())
}

/// Writes the list of the one alarm that there is, if it is raised.
fn write_alarm(out: &mut Vec<u8>, no_space: bool) -> Mem<bool>
    ensures { IfOk result (λ after. WroteMembers out.old.items false out.new.items after
        (list_member (λ alarm. alarm) (codes "alarms") (alarm_list no_space))) }
{
    if no_space {
        push_str(
            out,
            "\"alarms\":[{\"alarm\":\"NOSPACE\",\"memberID\":\"1\"}]",
        )?;
    }
    Ok(no_space)
}

/// Writes how much room a tenant has, and how much is in use.
fn write_status(out: &mut Vec<u8>, header: &Header, size: u64, in_use: u64) -> Mem<()>
    ensures { OnOk result (out.new.items ≡ out.old.items
        ++ compact_text (status_data header.now size in_use)) }
{
    push_byte(out, b'{')?;
    let later = write_unsigned(out, false, opening!("dbSize"), size)?;
    let later = write_unsigned(out, later, opening!("dbSizeInUse"), in_use)?;
    write_item(out, later, "header", header)?;
    push_byte(out, b'}')?;
    Ok(())
}
