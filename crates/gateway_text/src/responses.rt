//! The answers to reads and writes of keys, alone and within the answer to a transaction.
ghost use Rattle.std.specs.Prelude.{◌≡◌, ◌++◌, IsTrue, OnOk};
ghost use Rattle.serde_json.specs.Data.{object};
ghost use Rattle.serde_json.specs.Written.{compact_text};
ghost use Rattle.etcd_model.specs.ReplyText.{delete_members, put_members, range_members, reply_body};
ghost use Rattle.etcd_model.specs.ReplyText.{response_data, txn_data};
ghost use Rattle.gateway_text.specs.Groups.{is_key_reply};

use crate::header::InnerHeader;
use crate::list::{WriteItem, write_item, write_list};
use crate::member::{opening, write_flag, write_unsigned};
use crate::rows::write_row;
use crate::text::{push_byte, push_str};
use etcd_types::{Header, KeyValue, Mem, OpReply, Reply};

/// Writes the answer to a read or a write of keys.
#[tactic(auto, unfolding(etcd_model::specs::ReplyText::range_data, etcd_model::specs::ReplyText::put_data, etcd_model::specs::ReplyText::delete_data))]
pub(crate) fn write_key_reply(out: &mut Vec<u8>, reply: &Reply) -> Mem<()>
    requires { IsTrue (is_key_reply reply.now) }
    ensures { OnOk result (out.new.items ≡ out.old.items ++ reply_body reply.now) }
{
    match reply {
        Reply::Range {
            header,
            count,
            kvs,
            more,
        } => write_range(out, header, *count, kvs.as_slice(), *more),
        Reply::Put { header, prev_kv } => write_put(out, header, prev_kv),
        Reply::Delete {
            header,
            deleted,
            prev_kvs,
        } => write_delete(out, header, *deleted, prev_kvs.as_slice()),
        Reply::Txn {
            header,
            succeeded,
            responses,
        } => write_txn(out, header, *succeeded, responses.as_slice()),
        _ => unreachable!(),
    }
}

/// Writes the answer to a range.
fn write_range<H: WriteItem>(
    out: &mut Vec<u8>,
    header: &H,
    count: u64,
    kvs: &[KeyValue],
    more: bool,
) -> Mem<()>
    ensures { OnOk result (out.new.items ≡ out.old.items
        ++ compact_text (object (range_members (H.data_of header.now) count kvs.now more))) }
{
    push_byte(out, b'{')?;
    let later = write_unsigned(out, false, opening!("count"), count)?;
    let later = write_item(out, later, "header", header)?;
    let later = write_list(out, later, "kvs", kvs)?;
    write_flag(out, later, "more", more)?;
    push_byte(out, b'}')?;
    Ok(())
}

/// Writes the answer to a put.
fn write_put<H: WriteItem>(out: &mut Vec<u8>, header: &H, prev_kv: &Option<KeyValue>) -> Mem<()>
    ensures { OnOk result (out.new.items ≡ out.old.items
        ++ compact_text (object (put_members (H.data_of header.now) prev_kv.now))) }
{
    push_byte(out, b'{')?;
    let later = write_item(out, false, "header", header)?;
    write_row(out, later, "prev_kv", prev_kv)?;
    push_byte(out, b'}')?;
    Ok(())
}

/// Writes the answer to a delete.
fn write_delete<H: WriteItem>(
    out: &mut Vec<u8>,
    header: &H,
    deleted: u64,
    prev_kvs: &[KeyValue],
) -> Mem<()>
    ensures { OnOk result (out.new.items ≡ out.old.items
        ++ compact_text (object (delete_members (H.data_of header.now) deleted prev_kvs.now))) }
{
    push_byte(out, b'{')?;
    let later = write_unsigned(out, false, opening!("deleted"), deleted)?;
    let later = write_item(out, later, "header", header)?;
    write_list(out, later, "prev_kvs", prev_kvs)?;
    push_byte(out, b'}')?;
    Ok(())
}

/// Writes the answer to a transaction.
fn write_txn(out: &mut Vec<u8>, header: &Header, succeeded: bool, responses: &[OpReply]) -> Mem<()>
    ensures { OnOk result (out.new.items ≡ out.old.items
        ++ compact_text (txn_data header.now succeeded responses.now)) }
{
    push_byte(out, b'{')?;
    let later = write_item(out, false, "header", header)?;
    let later = write_list(out, later, "responses", responses)?;
    write_flag(out, later, "succeeded", succeeded)?;
    push_byte(out, b'}')?;
    Ok(())
}

impl WriteItem for OpReply {
    ghost data_of = { response_data };

    fn write(&self, out: &mut Vec<u8>) -> Mem<()> {
        match self {
            OpReply::Range {
                revision,
                count,
                kvs,
                more,
            } => {
                push_str(out, "{\"response_range\":")?;
                write_range(out, &InnerHeader(revision), *count, kvs.as_slice(), *more)?;
                push_byte(out, b'}')?;
                Ok(())
            }
            OpReply::Put { revision, prev_kv } => {
                push_str(out, "{\"response_put\":")?;
                write_put(out, &InnerHeader(revision), prev_kv)?;
                push_byte(out, b'}')?;
                Ok(())
            }
            OpReply::Delete {
                revision,
                deleted,
                prev_kvs,
            } => {
                push_str(out, "{\"response_delete_range\":")?;
                write_delete(out, &InnerHeader(revision), *deleted, prev_kvs.as_slice())?;
                push_byte(out, b'}')?;
                Ok(())
            }
        }
    }
}
