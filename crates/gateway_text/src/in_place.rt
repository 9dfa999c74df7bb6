//! Answers whose rows are not made: each row is read where it lies, and written before the next is read.
ghost use Rattle.std.specs.Prelude.{◌≡◌, ◌++◌, IsTrue, IfOk, OnOk, false, map};
ghost use Rattle.serde_json.specs.Data.{object};
ghost use Rattle.serde_json.specs.Written.{compact_text, items_text};
ghost use Rattle.etcd_types.specs.Rows.{op_reply_of, reply_of};
ghost use Rattle.etcd_model.specs.ReplyText.{items_of, key_value_data, list_member, range_members, reply_body};
ghost use Rattle.etcd_model.specs.ReplyText.{reply_status, response_data, txn_data};
ghost use Rattle.gateway_text.specs.Plain.{is_plain};
ghost use Rattle.gateway_text.specs.Wrote.{WroteMembers};

use crate::header::InnerHeader;
use crate::list::{WriteItem, write_item};
use crate::member::{opening, write_comma, write_flag, write_name, write_unsigned};
use crate::size::empty_text_in_place;
use crate::text::{push_byte, push_str};
use etcd_types::{Header, KeyValue, List, Mem, RangeInPlace, ReplyInPlace, RowsInPlace};
use std::alloc::Global;

/// The status of HTTP and the body of an answer whose rows are read where they lie, one at a time. It fails only for want of
/// memory.
pub fn write_in_place<S: RowsInPlace>(alloc: Global, reply: &ReplyInPlace<S>) -> Mem<(u16, Vec<u8>)>
    ensures status { IfOk result (λ answer. answer.0 ≡ reply_status (reply_of S.rows reply.now)) }
    ensures body { IfOk result (λ answer. answer.1.items ≡ reply_body (reply_of S.rows reply.now)) }
{
    let mut out = empty_text_in_place(alloc, reply)?;
    write_body(alloc, &mut out, reply)?;
    Ok((200, out))
}

/// Writes the body.
#[tactic(auto, unfolding(etcd_model::specs::ReplyText::range_data))]
fn write_body<S: RowsInPlace>(alloc: Global, out: &mut Vec<u8>, reply: &ReplyInPlace<S>) -> Mem<()>
    ensures { OnOk result (out.new.items ≡ out.old.items ++ reply_body (reply_of S.rows reply.now)) }
{
    match reply {
        ReplyInPlace::Range { header, range } => write_range(alloc, out, header, range),
        ReplyInPlace::Txn {
            header,
            succeeded,
            responses,
        } => write_txn(alloc, out, header, *succeeded, responses.as_slice()),
    }
}

/// Writes the answer to a range.
fn write_range<H: WriteItem, S: RowsInPlace>(
    alloc: Global,
    out: &mut Vec<u8>,
    header: &H,
    range: &RangeInPlace<S>,
) -> Mem<()>
    ensures { OnOk result (out.new.items ≡ out.old.items ++ compact_text (object
        (range_members (H.data_of header.now) range.now.count (S.rows range.now.rows) range.now.more))) }
{
    push_byte(out, b'{')?;
    let later = write_unsigned(out, false, opening!("count"), range.count)?;
    let later = write_item(out, later, "header", header)?;
    let later = write_rows(alloc, out, later, "kvs", &range.rows)?;
    write_flag(out, later, "more", range.more)?;
    push_byte(out, b'}')?;
    Ok(())
}

/// Writes the answer to a transaction.
fn write_txn<S: RowsInPlace>(
    alloc: Global,
    out: &mut Vec<u8>,
    header: &Header,
    succeeded: bool,
    responses: &[RangeInPlace<S>],
) -> Mem<()>
    ensures { OnOk result (out.new.items ≡ out.old.items
        ++ compact_text (txn_data header.now succeeded (map (op_reply_of S.rows) responses.now))) }
{
    push_byte(out, b'{')?;
    let later = write_item(out, false, "header", header)?;
    let later = write_responses(alloc, out, later, "responses", responses)?;
    write_flag(out, later, "succeeded", succeeded)?;
    push_byte(out, b'}')?;
    Ok(())
}

/// Writes the list of what a transaction's ranges are answered, unless it is empty.
fn write_responses<S: RowsInPlace>(
    alloc: Global,
    out: &mut Vec<u8>,
    later: bool,
    name: &str,
    responses: &[RangeInPlace<S>],
) -> Mem<bool>
    requires { IsTrue (is_plain name.now) }
    ensures { IfOk result (λ after. WroteMembers out.old.items later out.new.items after
        (list_member response_data name.now (map (op_reply_of S.rows) responses.now))) }
{
    if responses.is_empty() {
        return Ok(later);
    }
    write_name(out, later, name)?;
    push_byte(out, b'[')?;
    write_each_response(alloc, out, responses)?;
    Ok(true)
}

/// Writes the items of that list and the bracket after them.
fn write_each_response<S: RowsInPlace>(
    alloc: Global,
    out: &mut Vec<u8>,
    responses: &[RangeInPlace<S>],
) -> Mem<()>
    ensures { OnOk result (out.new.items ≡ out.old.items
        ++ items_text false (items_of response_data (map (op_reply_of S.rows) responses.now))) }
{
    let mut later = false;
    for response in responses {
        write_comma(out, later)?;
        write_response(alloc, out, response)?;
        later = true;
    }
    push_byte(out, b']')?;
    Ok(())
}

/// Writes what one of them is answered.
fn write_response<S: RowsInPlace>(
    alloc: Global,
    out: &mut Vec<u8>,
    response: &RangeInPlace<S>,
) -> Mem<()>
    ensures { OnOk result (out.new.items
        ≡ out.old.items ++ compact_text (response_data (op_reply_of S.rows response.now))) }
{
    push_str(out, "{\"response_range\":")?;
    write_range(alloc, out, &InnerHeader(&response.revision), response)?;
    push_byte(out, b'}')?;
    Ok(())
}

/// Writes the list of rows, unless it is empty.
fn write_rows<S: RowsInPlace>(
    alloc: Global,
    out: &mut Vec<u8>,
    later: bool,
    name: &str,
    rows: &S,
) -> Mem<bool>
    requires { IsTrue (is_plain name.now) }
    ensures { IfOk result (λ after. WroteMembers out.old.items later out.new.items after
        (list_member key_value_data name.now (S.rows rows.now))) }
{
    if rows.len() == 0 {
        return Ok(later);
    }
    write_name(out, later, name)?;
    push_byte(out, b'[')?;
    write_each_row(alloc, out, rows)?;
    Ok(true)
}

/// Writes the rows and the bracket after them. One row is held at a time, whose memory is used again.
fn write_each_row<S: RowsInPlace>(alloc: Global, out: &mut Vec<u8>, rows: &S) -> Mem<()>
    ensures { OnOk result (out.new.items
        ≡ out.old.items ++ items_text false (items_of key_value_data (S.rows rows.now))) }
{
    let mut row = no_row(alloc);
    let mut later = false;
    for place in 0..rows.len() {
        rows.read(place, &mut row)?;
        write_comma(out, later)?;
        row.write(out)?;
        later = true;
    }
    push_byte(out, b']')?;
    Ok(())
}

/// A row of nothing, which takes no memory until another is read into it.
fn no_row(alloc: Global) -> KeyValue {
    KeyValue {
        key: List::new(alloc),
        create_revision: 0,
        mod_revision: 0,
        version: 0,
        value: List::new(alloc),
        lease: 0,
    }
}
