//! How much room the text of a reply needs.
//!
//! Rows count as they are. What stands beside them is an upper estimate: each number counts as the longest there is, and each
//! member even where it is left out.
ghost use Rattle.std.specs.Prelude.{◌≡◌, ◌≤◌, ◌-◌, ◌^◌, ℕ, [], min, sum_by, true, vec_capacity, IfOk};
ghost use Rattle.base64.specs.Rfc4648.{encoded_size};
ghost use Rattle.etcd_types.specs.Rows.{op_reply_of, reply_of};
ghost use Rattle.gateway_text.specs.Room.{body_room, bytes_room, event_room, key_room, lease_room};
ghost use Rattle.gateway_text.specs.Room.{digits, lists_room, member_room, numbers_room, op_room, row_room};
ghost use Rattle.gateway_text.specs.Room.{shape_room, some_room};

use base64::encoded_len;
use etcd_types::{
    Event, KeyValue, List, Mem, OpReply, RangeInPlace, Reply, ReplyInPlace, RowShape, RowsInPlace,
};
use std::alloc::Global;

/// The longest reply with no rows and no lists.
const REPLY: usize = 218;
/// A response without its rows, and a comma.
const RESPONSE: usize = 120;
/// An event without its rows, and a comma.
const EVENT: usize = 35;
/// A row's names but those of its lease and its value, and a comma.
const ROW_NAMES: usize = 63;
/// The name of a row's lease, with a sign and a comma.
const ROW_LEASE: usize = 12;
/// The name of a row's value, with a comma.
const ROW_VALUE: usize = 11;
/// A lease of a list, and a comma.
const LEASE: usize = 30;
/// The quotes of a key of a list, and a comma.
const QUOTES: usize = 3;

/// A part of a reply whose size depends on its value.
trait TextSize {
    ghost room_of: { Self → ℕ };

    /// How many bytes the text has at most, with a comma, or the most that a number says.
    fn text_size(&self) -> usize
        ensures { result ≡ min (room_of self.now) (2 ^ 64 - 1) };
}

/// A text with nothing in it, and with room for the body of a reply and for no more.
pub(crate) fn empty_text(alloc: Global, reply: &Reply) -> Mem<Vec<u8>>
    ensures none { IfOk result (λ out. out.items ≡ []) }
    ensures room { IfOk result (λ out. vec_capacity out ≡ min (body_room reply.now) (2 ^ 64 - 1)) }
{
    Vec::with_capacity(alloc, body_size(reply))
}

/// The same for a reply whose rows lie in place, of which none is read.
pub(crate) fn empty_text_in_place<S: RowsInPlace>(
    alloc: Global,
    reply: &ReplyInPlace<S>,
) -> Mem<Vec<u8>>
    ensures none { IfOk result (λ out. out.items ≡ []) }
    ensures room { IfOk result (λ out. vec_capacity out
        ≡ min (body_room (reply_of S.rows reply.now)) (2 ^ 64 - 1)) }
{
    Vec::with_capacity(alloc, REPLY.saturating_add(lists_size(reply)))
}

/// How many bytes the lists of a reply have at most.
fn lists_size<S: RowsInPlace>(reply: &ReplyInPlace<S>) -> usize
    ensures { result ≡ min (lists_room (reply_of S.rows reply.now)) (2 ^ 64 - 1) }
{
    match reply {
        ReplyInPlace::Range { range, .. } => rows_size(&range.rows),
        ReplyInPlace::Txn { responses, .. } => list_size(responses.as_slice()),
    }
}

/// How many bytes the body of a reply has at most.
fn body_size(reply: &Reply) -> usize
    ensures { result ≡ min (body_room reply.now) (2 ^ 64 - 1) }
{
    let lists = match reply {
        Reply::Range { kvs, .. } => list_size(kvs.as_slice()),
        Reply::Put { prev_kv, .. } => row_size(prev_kv),
        Reply::Delete { prev_kvs, .. } => list_size(prev_kvs.as_slice()),
        Reply::Txn { responses, .. } => list_size(responses.as_slice()),
        Reply::Events { events, .. } => list_size(events.as_slice()),
        Reply::TimeToLive { keys, .. } => list_size(keys.as_slice()),
        Reply::Leases { ids, .. } => list_size(ids.as_slice()),
        Reply::Quiet => return 0,
        _ => 0,
    };
    REPLY.saturating_add(lists)
}

fn list_size<T: TextSize>(items: &[T]) -> usize
    ensures { result ≡ min (sum_by T.room_of items.now) (2 ^ 64 - 1) }
{
    let mut size = 0usize;
    for item in items {
        size = size.saturating_add(item.text_size());
    }
    size
}

/// As `list_size`, of rows that are not read.
fn rows_size<S: RowsInPlace>(rows: &S) -> usize
    ensures { result ≡ min (sum_by row_room (S.rows rows.now)) (2 ^ 64 - 1) }
{
    let mut size = 0usize;
    for place in 0..rows.len() {
        size = size.saturating_add(shape_size(rows.shape(place)));
    }
    size
}

fn row_size(row: &Option<KeyValue>) -> usize
    ensures { result ≡ min (some_room row.now) (2 ^ 64 - 1) }
{
    match row {
        Some(row) => row.text_size(),
        None => 0,
    }
}

/// A row's size, by its shape.
fn shape_size(shape: RowShape) -> usize
    ensures { result ≡ min (shape_room shape) (2 ^ 64 - 1) }
{
    numbers_size(shape)
        .saturating_add(encoded_size_of(shape.key))
        .saturating_add(member_size(ROW_VALUE, encoded_size_of(shape.value)))
}

/// That of its numbers, with all of its names but those of its lease and its value.
fn numbers_size(shape: RowShape) -> usize
    ensures { result ≡ numbers_room shape }
{
    ROW_NAMES
        + digits(shape.create_revision)
        + digits(shape.mod_revision)
        + digits(shape.version)
        + member_size(ROW_LEASE, digits(shape.lease.unsigned_abs()))
}

/// That of a member of so many bytes, which is left out where it has none.
fn member_size(name: usize, bytes: usize) -> usize
    ensures { result ≡ min (member_room name bytes) (2 ^ 64 - 1) }
{
    if bytes == 0 {
        0
    } else {
        name.saturating_add(bytes)
    }
}

/// How many digits a number has, none where it is 0.
fn digits(number: u64) -> usize
    ensures exact { result ≡ digits number }
    ensures few { result ≤ 20 }
{
    match number.checked_ilog10() {
        Some(power) => power as usize + 1,
        None => 0,
    }
}

fn base64_size(bytes: &[u8]) -> usize
    ensures { result ≡ min (bytes_room bytes.now) (2 ^ 64 - 1) }
{
    encoded_size_of(bytes.len())
}

fn encoded_size_of(length: usize) -> usize
    ensures { result ≡ min (encoded_size length true) (2 ^ 64 - 1) }
{
    encoded_len(length, true).unwrap_or(usize::MAX)
}

impl TextSize for i64 {
    ghost room_of = { lease_room };

    fn text_size(&self) -> usize {
        LEASE
    }
}

impl TextSize for List<u8> {
    ghost room_of = { key_room };

    fn text_size(&self) -> usize {
        QUOTES.saturating_add(base64_size(self.as_slice()))
    }
}

impl TextSize for KeyValue {
    ghost room_of = { row_room };

    fn text_size(&self) -> usize {
        shape_size(self.shape())
    }
}

impl TextSize for Event {
    ghost room_of = { event_room };

    fn text_size(&self) -> usize {
        EVENT
            .saturating_add(self.kv.text_size())
            .saturating_add(row_size(&self.prev_kv))
    }
}

impl<S: RowsInPlace> TextSize for RangeInPlace<S> {
    ghost room_of = { λ range. op_room (op_reply_of S.rows range) };

    fn text_size(&self) -> usize {
        RESPONSE.saturating_add(rows_size(&self.rows))
    }
}

impl TextSize for OpReply {
    ghost room_of = { op_room };

    fn text_size(&self) -> usize {
        let rows = match self {
            OpReply::Range { kvs, .. } => list_size(kvs.as_slice()),
            OpReply::Put { prev_kv, .. } => row_size(prev_kv),
            OpReply::Delete { prev_kvs, .. } => list_size(prev_kvs.as_slice()),
        };
        RESPONSE.saturating_add(rows)
    }
}
