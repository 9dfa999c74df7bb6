//! Each letter of base64, read and written, calls read from their paths, the refusal for want of memory, and the room
//! that the widest replies are given.
//! The bodies of requests, and the texts of the other replies, are asked by `tools/check-steps` and by the rows.
//!
//! A reply is moved into the function that asserts its text: a way out of a test that drops replies is long to prove.
use etcd_types::{Event, EventKind, Header, KeyValue, List, Mem, OpReply, Refusal, Reply, Step};
use gateway_json::{bytes_of_text, read_call};
use gateway_text::{memory_text, write_reply};
use std::alloc::Global;
use std::process::Abort;
use std::test::Fail;

/// The letters by their numbers (RFC 4648, table 1).
const STANDARD: &[u8; 64] = b"ABCDEFGHIJKLMNOPQRSTUVWXYZabcdefghijklmnopqrstuvwxyz0123456789+/";

/// The same of the URL-safe alphabet (RFC 4648, table 2).
const URL_SAFE: &[u8; 64] = b"ABCDEFGHIJKLMNOPQRSTUVWXYZabcdefghijklmnopqrstuvwxyz0123456789-_";

/// Whether a text is these bytes.
fn is_spelled(alloc: Global, text: &[u8], bytes: &[u8]) -> Result<bool, Fail> {
    Ok(bytes_of_text(alloc, str::from_utf8(text)?)?.as_slice() == bytes)
}

#[test]
fn letters_are_numbers(rt: HostRuntime) -> Result<(), Fail> {
    for letters in [STANDARD, URL_SAFE] {
        for number in 0..64u32 {
            for place in 0..4u32 {
                let mut text = *b"AAAA";
                text[place as usize] = letters[number as usize];
                let wanted = number.wrapping_shl(6 * (3 - place)).to_be_bytes();
                assert!(rt; is_spelled(rt.alloc(), &text, &wanted[1..])?);
            }
        }
    }
    Ok(())
}

/// The lease that a call revokes, or why it is refused.
fn revoked(read: Result<Step, Refusal>) -> Result<Option<i64>, Refusal> {
    match &read? {
        Step::Revoke(id) => Ok(Some(*id)),
        _ => Ok(None),
    }
}

/// Paths with the bodies that follow them, and the leases that they revoke, or why they are refused. An ID has
/// 64 bits with its sign, as a number and as a text.
const REVOKES: [(&str, &str, Result<Option<i64>, Refusal>); 6] = [
    (
        "lease/revoke",
        r#"{"ID":4611686018427387904}"#,
        Ok(Some(1 << 62)),
    ),
    (
        "kv/lease/revoke",
        r#"{"ID":"4611686018427387904"}"#,
        Ok(Some(1 << 62)),
    ),
    ("lease/revoke", "", Ok(Some(0))),
    ("lease/leases", "{}", Ok(None)),
    (
        "lease/revoke",
        r#"{"ID":9223372036854775808}"#,
        Err(Refusal::BadBody),
    ),
    ("lease/revokes", "{}", Err(Refusal::NoPath)),
];

#[test]
fn calls_are_read(rt: HostRuntime) {
    for (path, body, wanted) in REVOKES {
        let read = read_call(rt.alloc(), path.as_bytes(), body.as_bytes());
        assert!(rt; revoked(read) == wanted);
    }
}

/// The bytes whose text is `STANDARD`.
const SPELLED: [u8; 48] = [
    0x00, 0x10, 0x83, 0x10, 0x51, 0x87, 0x20, 0x92, 0x8b, 0x30, 0xd3, 0x8f, 0x41, 0x14, 0x93, 0x51,
    0x55, 0x97, 0x61, 0x96, 0x9b, 0x71, 0xd7, 0x9f, 0x82, 0x18, 0xa3, 0x92, 0x59, 0xa7, 0xa2, 0x9a,
    0xab, 0xb2, 0xdb, 0xaf, 0xc3, 0x1c, 0xb3, 0xd3, 0x5d, 0xb7, 0xe3, 0x9e, 0xbb, 0xf3, 0xdf, 0xbf,
];

/// The text of a row that has them as its value.
const WRITTEN: &str =
    r#"{"count":"1","header":{"cluster_id":"7","member_id":"1","raft_term":"1","revision":"2"},"kvs":[{"create_revision":"2","key":"Zm9v","mod_revision":"2","value":"ABCDEFGHIJKLMNOPQRSTUVWXYZabcdefghijklmnopqrstuvwxyz0123456789+/","version":"1"}]}"#;

fn spelled_row(alloc: Global) -> Mem<KeyValue> {
    Ok(KeyValue {
        key: bytes(alloc, "foo")?,
        create_revision: 2,
        mod_revision: 2,
        version: 1,
        value: List::from_slice(alloc, &SPELLED)?,
        lease: 0,
    })
}

#[test]
fn numbers_are_letters(rt: HostRuntime) -> Mem<()> {
    let header = Header {
        cluster: 7,
        revision: 2,
    };
    let reply = Reply::Range {
        header,
        count: 1,
        kvs: list(rt.alloc(), spelled_row(rt.alloc()))?,
        more: false,
    };
    assert_written(&rt, reply, 200, WRITTEN)
}

/// A header whose numbers have the longest texts.
fn widest_header() -> Header {
    Header {
        cluster: u64::MAX,
        revision: i64::MIN,
    }
}

fn bytes(alloc: Global, text: &str) -> Mem<List<u8>> {
    List::from_slice(alloc, text.as_bytes())
}

fn list<T: Drop>(alloc: Global, item: Mem<T>) -> Mem<List<T>> {
    let mut items = List::new(alloc);
    items.push(item?)?;
    Ok(items)
}

/// A row whose numbers have the longest texts.
fn widest_row(alloc: Global) -> Mem<KeyValue> {
    Ok(KeyValue {
        key: bytes(alloc, "0123456789")?,
        create_revision: u64::MAX,
        mod_revision: u64::MAX,
        version: u64::MAX,
        value: bytes(alloc, "01234567")?,
        lease: i64::MIN,
    })
}

/// How much room the widest of a reply leaves: the commas and the members that it has not.
const LEFT: usize = 100;

fn answer_of(alloc: Global, reply: Reply) -> Mem<(u16, Vec<u8>)> {
    write_reply(alloc, &reply)
}

/// The reply has this status and body.
fn assert_written(
    rt: &(impl Abort + AllocGlobal),
    reply: Reply,
    status: u16,
    body: &str,
) -> Mem<()> {
    let answer = answer_of(rt.alloc(), reply)?;
    assert!(rt; answer.0 == status && answer.1.as_slice() == body.as_bytes());
    Ok(())
}

/// The body has the room that it was given at first: one that grew would have twice that.
fn assert_fits(rt: &(impl Abort + AllocGlobal), reply: Reply) -> Mem<()> {
    let body = answer_of(rt.alloc(), reply)?.1;
    assert!(rt; body.capacity() - body.len() < LEFT);
    Ok(())
}

/// The refusal for want of memory.
const MEMORY: &str =
    r#"{"code":14,"error":"etcd_host: out of memory","message":"etcd_host: out of memory"}"#;

#[test]
fn want_of_memory(rt: HostRuntime) -> Mem<()> {
    assert_eq!(rt; memory_text(), MEMORY.as_bytes());
    assert_written(&rt, Reply::Refused(Refusal::Memory), 503, MEMORY)
}

fn widest_event(alloc: Global) -> Mem<Event> {
    Ok(Event {
        kind: EventKind::Delete,
        kv: widest_row(alloc)?,
        prev_kv: Some(widest_row(alloc)?),
    })
}

fn widest_response(alloc: Global) -> Mem<OpReply> {
    Ok(OpReply::Delete {
        revision: i64::MIN,
        deleted: u64::MAX,
        prev_kvs: list(alloc, widest_row(alloc))?,
    })
}

/// The longest texts of the numbers fit the room that a body is given at first.
#[test]
fn widest_keys(rt: HostRuntime) -> Mem<()> {
    assert_fits(
        &rt,
        Reply::Events {
            header: widest_header(),
            watch_id: i64::MIN,
            events: list(rt.alloc(), widest_event(rt.alloc()))?,
        },
    )?;
    assert_fits(
        &rt,
        Reply::Txn {
            header: widest_header(),
            succeeded: true,
            responses: list(rt.alloc(), widest_response(rt.alloc()))?,
        },
    )
}

/// The same of replies with no rows.
#[test]
fn widest_numbers(rt: HostRuntime) -> Mem<()> {
    assert_fits(
        &rt,
        Reply::Canceled {
            header: widest_header(),
            watch_id: i64::MIN,
            compact_revision: i64::MIN,
        },
    )?;
    assert_fits(
        &rt,
        Reply::TimeToLive {
            header: widest_header(),
            id: i64::MIN,
            ttl: i64::MIN,
            granted_ttl: i64::MIN,
            keys: list(rt.alloc(), bytes(rt.alloc(), "0123456789"))?,
        },
    )
}
