//! Which keys have which lease.
ghost use Rattle.std.specs.Prelude.{◌≡◌, ◌<◌, length, IsSome, MatchResult};
ghost use Rattle.chunk_list.specs.Chunked.{IsPlaceAt};
ghost use Rattle.lease_book.specs.Attached.{AreAttached, RiseById, IsKeyAt, IsKeyGap, attachment_cmp};
ghost use Rattle.lease_book.specs.Attached.{heads_of, keys_before, keys_below, keys_up_to};
ghost use Rattle.lease_book.specs.Attached.{with_attachment, without_attachment, without_keys};

use crate::keys::Keys;
use chunk_list::{ChunkList, Place, Test};
use etcd_types::CellNo;
use key_index::Records;
use std::cmp::Ordering;

/// A lease, by its ID, and the cell of the newest record of a key that has the lease.
#[derive(Clone, Copy)]
pub struct Attachment {
    pub id: i64,
    pub head: CellNo,
}

/// Whether an attachment is of a lesser ID.
#[derive(Clone, Copy)]
struct OfLesser(i64);

impl Test<Attachment> for OfLesser {
    ghost use Rattle.std.specs.Prelude.{int_lt};

    ghost can = { λ s a. Unit {0} };

    ghost test = { λ s a. int_lt a.id s.0 };

    fn holds(&self, attachment: Attachment) -> bool {
        attachment.id < self.0
    }
}

/// Whether an attachment is of that ID or a lesser one.
#[derive(Clone, Copy)]
struct OfUpTo(i64);

impl Test<Attachment> for OfUpTo {
    ghost use Rattle.std.specs.Prelude.{int_le};

    ghost can = { λ s a. Unit {0} };

    ghost test = { λ s a. int_le a.id s.0 };

    fn holds(&self, attachment: Attachment) -> bool {
        attachment.id <= self.0
    }
}

/// The place of the first attachment whose ID is not below this one.
fn first_of(list: &ChunkList<Attachment>, id: i64) -> Place
    requires { RiseById list.now.items }
    ensures { IsPlaceAt list.now result (keys_below list.now.items id) }
{
    list.search(&OfLesser(id))
}

/// The place after the last attachment whose ID is not above this one.
fn end_of(list: &ChunkList<Attachment>, id: i64) -> Place
    requires { RiseById list.now.items }
    ensures { IsPlaceAt list.now result (keys_up_to list.now.items id) }
{
    list.search(&OfUpTo(id))
}

/// The newest records of a lease's keys.
pub(crate) fn keys_in(list: &ChunkList<Attachment>, id: i64) -> Keys<'_>
    requires { RiseById list.now.items }
    ensures { result ≡ heads_of list.now.items id }
{
    let first = first_of(list, id);
    let count = list.count_between(first, end_of(list, id));
    Keys {
        attachments: list.walk(first, count),
    }
}

/// Takes away the attachments of one lease.
pub(crate) fn drop_keys(list: &mut ChunkList<Attachment>, id: i64)
    requires { RiseById list.old.items }
    ensures items { list.new.items ≡ without_keys list.old.items id }
    ensures rise { RiseById list.new.items }
    ensures room { list.new.room ≡ list.old.room }
{
    let mut place = first_of(list, id);
    'dropping: while list.has_item(place) {
        if list.get(place).id != id {
            return;
        }
        let _ended = list.remove(place);
        place = first_of(list, id);
    }
}

/// How two attachments stand to one another: by their IDs, and then by the keys of their records.
fn compare<R: Records>(one: &Attachment, other: &Attachment, records: &R) -> Ordering
    requires one { IsSome (R.cells records.now one.now.head) }
    requires other { IsSome (R.cells records.now other.now.head) }
    ensures { result ≡ attachment_cmp (R.cells records.now) one.now other.now }
{
    match one.id.cmp(&other.id) {
        Ordering::Less => Ordering::Less,
        Ordering::Equal => records.keys_cmp(one.head, other.head),
        Ordering::Greater => Ordering::Greater,
    }
}

/// Whether an attachment comes before one that is sought.
#[derive(Drop)]
struct ComesBefore<'a, R> {
    sought: &'a Attachment,
    records: &'a R,
}

impl<'a, R: Records> Test<Attachment> for ComesBefore<'a, R> {
    ghost use Rattle.std.specs.Prelude.{IsSome};
    ghost use Rattle.std.specs.Ordering.{is_lt};
    ghost use Rattle.lease_book.specs.Attached.{attachment_cmp};

    ghost can = { λ s a. IsSome (R.cells s.records.now a.head)
        × IsSome (R.cells s.records.now s.sought.now.head) };

    ghost test = { λ s a. is_lt (attachment_cmp (R.cells s.records.now) a s.sought.now) };

    fn holds(&self, attachment: Attachment) -> bool {
        compare(&attachment, self.sought, self.records).is_lt()
    }
}

/// The place of the first attachment that does not come before one.
fn place_for<R: Records>(list: &ChunkList<Attachment>, sought: &Attachment, records: &R) -> Place
    requires attached { AreAttached (R.cells records.now) list.now.items }
    requires head { IsSome (R.cells records.now sought.now.head) }
    ensures { IsPlaceAt list.now result (keys_before (R.cells records.now) list.now.items sought.now) }
{
    list.search(&ComesBefore { sought, records })
}

/// The place of the attachment of the same lease and key, or where it would go.
fn find_key<R: Records>(
    list: &ChunkList<Attachment>,
    sought: &Attachment,
    records: &R,
) -> Result<Place, Place>
    requires attached { AreAttached (R.cells records.now) list.now.items }
    requires head { IsSome (R.cells records.now sought.now.head) }
    ensures { MatchResult result (IsKeyAt (R.cells records.now) list.now sought.now)
        (IsKeyGap (R.cells records.now) list.now sought.now) }
{
    let place = place_for(list, sought, records);
    if list.has_item(place) && compare(&list.get(place), sought, records).is_eq() {
        Ok(place)
    } else {
        Err(place)
    }
}

/// Puts an attachment in its place, over the one of the same lease and key if there is one.
pub(crate) fn put_key<R: Records>(list: &mut ChunkList<Attachment>, new: &Attachment, records: &R)
    requires attached { AreAttached (R.cells records.now) list.old.items }
    requires head { IsSome (R.cells records.now new.now.head) }
    requires room { length list.old.items < list.old.room }
    ensures items { list.new.items ≡ with_attachment (R.cells records.now) list.old.items new.now }
    ensures room { list.new.room ≡ list.old.room }
{
    match find_key(list, new, records) {
        Ok(place) => list.set(place, *new),
        Err(place) => list.insert(place, *new),
    }
}

/// Takes away the attachment of the same lease and key, if there is one.
pub(crate) fn drop_key<R: Records>(list: &mut ChunkList<Attachment>, old: &Attachment, records: &R)
    requires attached { AreAttached (R.cells records.now) list.old.items }
    requires head { IsSome (R.cells records.now old.now.head) }
    ensures items { list.new.items ≡ without_attachment (R.cells records.now) list.old.items old.now }
    ensures room { list.new.room ≡ list.old.room }
{
    if let Ok(place) = find_key(list, old, records) {
        let _detached = list.remove(place);
    }
}
