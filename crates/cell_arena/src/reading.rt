//! Reading a part of a record's bytes.
ghost use Rattle.std.specs.Prelude.{◌≡◌, ◌+◌, ◌<◌, ◌++◌, min, length, take, OnOk, OnErr};
ghost use Rattle.std.specs.Ordering.{nat_cmp};
ghost use Rattle.std.specs.Cmp.Lexicographic.{slice_cmp};
ghost use Rattle.cell_arena.specs.Part.{IsPart, part_bytes};
ghost use Rattle.cell_arena.specs.Table.{table_at};
ghost use Rattle.cell_arena.specs.Region.{IsFrontOf};

use crate::cell::CELL_BYTES;
use crate::chain::rest_at;
use crate::part::Part;
use crate::sink::Sink;
use crate::table::Table;
use etcd_types::Mem;
use std::cmp::Ordering;

/// Gives a part of a chain's bytes, a piece a cell.
pub(crate) fn read_part<S: Sink>(table: &Table, part: Part, sink: &mut S) -> Mem<()>
    requires { IsPart (table_at table.now) part }
    ensures ok { OnOk result (S.taken sink.new ≡ S.taken sink.old ++ part_bytes (table_at table.now) part) }
    ensures err { OnErr result
        (IsFrontOf (part_bytes (table_at table.now) part) (S.taken sink.old) (S.taken sink.new)) }
{
    let mut link = part.first;
    let mut cells_left = part.cells;
    let mut skip = part.from;
    let mut left = part.count;
    'reading: while left > 0 {
        let (_at, bytes, next) = rest_at(table, link);
        cells_left -= 1;
        link = next;
        if skip < CELL_BYTES {
            let wanted = left.min(CELL_BYTES - skip);
            sink.put(&bytes[skip..skip + wanted])?;
            left -= wanted;
            skip = 0;
        } else {
            skip -= CELL_BYTES;
        }
    }
    Ok(())
}

/// How a part of a chain's bytes stands to a text, in byte order.
pub(crate) fn compare_part(table: &Table, part: Part, text: &[u8]) -> Ordering
    requires { IsPart (table_at table.now) part }
    ensures { result ≡ slice_cmp nat_cmp (part_bytes (table_at table.now) part) text.now }
{
    let mut link = part.first;
    let mut cells_left = part.cells;
    let mut skip = part.from;
    let mut left = part.count;
    let mut rest = text;
    'comparing: while left > 0 {
        let (_at, bytes, next) = rest_at(table, link);
        cells_left -= 1;
        link = next;
        if skip < CELL_BYTES {
            let wanted = left.min(CELL_BYTES - skip);
            let compared = wanted.min(rest.len());
            match bytes[skip..skip + wanted].cmp(&rest[..compared]) {
                Ordering::Equal => {}
                unequal => return unequal,
            }
            rest = &rest[compared..];
            left -= wanted;
            skip = 0;
        } else {
            skip -= CELL_BYTES;
        }
    }
    if rest.is_empty() {
        Ordering::Equal
    } else {
        Ordering::Less
    }
}

/// The bytes of a part in its first cell, and what follows them.
fn first_piece(table: &Table, part: Part) -> (&[u8], Part)
    requires part { IsPart (table_at table.now) part }
    requires front { part.from ≡ 0 }
    requires some { 0 < part.count }
    ensures part { IsPart (table_at table.now) result.1 }
    ensures front { result.1.from ≡ 0 }
    ensures size { length result.0.now ≡ min part.count 48 }
    ensures count { result.1.count + length result.0.now ≡ part.count }
    ensures bytes { part_bytes (table_at table.now) part
        ≡ result.0.now ++ part_bytes (table_at table.now) result.1 }
{
    let (_at, bytes, next) = rest_at(table, part.first);
    let wanted = part.count.min(CELL_BYTES);
    let rest = Part {
        first: next,
        cells: part.cells - 1,
        from: 0,
        count: part.count - wanted,
    };
    (&bytes[..wanted], rest)
}

/// The bytes of a part in its first cell.
pub(crate) fn front(table: &Table, part: Part) -> &[u8]
    requires part { IsPart (table_at table.now) part }
    requires front { part.from ≡ 0 }
    ensures { result.now ≡ take 48 (part_bytes (table_at table.now) part) }
{
    if part.count == 0 {
        return b"";
    }
    first_piece(table, part).0
}

/// How the front of one chain's bytes stands to that of another's, in byte order.
pub fn compare_fronts(table: &Table, one: Part, other: Part) -> Ordering
    requires one { IsPart (table_at table.now) one }
    requires one_front { one.from ≡ 0 }
    requires other { IsPart (table_at table.now) other }
    requires other_front { other.from ≡ 0 }
    ensures { result
        ≡ slice_cmp nat_cmp (part_bytes (table_at table.now) one) (part_bytes (table_at table.now) other) }
{
    let mut left = one;
    let mut right = other;
    'comparing: while left.count > 0 && right.count > 0 {
        let (bytes, rest) = first_piece(table, left);
        let (other_bytes, other_rest) = first_piece(table, right);
        match bytes.cmp(other_bytes) {
            Ordering::Equal => {}
            unequal => return unequal,
        }
        left = rest;
        right = other_rest;
    }
    left.count.cmp(&right.count)
}
