//! Comparing audits with seats' lists.
ghost use Rattle.std.specs.Prelude.{◌≡◌, ◌-◌, ◌^◌, ◌<◌, ◌≤◌, ◌↔◌, true, false, length, min, IsTrue, All};
ghost use Rattle.std.specs.Prelude.{MatchOption, slice_index_or};
ghost use Rattle.tenant_audit.specs.Audits.{entry};
ghost use Rattle.tenant_audit.specs.Closing.{AreApart, AreInOrder, BreaksAt, DiffersAt, HaveMissedNone};
ghost use Rattle.tenant_audit.specs.Closing.{InOrder, IsAsGiven, IsComplete, IsFirst, IsInPlace};
ghost use Rattle.tenant_audit.specs.declared.comparing.Sheet.{Sheet};
ghost use Rattle.tenant_audit.specs.Closing.{IsMatched, IsVerdict, made_on, times};

use crate::audit::{Audit, Entry, Opening};
use crate::seat::Seat;
use crate::tally::MadeCall;

/// A tenant's audit, and what the tenant was opened with.
#[derive(Drop)]
pub struct Sheet {
    pub name: Vec<u8>,
    /// What was given; the audit has its own.
    pub opening: Opening,
    pub audit: Audit,
}

/// What a comparison found. A place is that of a sheet.
#[derive(Clone, Copy)]
pub(crate) enum Verdict {
    Agree,
    Double(u8),
    Opening(usize),
    /// The audit has so many entries, and the seats' lists so many calls.
    Mismatch {
        place: usize,
        entries: u32,
        calls: u64,
    },
    Missed(usize),
    Differs {
        place: usize,
        turn: u32,
    },
}

/// Compares audits with all seats' lists.
pub(crate) fn judge(sheets: &[Sheet], seats: &[Seat]) -> Verdict
    ensures { IsVerdict sheets.now seats.now result }
{
    if let Some(number) = double(seats) {
        return Verdict::Double(number);
    }
    if let Some(place) = first_not_as_given(sheets) {
        return Verdict::Opening(place);
    }
    if let Some(place) = first_not_matched(sheets, seats) {
        let sheet = &sheets[place];
        return Verdict::Mismatch {
            place,
            entries: sheet.audit.len(),
            calls: made_by_all(seats, sheet.name.as_slice()),
        };
    }
    if let Some(place) = first_not_complete(sheets, seats) {
        return Verdict::Missed(place);
    }
    match first_that_differs(sheets, seats) {
        Some((place, turn)) => Verdict::Differs { place, turn },
        None => Verdict::Agree,
    }
}

/// The number of two seats.
fn double(seats: &[Seat]) -> Option<u8>
    ensures { MatchOption result (AreApart seats.now) (λ number. 1 < times number seats.now) }
{
    for seat in seats {
        let number = seat.number();
        if times(seats, number) > 1 {
            return Some(number);
        }
    }
    None
}

/// How many seats have this number.
fn times(seats: &[Seat], number: u8) -> usize
    ensures times { result ≡ times number seats.now }
    ensures within { result ≤ length seats.now }
{
    let mut count = 0;
    for seat in seats {
        if seat.number() == number {
            count += 1;
        }
    }
    count
}

fn first_not_as_given(sheets: &[Sheet]) -> Option<usize>
    ensures { MatchOption result (All IsAsGiven sheets.now) (λ place. IsFirst IsAsGiven sheets.now place) }
{
    for (place, sheet) in sheets.iter().enumerate() {
        if !is_as_given(sheet) {
            return Some(place);
        }
    }
    None
}

fn is_as_given(sheet: &Sheet) -> bool
    ensures { IsTrue result ↔ IsAsGiven sheet.now }
{
    sheet.audit.opening() == sheet.opening
}

fn first_not_matched(sheets: &[Sheet], seats: &[Seat]) -> Option<usize>
    ensures { MatchOption result (All (IsMatched seats.now) sheets.now)
        (λ place. IsFirst (IsMatched seats.now) sheets.now place) }
{
    for (place, sheet) in sheets.iter().enumerate() {
        if !is_matched(sheet, seats) {
            return Some(place);
        }
    }
    None
}

fn is_matched(sheet: &Sheet, seats: &[Seat]) -> bool
    ensures { IsTrue result ↔ IsMatched seats.now sheet.now }
{
    u64::from(sheet.audit.len()) == made_by_all(seats, sheet.name.as_slice())
}

/// How many calls the seats' lists on a tenant have, up to 2^64 - 1.
fn made_by_all(seats: &[Seat], name: &[u8]) -> u64
    ensures { result ≡ min (made_on name.now seats.now) (2 ^ 64 - 1) }
{
    let mut made = 0u64;
    for seat in seats {
        made = made.saturating_add(u64::from(seat.made(name)));
    }
    made
}

fn first_not_complete(sheets: &[Sheet], seats: &[Seat]) -> Option<usize>
    ensures { MatchOption result (All (IsComplete seats.now) sheets.now)
        (λ place. IsFirst (IsComplete seats.now) sheets.now place) }
{
    for (place, sheet) in sheets.iter().enumerate() {
        if !is_complete(sheet, seats) {
            return Some(place);
        }
    }
    None
}

fn is_complete(sheet: &Sheet, seats: &[Seat]) -> bool
    ensures yes { result ≡ true → IsComplete seats.now sheet.now }
    ensures no { result ≡ false → IsComplete seats.now sheet.now → ⊥ }
{
    sheet.audit.next_turn().is_none() || have_missed_none(seats, sheet.name.as_slice())
}

fn have_missed_none(seats: &[Seat], name: &[u8]) -> bool
    ensures { IsTrue result ↔ HaveMissedNone name.now seats.now }
{
    for seat in seats {
        if seat.all_missed(name) != 0 {
            return false;
        }
    }
    true
}

/// The first audit in which a call is not in order, and that call's turn.
fn first_that_differs(sheets: &[Sheet], seats: &[Seat]) -> Option<(usize, u32)>
    ensures { MatchOption result (All (AreInOrder seats.now) sheets.now)
        (λ p. IsFirst (AreInOrder seats.now) sheets.now p.0
        × ((d : Sheet) → DiffersAt seats.now (slice_index_or sheets.now p.0 d) p.1)) }
{
    for (place, sheet) in sheets.iter().enumerate() {
        if let Some(turn) = differs_at(sheet, seats) {
            return Some((place, turn));
        }
    }
    None
}

/// The turn of the first call that is not in order.
fn differs_at(sheet: &Sheet, seats: &[Seat]) -> Option<u32>
    ensures { MatchOption result (AreInOrder seats.now sheet.now)
        (λ turn. DiffersAt seats.now sheet.now turn) }
{
    for seat in seats {
        let calls = seat.calls(sheet.name.as_slice());
        let broken = breaks_at(sheet.audit.entries(), seat.number(), calls);
        if broken.is_some() {
            return broken;
        }
    }
    None
}

/// The turn of a seat's first call that is not in its place among the entries.
fn breaks_at(entries: &[Entry], number: u8, calls: &[MadeCall]) -> Option<u32>
    ensures { MatchOption result (InOrder number 0 entries.now calls.now)
        (λ turn. BreaksAt number 0 entries.now calls.now turn) }
{
    let mut next = 0usize;
    for call in calls {
        if !is_in_place(entries, number, next, call) {
            return Some(call.turn);
        }
        next = call.turn as usize + 1;
    }
    None
}

/// The entry at the call's turn is this call of this seat, and the turn is not below `next`.
fn is_in_place(entries: &[Entry], number: u8, next: usize, call: &MadeCall) -> bool
    ensures yes { result ≡ true → IsInPlace number next entries.now call.now }
    ensures no { result ≡ false → IsInPlace number next entries.now call.now → ⊥ }
{
    let turn = call.turn as usize;
    match entries.get(turn) {
        Some(kept) => next <= turn && is_call(kept, number, call),
        None => false,
    }
}

/// The entry is this call of this seat.
fn is_call(kept: &Entry, number: u8, call: &MadeCall) -> bool
    ensures yes { result ≡ true → kept.now ≡ entry number call.now.step call.now.reply }
    ensures no { result ≡ false → kept.now ≡ entry number call.now.step call.now.reply → ⊥ }
{
    kept.seat == number && kept.step.same_as(&call.step) && kept.reply.same_as(&call.reply)
}
