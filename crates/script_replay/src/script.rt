//! What a line of a script asks for.
ghost use Rattle.std.specs.Prelude.{◌≡◌, ◌==◌, ◌<◌, ◌≤◌, ◌^◌, length, position, option_map, IfSome};
ghost use Rattle.std.specs.Char.{is_ascii_digit};
ghost use Rattle.std.specs.List.{list_all};
ghost use Rattle.etcd_types.specs.Limits.{max_script_line};
ghost use Rattle.script_replay.specs.Script.{asked_by, is_number, number_of, number_below, parts_of};
ghost use Rattle.script_replay.specs.Script.{read_add, read_call_line, read_line, read_pool};
ghost use Rattle.script_replay.specs.Script.{read_remove, read_resize, read_words};
ghost use Rattle.script_replay.specs.Script.{read_event, read_take, read_drop, read_tick, read_catch_up};
ghost use Rattle.script_replay.specs.Parted.{parts_by};

use etcd_types::limits::{MAX_SCRIPT_LINE, MAX_SEGMENTS};
use host_front::{LentEvent, LentLine};

/// What a line asks for.
#[derive(Clone, Copy)]
pub enum Asked<'a> {
    /// A pool of so many segments. What is read has 1 to 4,194,304.
    Pool { segments: u32 },
    /// What the host is asked.
    Live(LentLine<'a>),
}

/// A text parted at its first space.
#[derive(Clone, Copy)]
struct Parts<'a> {
    field: &'a [u8],
    rest: &'a [u8],
}

/// Reads a line, without its newline. Only the first line may name a pool.
///
/// There is none where the line can't be read: it is empty, or longer than 2,200,000 bytes; its word is unknown; it
/// has too few fields or too many; a number has another byte than a digit, or none, or is out of its range; a pool is
/// not on the first line. Whether a tenant has the name, and whether a quota is within the limits, is not asked here.
pub fn read_line(text: &[u8], is_first: bool) -> Option<Asked<'_>>
    ensures { option_map asked_by result ≡ read_line is_first text.now }
{
    match read_words(text) {
        Some(Asked::Pool { .. }) if !is_first => None,
        asked => asked,
    }
}

/// A line that is longer than a line may be can't be read.
#[tactic(auto, unfolding(crate::specs::Script::read_words))]
fn read_words(text: &[u8]) -> Option<Asked<'_>>
    ensures { option_map asked_by result ≡ read_words text.now }
{
    if text.len() > MAX_SCRIPT_LINE {
        return None;
    }
    let word = parts_of(text)?;
    match word.field {
        b"pool" => read_pool(word.rest),
        b"add" => read_add(word.rest),
        _ if word.field == b"resize".as_slice() => read_resize(word.rest),
        _ if word.field == b"remove".as_slice() => read_remove(word.rest),
        _ => read_event(word.field, word.rest),
    }
}

fn read_event<'a>(word: &[u8], rest: &'a [u8]) -> Option<Asked<'a>>
    ensures { option_map asked_by result ≡ read_event word.now rest.now }
{
    match word {
        b"call" => read_call(rest),
        b"take" => read_take(rest),
        b"drop" => read_drop(rest),
        b"tick" => read_tick(rest),
        _ if word == b"catchup".as_slice() => read_catch_up(rest),
        _ => None,
    }
}

fn read_pool(text: &[u8]) -> Option<Asked<'_>>
    ensures { option_map asked_by result ≡ read_pool text.now }
{
    let segments = number_of(text)?;
    if segments < 1 || segments > u64::from(MAX_SEGMENTS) {
        return None;
    }
    Some(Asked::Pool {
        segments: segments as u32,
    })
}

fn read_add(text: &[u8]) -> Option<Asked<'_>>
    ensures { option_map asked_by result ≡ read_add text.now }
{
    let name = parts_of(text)?;
    let cluster = parts_of(name.rest)?;
    let quota = parts_of(cluster.rest)?;
    Some(Asked::Live(LentLine::Add {
        name: name.field,
        cluster: number_of(cluster.field)?,
        quota: number_of(quota.field)?,
        first: number_of(quota.rest)?,
    }))
}

fn read_resize(text: &[u8]) -> Option<Asked<'_>>
    ensures { option_map asked_by result ≡ read_resize text.now }
{
    let name = parts_of(text)?;
    Some(Asked::Live(LentLine::Resize {
        name: name.field,
        quota: number_of(name.rest)?,
    }))
}

/// Nothing stands behind the name.
fn read_remove(name: &[u8]) -> Option<Asked<'_>>
    ensures { option_map asked_by result ≡ read_remove name.now }
{
    match parts_of(name) {
        None => Some(Asked::Live(LentLine::Remove { name })),
        Some(_) => None,
    }
}

fn read_call(text: &[u8]) -> Option<Asked<'_>>
    ensures { option_map asked_by result ≡ read_call_line text.now }
{
    let method = parts_of(text)?;
    let target = parts_of(method.rest).unwrap_or(Parts {
        field: method.rest,
        rest: &[],
    });
    Some(Asked::Live(LentLine::Event(LentEvent::Call {
        method: method.field,
        target: target.field,
        body: target.rest,
    })))
}

fn read_take(text: &[u8]) -> Option<Asked<'_>>
    ensures { option_map asked_by result ≡ read_take text.now }
{
    let tenant = parts_of(text)?;
    let slot = slot_of(tenant.rest)?;
    Some(Asked::Live(LentLine::Event(LentEvent::Take {
        tenant: tenant.field,
        slot,
    })))
}

fn read_drop(text: &[u8]) -> Option<Asked<'_>>
    ensures { option_map asked_by result ≡ read_drop text.now }
{
    let tenant = parts_of(text)?;
    let slot = slot_of(tenant.rest)?;
    Some(Asked::Live(LentLine::Event(LentEvent::DropWatch {
        tenant: tenant.field,
        slot,
    })))
}

fn read_tick(text: &[u8]) -> Option<Asked<'_>>
    ensures { option_map asked_by result ≡ read_tick text.now }
{
    let tenant = parts_of(text)?;
    let moment = number_of(tenant.rest)?;
    Some(Asked::Live(LentLine::Event(LentEvent::Tick {
        tenant: tenant.field,
        moment,
    })))
}

fn read_catch_up(text: &[u8]) -> Option<Asked<'_>>
    ensures { option_map asked_by result ≡ read_catch_up text.now }
{
    let tenant = parts_of(text)?;
    let budget = budget_of(tenant.rest)?;
    Some(Asked::Live(LentLine::Event(LentEvent::CatchUp {
        tenant: tenant.field,
        budget,
    })))
}

/// A text parted at its first space, where it has one.
fn parts_of(text: &[u8]) -> Option<Parts<'_>>
    ensures { option_map parts_by result ≡ parts_of text.now }
{
    let at = first_space(text)?;
    Some(Parts {
        field: &text[..at],
        rest: &text[at + 1..],
    })
}

fn first_space(text: &[u8]) -> Option<usize>
    ensures place { result ≡ position (λ c. c == 32) text.now }
    ensures within { IfSome result (λ at. at < length text.now) }
{
    text.iter().position(|byte| *byte == b' ')
}

/// The number that decimal digits spell, within 64 bits.
fn number_of(text: &[u8]) -> Option<u64>
    ensures { result ≡ number_of text.now }
{
    if !is_number(text) {
        return None;
    }
    let Ok(digits) = str::from_utf8(text) else {
        return None;
    };
    digits.parse().ok()
}

/// The same within 8 bits.
fn slot_of(text: &[u8]) -> Option<u8>
    ensures { result ≡ number_below (2 ^ 8) text.now }
{
    let slot = number_of(text)?;
    if slot > u64::from(u8::MAX) {
        return None;
    }
    Some(slot as u8)
}

/// The same within 32 bits.
fn budget_of(text: &[u8]) -> Option<u32>
    ensures { result ≡ number_below (2 ^ 32) text.now }
{
    let budget = number_of(text)?;
    if budget > u64::from(u32::MAX) {
        return None;
    }
    Some(budget as u32)
}

/// Whether a text is decimal digits, and at least one.
fn is_number(text: &[u8]) -> bool
    ensures { result ≡ is_number text.now }
{
    !text.is_empty() && are_digits(text)
}

fn are_digits(text: &[u8]) -> bool
    ensures { result ≡ list_all is_ascii_digit text.now }
{
    text.iter().all(|byte| byte.is_ascii_digit())
}
