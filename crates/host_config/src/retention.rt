//! What of its history a tenant is told to keep.
ghost use Rattle.std.specs.Prelude.{◌≡◌, ◌+◌, ◌*◌, List, ℕ, ◌∷◌, None, Some, IfErr, IfOk};
ghost use Rattle.std.specs.Prelude.{option_and_then, option_map, string_bytes, if◌then◌else◌};
ghost use Rattle.std.specs.Char.{is_ascii_digit};
ghost use Rattle.serde_json.specs.View.{view};
ghost use Rattle.host_config.specs.Durations.{fitting, seconds_if, seconds_of, seconds_with, with_digit};
ghost use Rattle.host_config.specs.Retaining.{counted_by, for_revisions, for_seconds, mode_in, mode_name};
ghost use Rattle.host_config.specs.Retaining.{retention_by, retention_change_in, retention_in, retention_text, time_of};

use crate::members::{ConfigFault, member, number_in};
use auto_compaction::{MAX_RETENTION, Retention};
use etcd_types::Mem;
use serde_json::Value;
use std::alloc::Global;

/// How many seconds an hour has.
const HOUR: u64 = 3_600;

/// How many seconds a minute has.
const MINUTE: u64 = 60;

/// The most revisions that can be told to be kept: as many as there are.
const MAX_REVISIONS: u64 = 1 << 62;

/// What is counted of the history that is kept.
#[derive(Clone, Copy)]
enum Mode {
    Periodic,
    Revision,
}

impl Mode {
    /// What is counted of a retention; time where all is kept.
    fn of(retention: Retention) -> Mode
        ensures { result ≡ counted_by retention }
    {
        match retention {
            Retention::All | Retention::Seconds(_) => Mode::Periodic,
            Retention::Revisions(_) => Mode::Revision,
        }
    }
}

/// What of its history a tenant keeps, by the members of its object: all where nothing is told.
pub(crate) fn retention_of(object: &Value) -> Result<Retention, ConfigFault>
    ensures kept { IfOk result (λ kept. retention_in (view object.now) ≡ Some kept) }
    ensures fault { IfErr result (λ fault. fault ≡ ConfigFault.Unreadable) }
{
    retention_by(object, Mode::Periodic)
}

/// The same where this is counted unless something else is told.
#[tactic(auto, unfolding(crate::specs::Retaining::retention_by))]
fn retention_by(object: &Value, usual: Mode) -> Result<Retention, ConfigFault>
    ensures kept { IfOk result (λ kept. retention_by usual (view object.now) ≡ Some kept) }
    ensures fault { IfErr result (λ fault. fault ≡ ConfigFault.Unreadable) }
{
    let mode = mode_of(object, usual)?;
    let Some(told) = member(object, "auto_compaction_retention") else {
        return Ok(Retention::All);
    };
    match mode {
        Mode::Periodic => of_seconds(time_in(told)?),
        Mode::Revision => of_revisions(number_in(told)?),
    }
}

/// The change that is asked for; none where nothing is told. Where no mode is told, what is counted stays. A mode by
/// itself says nothing.
#[tactic(auto, unfolding(crate::specs::Retaining::retention_change_in))]
pub fn retention_change_of(
    object: &Value,
    before: Retention,
) -> Result<Option<Retention>, ConfigFault>
    ensures change { IfOk result
        (λ change. retention_change_in before (view object.now) ≡ option_map Some change) }
    ensures fault { IfErr result (λ fault. fault ≡ ConfigFault.Unreadable) }
{
    let has_mode = member(object, "auto_compaction_mode").is_some();
    let has_retention = member(object, "auto_compaction_retention").is_some();
    match (has_mode, has_retention) {
        (_, true) => Ok(Some(retention_by(object, Mode::of(before))?)),
        (false, false) => Ok(None),
        (true, false) => Err(ConfigFault::Unreadable),
    }
}

/// The members by which a tenant is told to keep this.
pub fn retention_told(alloc: Global, retention: Retention) -> Mem<(&'static str, String)>
    ensures mode { IfOk result (λ told. told.0.now ≡ mode_name retention) }
    ensures text { IfOk result (λ told. string_bytes told.1 ≡ retention_text retention) }
{
    Ok(match retention {
        Retention::All => ("periodic", String::from_str(alloc, "0")?),
        Retention::Seconds(seconds) => ("periodic", format!(in alloc; "{seconds}s")?),
        Retention::Revisions(count) => ("revision", format!(in alloc; "{count}")?),
    })
}

#[tactic(auto, unfolding(crate::specs::Retaining::mode_in))]
fn mode_of(object: &Value, usual: Mode) -> Result<Mode, ConfigFault>
    ensures mode { IfOk result (λ mode. mode_in usual (view object.now) ≡ Some mode) }
    ensures fault { IfErr result (λ fault. fault ≡ ConfigFault.Unreadable) }
{
    match member(object, "auto_compaction_mode") {
        None => Ok(usual),
        Some(Value::String(mode)) if mode.as_str() == "periodic" => Ok(Mode::Periodic),
        Some(Value::String(mode)) if mode.as_str() == "revision" => Ok(Mode::Revision),
        Some(_) => Err(ConfigFault::Unreadable),
    }
}

/// A number of revisions.
fn of_revisions(count: u64) -> Result<Retention, ConfigFault>
    ensures kept { IfOk result (λ kept. for_revisions count ≡ Some kept) }
    ensures fault { IfErr result (λ fault. fault ≡ ConfigFault.Unreadable) }
{
    match count {
        0 => Ok(Retention::All),
        count if count <= MAX_REVISIONS => Ok(Retention::Revisions(count)),
        _ => Err(ConfigFault::Unreadable),
    }
}

fn of_seconds(seconds: u64) -> Result<Retention, ConfigFault>
    ensures kept { IfOk result (λ kept. for_seconds seconds ≡ Some kept) }
    ensures fault { IfErr result (λ fault. fault ≡ ConfigFault.Unreadable) }
{
    match seconds {
        0 => Ok(Retention::All),
        seconds if seconds <= MAX_RETENTION => Ok(Retention::Seconds(seconds)),
        _ => Err(ConfigFault::Unreadable),
    }
}

/// The seconds that a member tells: a text like `1h30m`, or a number of hours.
#[tactic(auto, unfolding(crate::specs::Retaining::time_of))]
fn time_in(told: &Value) -> Result<u64, ConfigFault>
    ensures seconds { IfOk result (λ seconds. time_of (view told.now) ≡ Some seconds) }
    ensures fault { IfErr result (λ fault. fault ≡ ConfigFault.Unreadable) }
{
    if let Value::String(text) = told
        && let Some(seconds) = seconds_in(text.as_str().as_bytes())
    {
        return Ok(seconds);
    }
    match number_in(told)?.checked_mul(HOUR) {
        Some(seconds) => Ok(seconds),
        None => Err(ConfigFault::Unreadable),
    }
}

/// What was read of a duration's text.
#[derive(Clone, Copy)]
struct Parts {
    /// The seconds of its whole parts.
    all: u64,
    /// The number of the part that comes next.
    number: Option<u64>,
}

/// The seconds of a text like `1h30m`: numbers, each with `h`, `m` or `s` behind it.
fn seconds_in(text: &[u8]) -> Option<u64>
    ensures { result ≡ seconds_of text.now }
{
    if text.is_empty() {
        return None;
    }
    let mut read = Parts {
        all: 0,
        number: None,
    };
    for byte in text {
        read = read.with(*byte)?;
    }
    match read.number {
        None => Some(read.all),
        Some(_) => None,
    }
}

impl Parts {
    /// What was read with one byte more.
    fn with(self, byte: u8) -> Option<Parts>
        ensures { (text : List ℕ) → seconds_with self (byte ∷ text) ≡ seconds_if result text }
    {
        match byte {
            b'h' => self.with_unit(HOUR),
            b'm' => self.with_unit(MINUTE),
            b's' => self.with_unit(1),
            digit => self.with_digit(digit),
        }
    }

    /// One whole part more.
    fn with_unit(self, unit: u64) -> Option<Parts>
        ensures { result ≡ option_map (λ all. record { all = all; number = None })
            (option_and_then (λ number. fitting (self.all + number * unit)) self.number) }
    {
        let all = self.all.checked_add(self.number?.checked_mul(unit)?)?;
        Some(Parts { all, number: None })
    }

    /// The number with one digit more.
    fn with_digit(self, digit: u8) -> Option<Parts>
        ensures { result ≡ (if is_ascii_digit digit
            then option_map (λ n. record self { number = Some n }) (fitting (with_digit self.number digit))
            else None) }
    {
        if !digit.is_ascii_digit() {
            return None;
        }
        let tens = self.number.unwrap_or(0).checked_mul(10)?;
        let number = tens.checked_add(u64::from(digit.saturating_sub(b'0')))?;
        Some(Parts {
            all: self.all,
            number: Some(number),
        })
    }
}
