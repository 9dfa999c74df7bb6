//! The bytes that a JSON string spells.
ghost use Rattle.std.specs.Prelude.{◌≡◌, ◌≢◌, ◌↔◌, List, ℕ, IfOk, Ok, Err, Some, length, map};
ghost use Rattle.std.specs.Result.{result_ok};
ghost use Rattle.base64.specs.Engines.{standard_no_pad};
ghost use Rattle.base64.specs.GeneralPurpose.{IsBytes, decode_of};
ghost use Rattle.etcd_types.specs.declared.refusal.Refusal.TheVariants.{Memory};
ghost use Rattle.etcd_model.specs.Members.{IsAnswer, or_bad};
ghost use Rattle.etcd_model.specs.Spelling.{Spells, spelled_bytes, standard_symbol, without_equals};
ghost use Rattle.etcd_model.specs.Spelling.{without_padding};

use base64::DecodeAllocError;
use base64::engine::general_purpose::STANDARD_NO_PAD;
use etcd_types::{List, Mem, Refusal};
use memchr::memchr2;
use std::alloc::Global;

fn without_equals(text: &[u8]) -> &[u8]
    ensures { result.now ≡ without_equals text.now }
{
    if let [rest @ .., b'='] = text {
        rest
    } else {
        text
    }
}

fn without_padding(text: &[u8]) -> &[u8]
    ensures { result.now ≡ without_padding text.now }
{
    if text.len() % 4 == 0 {
        without_equals(without_equals(text))
    } else {
        text
    }
}

fn standard_symbol(symbol: u8) -> u8
    ensures { result ≡ standard_symbol symbol }
{
    match symbol {
        b'-' => b'+',
        b'_' => b'/',
        _ => symbol,
    }
}

fn standard_symbols(alloc: Global, symbols: &[u8]) -> Mem<Vec<u8>>
    ensures { IfOk result (λ v. v.items ≡ map standard_symbol symbols.now) }
{
    symbols
        .iter()
        .map(|symbol| standard_symbol(*symbol))
        .collect(alloc)
}

/// The bytes of symbols of the standard alphabet.
fn decode(alloc: Global, symbols: &[u8]) -> Result<List<u8>, Refusal>
    ensures { IsAnswer result (or_bad (result_ok (decode_of standard_no_pad symbols.now))) }
{
    match STANDARD_NO_PAD.decode(alloc, symbols) {
        Ok(bytes) => Ok(List::from_vec(bytes)),
        Err(DecodeAllocError::OutOfMemory) => Err(Refusal::Memory),
        Err(DecodeAllocError::DecodeError(_)) => Err(Refusal::BadBody),
    }
}

/// The bytes of symbols of either alphabet.
#[tactic(auto, using(crate::proofs::SpellingLemmas::standard_already))]
fn bytes_of_symbols(alloc: Global, symbols: &[u8]) -> Result<List<u8>, Refusal>
    ensures { IsAnswer result
        (or_bad (result_ok (decode_of standard_no_pad (map standard_symbol symbols.now)))) }
{
    let Some(_) = memchr2(b'-', b'_', symbols) else {
        return decode(alloc, symbols);
    };
    match standard_symbols(alloc, symbols) {
        Ok(symbols) => decode(alloc, &symbols),
        Err(_) => Err(Refusal::Memory),
    }
}

/// The bytes that a text spells in base64, of either alphabet, with padding or without. A text that
/// spells none is refused. One with no symbols takes no memory.
#[tactic(auto, unfolding(etcd_model::specs::Spelling::spelled_bytes))]
pub fn bytes_of_text(alloc: Global, text: &str) -> Result<List<u8>, Refusal>
    ensures value { IsAnswer result (or_bad (spelled_bytes text.now)) }
    ensures exact { length text.now ≡ 0 → result ≡ or_bad (spelled_bytes text.now) }
    ensures spells { (b : List ℕ) → IsBytes b
        → (spelled_bytes text.now ≡ Some b) ↔ Spells text.now b }
{
    if text.is_empty() {
        return Ok(List::new(alloc));
    }
    bytes_of_symbols(alloc, without_padding(text.as_bytes()))
}
