//! The bodies that most calls have: a key, and at most one text beside it. They are read token by token, and no JSON value is
//! made of them.
//!
//! `{"key":"Zm9v","value":"YmFy"}` is the tokens `{`, `key:`, `Zm9v`, `value:`, `YmFy` and `}`: a put of `foo` = `bar`. A body with
//! another token, or with these in another order, is no pair, and read by its value.
ghost use Rattle.std.specs.Prelude.{◌≡◌, ◌∷◌, option_map, IfSome};
ghost use Rattle.json.specs.Token as spec;
ghost use Rattle.serde_json.specs.Data.{string};
ghost use Rattle.etcd_model.specs.Calls.{read_members};
ghost use Rattle.etcd_model.specs.Members.{IsAnswer, read_bytes};
ghost use Rattle.gateway_json.specs.Pairs.{call_of, name_beside, pair_object, pair_tokens, range_of, step_of};

use base64_text::bytes_of_text;
use etcd_types::{Call, DeleteReq, List, PutReq, RangeReq, Refusal, SortOrder, SortTarget, Step};
use json::{Reader, Token};
use std::alloc::Global;

/// A call that a pair may ask for.
#[derive(Clone, Copy)]
pub(crate) enum PairCall {
    Put,
    Range,
    Delete,
}

impl PairCall {
    /// The call, if it is one of these.
    pub(crate) fn of(call: Call) -> Option<PairCall>
        ensures { IfSome result (λ pair_call. call_of pair_call ≡ call) }
    {
        match call {
            Call::Put => Some(PairCall::Put),
            Call::Range => Some(PairCall::Range),
            Call::DeleteRange => Some(PairCall::Delete),
            _ => None,
        }
    }

    /// The name of what may stand beside the key.
    fn name_beside(self) -> &'static str
        ensures { result.now ≡ name_beside self }
    {
        match self {
            PairCall::Put => "value",
            PairCall::Range | PairCall::Delete => "range_end",
        }
    }

    /// The step of a key and what stands beside it: all else is as it is where it is absent.
    fn step(self, key: List<u8>, beside: List<u8>) -> Step
        ensures { result ≡ step_of self key beside }
    {
        match self {
            PairCall::Put => Step::Put(PutReq {
                key,
                value: beside,
                lease: 0,
                prev_kv: false,
                ignore_value: false,
                ignore_lease: false,
            }),
            PairCall::Range => Step::Range(range_of(key, beside)),
            PairCall::Delete => Step::Delete(DeleteReq {
                key,
                range_end: beside,
                prev_kv: false,
            }),
        }
    }
}

/// The range of an interval that asks for no more.
fn range_of(key: List<u8>, range_end: List<u8>) -> RangeReq
    ensures { result ≡ range_of key range_end }
{
    RangeReq {
        key,
        range_end,
        limit: 0,
        revision: 0,
        sort_order: SortOrder::Unsorted,
        sort_target: SortTarget::Key,
        serializable: false,
        keys_only: false,
        count_only: false,
        min_mod_revision: 0,
        max_mod_revision: 0,
        min_create_revision: 0,
        max_create_revision: 0,
    }
}

/// A key, and the text beside it if there is one.
#[derive(Clone, Copy)]
pub(crate) struct Pair<'a> {
    key: &'a str,
    beside: Option<&'a str>,
}

impl<'a> Pair<'a> {
    /// The pair that the tokens of a call's body are.
    pub(crate) fn read(tokens: &mut Reader<'a>, call: PairCall) -> Option<Pair<'a>>
        ensures { IfSome result (λ pair. tokens.old
            ≡ pair_tokens (name_beside call) pair.key.now (option_map (λ s. s.now) pair.beside)) }
    {
        let Some(Token::BeginObject) = tokens.next() else {
            return None;
        };
        let key = text_named(tokens, "key")?;
        let beside = match tokens.next()? {
            Token::EndObject => None,
            Token::Key(name) if name == call.name_beside() => Some(last_text(tokens)?),
            _ => return None,
        };
        match tokens.next() {
            None => Some(Pair { key, beside }),
            Some(_) => None,
        }
    }

    /// The step that a call with such a body asks for.
    pub(crate) fn step(self, alloc: Global, call: PairCall) -> Result<Step, Refusal>
        ensures { IsAnswer result (read_members (call_of call)
            (pair_object (name_beside call) self.entry.key.now (option_map (λ s. s.now) self.entry.beside))) }
    {
        let key = bytes_of_text(alloc, self.key)?;
        let beside = self.bytes_beside(alloc)?;
        Ok(call.step(key, beside))
    }

    /// The bytes of the text beside the key; none where there is no text.
    #[tactic(auto, unfolding(etcd_model::specs::Members::read_bytes))]
    fn bytes_beside(self, alloc: Global) -> Result<List<u8>, Refusal>
        ensures { IsAnswer result (read_bytes (option_map string (option_map (λ s. s.now) self.entry.beside))) }
    {
        match self.beside {
            None => Ok(List::new(alloc)),
            Some(text) => bytes_of_text(alloc, text),
        }
    }
}

/// What comes next, if it is a member of this name that is a text.
fn text_named<'a>(tokens: &mut Reader<'a>, name: &str) -> Option<&'a str>
    ensures { IfSome result (λ text. tokens.old
        ≡ spec.key name.now ∷ spec.string text.now ∷ tokens.new) }
{
    match tokens.next()? {
        Token::Key(found) if found == name => {}
        _ => return None,
    }
    match tokens.next()? {
        Token::String(text) => Some(text),
        _ => None,
    }
}

/// What comes next, if it is a text with which its object ends.
fn last_text<'a>(tokens: &mut Reader<'a>) -> Option<&'a str>
    ensures { IfSome result (λ text. tokens.old
        ≡ spec.string text.now ∷ spec.end_object ∷ tokens.new) }
{
    let Token::String(text) = tokens.next()? else {
        return None;
    };
    let Token::EndObject = tokens.next()? else {
        return None;
    };
    Some(text)
}
