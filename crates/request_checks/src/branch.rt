//! What the operations of one branch are refused for.
ghost use Rattle.std.specs.Prelude.{◌≡◌, None, option_map};
ghost use Rattle.std.specs.List.{list_any};
ghost use Rattle.std.specs.Str.{bytes_eq};
ghost use Rattle.etcd_model.specs.Interval.{is_in};
ghost use Rattle.etcd_model.specs.Fields.{op_lacks_key, puts, gives_value, gives_lease, is_nested, has_twice};
ghost use Rattle.etcd_model.specs.Fields.{has_duplicate};
ghost use Rattle.request_checks.specs.Branch.{any_delete, any_put, is_above, rise};

use crate::put::{gives_lease, gives_value};
use etcd_types::{DeleteReq, Op};
use store_words::is_in;

/// Whether an operation has no key.
pub(crate) fn any_lacks_key(ops: &[Op]) -> bool
    ensures { result ≡ list_any op_lacks_key ops.now }
{
    ops.iter().any(|op| match op {
        Op::Range(request) => request.key.as_slice().is_empty(),
        Op::Put(request) => request.key.as_slice().is_empty(),
        Op::Delete(request) => request.key.as_slice().is_empty(),
        Op::Nested => false,
    })
}

/// Whether a put has a value, although the present one is to stay.
pub(crate) fn any_gives_value(ops: &[Op]) -> bool
    ensures { result ≡ any_put gives_value ops.now }
{
    ops.iter()
        .any(|op| matches!(op, Op::Put(put) if gives_value(put)))
}

/// Whether a put has a lease, although the present one is to stay.
pub(crate) fn any_gives_lease(ops: &[Op]) -> bool
    ensures { result ≡ any_put gives_lease ops.now }
{
    ops.iter()
        .any(|op| matches!(op, Op::Put(put) if gives_lease(put)))
}

/// Whether an operation is a transaction.
pub(crate) fn any_is_nested(ops: &[Op]) -> bool
    ensures { result ≡ list_any is_nested ops.now }
{
    ops.iter().any(|op| matches!(op, Op::Nested))
}

/// Whether a key is put twice, or put and deleted.
#[tactic(auto, using(crate::proofs::Filtered::filtered))]
pub(crate) fn has_duplicate(ops: &[Op]) -> bool
    ensures { result ≡ has_duplicate ops.now }
{
    has_twice(ops) || has_deleted(ops)
}

/// Whether a key is put twice. Of keys that rise none is: many clients write in the order of their keys.
#[tactic(auto, using(crate::proofs::Rising::no_key_twice))]
fn has_twice(ops: &[Op]) -> bool
    ensures { result ≡ has_twice (puts ops.now) }
{
    !puts_rise(ops) && has_pair(ops)
}

/// Whether the key of each put is above that of the put before it.
#[tactic(auto, using(crate::proofs::Filtered::filtered))]
fn puts_rise(ops: &[Op]) -> bool
    ensures { result ≡ rise None (puts ops.now) }
{
    let mut before = None;
    let mut rest = ops;
    while let [op, later @ ..] = rest {
        if let Op::Put(put) = op {
            let key = put.key.as_slice();
            if !is_above(before, key) {
                return false;
            }
            before = Some(key);
        }
        rest = later;
    }
    true
}

/// Whether a key is above the one before it, if there is one.
fn is_above(before: Option<&[u8]>, key: &[u8]) -> bool
    ensures { result ≡ is_above (option_map (λ k. k.now) before.entry) key.now }
{
    match before {
        None => true,
        Some(before) => before.cmp(key).is_lt(),
    }
}

/// Whether a key is put twice, looked for behind each put.
#[tactic(auto, using(crate::proofs::Filtered::filtered))]
fn has_pair(ops: &[Op]) -> bool
    ensures { result ≡ has_twice (puts ops.now) }
{
    let mut rest = ops;
    while let [op, later @ ..] = rest {
        if let Op::Put(put) = op
            && puts_key(later, put.key.as_slice())
        {
            return true;
        }
        rest = later;
    }
    false
}

/// Whether a key is put and deleted, in either order.
fn has_deleted(ops: &[Op]) -> bool
    ensures { result ≡ any_delete (λ d. any_put (λ p. is_in d.key d.range_end p.key) ops.now) ops.now }
{
    ops.iter().any(|op| matches!(op, Op::Delete(delete) if puts_in(ops, delete)))
}

/// Whether a put's key is one of those that are deleted.
fn puts_in(ops: &[Op], delete: &DeleteReq) -> bool
    ensures { result ≡ any_put (λ p. is_in delete.now.key delete.now.range_end p.key) ops.now }
{
    let (key, range_end) = (delete.key.as_slice(), delete.range_end.as_slice());
    ops.iter().any(|op| matches!(op, Op::Put(put) if is_in(key, range_end, put.key.as_slice())))
}

fn puts_key(ops: &[Op], key: &[u8]) -> bool
    ensures { result ≡ any_put (λ p. bytes_eq p.key key.now) ops.now }
{
    ops.iter().any(|op| matches!(op, Op::Put(put) if is_same(put.key.as_slice(), key)))
}

/// Whether two keys are one. Those of a branch often begin alike, so their last bytes are looked at first.
fn is_same(one: &[u8], other: &[u8]) -> bool
    ensures { result ≡ bytes_eq one.now other.now }
{
    match (one, other) {
        ([.., last], [.., end]) if last != end => false,
        _ => one == other,
    }
}
