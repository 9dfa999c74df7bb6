//! What a transaction is refused for.
ghost use Rattle.std.specs.Prelude.{◌≡◌, ◌||◌, ◌++◌, None, Some, MatchResult};
ghost use Rattle.std.specs.List.{list_any};
ghost use Rattle.etcd_model.specs.Fields.{txn_fields, is_empty, op_lacks_key, puts, gives_value, gives_lease};
ghost use Rattle.etcd_model.specs.Fields.{is_nested};

use crate::branch::{
    any_gives_lease, any_gives_value, any_is_nested, any_lacks_key, has_duplicate,
};
use etcd_types::limits::MAX_OPS;
use etcd_types::{Compare, Refusal, TxnReq};

/// The lowest refusal that the fields of a transaction give, of its compares and of both its branches, the
/// one that would not run among them.
///
/// The keys of a branch are compared with each other only where no branch is above [`MAX_OPS`], which bounds
/// the work.
pub fn check_txn(request: &TxnReq) -> Result<(), Refusal>
    ensures { MatchResult result (λ _. txn_fields request.now ≡ None)
        (λ refusal. txn_fields request.now ≡ Some refusal) }
{
    let success = request.success.as_slice();
    let failure = request.failure.as_slice();
    if lacks_key(request) {
        Err(Refusal::NoKey)
    } else if gives_value(request) {
        Err(Refusal::ValueGiven)
    } else if gives_lease(request) {
        Err(Refusal::LeaseGiven)
    } else if request.compare.as_slice().len() > MAX_OPS
        || success.len() > MAX_OPS
        || failure.len() > MAX_OPS
    {
        Err(Refusal::TooManyOps)
    } else if has_duplicate(success) || has_duplicate(failure) {
        Err(Refusal::DuplicateKey)
    } else if has_nested(request) {
        Err(Refusal::NotOffered)
    } else {
        Ok(())
    }
}

/// Whether a compare or an operation has no key.
fn lacks_key(request: &TxnReq) -> bool
    ensures { result ≡ (list_any (λ c. is_empty c.key) request.now.compare
        || list_any op_lacks_key (request.now.success ++ request.now.failure)) }
{
    any_compare_lacks_key(request.compare.as_slice())
        || any_lacks_key(request.success.as_slice())
        || any_lacks_key(request.failure.as_slice())
}

fn any_compare_lacks_key(compares: &[Compare]) -> bool
    ensures { result ≡ list_any (λ c. is_empty c.key) compares.now }
{
    compares
        .iter()
        .any(|compare| compare.key.as_slice().is_empty())
}

/// Whether a put has a value, although the present one is to stay.
#[tactic(auto, using(crate::proofs::Filtered::filtered))]
fn gives_value(request: &TxnReq) -> bool
    ensures { result ≡ list_any gives_value (puts (request.now.success ++ request.now.failure)) }
{
    any_gives_value(request.success.as_slice()) || any_gives_value(request.failure.as_slice())
}

/// Whether a put has a lease, although the present one is to stay.
#[tactic(auto, using(crate::proofs::Filtered::filtered))]
fn gives_lease(request: &TxnReq) -> bool
    ensures { result ≡ list_any gives_lease (puts (request.now.success ++ request.now.failure)) }
{
    any_gives_lease(request.success.as_slice()) || any_gives_lease(request.failure.as_slice())
}

/// Whether an operation is a transaction.
fn has_nested(request: &TxnReq) -> bool
    ensures { result ≡ list_any is_nested (request.now.success ++ request.now.failure) }
{
    any_is_nested(request.success.as_slice()) || any_is_nested(request.failure.as_slice())
}
