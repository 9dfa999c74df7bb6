//! Transactions.
ghost use Rattle.std.specs.Prelude.{◌≡◌, Ok};
ghost use Rattle.serde_json.specs.View.{view};
ghost use Rattle.etcd_model.specs.Members.{IsAnswer};
ghost use Rattle.etcd_model.specs.Requests.{compare_in, op_in, operand_of, read_compare, read_op, read_txn};
ghost use Rattle.gateway_json.specs.Taking.{CompareTakesNone, OpTakesNone, TxnTakesNone};

use crate::kv::{read_delete, read_put, read_range};
use crate::list::{FromElement, object};
use crate::member::{member_of, read_held, read_plain};
use crate::others::Others;
use etcd_types::{Compare, CompareTarget, List, MemberName, Op, Operand, Refusal, TxnReq};
use serde_json::Value;
use std::alloc::Global;

/// The operands of a compare, of which the target names one.
#[derive(Drop)]
struct Operands {
    version: i64,
    create_revision: i64,
    mod_revision: i64,
    value: List<u8>,
    lease: i64,
}

impl Operands {
    /// The operand that the target names.
    fn of(self, target: CompareTarget) -> Operand
        ensures { result ≡ operand_of target
            self.version self.create_revision self.mod_revision self.value self.lease }
    {
        match target {
            CompareTarget::Version => Operand::Version(self.version),
            CompareTarget::Create => Operand::Create(self.create_revision),
            CompareTarget::Mod => Operand::Mod(self.mod_revision),
            CompareTarget::Value => Operand::Value(self.value),
            CompareTarget::Lease => Operand::Lease(self.lease),
        }
    }
}

/// Reads a compare. Every operand is read, so that a fault in any of them is told.
#[tactic(auto, unfolding(etcd_model::specs::Requests::read_compare))]
fn read_compare(alloc: Global, value: &Value) -> Result<Compare, Refusal>
    ensures answer { IsAnswer result (read_compare (view value.now)) }
    ensures exact { CompareTakesNone (view value.now) → result ≡ read_compare (view value.now) }
{
    let key = read_held(alloc, value, MemberName::Key)?;
    let range_end = read_held(alloc, value, MemberName::RangeEnd)?;
    let wanted = read_plain(value, MemberName::Result)?;
    let target = read_plain(value, MemberName::Target)?;
    let operands = Operands {
        version: read_plain(value, MemberName::Version)?,
        create_revision: read_plain(value, MemberName::CreateRevision)?,
        mod_revision: read_plain(value, MemberName::ModRevision)?,
        value: read_held(alloc, value, MemberName::Value)?,
        lease: read_plain(value, MemberName::Lease)?,
    };
    Ok(Compare {
        key,
        range_end,
        result: wanted,
        operand: operands.of(target),
    })
}

impl FromElement for Compare {
    ghost reads_element = { compare_in };

    ghost element_takes_none = { CompareTakesNone };

    fn read_element(alloc: Global, value: &Value) -> Result<Compare, Refusal> {
        read_compare(alloc, object(value)?)
    }
}

/// Reads an operation, which has exactly one of its four members. What a nested transaction holds
/// is not looked at.
#[tactic(auto, unfolding(etcd_model::specs::Requests::read_op), using(crate::proofs::OtherLemmas::beside_op))]
fn read_op(alloc: Global, value: &Value) -> Result<Op, Refusal>
    ensures answer { IsAnswer result (read_op (view value.now)) }
    ensures exact { OpTakesNone (view value.now) → result ≡ read_op (view value.now) }
{
    let put = member_of(value, MemberName::RequestPut);
    let others = Others::beside(value, put, None, None);
    let range = others.member(MemberName::RequestRange);
    let delete = others.member(MemberName::RequestDeleteRange);
    let nested = others.member(MemberName::RequestTxn);
    match (range, put, delete, nested) {
        (Some(range), None, None, None) => Ok(Op::Range(read_range(alloc, object(range)?)?)),
        (None, Some(put), None, None) => Ok(Op::Put(read_put(alloc, object(put)?)?)),
        (None, None, Some(delete), None) => Ok(Op::Delete(read_delete(alloc, object(delete)?)?)),
        (None, None, None, Some(_)) => Ok(Op::Nested),
        _ => Err(Refusal::BadBody),
    }
}

impl FromElement for Op {
    ghost reads_element = { op_in };

    ghost element_takes_none = { OpTakesNone };

    fn read_element(alloc: Global, value: &Value) -> Result<Op, Refusal> {
        read_op(alloc, object(value)?)
    }
}

/// Reads a transaction.
#[tactic(auto, unfolding(etcd_model::specs::Requests::read_txn))]
pub(crate) fn read_txn(alloc: Global, value: &Value) -> Result<TxnReq, Refusal>
    ensures answer { IsAnswer result (read_txn (view value.now)) }
    ensures exact { TxnTakesNone (view value.now) → result ≡ read_txn (view value.now) }
{
    Ok(TxnReq {
        compare: read_held(alloc, value, MemberName::Compare)?,
        success: read_held(alloc, value, MemberName::Success)?,
        failure: read_held(alloc, value, MemberName::Failure)?,
    })
}
