//! Transactions.
ghost use Rattle.std.specs.Prelude.{◌≡◌};
ghost use Rattle.etcd_types.specs.Steps.{adds_any, writes_any};

use crate::copy::{CopyOf, Mem};
use crate::kv::{DeleteReq, PutReq, RangeReq};
use crate::list::List;
use std::alloc::Global;

/// How a row has to stand to the operand of a compare.
#[derive(Clone, Copy, PartialEq, Eq)]
pub enum CompareResult {
    Equal,
    Greater,
    Less,
    NotEqual,
}

/// What a compare looks at.
#[derive(Clone, Copy)]
pub enum CompareTarget {
    Version,
    Create,
    Mod,
    Value,
    Lease,
}

/// The target of a compare, with what it is compared with.
#[derive(PartialEq, Eq)]
pub enum Operand {
    Version(i64),
    Create(i64),
    Mod(i64),
    Value(List<u8>),
    Lease(i64),
}

impl Drop for Operand {
    fn drop(self) {
        match self {
            Operand::Value(value) => drop(value),
            Operand::Version(_) | Operand::Create(_) | Operand::Mod(_) | Operand::Lease(_) => {}
        }
    }
}

impl CopyOf for Operand {
    fn copy_of(&self, alloc: Global) -> Mem<Operand> {
        Ok(match self {
            Operand::Version(number) => Operand::Version(*number),
            Operand::Create(revision) => Operand::Create(*revision),
            Operand::Mod(revision) => Operand::Mod(*revision),
            Operand::Value(value) => Operand::Value(value.copy_of(alloc)?),
            Operand::Lease(id) => Operand::Lease(*id),
        })
    }
}

/// A condition on every live row of an interval.
#[derive(PartialEq, Eq)]
pub struct Compare {
    pub key: List<u8>,
    pub range_end: List<u8>,
    pub result: CompareResult,
    pub operand: Operand,
}

impl Drop for Compare {
    fn drop(self) {
        let Compare {
            key: _,
            range_end: _,
            result: _,
            operand: _,
        } = self;
    }
}

impl CopyOf for Compare {
    fn copy_of(&self, alloc: Global) -> Mem<Compare> {
        Ok(Compare {
            key: self.key.copy_of(alloc)?,
            range_end: self.range_end.copy_of(alloc)?,
            result: self.result,
            operand: self.operand.copy_of(alloc)?,
        })
    }
}

/// One operation of a branch.
#[derive(PartialEq, Eq)]
pub enum Op {
    Range(RangeReq),
    Put(PutReq),
    Delete(DeleteReq),
    /// A transaction inside one, which is not offered. What it holds is not looked at.
    Nested,
}

impl Drop for Op {
    fn drop(self) {
        match self {
            Op::Range(request) => drop(request),
            Op::Put(request) => drop(request),
            Op::Delete(request) => drop(request),
            Op::Nested => {}
        }
    }
}

impl Op {
    /// Whether one of some operations is a put.
    pub fn any_adds(ops: &[Op]) -> bool
        ensures { result ≡ adds_any ops.now }
    {
        ops.iter().any(|op| matches!(op, Op::Put(_)))
    }

    /// Whether one of some operations is a put or a delete.
    pub fn any_writes(ops: &[Op]) -> bool
        ensures { result ≡ writes_any ops.now }
    {
        ops.iter()
            .any(|op| matches!(op, Op::Put(_) | Op::Delete(_)))
    }
}

impl CopyOf for Op {
    fn copy_of(&self, alloc: Global) -> Mem<Op> {
        Ok(match self {
            Op::Range(request) => Op::Range(request.copy_of(alloc)?),
            Op::Put(request) => Op::Put(request.copy_of(alloc)?),
            Op::Delete(request) => Op::Delete(request.copy_of(alloc)?),
            Op::Nested => Op::Nested,
        })
    }
}

/// Compares, and the operations to run where all of them hold, or where one does not.
#[derive(PartialEq, Eq)]
pub struct TxnReq {
    pub compare: List<Compare>,
    pub success: List<Op>,
    pub failure: List<Op>,
}

impl Drop for TxnReq {
    fn drop(self) {
        let TxnReq {
            compare: _,
            success: _,
            failure: _,
        } = self;
    }
}

impl CopyOf for TxnReq {
    fn copy_of(&self, alloc: Global) -> Mem<TxnReq> {
        Ok(TxnReq {
            compare: self.compare.copy_of(alloc)?,
            success: self.success.copy_of(alloc)?,
            failure: self.failure.copy_of(alloc)?,
        })
    }
}
