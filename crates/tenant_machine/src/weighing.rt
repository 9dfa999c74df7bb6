//! How much memory a step may take until its answer is sent, told before it is planned.
use crate::machine::Machine;
use etcd_types::limits::CELL_BYTES;
use etcd_types::{DeleteReq, Mem, Op, PutReq, Step};
use revision_store::{Store, weight_for};
use std::alloc::Global;

impl Machine {
    /// A bound in bytes of what a step's plan and its answer's text may take, where they may be long; a weight of 0 is
    /// that of a step whose answer is short. It need not be more exact than to be no more than `enough`; of a transaction that
    /// weighs more it is the most that a number says. It promises nothing beyond that, and no answer depends on it.
    pub fn weight(&self, alloc: Global, step: &Step, enough: u64) -> Mem<u64> {
        match step {
            Step::Range(request) => self.store.weight(alloc, request, enough),
            Step::Put(request) => Ok(put_weight(&self.store, request, enough)),
            Step::Delete(request) => Ok(delete_weight(&self.store, request, enough)),
            Step::Txn(request) => {
                let success = branch_weight(
                    alloc,
                    &self.store,
                    request.success.as_slice(),
                    enough,
                )?;
                let failure = branch_weight(
                    alloc,
                    &self.store,
                    request.failure.as_slice(),
                    enough,
                )?;
                Ok(success.max(failure))
            }
            Step::TimeToLive { keys: true, .. } => Ok(self.attached_weight()),
            Step::Leases => Ok(weight_for(self.leases.len() as u64, 0)),
            Step::Take(slot) => self.watchers.weight(alloc, &self.store, *slot, enough),
            _ => Ok(0),
        }
    }
}

impl Machine {
    /// That of all keys that are attached to leases, in all cells in use.
    fn attached_weight(&self) -> u64 {
        let keys = self.leases.key_count() as u64;
        if keys == 0 {
            return 0;
        }
        weight_for(keys, u64::from(self.filled_cells()) * CELL_BYTES)
    }
}

fn put_weight(store: &Store, request: &PutReq, enough: u64) -> u64 {
    if request.prev_kv {
        store.weight_of_all(request.key.as_slice(), b"".as_slice(), enough)
    } else {
        0
    }
}

fn delete_weight(store: &Store, request: &DeleteReq, enough: u64) -> u64 {
    if request.prev_kv {
        store.weight_of_all(request.key.as_slice(), request.range_end.as_slice(), enough)
    } else {
        0
    }
}

/// That of a branch, whose answers are held at once. Each operation that gives rows may give all that is put beside it.
fn branch_weight(alloc: Global, store: &Store, ops: &[Op], enough: u64) -> Mem<u64> {
    let part = enough / (ops.len() as u64).max(1);
    let put = weight_put(ops);
    let mut weight = 0u64;
    for op in ops {
        let of_op = op_weight(alloc, store, op, part)?;
        weight = weight.saturating_add(of_op);
        if of_op > 0 {
            weight = weight.saturating_add(put);
        }
        // What is too heavy already is not weighed on: its tenant waits meanwhile.
        if weight > enough {
            return Ok(u64::MAX);
        }
    }
    Ok(weight)
}

fn op_weight(alloc: Global, store: &Store, op: &Op, enough: u64) -> Mem<u64> {
    match op {
        Op::Range(request) => store.weight(alloc, request, enough),
        Op::Put(request) => Ok(put_weight(store, request, enough)),
        Op::Delete(request) => Ok(delete_weight(store, request, enough)),
        Op::Nested => Ok(0),
    }
}

/// The weight of all rows that a branch puts.
fn weight_put(ops: &[Op]) -> u64 {
    let mut rows = 0u64;
    let mut bytes = 0u64;
    for op in ops {
        if let Op::Put(request) = op {
            rows = rows.saturating_add(1);
            bytes = bytes.saturating_add(bytes_of(request));
        }
    }
    weight_for(rows, bytes)
}

fn bytes_of(request: &PutReq) -> u64 {
    let key = request.key.as_slice().len() as u64;
    key.saturating_add(request.value.as_slice().len() as u64)
}
