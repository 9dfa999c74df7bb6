//! The row that a put leaves.
ghost use Rattle.std.specs.Prelude.{◌≡◌, ◌+◌, ◌<◌, ◌^◌, IfOk};
ghost use Rattle.std.specs.Option.{option_copied};
ghost use Rattle.etcd_model.specs.Changes.{version_of};
ghost use Rattle.etcd_model.specs.Operations.{row_put, value_put};

use etcd_types::{CopyOf, KeyValue, List, Mem, PutReq};
use std::alloc::Global;

/// The row that a put leaves at a revision, over the present row of its key. A key that is not live has none, and begins
/// anew at its first version.
pub fn row_put(
    alloc: Global,
    revision: u64,
    request: &PutReq,
    now: Option<&KeyValue>,
) -> Mem<KeyValue>
    requires { version_of (option_copied now) + 1 < 2 ^ 64 }
    ensures { IfOk result (λ row. row ≡ row_put revision request.now (option_copied now.entry)) }
{
    let (create_revision, version, lease) = match now {
        Some(row) => (row.create_revision, row.version, row.lease),
        None => (revision, 0, 0),
    };
    Ok(KeyValue {
        key: request.key.copy_of(alloc)?,
        create_revision,
        mod_revision: revision,
        version: version + 1,
        value: value_put(alloc, request, now)?,
        lease: if request.ignore_lease {
            lease
        } else {
            request.lease
        },
    })
}

/// The value of a put: its own, or the present one where that is to stay.
fn value_put(alloc: Global, request: &PutReq, now: Option<&KeyValue>) -> Mem<List<u8>>
    ensures { IfOk result (λ value. value ≡ value_put request.now (option_copied now.entry)) }
{
    match now {
        Some(row) if request.ignore_value => row.value.copy_of(alloc),
        None if request.ignore_value => Ok(List::new(alloc)),
        _ => request.value.copy_of(alloc),
    }
}
