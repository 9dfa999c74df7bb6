//! Keys with their values, and what watches tell of them.
ghost use Rattle.std.specs.Prelude.{◌≡◌, ◌↔◌, IsTrue};
ghost use Rattle.etcd_types.specs.Rows.{shape_of};

use crate::copy::{CopyOf, Mem};
use crate::list::List;
use crate::rows::RowShape;
use std::alloc::Global;

/// A key with its value, as it stands at a revision.
#[derive(PartialEq, Eq)]
pub struct KeyValue {
    pub key: List<u8>,
    /// The revision of the first put since the key was last deleted.
    pub create_revision: u64,
    /// The revision of the last put.
    pub mod_revision: u64,
    /// How many puts there were since the key was last deleted.
    pub version: u64,
    pub value: List<u8>,
    /// The ID of the lease that the key is attached to, or 0.
    pub lease: i64,
}

impl Drop for KeyValue {
    fn drop(self) {
        let KeyValue {
            key: _,
            create_revision: _,
            mod_revision: _,
            version: _,
            value: _,
            lease: _,
        } = self;
    }
}

impl KeyValue {
    /// The two are one value.
    pub fn same_as(&self, other: &KeyValue) -> bool
        ensures { IsTrue result ↔ (self.now ≡ other.now) }
    {
        self == other
    }

    /// Its shape.
    pub fn shape(&self) -> RowShape
        ensures { result ≡ shape_of self.now }
    {
        RowShape {
            key: self.key.as_slice().len(),
            create_revision: self.create_revision,
            mod_revision: self.mod_revision,
            version: self.version,
            value: self.value.as_slice().len(),
            lease: self.lease,
        }
    }

    /// The key and the value.
    pub fn into_pair(self) -> (List<u8>, List<u8>)
        ensures { result ≡ (self.key, self.value) }
    {
        let KeyValue {
            key,
            create_revision: _,
            mod_revision: _,
            version: _,
            value,
            lease: _,
        } = self;
        (key, value)
    }
}

impl CopyOf for KeyValue {
    fn copy_of(&self, alloc: Global) -> Mem<KeyValue> {
        Ok(KeyValue {
            key: self.key.copy_of(alloc)?,
            create_revision: self.create_revision,
            mod_revision: self.mod_revision,
            version: self.version,
            value: self.value.copy_of(alloc)?,
            lease: self.lease,
        })
    }
}

/// What an event tells of its key.
#[derive(Clone, Copy, PartialEq, Eq)]
pub enum EventKind {
    Put,
    Delete,
}

/// One change, as a watch tells of it.
#[derive(PartialEq, Eq)]
pub struct Event {
    pub kind: EventKind,
    /// The row of a put; of a delete the key and its revision alone.
    pub kv: KeyValue,
    /// The row before the change, where the watch asked for it and it is not compacted.
    pub prev_kv: Option<KeyValue>,
}

impl Drop for Event {
    fn drop(self) {
        let Event {
            kind: _,
            kv: _,
            prev_kv: _,
        } = self;
    }
}

impl CopyOf for Event {
    fn copy_of(&self, alloc: Global) -> Mem<Event> {
        Ok(Event {
            kind: self.kind,
            kv: self.kv.copy_of(alloc)?,
            prev_kv: self.prev_kv.copy_of(alloc)?,
        })
    }
}
