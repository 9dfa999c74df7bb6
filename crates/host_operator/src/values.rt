//! JSON that the operator is told. Each of these types lets go of all that it has in one place.
use etcd_types::Mem;
use serde_json::{Map, Value};
use std::alloc::Global;

/// A value that is whole.
pub(crate) struct JsonValue {
    value: Value,
}

impl Drop for JsonValue {
    fn drop(self) {
        let JsonValue { value: _ } = self;
    }
}

impl JsonValue {
    /// Its text in a line.
    pub(crate) fn to_line(&self, alloc: Global) -> Mem<Vec<u8>> {
        let mut text = self.value.to_vec(alloc)?;
        text.push(b'\n')?;
        Ok(text)
    }

    fn into_value(self) -> Value {
        let JsonValue { value } = self;
        value
    }
}

/// An object that is being made. Its members are told in the order of their names.
pub(crate) struct JsonObject {
    alloc: Global,
    members: Map<String, Value>,
}

impl Drop for JsonObject {
    fn drop(self) {
        let JsonObject {
            alloc: _,
            members: _,
        } = self;
    }
}

impl JsonObject {
    /// One without members.
    pub(crate) fn new(alloc: Global) -> JsonObject {
        JsonObject {
            alloc,
            members: Map::new(alloc),
        }
    }

    /// One that has this member alone.
    pub(crate) fn of(alloc: Global, name: &str, value: JsonValue) -> Mem<JsonValue> {
        let mut object = JsonObject::new(alloc);
        object.add(name, value)?;
        Ok(object.finish())
    }

    pub(crate) fn add(&mut self, name: &str, value: JsonValue) -> Mem<()> {
        serde_json::put(&mut self.members, self.alloc, name, value.into_value())
    }

    pub(crate) fn add_number(&mut self, name: &str, number: u64) -> Mem<()> {
        serde_json::put(&mut self.members, self.alloc, name, Value::from(number))
    }

    pub(crate) fn add_signed(&mut self, name: &str, number: i64) -> Mem<()> {
        serde_json::put(&mut self.members, self.alloc, name, Value::from(number))
    }

    pub(crate) fn add_flag(&mut self, name: &str, is_set: bool) -> Mem<()> {
        serde_json::put(&mut self.members, self.alloc, name, Value::Bool(is_set))
    }

    pub(crate) fn add_text(&mut self, name: &str, text: String) -> Mem<()> {
        serde_json::put(&mut self.members, self.alloc, name, Value::String(text))
    }

    /// Two numbers as an object of their own.
    pub(crate) fn add_pair(
        &mut self,
        name: &str,
        first: (&str, u64),
        second: (&str, u64),
    ) -> Mem<()> {
        let mut pair = JsonObject::new(self.alloc);
        pair.add_number(first.0, first.1)?;
        pair.add_number(second.0, second.1)?;
        self.add(name, pair.finish())
    }

    /// The object as it is.
    pub(crate) fn finish(self) -> JsonValue {
        let JsonObject { alloc: _, members } = self;
        JsonValue {
            value: Value::Object(members),
        }
    }
}

/// A list that is being made.
pub(crate) struct JsonList {
    items: Vec<Value>,
}

impl Drop for JsonList {
    fn drop(self) {
        let JsonList { items: _ } = self;
    }
}

impl JsonList {
    /// An empty one.
    pub(crate) fn new(alloc: Global) -> JsonList {
        JsonList {
            items: Vec::new(alloc),
        }
    }

    pub(crate) fn add(&mut self, value: JsonValue) -> Mem<()> {
        serde_json::push(&mut self.items, value.into_value())
    }

    /// The list as it is.
    pub(crate) fn finish(self) -> JsonValue {
        let JsonList { items } = self;
        JsonValue {
            value: Value::Array(items),
        }
    }
}
