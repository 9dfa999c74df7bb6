//! What is told of a tenant, as JSON.
use crate::calls::OperatorRefusal;
use crate::values::{JsonObject, JsonValue};
use auto_compaction::Retention;
use etcd_types::Mem;
use host_config::retention_told;
use std::alloc::Global;
use tenant_registry::Usage;
use tenant_rules::OperatorFault;

/// A tenant as it is told.
#[derive(Clone, Copy)]
pub(crate) struct ShownTenant {
    pub(crate) usage: Usage,
    pub(crate) open_watches: usize,
    pub(crate) retention: Retention,
    pub(crate) budget: usize,
    /// How many bytes of the budget are left.
    pub(crate) budget_left: usize,
    pub(crate) open_connections: usize,
    /// How many connections may be open.
    pub(crate) most_connections: usize,
}

impl ShownTenant {
    /// The tenant of this name as an object.
    pub(crate) fn to_json(&self, alloc: Global, name: &[u8]) -> Result<JsonValue, OperatorRefusal> {
        let Ok(name) = String::from_utf8(Vec::from_slice(alloc, name)?) else {
            return Err(OperatorFault::Name.into());
        };
        let mut object = JsonObject::new(alloc);
        object.add_text("name", name)?;
        self.add_opening(&mut object)?;
        self.add_cells(&mut object)?;
        self.add_content(&mut object)?;
        self.add_terms(alloc, &mut object)?;
        Ok(object.finish())
    }

    /// What it was opened with.
    fn add_opening(&self, object: &mut JsonObject) -> Mem<()> {
        object.add_number("cluster_id", self.usage.cluster)?;
        object.add_signed("first", self.usage.first)
    }

    /// What it uses of its quota.
    fn add_cells(&self, object: &mut JsonObject) -> Mem<()> {
        object.add_number("quota", self.usage.quota)?;
        object.add_number("cells", self.usage.cells)?;
        object.add_flag("no_space", self.usage.no_space)?;
        let reserved = self.usage.reserved.into();
        let drawn = self.usage.drawn.into();
        object.add_pair("segments", ("reserved", reserved), ("drawn", drawn))
    }

    /// How much it has.
    fn add_content(&self, object: &mut JsonObject) -> Mem<()> {
        object.add_signed("revision", self.usage.revision)?;
        object.add_number("compacted_revision", self.usage.compacted)?;
        object.add_number("keys", self.usage.keys)?;
        object.add_number("leases", self.usage.leases)?;
        object.add_number("watches", self.open_watches as u64)
    }

    /// What its clients may take, and what of its history it keeps.
    fn add_terms(&self, alloc: Global, object: &mut JsonObject) -> Mem<()> {
        let used = self.budget.saturating_sub(self.budget_left);
        let budget = ("bytes", self.budget as u64);
        object.add_pair("budget", budget, ("used", used as u64))?;
        let most = ("most", self.most_connections as u64);
        let open = ("open", self.open_connections as u64);
        object.add_pair("open_connections", most, open)?;
        let (mode, retention) = retention_told(alloc, self.retention)?;
        object.add_text("auto_compaction_retention", retention)?;
        object.add_text("auto_compaction_mode", String::from_str(alloc, mode)?)
    }
}
