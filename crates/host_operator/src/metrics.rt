//! What a dashboard is told of the tenants, in the text format of Prometheus.
use etcd_types::{Call, Mem};
use fair_turns::{CALLS, ENDS, Histogram, LAST_REFUSAL, STATUSES, TenantCounts};
use std::alloc::Global;
use std::sync::Arc;
use tenant_registry::Usage;

/// What a tenant uses, as far as it could be told without waiting for it.
pub(crate) struct Sample {
    pub(crate) name: String,
    pub(crate) usage: Usage,
    /// What is counted of it.
    pub(crate) counts: Arc<TenantCounts>,
    pub(crate) budget: usize,
    /// How many bytes of the budget are left.
    pub(crate) budget_left: usize,
    pub(crate) open_connections: usize,
    pub(crate) open_watches: usize,
}

impl Drop for Sample {
    fn drop(self) {
        let Sample {
            name: _,
            usage: _,
            counts: _,
            budget: _,
            budget_left: _,
            open_connections: _,
            open_watches: _,
        } = self;
    }
}

/// A number of each tenant that goes up and down.
#[derive(Clone, Copy)]
enum Gauge {
    Quota,
    Cells,
    Reserved,
    Drawn,
    Revision,
    Compacted,
    Keys,
    Leases,
    NoSpace,
    Watches,
    Connections,
    Budget,
    BudgetUsed,
}

const GAUGES: [Gauge; 13] = [
    Gauge::Quota,
    Gauge::Cells,
    Gauge::Reserved,
    Gauge::Drawn,
    Gauge::Revision,
    Gauge::Compacted,
    Gauge::Keys,
    Gauge::Leases,
    Gauge::NoSpace,
    Gauge::Watches,
    Gauge::Connections,
    Gauge::Budget,
    Gauge::BudgetUsed,
];

impl Gauge {
    fn name(self) -> &'static str {
        match self {
            Gauge::Quota => "bikazery_tenant_quota_cells",
            Gauge::Cells => "bikazery_tenant_cells",
            Gauge::Reserved => "bikazery_tenant_reserved_segments",
            Gauge::Drawn => "bikazery_tenant_drawn_segments",
            Gauge::Revision => "bikazery_tenant_revision",
            Gauge::Compacted => "bikazery_tenant_compacted_revision",
            Gauge::Keys => "bikazery_tenant_keys",
            Gauge::Leases => "bikazery_tenant_leases",
            Gauge::NoSpace => "bikazery_tenant_no_space",
            Gauge::Watches => "bikazery_tenant_watches",
            Gauge::Connections => "bikazery_tenant_connections",
            Gauge::Budget => "bikazery_tenant_budget_bytes",
            Gauge::BudgetUsed => "bikazery_tenant_budget_used_bytes",
        }
    }

    fn help(self) -> &'static str {
        match self {
            Gauge::Quota => "Cells that the tenant may use.",
            Gauge::Cells => "Cells that the tenant uses.",
            Gauge::Reserved => "Segments that are reserved for the tenant.",
            Gauge::Drawn => "Segments that the tenant has drawn.",
            Gauge::Revision => "The tenant's current revision.",
            Gauge::Compacted => "The revision of the tenant's last compaction.",
            Gauge::Keys => "Live keys.",
            Gauge::Leases => "Leases.",
            Gauge::NoSpace => "1 while the alarm of the quota is raised.",
            Gauge::Watches => "Open watches.",
            Gauge::Connections => "Open connections.",
            Gauge::Budget => "Bytes that the tenant's clients may have under way.",
            Gauge::BudgetUsed => "Bytes that the tenant's clients have under way.",
        }
    }

    fn of(self, sample: &Sample) -> u64 {
        let Sample { usage, .. } = sample;
        match self {
            Gauge::Quota => usage.quota,
            Gauge::Cells => usage.cells,
            Gauge::Reserved => usage.reserved.into(),
            Gauge::Drawn => usage.drawn.into(),
            Gauge::Revision => u64::try_from(usage.revision).unwrap_or(0),
            Gauge::Compacted => usage.compacted,
            Gauge::Keys => usage.keys,
            Gauge::Leases => usage.leases,
            Gauge::NoSpace => usage.no_space.into(),
            Gauge::Watches => sample.open_watches as u64,
            Gauge::Connections => sample.open_connections as u64,
            Gauge::Budget => sample.budget as u64,
            Gauge::BudgetUsed => { sample.budget.saturating_sub(sample.budget_left) as u64 }
        }
    }
}

/// The label of a call.
fn label(call: Call) -> &'static str {
    match call {
        Call::Range => "range",
        Call::Put => "put",
        Call::DeleteRange => "delete_range",
        Call::Txn => "txn",
        Call::Compaction => "compaction",
        Call::Watch => "watch",
        Call::Grant => "lease_grant",
        Call::Revoke => "lease_revoke",
        Call::KeepAlive => "lease_keep_alive",
        Call::TimeToLive => "lease_time_to_live",
        Call::Leases => "leases",
        Call::Alarm => "alarm",
        Call::Status => "status",
        Call::Defragment => "defragment",
    }
}

/// What is told of the host.
#[derive(Clone, Copy)]
pub(crate) struct HostSample {
    pub(crate) tenants: usize,
    pub(crate) segments: u32,
    pub(crate) free_segments: u32,
    pub(crate) open_connections: usize,
    pub(crate) refused_connections: u64,
    pub(crate) ended_connections: u64,
    pub(crate) lost_connections: u64,
    /// None where the system does not tell it.
    pub(crate) resident_bytes: Option<u64>,
}

/// How many nanoseconds a second has.
const NANOS: u64 = 1_000_000_000;

/// The whole text.
pub(crate) fn metrics(alloc: Global, host: HostSample, samples: &[Sample]) -> Mem<Vec<u8>> {
    let mut text = Text::new(alloc);
    text.host_gauges(host)?;
    text.host_counters(host)?;
    text.gauges(samples)?;
    text.calls(samples)?;
    text.bytes(samples)?;
    text.durations(samples)?;
    Ok(text.into_bytes())
}

const ANSWERED: &str = "bikazery_calls_total";

const REFUSED: &str = "bikazery_refusals_total";

const BYTES_IN: &str = "bikazery_received_bytes_total";

const BYTES_OUT: &str = "bikazery_answered_bytes_total";

const WAITS: &str = "bikazery_wait_seconds";

const TURNS: &str = "bikazery_turn_seconds";

/// A text that grows.
struct Text {
    alloc: Global,
    written: Vec<u8>,
}

impl Drop for Text {
    fn drop(self) {
        let Text {
            alloc: _,
            written: _,
        } = self;
    }
}

impl Text {
    /// Nothing is written.
    fn new(alloc: Global) -> Text {
        Text {
            alloc,
            written: Vec::new(alloc),
        }
    }

    fn into_bytes(self) -> Vec<u8> {
        let Text { alloc: _, written } = self;
        written
    }

    fn push(&mut self, text: &str) -> Mem<()> {
        self.written.extend_from_slice(text.as_bytes())
    }

    fn push_number(&mut self, number: u64) -> Mem<()> {
        let number = format!(in self.alloc; "{number}")?;
        self.push(number.as_str())
    }

    /// A line that tells something of a number.
    fn comment(&mut self, word: &str, name: &str, told: &str) -> Mem<()> {
        self.push(word)?;
        self.push(name)?;
        self.push(" ")?;
        self.push(told)?;
        self.push("\n")
    }

    fn head(&mut self, name: &str, help: &str, kind: &str) -> Mem<()> {
        self.comment("# HELP ", name, help)?;
        self.comment("# TYPE ", name, kind)
    }

    /// The name of a number of a tenant, and its first label. A histogram's numbers have an ending.
    fn begin(&mut self, name: &str, ending: &str, tenant: &str) -> Mem<()> {
        self.push(name)?;
        self.push(ending)?;
        self.push("{tenant=\"")?;
        self.push(tenant)?;
        self.push("\"")
    }

    /// One more label, up to its value.
    fn begin_label(&mut self, label: &str) -> Mem<()> {
        self.push(",")?;
        self.push(label)?;
        self.push("=\"")
    }

    fn label(&mut self, label: &str, value: &str) -> Mem<()> {
        self.begin_label(label)?;
        self.push(value)?;
        self.push("\"")
    }

    fn number_label(&mut self, label: &str, value: u64) -> Mem<()> {
        self.begin_label(label)?;
        self.push_number(value)?;
        self.push("\"")
    }

    /// The number behind its labels.
    fn end(&mut self, value: u64) -> Mem<()> {
        self.push("} ")?;
        self.push_number(value)?;
        self.push("\n")
    }

    /// A number of the host.
    fn host(&mut self, name: &str, help: &str, kind: &str, value: u64) -> Mem<()> {
        self.head(name, help, kind)?;
        self.push(name)?;
        self.push(" ")?;
        self.push_number(value)?;
        self.push("\n")
    }

    fn host_gauges(&mut self, host: HostSample) -> Mem<()> {
        let tenants = host.tenants as u64;
        self.host("bikazery_tenants", "Tenants.", "gauge", tenants)?;
        let help = "Segments, those of tenants among them.";
        self.host("bikazery_segments", help, "gauge", host.segments.into())?;
        let help = "Segments that no tenant reserved.";
        self.host(
            "bikazery_free_segments",
            help,
            "gauge",
            host.free_segments.into(),
        )?;
        let open = host.open_connections as u64;
        self.host("bikazery_connections", "Open connections.", "gauge", open)?;
        if let Some(bytes) = host.resident_bytes {
            let help = "Resident memory size in bytes.";
            self.host("process_resident_memory_bytes", help, "gauge", bytes)?;
        }
        Ok(())
    }

    fn host_counters(&mut self, host: HostSample) -> Mem<()> {
        let help = "Connections that were refused, since too many were open and none was idle.";
        let refused = host.refused_connections;
        self.host(
            "bikazery_connections_refused_total",
            help,
            "counter",
            refused,
        )?;
        let help = "Idle connections that were closed, since another one came.";
        let ended = host.ended_connections;
        self.host("bikazery_connections_ended_total", help, "counter", ended)?;
        let help = "Connections that were closed for want of memory.";
        let lost = host.lost_connections;
        self.host("bikazery_connections_lost_total", help, "counter", lost)
    }

    /// A number of a tenant.
    fn of_tenant(&mut self, name: &str, tenant: &str, value: u64) -> Mem<()> {
        self.begin(name, "", tenant)?;
        self.end(value)
    }

    /// The numbers of the tenants that go up and down.
    fn gauges(&mut self, samples: &[Sample]) -> Mem<()> {
        for gauge in GAUGES {
            self.gauge(gauge, samples)?;
        }
        Ok(())
    }

    fn gauge(&mut self, gauge: Gauge, samples: &[Sample]) -> Mem<()> {
        let name = gauge.name();
        self.head(name, gauge.help(), "gauge")?;
        for sample in samples {
            self.of_tenant(name, sample.name.as_str(), gauge.of(sample))?;
        }
        Ok(())
    }

    /// The calls of the tenants, and those that were refused, by number.
    fn calls(&mut self, samples: &[Sample]) -> Mem<()> {
        let help = "Calls that were answered, by what they ask and by status.";
        self.head(ANSWERED, help, "counter")?;
        for sample in samples {
            self.answered(sample)?;
        }
        let help = "Calls that were refused, by the refusal's number.";
        self.head(REFUSED, help, "counter")?;
        for sample in samples {
            self.refused(sample)?;
        }
        Ok(())
    }

    /// What the tenants' calls brought and were answered.
    fn bytes(&mut self, samples: &[Sample]) -> Mem<()> {
        self.head(BYTES_IN, "Bytes of the bodies of calls.", "counter")?;
        for sample in samples {
            self.of_tenant(BYTES_IN, sample.name.as_str(), sample.counts.bytes_in())?;
        }
        self.head(
            BYTES_OUT,
            "Bytes of answers and of the texts of watches.",
            "counter",
        )?;
        for sample in samples {
            self.of_tenant(BYTES_OUT, sample.name.as_str(), sample.counts.bytes_out())?;
        }
        Ok(())
    }

    /// How long calls and turns took.
    fn durations(&mut self, samples: &[Sample]) -> Mem<()> {
        let help = "How long calls waited in their tenant's queue.";
        self.head(WAITS, help, "histogram")?;
        for sample in samples {
            self.histogram(WAITS, sample.name.as_str(), &sample.counts.waits())?;
        }
        let help = "How long turns took in which calls were served.";
        self.head(TURNS, help, "histogram")?;
        for sample in samples {
            self.histogram(TURNS, sample.name.as_str(), &sample.counts.turns())?;
        }
        Ok(())
    }

    /// Durations by their parts, each with those before it.
    fn histogram(&mut self, name: &str, tenant: &str, durations: &Histogram) -> Mem<()> {
        let mut count = 0u64;
        for (place, end) in ENDS.iter().enumerate() {
            count = count.saturating_add(durations.part(place).unwrap_or(0));
            self.bucket(name, tenant, end.saturating_mul(1_000), count)?;
        }
        count = count.saturating_add(durations.part(ENDS.len()).unwrap_or(0));
        self.last_bucket(name, tenant, count)?;
        self.sum(name, tenant, durations.nanos())?;
        self.begin(name, "_count", tenant)?;
        self.end(count)
    }

    /// How many took no longer than so many nanoseconds.
    fn bucket(&mut self, name: &str, tenant: &str, nanos: u64, count: u64) -> Mem<()> {
        self.begin(name, "_bucket", tenant)?;
        self.begin_label("le")?;
        self.push_seconds(nanos)?;
        self.push("\"")?;
        self.end(count)
    }

    /// How many there are.
    fn last_bucket(&mut self, name: &str, tenant: &str, count: u64) -> Mem<()> {
        self.begin(name, "_bucket", tenant)?;
        self.label("le", "+Inf")?;
        self.end(count)
    }

    /// How many nanoseconds they took in all.
    fn sum(&mut self, name: &str, tenant: &str, nanos: u64) -> Mem<()> {
        self.begin(name, "_sum", tenant)?;
        self.push("} ")?;
        self.push_seconds(nanos)?;
        self.push("\n")
    }

    /// So many nanoseconds as seconds.
    fn push_seconds(&mut self, nanos: u64) -> Mem<()> {
        let whole = nanos / NANOS;
        let rest = nanos % NANOS;
        let seconds = format!(in self.alloc; "{whole}.{rest:09}")?;
        self.push(seconds.as_str())
    }

    /// The calls of a tenant that were refused; numbers with none are left out.
    fn refused(&mut self, sample: &Sample) -> Mem<()> {
        for number in 1..=LAST_REFUSAL {
            let count = sample.counts.refused(number);
            if count > 0 {
                self.refusal(sample.name.as_str(), number, count)?;
            }
        }
        Ok(())
    }

    fn refusal(&mut self, tenant: &str, number: u8, count: u64) -> Mem<()> {
        self.begin(REFUSED, "", tenant)?;
        self.number_label("number", number.into())?;
        self.end(count)
    }

    /// The calls of a tenant that were answered; those of which there is none are left out.
    fn answered(&mut self, sample: &Sample) -> Mem<()> {
        for call in CALLS {
            for status in STATUSES {
                let count = sample.counts.answered(call, status);
                if count > 0 {
                    self.call(sample.name.as_str(), call, status, count)?;
                }
            }
        }
        Ok(())
    }

    fn call(&mut self, tenant: &str, call: Call, status: u16, count: u64) -> Mem<()> {
        self.begin(ANSWERED, "", tenant)?;
        self.label("call", label(call))?;
        self.number_label("status", status.into())?;
        self.end(count)
    }
}
