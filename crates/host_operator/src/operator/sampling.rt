//! What a dashboard is told of the host and of the tenants.
ghost use Rattle.std.specs.Prelude.{◌≡◌, IfOk};

use crate::answer::OperatorAnswer;
use crate::calls::OperatorRefusal;
use crate::directory::TenantDirectory;
use crate::memory::resident_bytes;
use crate::metrics::{HostSample, Sample, metrics};
use crate::operator::{Operator, Told};
use etcd_types::Mem;
use fair_turns::TenantCounts;
use std::alloc::AllocGlobal;
use std::rt::{Clock, Files};
use std::sync::{Arc, Wait};
use tenant_registry::{Key, Usage};

/// What the tenant of a key uses; none where a call is under way there.
fn usage_if_idle(key: &Key) -> Option<Usage> {
    match key.usage_if_idle() {
        Some(Ok(usage)) => Some(usage),
        _ => None,
    }
}

impl<'x, R, D> Operator<'x, R, D>
where
    R: Wait + Clock + Files + AllocGlobal + Copy + Drop,
    D: TenantDirectory,
{
    /// What all tenants use, in the text format of Prometheus. It waits for no tenant: what one used when it was last
    /// told stands for what it uses while a call is under way there.
    pub(super) fn metrics(&mut self) -> Result<OperatorAnswer, OperatorRefusal>
        ensures { IfOk result (λ answer. answer.status ≡ 200) }
    {
        for place in 0..self.told.len() {
            self.note_usage(place)?;
        }
        let host = self.host();
        let samples = self.samples()?;
        let text = metrics(self.alloc, host, samples.as_slice())?;
        Ok(OperatorAnswer::of_numbers(text))
    }

    /// What is told of the host.
    fn host(&mut self) -> HostSample {
        HostSample {
            tenants: self.told.len(),
            segments: self.registry.segments(),
            free_segments: self.registry.free_segments(),
            open_connections: self.bounds.open_in_all(),
            refused_connections: self.bounds.refused(),
            ended_connections: self.bounds.ended(),
            lost_connections: self.bounds.lost(),
            resident_bytes: resident_bytes(&self.rt),
        }
    }

    /// Notes what the tenant at a place uses, as far as it can be told without waiting for it.
    fn note_usage(&mut self, place: usize) -> Mem<()> {
        let Some((name, _)) = self.told.get_index(place) else {
            return Ok(());
        };
        let usage = self.usage_now(name.as_slice())?;
        let open_watches = self.open_watches(name.as_slice());
        let Some(told) = self.told.get_index_mut(place) else {
            return Ok(());
        };
        if usage.is_some() {
            told.usage = usage;
        }
        if let Some(open) = open_watches {
            told.open_watches = open;
        }
        Ok(())
    }

    /// What a tenant uses; none where a call is under way there.
    fn usage_now(&self, name: &[u8]) -> Mem<Option<Usage>> {
        match self.registry.key(Vec::from_slice(self.alloc, name)?)? {
            Some(key) => Ok(usage_if_idle(&key)),
            None => Ok(None),
        }
    }

    /// How many watches its clients have open. It borrows the operator whole, as `usage_now` does.
    fn open_watches(&self, name: &[u8]) -> Option<usize> {
        self.directory.open_watches_now(name)
    }

    /// The samples of all tenants that are known to use something.
    fn samples(&self) -> Mem<Vec<Sample>> {
        let mut samples = Vec::new(self.alloc);
        for (name, told) in self.told.iter() {
            if let Some(sample) = self.sample(name.as_slice(), told)? {
                samples.push(sample)?;
            }
        }
        Ok(samples)
    }

    /// What a tenant uses; none where it never could be told without waiting for it.
    fn sample(&self, name: &[u8], told: &Told) -> Mem<Option<Sample>> {
        let Some(usage) = told.usage else {
            return Ok(None);
        };
        match self.directory.counts(name)? {
            Some(counts) => self.sample_of(name, usage, counts, told),
            None => Ok(None),
        }
    }

    /// The same of a tenant that is served and uses this.
    fn sample_of(
        &self,
        name: &[u8],
        usage: Usage,
        counts: Arc<TenantCounts>,
        told: &Told,
    ) -> Mem<Option<Sample>> {
        let budget = told.allowance.budget;
        let budget_left = self.directory.budget_left(name).unwrap_or(budget);
        let Ok(name) = String::from_utf8(Vec::from_slice(self.alloc, name)?) else {
            return Ok(None);
        };
        Ok(Some(Sample {
            name,
            usage,
            counts,
            budget,
            budget_left,
            open_connections: self.bounds.open(told.number),
            open_watches: told.open_watches,
        }))
    }
}
