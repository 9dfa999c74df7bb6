//! How much memory the text of a take may take, told before it is planned.
ghost use Rattle.watch_sync.specs.Agreeing.{Agrees};
ghost use Rattle.watch_sync.specs.Slots.{AllAgree};

use crate::watch::OpenWatch;
use crate::watchers::Watchers;
use etcd_types::Mem;
use revision_store::Store;
use std::alloc::Global;

impl Watchers {
    /// A bound in bytes of what the next take of a slot holds, and of the text that is written of it; 0 where it has no event. It
    /// looks at the changes one by one only where those that are kept could weigh more than is enough to know. It promises nothing
    /// beyond that, and no answer depends on it.
    pub fn weight(&self, alloc: Global, store: &Store, slot: u8, enough: u64) -> Mem<u64>
        requires { AllAgree self.now store.now }
    {
        let Some(watch) = self.watch(slot) else {
            return Ok(0);
        };
        let most = store.weight_of_changes();
        if most <= enough {
            return Ok(most);
        }
        watch.weight(alloc, store)
    }
}

impl OpenWatch {
    /// The weight of the events that it is told next.
    fn weight(&self, alloc: Global, store: &Store) -> Mem<u64>
        requires { Agrees self.now store.now }
    {
        if self.next() < store.compacted() {
            return Ok(0);
        }
        let found = self.gather(alloc, store)?;
        let mut weight = 0u64;
        for note in found.notes() {
            let event = store.event_weight(note.cell, self.watch.prev_kv);
            weight = weight.saturating_add(event);
        }
        Ok(weight)
    }
}
