//! Standing orders over days of a tenant's time, in which one revision comes each second.
//!
//! What is wanted is etcd's own rule. By time nothing goes before the retention has passed, and then once a period, which is an hour
//! at the most; what goes is as old as the retention, or older by a tenth of a period, since revisions are noted ten times in one. By
//! number it goes each five minutes, and what is to be kept stays.
use auto_compaction::{Retention, StandingOrder};
use std::alloc::Global;
use std::process::Abort;
use std::test::Fail;

/// What an order has let go.
#[derive(Clone, Copy)]
struct LetGo {
    times: u64,
    first_at: u64,
    last_at: u64,
    /// The longest time between two.
    longest: u64,
    /// The fewest and the most revisions that stayed.
    fewest: u64,
    most: u64,
}

impl LetGo {
    /// Nothing yet.
    fn new() -> LetGo {
        LetGo {
            times: 0,
            first_at: 0,
            last_at: 0,
            longest: 0,
            fewest: u64::MAX,
            most: 0,
        }
    }

    /// At a moment all went but for so many.
    fn add(&mut self, moment: u64, stayed: u64) {
        if self.times == 0 {
            self.first_at = moment;
        } else {
            self.longest = self.longest.max(moment.saturating_sub(self.last_at));
        }
        self.times = self.times.saturating_add(1);
        self.last_at = moment;
        self.fewest = self.fewest.min(stayed);
        self.most = self.most.max(stayed);
    }
}

/// What an order lets go until a moment.
fn let_go(order: StandingOrder, until: u64) -> LetGo {
    let mut order = order;
    let mut gone = LetGo::new();
    for moment in 1..until {
        if order.is_due(moment) {
            let revision = i64::try_from(moment).unwrap_or(i64::MAX);
            if let Some(due) = order.look(moment, revision) {
                let stayed = revision.saturating_sub(due.revision());
                gone.add(moment, u64::try_from(stayed).unwrap_or(0));
            }
        }
    }
    gone
}

/// What is kept for so many seconds goes once a period, and not before.
fn keeps_for(rt: &impl Abort, alloc: Global, seconds: u64, period: u64) -> Result<(), Fail> {
    let step = period / 10;
    let order = StandingOrder::new(alloc, 2, Retention::Seconds(seconds))?;
    let gone = let_go(order, seconds.saturating_add(period.saturating_mul(10)));
    assert!(rt;
        gone.first_at >= seconds
            && gone.first_at <= seconds.saturating_add(step).saturating_add(step)
    );
    assert!(rt; gone.times >= 9 && gone.longest <= period.saturating_add(step));
    assert!(rt; gone.fewest >= seconds && gone.most <= seconds.saturating_add(step));
    Ok(())
}

#[test]
fn history_is_kept_for_its_time(rt: HostRuntime) -> Result<(), Fail> {
    let alloc = rt.alloc();
    keeps_for(&rt, alloc, 100, 100)?;
    keeps_for(&rt, alloc, 3_600, 3_600)?;
    keeps_for(&rt, alloc, 86_400, 3_600)?;
    keeps_for(&rt, alloc, 2_592_000, 3_600)
}

#[test]
fn so_many_revisions_are_kept(rt: HostRuntime) -> Result<(), Fail> {
    let order = StandingOrder::new(rt.alloc(), 2, Retention::Revisions(1_000))?;
    let gone = let_go(order, 10_000);
    assert!(rt; gone.first_at > 1_000 && gone.first_at <= 1_300);
    assert!(rt; gone.longest == 300 && gone.fewest == 1_000 && gone.most == 1_000);
    Ok(())
}
