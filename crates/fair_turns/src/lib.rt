//! What keeps tenants from each other's way: whose turn it is, what each one's clients may have under way, and what is
//! counted of it. It knows no tenant but by its number, and no registry.
//!
//! 1. A tenant is served by one thread at a time, which has the *turn* there. The `Scheduler` marks the work that is due
//!    on each tenant, and gives the turns in a fixed round (`scheduler`). A tenant whose turns are long leaves a worker to
//!    the others (`slow_tenants`, `stopwatch`).
//! 2. Long bodies and texts take shares of their tenant's budget (`budget`, `tree_weight`), so that what one tenant's clients
//!    have under way is bounded, and no other tenant pays for it.
//! 3. An `Answer` is a status and a text (`answer`), or the texts of a watch as they come, one at a time
//!    (`watch_texts`, `taken_text`).
//! 4. A dashboard is told what was answered and how long that took (`counts`, `answered`, `durations`), and whether each
//!    thread moves (`beats`).
#![tactic(auto)]

mod answer;
mod answered;
mod beats;
mod budget;
mod counts;
mod durations;
mod scheduler;
mod slow_tenants;
mod stopwatch;
mod taken_text;
mod tree_weight;
mod watch_texts;

pub use answer::{Answer, Text};
pub use answered::{CALLS, LAST_REFUSAL, STATUSES};
pub use beats::Beats;
pub use budget::{
    AwaitedShare, BodyShare, Budget, DEFAULT_BUDGET, LONGEST_ROW, MadeText, SHORT, Share, TextShare,
};
pub use counts::{PARTS, PartCounts, TenantCounts};
pub use durations::{Durations, ENDS, Histogram};
pub use scheduler::{BESIDE_WORKERS, Scheduler, TenantTurns, Turn, Turns, Work};
pub use stopwatch::Stopwatch;
pub use taken_text::{TakenText, WatchTake};
pub use tree_weight::{SMALL_TREE, TreeWeight};
pub use watch_texts::{NoRoom, ServedWatch, TextRoom, WatchEnds, WatchTexts};
