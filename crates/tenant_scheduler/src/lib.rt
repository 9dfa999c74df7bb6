//! Which thread serves which tenant when. It knows calls and their answers, and no HTTP.
//!
//! 1. `pending_calls` has what was asked: an *inline call*, for the event loop that has read it, or a *job* in its tenant's
//!    queue. One thread at a time has a tenant's *turn* (`fair_turns`).
//! 2. A loop serves an inline call if nobody has the turn (`inline_calls`), and else it becomes a job. A worker serves a few
//!    jobs a turn (`worker`). Both call the tenant by its key (`caller`), and by contract the answer is the written machine's,
//!    from the one call that was made for it (specs `Makes`).
//! 3. The answer of a watch has `WatchTexts`: the pump takes the next text when the client has read the last one (`pump`). The
//!    catch-up worker moves watches on that are behind (`catch_up`); the clock ticks each tenant once a second (`clock`).
//! 4. All work over what `open` makes (`shared`, `clients`), each thread in its own way (`serving`), while tenants come and go
//!    (`tenants`).
#![tactic(auto)]

mod caller;
mod catch_up;
mod clients;
mod clock;
mod inline_calls;
mod pump;
mod serving;
mod shared;
mod tenants;
mod worker;

pub use inline_calls::InlineCalls;
pub use serving::{Service, ServingThread};
pub use shared::{Shared, open};
pub use tenants::{NewTenant, ServedTenant, TenantTerms, Tenants};
