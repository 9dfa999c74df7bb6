//! A client's call from where it was read to where it is told: it begins, it waits, it is answered once. It knows no HTTP, and
//! nobody who serves tenants.
//!
//! 1. `Jobs::tenant` finds the tenant that a call names (`jobs`, `entrances`). `Begun::new` (`begun`) reads the step of a short
//!    body. A brief step becomes an *inline call* (`brief_request`), which the event loop serves that has read it; any other
//!    step, and a long body as it is, becomes a *job* in its tenant's queue (`job_queue`).
//! 2. `CallServer` is all that a connection knows of whoever serves either (`call_server`).
//! 3. The answer of an inline call is there at once; that of a job comes through `PendingCall::poll_told`, with its request
//!    (`unserved`). By contract it is one that the request may have (specs `Requests`); by its type a request is answered once
//!    (`told`).
#![tactic(auto)]

mod begun;
mod brief_request;
mod call_server;
mod entrances;
mod job_queue;
mod jobs;
mod request;
mod told;
mod unserved;

pub use begun::Begun;
pub use brief_request::BriefRequest;
pub use call_server::CallServer;
pub use entrances::{Entrance, Entrances, NamedInParts};
pub use gateway_json::StepReader;
pub use job_queue::{Job, JobQueue};
pub use jobs::Jobs;
pub use request::{NamedTenant, Request, RequestBody, Route};
pub use told::{OpenRequest, Told, Unanswered};
pub use unserved::{JobAnswer, PendingCall, Unserved};
