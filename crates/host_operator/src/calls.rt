//! What an operator asks, and why it is refused.
ghost use Rattle.std.specs.Prelude.{◌≡◌, IfErr, IfOk};
ghost use Rattle.host_operator.specs.Asking.{Asks, is_path, unasked};
ghost use Rattle.host_operator.specs.Refusals.{status_of, text_of};

use host_config::ConfigFault;
use std::alloc::AllocError;
use tenant_rules::OperatorFault;

/// A call of the operator.
#[derive(Clone, Copy)]
pub(crate) enum OperatorCall<'a> {
    /// All tenants, and what they use.
    List,
    /// One tenant, and what it uses.
    Show(&'a [u8]),
    /// A new tenant, by the body.
    Add,
    /// Other bounds of a tenant, by the body.
    Change(&'a [u8]),
    /// A tenant goes, with all that it has.
    Remove(&'a [u8]),
    /// More segments, by the body.
    Grow,
    /// What all tenants use, for a dashboard.
    Metrics,
    /// The process answers.
    Health,
    /// Connections of clients are accepted, and each thread has moved lately.
    Ready,
    /// The server ends.
    Stop,
}

impl<'a> OperatorCall<'a> {
    /// The call of a method and a path.
    pub(crate) fn of(method: &str, path: &'a str) -> Result<OperatorCall<'a>, OperatorRefusal>
        ensures asks { IfOk result (λ call. Asks method.now path.now call) }
        ensures refused { IfErr result (λ refusal. refusal ≡ unasked path.now) }
    {
        if let Some(name) = path.strip_prefix("/tenants/") {
            let name = name.as_bytes();
            return match method {
                "GET" => Ok(OperatorCall::Show(name)),
                "PATCH" => Ok(OperatorCall::Change(name)),
                "DELETE" => Ok(OperatorCall::Remove(name)),
                _ => Err(unasked(path)),
            };
        }
        match (path, method) {
            ("/tenants", "GET") => Ok(OperatorCall::List),
            ("/tenants", "POST") => Ok(OperatorCall::Add),
            ("/pool", "POST") => Ok(OperatorCall::Grow),
            ("/metrics", "GET") => Ok(OperatorCall::Metrics),
            ("/health", "GET") => Ok(OperatorCall::Health),
            ("/ready", "GET") => Ok(OperatorCall::Ready),
            ("/stop", "POST") => Ok(OperatorCall::Stop),
            _ => Err(unasked(path)),
        }
    }
}

/// The path has calls, and is none of a tenant.
fn is_path(path: &str) -> bool
    ensures { result ≡ is_path path.now }
{
    path == "/tenants"
        || path == "/pool"
        || path == "/metrics"
        || path == "/health"
        || path == "/ready"
        || path == "/stop"
}

/// Why nothing is asked: no call has the path, or none of those by the method.
fn unasked(path: &str) -> OperatorRefusal
    ensures { result ≡ unasked path.now }
{
    if path.starts_with("/tenants/") || is_path(path) {
        OperatorRefusal::Method
    } else {
        OperatorRefusal::Path
    }
}

/// Why a request of the operator is refused.
#[derive(Clone, Copy, PartialEq, Eq)]
pub(crate) enum OperatorRefusal {
    /// What a registry tells.
    Fault(OperatorFault),
    /// The body can't be read.
    Unreadable,
    /// It did not bring the token.
    Token,
    Path,
    Method,
    /// The server does not accept connections yet.
    Starting,
    /// The server is about to end.
    Stopping,
    /// A thread that serves tenants has not moved lately.
    Stuck,
}

impl OperatorRefusal {
    pub(crate) const MEMORY: OperatorRefusal = OperatorRefusal::Fault(OperatorFault::Memory);

    /// The status of HTTP.
    pub(crate) fn status(self) -> u16
        ensures { result ≡ status_of self }
    {
        match self {
            OperatorRefusal::Fault(OperatorFault::Name | OperatorFault::Limits) => 422,
            OperatorRefusal::Fault(OperatorFault::Taken) => 409,
            OperatorRefusal::Fault(OperatorFault::NoTenant) | OperatorRefusal::Path => 404,
            OperatorRefusal::Fault(OperatorFault::Short) => 507,
            OperatorRefusal::Fault(OperatorFault::Memory)
            | OperatorRefusal::Starting
            | OperatorRefusal::Stopping
            | OperatorRefusal::Stuck => 503,
            OperatorRefusal::Unreadable => 400,
            OperatorRefusal::Token => 401,
            OperatorRefusal::Method => 405,
        }
    }

    /// The text of the body.
    pub(crate) fn text(self) -> &'static [u8]
        ensures { result.now ≡ text_of self }
    {
        match self {
            OperatorRefusal::Fault(OperatorFault::Name) => b"{\"error\":\"name\"}\n",
            OperatorRefusal::Fault(OperatorFault::Limits) => b"{\"error\":\"limits\"}\n",
            OperatorRefusal::Fault(OperatorFault::Taken) => b"{\"error\":\"taken\"}\n",
            OperatorRefusal::Fault(OperatorFault::NoTenant) => b"{\"error\":\"tenant\"}\n",
            OperatorRefusal::Fault(OperatorFault::Short) => b"{\"error\":\"short\"}\n",
            OperatorRefusal::Fault(OperatorFault::Memory) => b"{\"error\":\"memory\"}\n",
            OperatorRefusal::Unreadable => b"{\"error\":\"unreadable\"}\n",
            OperatorRefusal::Token => b"{\"error\":\"token\"}\n",
            OperatorRefusal::Path => b"{\"error\":\"path\"}\n",
            OperatorRefusal::Method => b"{\"error\":\"method\"}\n",
            OperatorRefusal::Starting => b"{\"error\":\"starting\"}\n",
            OperatorRefusal::Stopping => b"{\"error\":\"stopping\"}\n",
            OperatorRefusal::Stuck => b"{\"error\":\"stuck\"}\n",
        }
    }
}

impl From<OperatorFault> for OperatorRefusal {
    fn from(fault: OperatorFault) -> OperatorRefusal
        ensures { result ≡ OperatorRefusal.Fault fault }
    {
        OperatorRefusal::Fault(fault)
    }
}

impl From<AllocError> for OperatorRefusal {
    fn from(_: AllocError) -> OperatorRefusal
        ensures { result ≡ OperatorRefusal.Fault OperatorFault.Memory }
    {
        OperatorRefusal::MEMORY
    }
}

impl From<ConfigFault> for OperatorRefusal {
    fn from(fault: ConfigFault) -> OperatorRefusal
        ensures unreadable { fault ≡ ConfigFault.Unreadable → result ≡ OperatorRefusal.Unreadable }
        ensures memory { fault ≡ ConfigFault.Memory
            → result ≡ OperatorRefusal.Fault OperatorFault.Memory }
    {
        match fault {
            ConfigFault::Unreadable => OperatorRefusal::Unreadable,
            ConfigFault::Memory => OperatorRefusal::MEMORY,
        }
    }
}
