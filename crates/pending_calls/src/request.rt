//! What a client asks.
ghost use Rattle.std.specs.Prelude.{◌≡◌, true, IfErr, IfOk};
ghost use Rattle.pending_calls.specs.Requests.{AsksTheSame, IsStepOf, IsUnread};

use etcd_types::{Call, Refusal, Step};
use fair_turns::{Share, TreeWeight};
use gateway_json::{StepReader, read_step};
use std::alloc::Global;
use std::sync::Arc;

/// A tenant as its requests name it.
#[derive(Drop)]
pub struct NamedTenant {
    /// The name that requests give it.
    pub name: Vec<u8>,
    /// Its number, which no other tenant of its server ever has.
    pub number: u64,
}

impl NamedTenant {
    /// Its number, which no other tenant of its server ever has.
    pub fn number(&self) -> u64
        ensures { result ≡ self.now.number }
    {
        self.number
    }
}

/// A call that a client may make, and the tenant that it names.
#[derive(Drop)]
pub struct Route {
    /// The tenant.
    pub tenant: Arc<NamedTenant>,
    /// What is called there.
    pub call: Call,
}

/// The body of a request, with its share of its tenant's budget if it is long.
pub struct RequestBody {
    /// Its bytes, as they came.
    pub bytes: Vec<u8>,
    /// None where it is short, or there was no memory for one.
    pub share: Option<Share>,
    /// What reading it may take beside, if it is long.
    pub tree: TreeWeight,
}

impl Drop for RequestBody {
    fn drop(self) {
        let RequestBody {
            bytes: _,
            share: _,
            tree: _,
        } = self;
    }
}

/// A call on a tenant, and the body that tells its step. Who waits for its answer and who serves it have it both, so that the
/// answer of another request is told from its own: of what comes by a channel no more is known than its type says.
#[derive(Drop)]
pub struct Request {
    /// What is called, and on which tenant.
    pub route: Route,
    /// What tells the step.
    pub body: RequestBody,
}

impl Request {
    /// How many bytes its body has.
    pub fn len(&self) -> usize {
        self.body.bytes.len()
    }

    /// What reading its body may take beside the body's bytes, if it is long.
    pub fn tree(&self) -> TreeWeight {
        self.body.tree
    }

    /// The bytes of its body.
    pub fn bytes(&self) -> &[u8]
        ensures { result.now ≡ self.now.body.bytes.items }
    {
        self.body.bytes.as_slice()
    }

    /// The step that its body is read as, or why there is none.
    pub fn read(&self, alloc: Global) -> Result<Step, Refusal>
        ensures step { IfOk result (λ step. IsStepOf self.now step) }
        ensures refused { IfErr result (λ r. IsUnread self.now r) }
    {
        read_step(alloc, self.route.call, self.bytes())
    }

    /// The same, by what reads one body after another.
    pub fn read_by(&self, alloc: Global, reader: &mut StepReader) -> Result<Step, Refusal>
        ensures step { IfOk result (λ step. IsStepOf self.now step) }
        ensures refused { IfErr result (λ r. IsUnread self.now r) }
    {
        reader.read(alloc, self.route.call, self.bytes())
    }

    /// The tenant that it names.
    pub fn tenant(&self) -> &NamedTenant
        ensures { result.now ≡ self.now.route.tenant.value }
    {
        &*self.route.tenant
    }

    /// Both are the same call on the same tenant by the same body.
    pub fn is_same(&self, other: &Request) -> bool
        ensures { result ≡ true → AsksTheSame self.now other.now }
    {
        self.tenant().number == other.tenant().number
            && self.tenant().name.as_slice() == other.tenant().name.as_slice()
            && self.route.call == other.route.call
            && self.bytes() == other.bytes()
    }
}
