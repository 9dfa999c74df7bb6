//! A request that an event loop may serve itself.
ghost use Rattle.std.specs.Prelude.{◌≡◌, true};
ghost use Rattle.etcd_types.specs.Steps.{is_brief};
ghost use Rattle.pending_calls.specs.Requests.{IsStepOf};

use crate::told::OpenRequest;
use etcd_types::Step;

/// A request whose step looks at one key at most.
#[derive(Drop)]
pub struct BriefRequest {
    /// What is asked.
    pub asked: OpenRequest,
    /// The step that its body is read as.
    pub step: Step,
    pub ghost read: { IsStepOf asked.request step },
    pub ghost brief: { is_brief step ≡ true },
}
