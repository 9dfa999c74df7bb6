//! Laws of the written machine: what joins a history that never forgets to a store that does.
//!
//! Each function has an empty body, and its contract is a record of laws of `etcd_model`'s definitions, which
//! stand in `specs/` in plain words. A proof cites a law by the lemma of `proofs/` that has its name.
#![tactic(auto)]

ghost use Rattle.model_laws.specs.Apart.{ApartLaws};
ghost use Rattle.model_laws.specs.Attached.{AttachedLaws};
ghost use Rattle.model_laws.specs.Bounds.{BoundLaws};
ghost use Rattle.model_laws.specs.Holding.{HoldingLaws};
ghost use Rattle.model_laws.specs.Keeping.{KeepingLaws};
ghost use Rattle.model_laws.specs.Leases.{LeaseLaws};
ghost use Rattle.model_laws.specs.Numbers.{NumberLaws};
ghost use Rattle.model_laws.specs.Once.{OnceLaws};
ghost use Rattle.model_laws.specs.Pending.{PendingLaws};
ghost use Rattle.model_laws.specs.Recording.{RecordingLaws};
ghost use Rattle.model_laws.specs.Refusals.{RefusalLaws};
ghost use Rattle.model_laws.specs.Runs.{RunLaws};
ghost use Rattle.model_laws.specs.Space.{SpaceLaws};
ghost use Rattle.model_laws.specs.Worlds.{WorldLaws};

/// The recorded changes of a history are the history.
pub fn recording_laws()
    ensures { RecordingLaws }
{}

/// What a compaction keeps, and what can still be read of it.
pub fn keeping_laws()
    ensures { KeepingLaws }
{}

/// What is kept of a history answers as the history does: a step over it is the step over the history.
pub fn holding_laws()
    ensures { HoldingLaws }
{}

/// What is read with some changes pending as one more revision.
pub fn pending_laws()
    ensures { PendingLaws }
{}

/// No revision changes a key twice.
pub fn once_laws()
    ensures { OnceLaws }
{}

/// Each recorded change of a key is alone at its revision.
pub fn apart_laws()
    ensures { ApartLaws }
{}

/// The numbers of a row are within the revision that wrote it.
pub fn number_laws()
    ensures { NumberLaws }
{}

/// What a step makes of the cells in use.
pub fn space_laws()
    ensures { SpaceLaws }
{}

/// What holds of every state that a run from an opening comes to.
pub fn run_laws()
    ensures { RunLaws }
{}

/// What a refusal leaves, and its number.
pub fn refusal_laws()
    ensures { RefusalLaws }
{}

/// The ID that is chosen for a lease, and the order in which leases end.
pub fn lease_laws()
    ensures { LeaseLaws }
{}

/// Which keys a lease holds, and what writes, ends of leases and compactions make of them.
pub fn attached_laws()
    ensures { AttachedLaws }
{}

/// Over what is kept, the revisions, a tenant's leases and the counter of their IDs stay within bounds.
pub fn bound_laws()
    ensures { BoundLaws }
{}

/// What a tenant is answered alone depends on its state and its own events, and on nothing else.
pub fn world_laws()
    ensures { WorldLaws }
{}
