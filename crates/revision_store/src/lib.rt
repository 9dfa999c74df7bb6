//! The multi-version store of one tenant: the changes that are kept, as records in cells.
#![tactic(auto)]

mod changes;
mod comparing;
mod cutting;
mod finding;
mod growing;
mod heads;
mod in_place;
mod keys;
mod latest;
mod log;
mod mixing;
mod overlaying;
mod pending;
mod pending_deletes;
mod pending_puts;
mod placing;
mod plan;
mod planning;
mod putting;
mod ranging;
mod reading;
mod records;
mod reserving;
mod rows;
mod space;
mod store;
mod taking;
mod walking;
mod weighing;

pub use comparing::holds;
pub use finding::FoundRange;
pub use in_place::FoundRows;
pub use keys::lies_in;
pub use pending::Pending;
pub use plan::Plan;
pub use planning::PlannedOp;
pub use records::Reader;
pub use store::Store;
pub use walking::Changes;
pub use weighing::weight_for;
