//! What records cost in cells, how many cells a tenant may use, and the alarm that tells of too many.
#![tactic(auto)]

mod quota;

pub use quota::Quota;
pub use store_words::{cost_delete, cost_put};
