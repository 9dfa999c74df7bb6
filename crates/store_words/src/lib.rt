//! What the store's definitions say of one key and of one record: the keys of an interval, the cells of a record, where
//! its value lies, and the row that a put leaves.
#![tactic(auto)]

mod cost;
mod interval;
mod row;
mod span;

pub use cost::{cost_delete, cost_put, growth_put};
pub use interval::is_in;
pub use row::row_put;
pub use span::{Span, value_span};
