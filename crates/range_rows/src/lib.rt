//! What a range makes of the rows of its interval: its filters, its order, its limit, and what is given of a row.
#![tactic(auto)]

mod answering;
mod sorting;
mod taking;

pub use answering::{is_by_key, is_cut, is_wanted, limit_of, needs_values, shown, wants_all};
pub use taking::{keep_few, keep_first, most_held};
