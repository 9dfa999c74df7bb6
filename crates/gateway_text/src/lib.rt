//! From a reply to its status and text.
#![tactic(auto)]

mod header;
mod in_place;
mod law;
mod leases;
mod list;
mod member;
mod refusal;
mod replies;
mod responses;
mod rows;
mod size;
mod streams;
mod text;

pub use in_place::write_in_place;
pub use law::answers_read_back;
pub use refusal::{MEMORY_TEXT, memory_text};
pub use replies::write_reply;
