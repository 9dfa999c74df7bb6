//! From a request's method, target and body to the step that it asks for.
#![tactic(auto)]

mod body;
mod call;
mod choice;
mod kv;
mod lease;
mod list;
mod maintenance;
mod member;
mod names;
mod others;
mod pair;
mod paths;
mod step_reader;
mod txn;
mod watch;

pub use base64_text::bytes_of_text;
pub use call::{read_call, read_posted, read_step};
pub use member::read_unsigned;
pub use paths::{Target, call_of, target_of};
pub use step_reader::StepReader;
