//! A script's lines, and an answer line for each.
//!
//! `run` answers a whole script: from the line that adds a tenant to the one that removes it, the tenant's lines
//! are those that it is answered alone. Its reader and its writer remember whether they failed. The other functions
//! are its parts, for what asks line by line: a line is read, a replay answers it, and the answer line is written.
#![tactic(auto)]

mod answer;
mod fault;
mod lines;
mod replay;
mod running;
mod script;
mod writer;

pub use answer::write_answer;
pub use fault::ReplayFault;
pub use lines::ScriptReader;
pub use replay::Replay;
pub use running::run;
pub use script::{Asked, read_line};
pub use writer::AnswerWriter;
