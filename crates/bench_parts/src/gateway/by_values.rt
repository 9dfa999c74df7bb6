//! The same work through JSON values, as one would write it by hand.
mod reader;
mod writer;

pub(crate) use reader::read;
pub(crate) use writer::write;
