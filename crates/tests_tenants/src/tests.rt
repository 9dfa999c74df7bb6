//! What one machine, a host of many and a registry answer: in steps, in bytes, in the lines of a script, and to callers.
mod calls;
mod host;
mod machine;
mod replay;
mod rows;
mod segments;
mod streams;
