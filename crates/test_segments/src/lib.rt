//! Sources of segments for tests: two that differ in the order in which they give their segments,
//! and one whose segments come filled.
#![tactic(auto)]

mod shelf;

pub use shelf::{SOURCES, Shelf, Source};
