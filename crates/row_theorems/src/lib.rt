//! The rows of `tests/rows` as theorems about the written machine.
//!
//! `tools/make-row-theorems` writes them into `proofs/Rows`. Each computes what the definitions answer to one
//! tenant's own lines, so a row tests the definitions without the program.
#![tactic(auto)]
