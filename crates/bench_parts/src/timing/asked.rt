//! Which part a program is asked for, and how it says what can be asked.
use anyhow::Result;
use std::env;
use std::rt::Env;

/// Whether the program's first argument names the part.
pub(crate) fn is_asked(rt: &(impl Env + Alloc), part: &str) -> Result<bool> {
    let mut words = env::args(rt)?;
    let _program = words.next();
    match words.next() {
        Some(word) => Ok(word.as_str() == part),
        None => Ok(false),
    }
}

/// Prints how a program is called: its name and what its argument can be.
pub(crate) fn print_usage(rt: &impl Print, call: &str) -> Result<()> {
    println!(rt; "usage: {call}")?;
    Ok(())
}
