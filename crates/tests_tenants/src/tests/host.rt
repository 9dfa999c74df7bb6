//! What a host answers, asked in the lines of a script, and what the gateway reads and writes.
mod front;
mod gateway;
