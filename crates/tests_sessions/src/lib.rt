//! The server's sessions under test: over a socket and over streams that fail, beside a call that is held, and where
//! one waits when the workers stop; what it refuses before it listens; and standing orders over days. What they answer over
//! sockets is asked of the program too, by `tools/check-server`.
#![tactic(auto)]

#[cfg(test)]
mod held;
#[cfg(test)]
mod orders;
#[cfg(test)]
mod peer;
#[cfg(test)]
mod refused;
#[cfg(test)]
mod serving;
#[cfg(test)]
mod streams;
#[cfg(test)]
mod tenants;
#[cfg(test)]
mod waiting;
