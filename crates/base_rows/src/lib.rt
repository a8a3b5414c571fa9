//! Calls that no run of the tables makes, each once with ample memory, and I/O over the operating system.
#![tactic(auto)]

#[cfg(test)]
mod outside;
#[cfg(test)]
mod places;
