//! Tests of command_line: what lists of words ask for.
//!
//! The definitions of command_line say it by `clap`'s own meaning of a simple command. These
//! tables show that this meaning is the one that is wanted. They have a crate of their own, since
//! a crate with tests is proved once more with them.
//!
//! Proved: It is safe and ends.
//!
//! Tested: Lists of words, and options in all orders.
#![tactic(auto)]

#[cfg(test)]
mod orders;
#[cfg(test)]
mod tables;
#[cfg(test)]
mod tellings;
