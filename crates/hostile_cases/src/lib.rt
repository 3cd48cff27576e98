//! Tests of `run` when it is used badly: reads and writes fail, sinks are slow, texts are cut.
//!
//! Uses the program's top call and promises nothing itself. The contract of `run` says which
//! texts and statuses may come; these tables show which ones do come, byte for byte. What they
//! want is written by hand, or follows from the text of the case: a place is marked in it, and a
//! line is counted by its newlines.
//!
//! Proved: It is safe and ends.
//!
//! Tested: `run` over files in memory, what was written and the status: each read and each write
//! fails in turn, by whole pieces and byte by byte; a sink takes one byte a call; a sink is
//! interrupted up to a hundred times before each byte, and once more; each prefix of a report and
//! of a specification; at and past each limit of texts, terms, reports and clauses.
#![tactic(auto)]

#[cfg(test)]
mod calls;
#[cfg(test)]
mod clause_limits;
#[cfg(test)]
mod cuts;
#[cfg(test)]
mod faults;
#[cfg(test)]
mod memory;
#[cfg(test)]
mod patterns;
#[cfg(test)]
mod report_limits;
#[cfg(test)]
mod sinks;
#[cfg(test)]
mod slow_sinks;
#[cfg(test)]
mod text_limits;
#[cfg(test)]
mod texts;
