//! Files to read and sinks to write to, as traits whose contracts say what each call did.
//!
//! Uses names, lists and want of memory of term_core. The crates above are generic over [`Files`]
//! and [`Sink`], and write by [`write_all`]. A failure comes only if the object counted a fault.
//! [`MemFiles`], [`SureFiles`], [`MemSink`] and [`SureSink`] do the same in memory, exactly.
//! [`StdFiles`] and [`StdSink`] reach the system. No contract says what they read and wrote, so
//! they have a few lines each.
//!
//! Proved: Each clause of `Files` and `Sink`, for the stores and sinks in memory; `write_all`;
//! what the constructors hold.
//!
//! Tested: `StdFiles` and `StdSink` on a file that the test writes. An interrupted call is made
//! again up to a hundred times. Reads and writes of the system that fail are reported as such,
//! through the program (`tests/faults`).
//!
//! Neither: What the system's files hold, and that the adapters recognize long files rightly.
#![tactic(auto)]

mod adapters;
mod asked;
mod faults;
mod plan;
mod sinks;
mod stores;
#[cfg(test)]
mod tests;
mod traits;

pub use adapters::{StdFiles, StdSink};
pub use faults::{ReadError, WriteError};
pub use sinks::{MemSink, SureSink};
pub use stores::{MemFiles, SureFiles};
pub use traits::{Files, Sink, write_all};
