//! How many bytes a claim may have.

/// The most bytes that the lines of a claim may have in a report, with their newlines.
pub const MOST_CLAIM_BYTES: usize = 300_000;
