//! What the search finds.

use clause_core::Block;

/// What the search for a routine proof finds.
#[derive(Drop)]
pub enum Guided {
    /// The block of the first routine proof.
    Block(Block),
    /// No start gives a routine proof.
    Unfinished,
}
