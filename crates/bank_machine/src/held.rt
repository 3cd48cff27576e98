//! A frame that waits.

/// A frame that waits: where its slots begin, where its code goes on, and what was left of the
/// budget when the call began that it waits for.
#[derive(Clone, Copy)]
pub(crate) struct Held {
    pub(crate) base: usize,
    pub(crate) next: usize,
    pub(crate) left: u32,
}
