//! What `allowed` answers.

/// Whether the children and the references of a block's nodes are allowed.
#[derive(Clone, Copy, Debug, PartialEq, Eq)]
pub enum Allowed {
    /// Each of them is.
    All,
    /// This is the first node, in the order of the block, with one that isn't.
    Not { node: u32 },
}
