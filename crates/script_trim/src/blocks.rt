//! The block of a claim that is trimmed, and a closing step that fits a node.

use clause_core::{Children, Step};
use inference_rules::Node;

/// The block of a proved claim, with what its steps make.
#[derive(Drop)]
pub(crate) struct KeptBlock {
    pub steps: Vec<Step>,
    /// The clauses of its nodes.
    pub nodes: Vec<Node>,
    /// For each node its key.
    pub keys: Vec<Option<u32>>,
    /// For each step the relations of its children and its references.
    pub links: Vec<Children>,
    /// For each node whether a closing step may be defined there that isn't by the node itself.
    pub hopeful: Vec<bool>,
    /// How many bytes the text of the claim has at most.
    pub bytes: usize,
}

/// A closing step that is defined at a node, with what it makes: references alone.
#[derive(Drop)]
pub(crate) struct Fit {
    pub step: Step,
    pub made: Children,
}

/// A closing step that closes a node, and the steps that are left.
#[derive(Drop)]
pub(crate) struct NodeCut {
    pub node: usize,
    pub fit: Fit,
    pub rest: Vec<Step>,
}
