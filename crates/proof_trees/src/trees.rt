//! The tree of a block, drawn depth first without recursion.

ghost use Rattle.std.specs.Prelude.{◌≡◌, ◌≢◌, ◌+◌, ◌++◌, ◌∷◌, [], OnOk, length};
ghost use Rattle.page_core.specs.Pages.{after};
ghost use Rattle.proof_trees.specs.Blocks.{IsWhole, block_of};
ghost use Rattle.proof_trees.specs.Nodes.{block_events, outline};
ghost use Rattle.proof_trees.specs.Pendings.{DrawsNext, IsPending};

use crate::blocks::NamedBlock;
use page_core::{Page, Part};
use term_core::OutOfMemory;

/// What is left to draw.
#[derive(Clone, Copy)]
pub(crate) enum Pending {
    /// The tree of a node.
    Tree(u32),
    /// Some cases of a node, from one on.
    Cases { parent: u32, index: u32, left: u32 },
    EndCase,
}

/// Draws the block from its first node down.
pub(crate) fn draw_tree(page: &mut Page, block: &NamedBlock<'_>) -> Result<(), OutOfMemory>
    requires { IsWhole block.now }
    ensures { OnOk result (page.new ≡ after page.old (block_events (block_of block.now))) }
{
    let mut pending = Vec::new(block.alloc);
    pending.push(Pending::Tree(0))?;
    while let Some(next) = pending.pop() {
        draw_next(page, block, next, &mut pending)?;
    }
    Ok(())
}

/// Draws what comes next, and puts back what is left of it.
fn draw_next(
    page: &mut Page,
    block: &NamedBlock<'_>,
    next: Pending,
    pending: &mut Vec<Pending>,
) -> Result<(), OutOfMemory>
    requires whole { IsWhole block.now }
    requires next { IsPending (outline (block_of block.now)) (length block.now.nodes.now) next }
    ensures { OnOk result (DrawsNext (outline (block_of block.now)) (length block.now.nodes.now)
        next pending.old.items pending.new.items page.old page.new) }
{
    match next {
        Pending::Tree(node) => begin_node(page, block, node, pending),
        Pending::Cases { left: 0, .. } => Ok(()),
        Pending::Cases {
            parent,
            index,
            left,
        } => begin_case(page, block, parent, index, left, pending),
        Pending::EndCase => page.end(Part::Case),
    }
}

/// Draws a node, and puts back what is below it.
fn begin_node(
    page: &mut Page,
    block: &NamedBlock<'_>,
    node: u32,
    pending: &mut Vec<Pending>,
) -> Result<(), OutOfMemory>
    requires { IsWhole block.now }
    ensures { OnOk result (DrawsNext (outline (block_of block.now)) (length block.now.nodes.now)
        (Pending.Tree node) pending.old.items pending.new.items page.old page.new) }
{
    block.draw_node(page, node)?;
    let left = block.child_count(node);
    if block.has_cases(node) {
        let cases = Pending::Cases {
            parent: node,
            index: 0,
            left,
        };
        return push(pending, cases);
    }
    if left == 0 {
        return Ok(());
    }
    push(pending, Pending::Tree(block.child(node, 0)))
}

/// Draws the heading of a case, and puts back its tree, its end and the cases after it.
fn begin_case(
    page: &mut Page,
    block: &NamedBlock<'_>,
    parent: u32,
    index: u32,
    left: u32,
    pending: &mut Vec<Pending>,
) -> Result<(), OutOfMemory>
    requires whole { IsWhole block.now }
    requires some { left ≢ 0 }
    requires all { index + left ≡ (outline (block_of block.now)).count parent }
    ensures { OnOk result (DrawsNext (outline (block_of block.now)) (length block.now.nodes.now)
        (Pending.Cases parent index left) pending.old.items pending.new.items page.old page.new) }
{
    let child = block.child(parent, index);
    page.begin(Part::Case)?;
    block.draw_heading(page, parent, index, child)?;
    let others = Pending::Cases {
        parent,
        index: index + 1,
        left: left - 1,
    };
    push(pending, others)?;
    push(pending, Pending::EndCase)?;
    push(pending, Pending::Tree(child))
}

fn push(pending: &mut Vec<Pending>, item: Pending) -> Result<(), OutOfMemory>
    ensures { OnOk result (pending.new.items ≡ pending.old.items ++ item ∷ []) }
{
    pending.push(item)?;
    Ok(())
}
