//! The last step that refers to each node.

ghost use Rattle.std.specs.Prelude.{◌≡◌, IfOk, length};
ghost use Rattle.replay_check.specs.Kept.{referred, TellLastUses};

use clause_core::Step;
use std::alloc::Global;
use term_core::OutOfMemory;

/// For each node that has a step of these, the last step that refers to it, or 0 if none does.
pub(crate) fn last_uses(alloc: Global, steps: &[Step]) -> Result<Vec<usize>, OutOfMemory>
    ensures long { IfOk result (λ lasts. length lasts.items ≡ length steps.now) }
    ensures last { IfOk result (λ lasts. TellLastUses steps.now lasts.items) }
{
    let mut lasts = vec![in alloc; 0usize; steps.len()]?;
    for (number, step) in steps.iter().enumerate() {
        let Some(node) = referred_node(step) else {
            continue;
        };
        let node = node as usize;
        if node >= lasts.len() {
            continue;
        }
        lasts[node] = number;
    }
    Ok(lasts)
}

/// The node that the step refers to by its number.
pub(crate) fn referred_node(step: &Step) -> Option<u32>
    ensures { result ≡ referred step.now }
{
    match step {
        Step::Subsume(node, _) => Some(*node),
        Step::Hyp(node, _, _, _) => Some(*node),
        _ => None,
    }
}
