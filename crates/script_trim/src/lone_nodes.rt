//! The nodes that no other node has a key in common with.

ghost use Rattle.std.specs.Prelude.{◌≡◌, ℕ, Some, true, false, IfOk, IfSome, IsTrue, length, map};
ghost use Rattle.std.specs.Prelude.{nat_eq, slice_get};
ghost use Rattle.std.specs.HashSet.{contains};
ghost use Rattle.clause_core.specs.declared.clauses.Clause.{Clause as ClauseOf};
ghost use Rattle.inference_rules.specs.Answers.{clauses_of};
ghost use Rattle.script_trim.specs.Keys.{key_of};
ghost use Rattle.script_trim.specs.Sharing.{AreShared, IsAlone};

use clause_core::Clause;
use inference_rules::Node;
use std::alloc::Global;
use std::collections::HashSet;
use term_core::OutOfMemory;

/// Tells for each node whether no other one has a key by which it may close the node. If a node
/// has no key, no node is.
pub(crate) fn lone_nodes(
    alloc: Global,
    nodes: &[Node],
    keys: &[Option<u32>],
) -> Result<Vec<bool>, OutOfMemory>
    requires { keys.now ≡ map key_of (clauses_of nodes.now) }
    ensures long { IfOk result (λ flags. length flags.items ≡ length nodes.now) }
    ensures alone { IfOk result (λ flags. (i : ℕ) (c : ClauseOf) →
        slice_get flags.items i ≡ Some true → slice_get (clauses_of nodes.now) i ≡ Some c →
        IsAlone (clauses_of nodes.now) i c) }
{
    let Some(shared) = shared_keys(alloc, keys)? else {
        return Ok(vec![in alloc; false; nodes.len()]?);
    };
    let mut flags = Vec::with_capacity(alloc, nodes.len())?;
    for number in 0..nodes.len() {
        flags.push(is_lone(&nodes[number].clause, keys[number], &shared))?;
    }
    Ok(flags)
}

/// The keys that more than one node has, or None if a node has no key.
fn shared_keys(alloc: Global, keys: &[Option<u32>]) -> Result<Option<HashSet<u32>>, OutOfMemory>
    ensures { IfOk result (λ found. IfSome found (AreShared keys.now)) }
{
    let mut seen = HashSet::new(alloc);
    let mut shared = HashSet::new(alloc);
    for key in keys {
        let Some(key) = *key else {
            return Ok(None);
        };
        if seen.insert(key)? {
            continue;
        }
        shared.insert(key)?;
    }
    Ok(Some(shared))
}

/// Whether the clause of this key has one conclusion, and no other node has the key.
fn is_lone(clause: &Clause, key: Option<u32>, shared: &HashSet<u32>) -> bool
    ensures { IsTrue result → (k : ℕ) × (key ≡ Some k) × (length clause.now.conclusions ≡ 1)
        × (contains nat_eq shared.now k ≡ false) }
{
    match key {
        Some(key) => clause.conclusions.len() == 1 && !shared.contains(&key),
        None => false,
    }
}
