//! The block of a claim before any cut.

ghost use Rattle.std.specs.Prelude.{◌≡◌, ◌↔◌, ◌<◌, ◌≤◌, ℕ, List, [], ◌∷◌, Some, false, IfOk};
ghost use Rattle.std.specs.Prelude.{IsTrue, Contains, length, map, slice_get};
ghost use Rattle.clause_core.specs.declared.clauses.Clause.{Clause as ClauseOf};
ghost use Rattle.acceptance.specs.Strict.{first_child};
ghost use Rattle.inference_rules.specs.Answers.{clauses_of};
ghost use Rattle.inference_rules.specs.Nodes.{AreNodes};
ghost use Rattle.script_trim.specs.Fitting.{HasIdentity, OnlyItselfFits};
ghost use Rattle.script_trim.specs.Kept.{IsKept};
ghost use Rattle.script_trim.specs.Keys.{key_of};
ghost use Rattle.script_trim.specs.Placing.{IsPlaced};
ghost use Rattle.script_trim.specs.Sharing.{IsAlone};
ghost use Rattle.script_trim.specs.Trimmed.{proves};
ghost use Rattle.script_trim.specs.Trying.{AreLemmas};

use crate::blocks::KeptBlock;
use crate::copying::copy_steps;
use crate::fitting::{other_fits, own_fits};
use crate::keys::key;
use crate::lemmas::Lemmas;
use crate::lone_nodes::lone_nodes;
use crate::placing::{ClaimAt, NodeAt};
use crate::text_bounds::text_length;
use block_steps::{TakenSteps, take_steps};
use clause_core::{Step, is_identity, of_goal};
use inference_rules::Node;
use spec_admit::Admitted;
use spec_core::{Equation, Goal};
use std::alloc::Global;
use term_core::OutOfMemory;
use term_order::TermOrder;

/// The block of the claim, by which the goal is proved in these steps.
pub(crate) fn kept_block<O: TermOrder>(
    alloc: Global,
    admitted: &Admitted<O>,
    place: &ClaimAt,
    goal: &Goal,
    steps: &[Step],
) -> Result<KeptBlock, OutOfMemory>
    requires placed { IsPlaced (O.above admitted.now.order) admitted.now.spec place.now }
    requires goal { (k : ℕ) × (slice_get admitted.now.spec.goals k ≡ Some goal.now) }
    requires there { slice_get place.now.report.now.claims place.now.number
        ≡ Some (proves goal.now.name steps.now) }
    ensures steps { IfOk result (λ block. block.steps.items ≡ steps.now) }
    ensures kept { IfOk result (IsKept (O.above admitted.now.order) admitted.now.spec
        place.now.report.now place.now.number) }
{
    clause_core::one_relation(&admitted.order);
    clause_core::tidying_laws();
    let lemmas = place.lemmas;
    let proved = lemmas.numbers.as_slice();
    let start = of_goal(alloc, goal)?;
    let taken = take_steps(alloc, admitted, proved, start, steps)?;
    let clauses = taken.nodes.as_slice();
    let keys = keys_of(alloc, clauses)?;
    let hopeful = hopeful_nodes(alloc, admitted, lemmas, &taken, keys.as_slice())?;
    let bytes = text_length(alloc, &admitted.spec.sig, place)?;
    let steps = copy_steps(alloc, steps)?;
    let TakenSteps { nodes, links } = taken;
    Ok(KeptBlock {
        steps,
        nodes,
        keys,
        links,
        hopeful,
        bytes,
    })
}

/// The keys of the nodes.
fn keys_of(alloc: Global, nodes: &[Node]) -> Result<Vec<Option<u32>>, OutOfMemory>
    ensures { IfOk result (λ keys. keys.items ≡ map key_of (clauses_of nodes.now)) }
{
    let mut keys = Vec::with_capacity(alloc, nodes.len())?;
    for node in nodes {
        keys.push(key(&node.clause))?;
    }
    Ok(keys)
}

/// For each node whether a closing step may be defined there that isn't by the node itself.
fn hopeful_nodes<O: TermOrder>(
    alloc: Global,
    admitted: &Admitted<O>,
    lemmas: &Lemmas,
    taken: &TakenSteps,
    keys: &[Option<u32>],
) -> Result<Vec<bool>, OutOfMemory>
    requires nodes { AreNodes admitted.now.spec.sig (clauses_of taken.now.nodes.items) }
    requires keys { keys.now ≡ map key_of (clauses_of taken.now.nodes.items) }
    requires lemmas { AreLemmas admitted.now.spec lemmas.now }
    requires after { (k : ℕ) → k < length taken.now.links.items →
        k < first_child taken.now.links.items k }
    requires within { first_child taken.now.links.items (length taken.now.links.items)
        ≤ length taken.now.nodes.items }
    ensures long { IfOk result (λ flags. length flags.items ≡ length taken.now.links.items) }
    ensures hopeless { IfOk result (λ flags. (i : ℕ) → slice_get flags.items i ≡ Some false →
        OnlyItselfFits (O.above admitted.now.order) admitted.now.spec
        (Contains lemmas.now.numbers.items) (clauses_of taken.now.nodes.items)
        (first_child taken.now.links.items i) i) }
{
    let alone = lone_nodes(alloc, taken.nodes.as_slice(), keys)?;
    let alone = alone.as_slice();
    let mut flags = Vec::with_capacity(alloc, taken.links.len())?;
    let mut before = 1;
    for (node, made) in taken.links.as_slice().iter().enumerate() {
        let after = before + made.clauses.len();
        let at = NodeAt {
            number: node,
            before,
            alone: alone[node],
        };
        flags.push(is_hopeful(alloc, admitted, lemmas, taken, keys, at)?)?;
        before = after;
    }
    Ok(flags)
}

/// Whether a closing step may be defined at this node that isn't by the node itself. Nothing is
/// tried at a node without children, since nothing is to be cut there, nor if `trivial` is
/// defined in plain sight.
fn is_hopeful<O: TermOrder>(
    alloc: Global,
    admitted: &Admitted<O>,
    lemmas: &Lemmas,
    taken: &TakenSteps,
    keys: &[Option<u32>],
    at: NodeAt,
) -> Result<bool, OutOfMemory>
    requires nodes { AreNodes admitted.now.spec.sig (clauses_of taken.now.nodes.items) }
    requires keys { keys.now ≡ map key_of (clauses_of taken.now.nodes.items) }
    requires lemmas { AreLemmas admitted.now.spec lemmas.now }
    requires there { at.number < length taken.now.links.items }
    requires node { at.number < at.before }
    requires before { at.before ≤ length taken.now.nodes.items }
    requires alone { IsTrue at.alone → (c : ClauseOf) →
        slice_get (clauses_of taken.now.nodes.items) at.number ≡ Some c →
        IsAlone (clauses_of taken.now.nodes.items) at.number c }
    ensures { IfOk result (λ hopeful. hopeful ≡ false →
        OnlyItselfFits (O.above admitted.now.order) admitted.now.spec
        (Contains lemmas.now.numbers.items) (clauses_of taken.now.nodes.items) at.before
        at.number) }
{
    let links = taken.links.as_slice();
    let nodes = taken.nodes.as_slice();
    let conclusions = nodes[at.number].clause.conclusions.as_slice();
    if links[at.number].clauses.is_empty() || has_identity(conclusions) {
        return Ok(true);
    }
    let own = own_fits(alloc, admitted, lemmas, nodes, at)?;
    if !own.is_empty() {
        return Ok(true);
    }
    let others = other_fits(alloc, admitted, lemmas, nodes, keys, at)?;
    Ok(!others.is_empty())
}

/// Whether the sides of one of the equations are one term.
fn has_identity(equations: &[Equation]) -> bool
    ensures { IsTrue result ↔ HasIdentity equations.now }
{
    equations.iter().any(|equation| is_identity(equation))
}
