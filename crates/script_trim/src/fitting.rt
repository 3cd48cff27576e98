//! The closing steps that are defined at a node.

ghost use Rattle.std.specs.Prelude.{◌≡◌, ◌<◌, ◌≤◌, ◌^◌, [], ◌∷◌, Some, IfOk, IsTrue, OnOk};
ghost use Rattle.std.specs.Prelude.{Contains, MatchOption, length, map, slice_get, take};
ghost use Rattle.spec_core.specs.declared.records.Goal.{Goal as GoalOf};
ghost use Rattle.spec_core.specs.WellSorted.{IsWellSorted};
ghost use Rattle.clause_core.specs.declared.answers.Children.{Children as ChildrenOf};
ghost use Rattle.clause_core.specs.declared.clauses.Clause.{Clause as ClauseOf};
ghost use Rattle.clause_core.specs.declared.steps.Step.TheVariants.{Subsume as subsume};
ghost use Rattle.clause_core.specs.Tidied.{goal_clause};
ghost use Rattle.acceptance.specs.Blocks.{StepMakes};
ghost use Rattle.inference_rules.specs.Answers.{clauses_of};
ghost use Rattle.inference_rules.specs.Nodes.{AreNodes};
ghost use Rattle.script_trim.specs.Closing.{trivials, matches, matches_of, absurds};
ghost use Rattle.script_trim.specs.Closing.{own_variables as variables_of, subsume_each};
ghost use Rattle.script_trim.specs.Closing.{by_whole_lemma, by_each_lemma};
ghost use Rattle.script_trim.specs.Fitting.{own_steps, other_steps, AreFitting};
ghost use Rattle.script_trim.specs.Keys.{equation_key, key_of};
ghost use Rattle.script_trim.specs.Sharing.{IsAlone};
ghost use Rattle.script_trim.specs.Trying.{lemma_clause, AreLemmas, IsSpot, IsTried, Adds, AreFits};

use crate::blocks::Fit;
use crate::closing::own_variables;
use crate::keys::{conclusion_keys, may_close};
use crate::lemmas::{LemmaClause, Lemmas};
use crate::placing::NodeAt;
use crate::subsuming::subsumes;
use block_steps::copy_step;
use clause_core::{Children, Clause, Step, one_answer};
use inference_rules::{Node, StepError, children};
use spec_admit::Admitted;
use spec_core::Spec;
use std::alloc::Global;
use term_core::OutOfMemory;
use term_order::TermOrder;

/// A node at which closing steps are tried, by its number, over the nodes that are made before its
/// step is taken.
#[derive(Drop)]
pub(crate) struct Spot<'a> {
    pub spec: &'a Spec,
    /// The goals that may be used as lemmas, by their numbers.
    pub proved: &'a [u32],
    pub nodes: &'a [Node],
    pub number: u32,
    pub here: &'a Clause,
    /// Set only if no other node has a key by which it may close this one.
    pub alone: bool,
}

impl<'a> Spot<'a> {
    /// The node with this number, over these nodes.
    fn new(
        spec: &'a Spec,
        proved: &'a [u32],
        nodes: &'a [Node],
        number: u32,
        alone: bool,
    ) -> Spot<'a>
        requires fine { IsWellSorted spec.now }
        requires nodes { AreNodes spec.now.sig (clauses_of nodes.now) }
        requires few { length nodes.now < 2 ^ 32 }
        requires in_range { number < length nodes.now }
        requires alone { IsTrue alone → (c : ClauseOf) →
            slice_get (clauses_of nodes.now) number ≡ Some c →
            IsAlone (clauses_of nodes.now) number c }
        ensures is { IsSpot result }
        ensures spec { result.spec.now ≡ spec.now }
        ensures proved { result.proved.now ≡ proved.now }
        ensures nodes { result.nodes.now ≡ nodes.now }
        ensures number { result.number ≡ number }
    {
        let here = &nodes[number as usize].clause;
        Spot {
            spec,
            proved,
            nodes,
            number,
            here,
            alone,
        }
    }
}

/// The closing steps by its own equations that are defined at a node of the block with these nodes,
/// in their order, with what they make.
pub(crate) fn own_fits<O: TermOrder>(
    alloc: Global,
    admitted: &Admitted<O>,
    lemmas: &Lemmas,
    block_nodes: &[Node],
    at: NodeAt,
) -> Result<Vec<Fit>, OutOfMemory>
    requires nodes { AreNodes admitted.now.spec.sig (clauses_of block_nodes.now) }
    requires node { at.number < at.before }
    requires before { at.before ≤ length block_nodes.now }
    ensures { IfOk result (λ fits. AreFitting (O.above admitted.now.order) admitted.now.spec
        (Contains lemmas.now.numbers.items) own_steps (clauses_of block_nodes.now) at.before
        at.number fits.items) }
{
    // More nodes than there are numbers count as want of memory: a block has 10,000 at most.
    if at.before > u32::MAX as usize {
        return Err(OutOfMemory);
    }
    let proved = lemmas.numbers.as_slice();
    let spot = Spot::new(
        &admitted.spec,
        proved,
        &block_nodes[..at.before],
        at.number as u32,
        false,
    );
    try_equations(alloc, &admitted.order, &spot)
}

/// The closing steps by another clause that are defined at a node of the block with these nodes, in
/// their order, with what they make. No such step is made unless the clause says no less than the
/// node's, which is asked only if keys agree.
pub(crate) fn other_fits<O: TermOrder>(
    alloc: Global,
    admitted: &Admitted<O>,
    lemmas: &Lemmas,
    block_nodes: &[Node],
    keys: &[Option<u32>],
    at: NodeAt,
) -> Result<Vec<Fit>, OutOfMemory>
    requires nodes { AreNodes admitted.now.spec.sig (clauses_of block_nodes.now) }
    requires keys { keys.now ≡ map key_of (clauses_of block_nodes.now) }
    requires lemmas { AreLemmas admitted.now.spec lemmas.now }
    requires node { at.number < at.before }
    requires before { at.before ≤ length block_nodes.now }
    requires alone { IsTrue at.alone → (c : ClauseOf) →
        slice_get (clauses_of block_nodes.now) at.number ≡ Some c →
        IsAlone (clauses_of block_nodes.now) at.number c }
    ensures { IfOk result (λ fits. AreFitting (O.above admitted.now.order) admitted.now.spec
        (Contains lemmas.now.numbers.items) other_steps (clauses_of block_nodes.now) at.before
        at.number fits.items) }
{
    // More nodes than there are numbers count as want of memory: a block has 10,000 at most.
    if at.before > u32::MAX as usize {
        return Err(OutOfMemory);
    }
    let proved = lemmas.numbers.as_slice();
    let spot = Spot::new(
        &admitted.spec,
        proved,
        &block_nodes[..at.before],
        at.number as u32,
        at.alone,
    );
    let order = &admitted.order;
    try_clauses(alloc, order, &spot, &lemmas.clauses, &keys[..at.before])
}

/// The step with what it makes at the node of the block with these nodes, or None if it isn't
/// defined.
pub(crate) fn fit_of<O: TermOrder>(
    alloc: Global,
    admitted: &Admitted<O>,
    lemmas: &Lemmas,
    block_nodes: &[Node],
    at: NodeAt,
    step: &Step,
) -> Result<Option<Fit>, OutOfMemory>
    requires nodes { AreNodes admitted.now.spec.sig (clauses_of block_nodes.now) }
    requires node { at.number < at.before }
    requires before { at.before ≤ length block_nodes.now }
    ensures { IfOk result (λ found. MatchOption found
        ((made : ChildrenOf) → StepMakes (O.above admitted.now.order) admitted.now.spec
        (Contains lemmas.now.numbers.items) (take at.before (clauses_of block_nodes.now)) at.number
        step.now made → ⊥)
        (λ fit. (fit.step ≡ step.now) × StepMakes (O.above admitted.now.order) admitted.now.spec
        (Contains lemmas.now.numbers.items) (take at.before (clauses_of block_nodes.now)) at.number
        step.now fit.made)) }
{
    // More nodes than there are numbers count as want of memory: a block has 10,000 at most.
    if at.before > u32::MAX as usize {
        return Err(OutOfMemory);
    }
    let proved = lemmas.numbers.as_slice();
    let spot = Spot::new(
        &admitted.spec,
        proved,
        &block_nodes[..at.before],
        at.number as u32,
        false,
    );
    match made_by(alloc, &admitted.order, &spot, step)? {
        Some(made) => {
            let step = copy_step(alloc, step)?;
            Ok(Some(Fit { step, made }))
        }
        None => Ok(None),
    }
}

/// The closing steps by its own equations that are defined at the node, with what they make.
fn try_equations<O: TermOrder>(
    alloc: Global,
    order: &O,
    spot: &Spot,
) -> Result<Vec<Fit>, OutOfMemory>
    requires { IsSpot spot.now }
    ensures { IfOk result (λ fits. AreFits (O.above order.now) spot.now own_steps fits.items) }
{
    let mut fits = Vec::new(alloc);
    try_trivials(alloc, order, spot, &mut fits)?;
    try_matches(alloc, order, spot, &mut fits)?;
    try_absurds(alloc, order, spot, &mut fits)?;
    Ok(fits)
}

/// The closing steps by another clause that are defined at the node, with what they make, whatever
/// nodes come later.
fn try_clauses<O: TermOrder>(
    alloc: Global,
    order: &O,
    spot: &Spot,
    lemmas: &[LemmaClause],
    keys: &[Option<u32>],
) -> Result<Vec<Fit>, OutOfMemory>
    requires spot { IsSpot spot.now }
    requires lemmas { lemmas.now ≡ map lemma_clause spot.now.spec.now.goals }
    requires keys { keys.now ≡ map key_of (clauses_of spot.now.nodes.now) }
    ensures { IfOk result (λ fits. AreFits (O.above order.now) spot.now other_steps fits.items) }
{
    let wanted = conclusion_keys(alloc, spot.here)?;
    let mut fits = Vec::new(alloc);
    try_nodes(alloc, order, spot, keys, &wanted, &mut fits)?;
    try_lemmas(alloc, order, spot, lemmas, &wanted, &mut fits)?;
    Ok(fits)
}

fn try_trivials<O: TermOrder>(
    alloc: Global,
    order: &O,
    spot: &Spot,
    fits: &mut Vec<Fit>,
) -> Result<(), OutOfMemory>
    requires { IsSpot spot.now }
    ensures { OnOk result (Adds (O.above order.now) spot.now (trivials spot.now.here.now)
        fits.old.items fits.new.items) }
{
    for place in 0..spot.here.conclusions.len() {
        try_step(alloc, order, spot, Step::Trivial(place as u16 + 1), fits)?;
    }
    Ok(())
}

fn try_matches<O: TermOrder>(
    alloc: Global,
    order: &O,
    spot: &Spot,
    fits: &mut Vec<Fit>,
) -> Result<(), OutOfMemory>
    requires { IsSpot spot.now }
    ensures { OnOk result (Adds (O.above order.now) spot.now (matches spot.now.here.now)
        fits.old.items fits.new.items) }
{
    for place in 0..spot.here.conclusions.len() {
        try_matches_of(alloc, order, spot, place as u16 + 1, fits)?;
    }
    Ok(())
}

/// The conclusion with this number with each premise.
fn try_matches_of<O: TermOrder>(
    alloc: Global,
    order: &O,
    spot: &Spot,
    conclusion: u16,
    fits: &mut Vec<Fit>,
) -> Result<(), OutOfMemory>
    requires { IsSpot spot.now }
    ensures { OnOk result (Adds (O.above order.now) spot.now
        (matches_of spot.now.here.now conclusion) fits.old.items fits.new.items) }
{
    for place in 0..spot.here.premises.len() {
        let step = Step::Match(conclusion, place as u16 + 1);
        try_step(alloc, order, spot, step, fits)?;
    }
    Ok(())
}

fn try_absurds<O: TermOrder>(
    alloc: Global,
    order: &O,
    spot: &Spot,
    fits: &mut Vec<Fit>,
) -> Result<(), OutOfMemory>
    requires { IsSpot spot.now }
    ensures { OnOk result (Adds (O.above order.now) spot.now (absurds spot.now.here.now)
        fits.old.items fits.new.items) }
{
    for place in 0..spot.here.premises.len() {
        try_step(alloc, order, spot, Step::Absurd(place as u16 + 1), fits)?;
    }
    Ok(())
}

/// The nodes so far, each as it is. Nothing is walked if the key of one tells that it can't
/// close the node, and no key is looked at if the node is alone.
fn try_nodes<O: TermOrder>(
    alloc: Global,
    order: &O,
    spot: &Spot,
    keys: &[Option<u32>],
    wanted: &[u32],
    fits: &mut Vec<Fit>,
) -> Result<(), OutOfMemory>
    requires spot { IsSpot spot.now }
    requires keys { keys.now ≡ map key_of (clauses_of spot.now.nodes.now) }
    requires wanted { wanted.now ≡ map equation_key spot.now.here.now.conclusions }
    ensures { OnOk result (Adds (O.above order.now) spot.now
        (subsume_each 0 (clauses_of spot.now.nodes.now)) fits.old.items fits.new.items) }
{
    clause_core::one_relation(order);
    if spot.alone {
        return Ok(());
    }
    for (number, key) in keys.iter().enumerate() {
        if !may_close(wanted, *key) {
            continue;
        }
        try_node(alloc, order, spot, number as u32, fits)?;
    }
    Ok(())
}

/// The node with this number as it is, unless it is the spot's: a node can't be closed by itself.
fn try_node<O: TermOrder>(
    alloc: Global,
    order: &O,
    spot: &Spot,
    number: u32,
    fits: &mut Vec<Fit>,
) -> Result<(), OutOfMemory>
    requires spot { IsSpot spot.now }
    requires there { number < length spot.now.nodes.now }
    ensures { OnOk result ((c : ClauseOf) →
        slice_get (clauses_of spot.now.nodes.now) number ≡ Some c →
        Adds (O.above order.now) spot.now (subsume number (variables_of c) ∷ []) fits.old.items
        fits.new.items) }
{
    clause_core::one_relation(order);
    if number == spot.number {
        return Ok(());
    }
    let clause = &spot.nodes[number as usize].clause;
    if !subsumes(spot.here, clause) {
        return Ok(());
    }
    let terms = own_variables(alloc, clause)?;
    try_step(alloc, order, spot, Step::Subsume(number, terms), fits)
}

/// The goals, each as it is. Nothing is walked if the key of one tells that it can't close the
/// node.
fn try_lemmas<O: TermOrder>(
    alloc: Global,
    order: &O,
    spot: &Spot,
    lemmas: &[LemmaClause],
    wanted: &[u32],
    fits: &mut Vec<Fit>,
) -> Result<(), OutOfMemory>
    requires spot { IsSpot spot.now }
    requires lemmas { lemmas.now ≡ map lemma_clause spot.now.spec.now.goals }
    requires wanted { wanted.now ≡ map equation_key spot.now.here.now.conclusions }
    ensures { OnOk result (Adds (O.above order.now) spot.now
        (by_each_lemma spot.now.spec.now.goals) fits.old.items fits.new.items) }
{
    for (number, lemma) in lemmas.iter().enumerate() {
        if !may_close(wanted, lemma.key) {
            continue;
        }
        try_lemma(alloc, order, spot, number, &lemma.clause, fits)?;
    }
    Ok(())
}

/// The goal with this number as it is, by its clause.
fn try_lemma<O: TermOrder>(
    alloc: Global,
    order: &O,
    spot: &Spot,
    number: usize,
    clause: &Clause,
    fits: &mut Vec<Fit>,
) -> Result<(), OutOfMemory>
    requires spot { IsSpot spot.now }
    requires there { number < length spot.now.spec.now.goals }
    requires clause { (goal : GoalOf) → slice_get spot.now.spec.now.goals number ≡ Some goal →
        clause.now ≡ goal_clause goal }
    ensures { OnOk result ((goal : GoalOf) →
        slice_get spot.now.spec.now.goals number ≡ Some goal →
        Adds (O.above order.now) spot.now (by_whole_lemma goal ∷ []) fits.old.items
        fits.new.items) }
{
    if !subsumes(spot.here, clause) {
        return Ok(());
    }
    let name = spot.spec.goals.as_slice()[number].name.copy(alloc)?;
    let terms = own_variables(alloc, clause)?;
    try_step(alloc, order, spot, Step::ByLemma(name, terms), fits)
}

/// Adds the step with what it makes, if it is defined.
fn try_step<O: TermOrder>(
    alloc: Global,
    order: &O,
    spot: &Spot,
    step: Step,
    fits: &mut Vec<Fit>,
) -> Result<(), OutOfMemory>
    requires { IsSpot spot.now }
    ensures { OnOk result
        (Adds (O.above order.now) spot.now (step ∷ []) fits.old.items fits.new.items) }
{
    let found = made_by(alloc, order, spot, &step)?;
    match found {
        Some(made) => {
            fits.push(Fit { step, made })?;
            Ok(())
        }
        None => Ok(()),
    }
}

/// What the step makes, or None if it isn't defined.
fn made_by<O: TermOrder>(
    alloc: Global,
    order: &O,
    spot: &Spot,
    step: &Step,
) -> Result<Option<Children>, OutOfMemory>
    requires { IsSpot spot.now }
    ensures { IfOk result (IsTried (O.above order.now) spot.now step.now) }
{
    one_answer(order);
    match children(
        alloc,
        spot.spec,
        order,
        spot.proved,
        spot.nodes,
        spot.number,
        step,
    ) {
        Ok(made) => Ok(Some(made)),
        Err(StepError::Why(_)) => Ok(None),
        Err(StepError::OutOfMemory) => Err(OutOfMemory),
    }
}
