//! The entries `subsume` and `by-lemma`.

ghost use Rattle.std.specs.Prelude.{◌≡◌, [], ◌∷◌, IfOk, length};
ghost use Rattle.clause_core.specs.Clauses.{ClauseIsSorted};
ghost use Rattle.fitting_lists.specs.Answering.{AreVariables};
ghost use Rattle.fitting_lists.specs.Fitting.{both_sides};
ghost use Rattle.routine_proof.specs.Candidates.{each};
ghost use Rattle.proof_search.specs.Chosen.{ancestors_at, subsumptions_by, lemma_instances_by};
ghost use Rattle.proof_search.specs.Leading.{IsLeading};
ghost use Rattle.proof_search.specs.Taking.{IsAt, IsFound, asks_of};
ghost use Rattle.proof_search.specs.Referring.{target_of, closing_step, closing_asks};
ghost use Rattle.proof_search.specs.Referring.{rewriting_step, closings, closing, closing_pair};
ghost use Rattle.proof_search.specs.SideSpines.{spines_of, side_spines};

use crate::at::{Asked, At, taken};
use crate::leading_places::{LeadingEquation, leading_at};
use crate::side_spines::SideSpines;
use clause_core::{Clause, Place, Step, tidying_laws};
use fitting_lists::{Matcher, copies, spines_may_become};
use routine_proof::Move;
use spec_core::Equation;
use std::alloc::Global;
use term_core::{Name, OutOfMemory, Seq, Term};
use term_order::TermOrder;

/// Which clause a step refers to: that of the node with this number, or that of the goal of this
/// name.
#[derive(Drop)]
pub(crate) enum Referral<'a> {
    Node(u32),
    Goal(&'a Name),
}

impl<'a> Referral<'a> {
    /// The step that closes a node by the instance with these terms.
    fn closing_step(&self, alloc: Global, terms: Seq<Term>) -> Result<Step, OutOfMemory>
        ensures { IfOk result (λ made. made ≡ closing_step (target_of self.now) terms) }
    {
        match self {
            Referral::Node(number) => Ok(Step::Subsume(*number, terms)),
            Referral::Goal(name) => Ok(Step::ByLemma(name.copy(alloc)?, terms)),
        }
    }

    fn closing_asks(&self) -> Asked
        ensures { asks_of result ≡ closing_asks (target_of self.now) }
    {
        match self {
            Referral::Node(_) => Asked::ReferenceNotNeither,
            Referral::Goal(_) => Asked::Nothing,
        }
    }

    /// The step that rewrites the term at the place by the instance with these terms, from left to
    /// right if `left` is true.
    pub(crate) fn rewriting_step(
        &self,
        alloc: Global,
        terms: Seq<Term>,
        place: Place,
        left: bool,
    ) -> Result<Step, OutOfMemory>
        ensures { IfOk result (λ made.
            made ≡ rewriting_step (target_of self.now) place terms left) }
    {
        match self {
            Referral::Node(number) => Ok(Step::Hyp(*number, terms, place, left)),
            Referral::Goal(name) => Ok(Step::Lemma(name.copy(alloc)?, terms, place, left)),
        }
    }
}

/// A clause that is referred to, with its leading equation.
#[derive(Drop)]
struct Closing<'a> {
    referral: &'a Referral<'a>,
    clause: &'a Clause,
    equation: &'a Equation,
    spines: SideSpines,
}

/// The sides that a leading equation is to become, with their spines.
#[derive(Clone, Copy)]
struct Wanted<'a> {
    left: &'a Term,
    right: &'a Term,
    spines: SideSpines,
}

/// The first step by an ancestor that closes the node.
pub(crate) fn first_subsumption<O: TermOrder>(
    alloc: Global,
    order: &O,
    at: &At,
) -> Result<Option<Move>, OutOfMemory>
    requires { IsAt at.now }
    ensures { IfOk result (IsFound (O.above order.now) at.now
        (each (ancestors_at at.now) (subsumptions_by at.now))) }
{
    let ancestors = at.building.ancestors(alloc, at.number)?;
    let mut matcher = Matcher::new(alloc);
    for number in ancestors.as_slice() {
        let found = subsumption_by(alloc, order, at, &mut matcher, *number)?;
        if found.is_some() {
            return Ok(found);
        }
    }
    Ok(None)
}

/// The first step by the node with this number that closes the node. If the spines tell that there
/// is none, no equation is gone through.
fn subsumption_by<'a, O: TermOrder>(
    alloc: Global,
    order: &O,
    at: &At<'a>,
    matcher: &mut Matcher<'a>,
    number: u32,
) -> Result<Option<Move>, OutOfMemory>
    requires { IsAt at.now }
    ensures { IfOk result (IsFound (O.above order.now) at.now (subsumptions_by at.now number)) }
{
    match at.nodes.get(number as usize) {
        None => Ok(None),
        Some(node) => {
            spines_may_become();
            let place = &at.building.leadings[number as usize];
            if !at.may_close(place) {
                return Ok(None);
            }
            let referral = Referral::Node(number);
            let first = leading_at(&node.clause, *place);
            first_closing(alloc, order, at, matcher, &referral, &node.clause, first)
        }
    }
}

/// The first step by a lemma that closes the node.
pub(crate) fn first_lemma_instance<O: TermOrder>(
    alloc: Global,
    order: &O,
    at: &At,
) -> Result<Option<Move>, OutOfMemory>
    requires { IsAt at.now }
    ensures { IfOk result (IsFound (O.above order.now) at.now
        (each at.now.setting.now.goals.items (lemma_instances_by at.now))) }
{
    tidying_laws();
    let setting = at.setting;
    let mut matcher = Matcher::new(alloc);
    for goal in &setting.goals {
        let referral = Referral::Goal(&goal.name);
        let first = leading_at(&goal.clause, goal.leading);
        let found = first_closing(
            alloc,
            order,
            at,
            &mut matcher,
            &referral,
            &goal.clause,
            first,
        )?;
        if found.is_some() {
            return Ok(found);
        }
    }
    Ok(None)
}

/// The first step by an instance of the clause that closes the node: one by which its leading
/// equation becomes an equation of the same kind.
fn first_closing<'a, O: TermOrder>(
    alloc: Global,
    order: &O,
    at: &At<'a>,
    matcher: &mut Matcher<'a>,
    referral: &Referral,
    clause: &Clause,
    first: Option<LeadingEquation>,
) -> Result<Option<Move>, OutOfMemory>
    requires at { IsAt at.now }
    requires sorted { ClauseIsSorted at.now.setting.now.spec.now.sig clause.now }
    requires leading { IsLeading clause.now first }
    ensures { IfOk result (IsFound (O.above order.now) at.now
        (closings at.now.here.now (target_of referral.now) clause.now)) }
{
    let Some(first) = first else {
        return Ok(None);
    };
    let by = Closing {
        referral,
        clause,
        equation: first.equation,
        spines: first.spines,
    };
    let here = at.here;
    let equations = here.equations(first.conclusion);
    let spines = at.spines(first.conclusion);
    for index in 0..equations.len() {
        let equation = &equations[index];
        let own = spines[index];
        let found = closing_either_way(alloc, order, at, matcher, &by, equation, own)?;
        if found.is_some() {
            return Ok(found);
        }
    }
    Ok(None)
}

/// The step by which the leading equation becomes this one, as written or else with its sides
/// swapped.
fn closing_either_way<'a, O: TermOrder>(
    alloc: Global,
    order: &O,
    at: &At<'a>,
    matcher: &mut Matcher<'a>,
    by: &Closing,
    equation: &'a Equation,
    own: SideSpines,
) -> Result<Option<Move>, OutOfMemory>
    requires at { IsAt at.now }
    requires spines { by.now.spines ≡ side_spines by.now.equation.now }
    requires own { own ≡ side_spines equation.now }
    requires variables { let clause = by.now.clause.now in
        AreVariables (length clause.ctx) (both_sides by.now.equation.now) }
    ensures { let clause = by.now.clause.now in
        let target = target_of by.now.referral.now in
        let e = by.now.equation.now in
        IfOk result (IsFound (O.above order.now) at.now
        (closing_pair target clause e equation.now)) }
{
    let as_written = Wanted {
        left: &equation.left,
        right: &equation.right,
        spines: own,
    };
    let found = closing_by(alloc, order, at, matcher, by, &as_written)?;
    if found.is_some() {
        return Ok(found);
    }
    let swapped = Wanted {
        left: &equation.right,
        right: &equation.left,
        spines: own.swapped(),
    };
    closing_by(alloc, order, at, matcher, by, &swapped)
}

/// The step by which the sides of the leading equation become these, whose spines are known. If
/// they don't fit, nothing is walked.
fn closing_by<'a, O: TermOrder>(
    alloc: Global,
    order: &O,
    at: &At<'a>,
    matcher: &mut Matcher<'a>,
    by: &Closing,
    sides: &Wanted<'a>,
) -> Result<Option<Move>, OutOfMemory>
    requires at { IsAt at.now }
    requires spines { by.now.spines ≡ side_spines by.now.equation.now }
    requires own { sides.now.spines ≡ spines_of sides.now.left.now sides.now.right.now }
    requires variables { let clause = by.now.clause.now in
        AreVariables (length clause.ctx) (both_sides by.now.equation.now) }
    ensures { let clause = by.now.clause.now in
        let target = target_of by.now.referral.now in
        let wanted = sides.now in
        IfOk result (IsFound (O.above order.now) at.now
        (closing target clause by.now.equation.now wanted.left.now wanted.right.now ∷ [])) }
{
    spines_may_become();
    if !by.spines.may_become(&sides.spines) {
        return Ok(None);
    }
    let count = by.clause.ctx.len();
    if !matcher.fitting(count, by.equation, sides.left, sides.right)? {
        return Ok(None);
    }
    let terms = copies(alloc, matcher.terms())?;
    let step = by.referral.closing_step(alloc, terms)?;
    taken(alloc, order, at, step, by.referral.closing_asks())
}
