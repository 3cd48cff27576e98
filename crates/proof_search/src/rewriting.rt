//! The entries `hyp` and `lemma`.

ghost use Rattle.std.specs.Prelude.{◌≡◌, ◌≤◌, Bool, true, IsTrue, IfOk};
ghost use Rattle.term_core.specs.References.{terms_of};
ghost use Rattle.clause_core.specs.Clauses.{ClauseIsSorted};
ghost use Rattle.clause_core.specs.Places.{side as side_of};
ghost use Rattle.fitting_lists.specs.Spines.{spine_of, missing_in};
ghost use Rattle.routine_proof.specs.Candidates.{all_less, each};
ghost use Rattle.proof_search.specs.Chosen.{clause_of, lemma_uses_by};
ghost use Rattle.proof_search.specs.FallingSides.{KeepsSides, marked};
ghost use Rattle.proof_search.specs.Taking.{IsAt, IsThere, IsTaken, IsFound, SaysAt, place_of};
ghost use Rattle.proof_search.specs.Taking.{term_of};
ghost use Rattle.proof_search.specs.Referring.{node, target_of, rewritings, falling_rewriting};
ghost use Rattle.proof_search.specs.Referring.{falling_rewritings, rewriting_step as step_by};
ghost use Rattle.proof_search.specs.Falling.{IsReferred, CanRewrite, AreSides, SideFits};
ghost use Rattle.proof_search.specs.SideSpines.{side_spines};

use crate::at::{Asked, At, taken};
use crate::falling_sides::{FallingSides, only_conclusion};
use crate::laws::never_rises;
use crate::referring::Referral;
use crate::side_spines::SideSpines;
use clause_core::{Clause, side, tidying_laws};
use clause_places::places_are_there;
use fitting_lists::{Matcher, copies, heads_agree, nothing_is_missing};
use place_comparison::place_decides;
use routine_proof::Move;
use spec_core::Equation;
use std::alloc::Global;
use term_core::{OutOfMemory, Term};
use term_order::TermOrder;

/// A clause that is to rewrite by its only conclusion, from those of the sides that may fall.
#[derive(Drop)]
struct Rewriting<'a> {
    referral: &'a Referral<'a>,
    clause: &'a Clause,
    equation: &'a Equation,
    sides: FallingSides,
    spines: SideSpines,
}

impl<'a> Rewriting<'a> {
    /// How often the symbol at the root of a side that may fall would have to occur more along the
    /// term for the side to become it: the least such number.
    fn missing(&self, term: &Term) -> u32
        requires { self.now.spines ≡ side_spines self.now.equation.now }
        ensures { (left : Bool) → marked left self.now.sides ≡ true →
            result ≤ missing_in (spine_of (side_of left self.now.equation.now)) term.now }
    {
        let left = if self.sides.left {
            self.spines.left.missing(term)
        } else {
            u32::MAX
        };
        if self.sides.right && left > 0 {
            left.min(self.spines.right.missing(term))
        } else {
            left
        }
    }

    /// Whether a side that may fall may become the term, as far as the symbols at the roots of both
    /// and of their arguments tell.
    fn may_fit(&self, term: &Term) -> bool
        ensures { SideFits self.now.sides self.now.equation.now term.now → IsTrue result }
    {
        (self.sides.left && heads_agree(&self.equation.left, term))
            || (self.sides.right && heads_agree(&self.equation.right, term))
    }
}

/// The first step that rewrites by node 0 as a hypothesis.
pub(crate) fn first_hypothesis_use<O: TermOrder>(
    alloc: Global,
    order: &O,
    at: &At,
) -> Result<Option<Move>, OutOfMemory>
    requires at { IsAt at.now }
    requires sides { KeepsSides (O.above order.now) at.now.setting.now at.now.building.now }
    ensures { IfOk result (IsFound (O.above order.now) at.now
        (each (clause_of at.now 0) (rewritings at.now.here.now (node 0)))) }
{
    let Some(first) = at.nodes.first() else {
        return Ok(None);
    };
    let mut matcher = Matcher::new(alloc);
    let referral = Referral::Node(0);
    let sides = at.building.sides;
    first_rewriting(
        alloc,
        order,
        at,
        &mut matcher,
        &referral,
        &first.clause,
        sides,
    )
}

/// The first step that rewrites by a lemma.
pub(crate) fn first_lemma_use<O: TermOrder>(
    alloc: Global,
    order: &O,
    at: &At,
) -> Result<Option<Move>, OutOfMemory>
    requires at { IsAt at.now }
    requires sides { KeepsSides (O.above order.now) at.now.setting.now at.now.building.now }
    ensures { IfOk result (IsFound (O.above order.now) at.now
        (each at.now.setting.now.goals.items (lemma_uses_by at.now))) }
{
    tidying_laws();
    let setting = at.setting;
    let mut matcher = Matcher::new(alloc);
    for goal in &setting.goals {
        let referral = Referral::Goal(&goal.name);
        let sides = goal.sides;
        let found = first_rewriting(
            alloc,
            order,
            at,
            &mut matcher,
            &referral,
            &goal.clause,
            sides,
        )?;
        if found.is_some() {
            return Ok(found);
        }
    }
    Ok(None)
}

/// The first step by an instance of the clause that rewrites a term here. Since the last argument
/// of a call comes right before it, a symbol occurs from one spot to the next at most once more:
/// as many spots are passed over as symbols are missing at one.
fn first_rewriting<'a, O: TermOrder>(
    alloc: Global,
    order: &O,
    at: &At<'a>,
    matcher: &mut Matcher<'a>,
    referral: &Referral,
    clause: &Clause,
    sides: FallingSides,
) -> Result<Option<Move>, OutOfMemory>
    requires at { IsAt at.now }
    requires sorted { ClauseIsSorted at.now.setting.now.spec.now.sig clause.now }
    requires referred { IsReferred at.now (target_of referral.now) clause.now }
    requires falling { AreSides (O.above order.now) (target_of referral.now) clause.now sides }
    ensures { IfOk result (IsFound (O.above order.now) at.now
        (rewritings at.now.here.now (target_of referral.now) clause.now)) }
{
    places_are_there();
    place_decides(order);
    never_rises(order);
    nothing_is_missing();
    let Some(equation) = only_conclusion(clause) else {
        return Ok(None);
    };
    let rewriting = Rewriting {
        referral,
        clause,
        equation,
        sides,
        spines: SideSpines::of(equation),
    };
    let mut index = 0;
    'spots: while index < at.spots.len() {
        let term = at.spots.term(index);
        let missing = rewriting.missing(term);
        if missing > 0 {
            index = index.saturating_add(missing as usize);
            continue;
        }
        if !rewriting.may_fit(term) {
            index += 1;
            continue;
        }
        let found = rewriting_at(alloc, order, at, matcher, &rewriting, index)?;
        if found.is_some() {
            return Ok(found);
        }
        index += 1;
    }
    Ok(None)
}

/// The step that rewrites the term of the spot of this index from the left side, or else from the
/// right one, if they may fall.
fn rewriting_at<'a, O: TermOrder>(
    alloc: Global,
    order: &O,
    at: &At<'a>,
    matcher: &mut Matcher<'a>,
    rewriting: &Rewriting,
    index: usize,
) -> Result<Option<Move>, OutOfMemory>
    requires at { IsAt at.now }
    requires able { CanRewrite (O.above order.now) at.now rewriting.now }
    requires there { IsThere at.now index }
    ensures { let target = target_of rewriting.now.referral.now in
        let place = place_of at.now index in
        let term = term_of at.now index in
        IfOk result (IsFound (O.above order.now) at.now
        (falling_rewritings target rewriting.now.clause.now place term
        rewriting.now.equation.now rewriting.now.sides)) }
{
    let found = rewriting_from(alloc, order, at, matcher, rewriting, index, true)?;
    if found.is_some() {
        return Ok(found);
    }
    rewriting_from(alloc, order, at, matcher, rewriting, index, false)
}

/// The step that rewrites it from the left side if true, from the right one if false, if that
/// side may fall. If the term isn't above what it becomes, the clause that holds the other term
/// there isn't less: whole clauses needn't be compared.
fn rewriting_from<'a, O: TermOrder>(
    alloc: Global,
    order: &O,
    at: &At<'a>,
    matcher: &mut Matcher<'a>,
    rewriting: &Rewriting,
    index: usize,
    left: bool,
) -> Result<Option<Move>, OutOfMemory>
    requires at { IsAt at.now }
    requires able { CanRewrite (O.above order.now) at.now rewriting.now }
    requires there { IsThere at.now index }
    ensures { let target = target_of rewriting.now.referral.now in
        let place = place_of at.now index in
        let term = term_of at.now index in
        IfOk result (IsFound (O.above order.now) at.now
        (falling_rewriting target rewriting.now.clause.now place term
        rewriting.now.equation.now rewriting.now.sides left)) }
{
    place_decides(order);
    if !rewriting.sides.has(left) {
        return Ok(None);
    }
    let from = side(rewriting.equation, left);
    let to = side(rewriting.equation, !left);
    let count = rewriting.clause.ctx.len();
    if !matcher.rewriting(count, from, at.spots.term(index))? {
        return Ok(None);
    }
    let list = matcher.terms();
    if !order.greater_under(list, from, to) {
        return Ok(None);
    }
    rewriting_by_list(alloc, order, at, rewriting.referral, index, left, list)
}

/// The step that rewrites by the instance with these terms.
fn rewriting_by_list<O: TermOrder>(
    alloc: Global,
    order: &O,
    at: &At,
    referral: &Referral,
    index: usize,
    left: bool,
    list: &[&Term],
) -> Result<Option<Move>, OutOfMemory>
    requires at { IsAt at.now }
    requires there { IsThere at.now index }
    ensures { let step = step_by (target_of referral.now) (place_of at.now index)
        (terms_of list.now) left in
        IfOk result (IsTaken (SaysAt (O.above order.now) at.now) step all_less) }
{
    let terms = copies(alloc, list)?;
    let place = at.spots.place(alloc, index)?;
    let step = referral.rewriting_step(alloc, terms, place, left)?;
    taken(alloc, order, at, step, Asked::AllLess)
}
