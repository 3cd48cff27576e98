//! The entries `rule` and `case`.

ghost use Rattle.std.specs.Prelude.{◌≡◌, ℕ, suc, IsTrue, IfOk, map};
ghost use Rattle.std.specs.Option.{IfSome};
ghost use Rattle.clause_core.specs.RuleInstances.{RuleAt, IsInstance};
ghost use Rattle.routine_proof.specs.Entries.{rules};
ghost use Rattle.proof_search.specs.Settings.{IsSetting};
ghost use Rattle.proof_search.specs.Taking.{IsAt, IsThere, IsFound, place_of};
ghost use Rattle.proof_search.specs.Ruling.{ruling_step, rulings_by, rulings};

use crate::at::{Asked, At, taken};
use crate::setting::Setting;
use block_steps::copy_place;
use clause_core::{Place, Step};
use clause_places::places_are_there;
use routine_proof::Move;
use std::alloc::Global;
use term_core::{OutOfMemory, Term, TermNode};
use term_order::TermOrder;

/// The entries of the list that rewrite the term at a place by rules.
#[derive(Clone, Copy)]
pub(crate) enum ByRule {
    Rule,
    Case,
}

impl ByRule {
    fn step(self, place: Place, number: u32) -> Step
        ensures { result ≡ ruling_step self place number }
    {
        match self {
            ByRule::Rule => Step::Rule(place, number),
            ByRule::Case => Step::Case(place, number),
        }
    }
}

/// The first of the entry's steps that is defined.
pub(crate) fn first_ruling<O: TermOrder>(
    alloc: Global,
    order: &O,
    at: &At,
    entry: ByRule,
) -> Result<Option<Move>, OutOfMemory>
    requires { IsAt at.now }
    ensures { IfOk result (IsFound (O.above order.now) at.now
        (rulings entry at.now.setting.now.spec.now at.now.here.now)) }
{
    places_are_there();
    for index in 0..at.spots.len() {
        if !some_rule_fits(at.setting, at.spots.term(index)) {
            continue;
        }
        let found = ruling_at(alloc, order, at, entry, index)?;
        if found.is_some() {
            return Ok(found);
        }
    }
    Ok(None)
}

/// Whether the left side of a rule may become the term. Only rules of the symbol there are asked,
/// since no other rule fits.
fn some_rule_fits(setting: &Setting, term: &Term) -> bool
    requires { IsSetting setting.now }
    ensures { (n : ℕ) (by : RuleAt setting.now.spec.now n) →
        IsInstance by.rule term.now → IsTrue result }
{
    let TermNode::App(sym, _) = &term.node else {
        return false;
    };
    for place in setting.rules.rules_of(*sym) {
        if setting.fitting(*place, term).is_some() {
            return true;
        }
    }
    false
}

/// The first of them at the place. Only rules of the symbol there are tried, since no other rule
/// fits.
fn ruling_at<O: TermOrder>(
    alloc: Global,
    order: &O,
    at: &At,
    entry: ByRule,
    index: usize,
) -> Result<Option<Move>, OutOfMemory>
    requires at { IsAt at.now }
    requires there { IsThere at.now index }
    ensures { IfOk result (IsFound (O.above order.now) at.now
        (rulings_by entry (place_of at.now index) (rules at.now.setting.now.spec.now))) }
{
    let term = at.spots.term(index);
    let TermNode::App(sym, _) = &term.node else {
        return Ok(None);
    };
    let setting = at.setting;
    ruling_by(alloc, order, at, entry, index, setting.rules.rules_of(*sym))
}

/// The first of them at the place by a rule at these places among all rules. The table of steps is
/// asked only if the symbols of the left side are there.
fn ruling_by<O: TermOrder>(
    alloc: Global,
    order: &O,
    at: &At,
    entry: ByRule,
    index: usize,
    from: &[usize],
) -> Result<Option<Move>, OutOfMemory>
    requires at { IsAt at.now }
    requires there { IsThere at.now index }
    ensures { IfOk result (IsFound (O.above order.now) at.now
        (rulings_by entry (place_of at.now index) (map (λ k. suc k) from.now))) }
{
    let setting = at.setting;
    let term = at.spots.term(index);
    let mut known = None;
    for rule in from {
        let Some(number) = setting.fitting(*rule, term) else {
            continue;
        };
        let place = place_at(alloc, at, index, known)?;
        let step = entry.step(copy_place(alloc, &place)?, number);
        known = Some(place);
        let found = taken(alloc, order, at, step, Asked::Nothing)?;
        if found.is_some() {
            return Ok(found);
        }
    }
    Ok(None)
}

/// The place of the spot of this index: the one that is known, or else it is found. It takes a walk
/// along the clause.
fn place_at(
    alloc: Global,
    at: &At,
    index: usize,
    known: Option<Place>,
) -> Result<Place, OutOfMemory>
    requires there { IsThere at.now index }
    requires known { IfSome known (λ place. place ≡ place_of at.now index) }
    ensures { IfOk result (λ place. place ≡ place_of at.now index) }
{
    match known {
        Some(place) => Ok(place),
        None => at.spots.place(alloc, index),
    }
}
