//! Steps by rules: rewriting, and cases.

use block_steps::copy_place;
use choice_tree::{Choices, Here, Kind};
use clause_core::{Place, Step};
use fitting_lists::may_become;
use std::alloc::Global;
use term_core::{OutOfMemory, Term, TermNode};
use term_order::TermOrder;

/// The most cases that are tried at a node.
const MOST_CASES: usize = 6;

/// The numbers of the rules whose left side may become the term, from 1.
fn fitting_rules<O: TermOrder>(
    alloc: Global,
    here: &Here<O>,
    term: &Term,
) -> Result<Vec<u32>, OutOfMemory> {
    let mut found = Vec::new(alloc);
    let TermNode::App(sym, _) = &term.node else {
        return Ok(found);
    };
    let rules = here.setting.spec.rules.as_slice();
    for place in here.setting.rules.rules_of(*sym) {
        let Some(rule) = rules.get(*place) else {
            continue;
        };
        if may_become(&rule.left, term) && *place < u32::MAX as usize {
            found.push(*place as u32 + 1)?;
        }
    }
    Ok(found)
}

/// Offers the first step that rewrites by a rule.
pub(crate) fn offer_rule<O: TermOrder>(
    alloc: Global,
    here: &Here<O>,
    choices: &mut Choices,
) -> Result<(), OutOfMemory> {
    for index in 0..here.spots.len() {
        let rules = fitting_rules(alloc, here, here.spots.term(index))?;
        if rules.is_empty() {
            continue;
        }
        let place = here.spots.place(alloc, index)?;
        offer_rule_at(alloc, here, choices, &place, rules.as_slice())?;
        if !choices.is_empty() {
            return Ok(());
        }
    }
    Ok(())
}

/// Offers the step by the first of these rules that rewrites the term at the place.
fn offer_rule_at<O: TermOrder>(
    alloc: Global,
    here: &Here<O>,
    choices: &mut Choices,
    place: &Place,
    rules: &[u32],
) -> Result<(), OutOfMemory> {
    for number in rules {
        let step = Step::Rule(copy_place(alloc, place)?, *number);
        if let Some(made) = here.made(alloc, &step)? {
            return choices.offer(Kind::Forced, step, made);
        }
    }
    Ok(())
}

/// Offers cases by rules with guards, those in conclusions first.
pub(crate) fn offer_cases<O: TermOrder>(
    alloc: Global,
    here: &Here<O>,
    choices: &mut Choices,
) -> Result<(), OutOfMemory> {
    let most = choices.len().saturating_add(MOST_CASES);
    offer_cases_in(alloc, here, choices, true, most)?;
    offer_cases_in(alloc, here, choices, false, most)
}

/// Offers those in conclusions if true, in premises if false, up to this many choices.
fn offer_cases_in<O: TermOrder>(
    alloc: Global,
    here: &Here<O>,
    choices: &mut Choices,
    conclusion: bool,
    most: usize,
) -> Result<(), OutOfMemory> {
    for index in 0..here.spots.len() {
        if choices.len() >= most {
            return Ok(());
        }
        let rules = fitting_rules(alloc, here, here.spots.term(index))?;
        if rules.is_empty() {
            continue;
        }
        let place = here.spots.place(alloc, index)?;
        if place.conclusion == conclusion {
            offer_cases_at(alloc, here, choices, &place, rules.as_slice())?;
        }
    }
    Ok(())
}

/// Offers the cases of the term at the place by these rules. Rules with one left side make the
/// same cases.
fn offer_cases_at<O: TermOrder>(
    alloc: Global,
    here: &Here<O>,
    choices: &mut Choices,
    place: &Place,
    rules: &[u32],
) -> Result<(), OutOfMemory> {
    for number in rules {
        let step = Step::Case(copy_place(alloc, place)?, *number);
        if let Some(made) = here.made(alloc, &step)? {
            choices.offer(Kind::Case, step, made)?;
        }
    }
    Ok(())
}
