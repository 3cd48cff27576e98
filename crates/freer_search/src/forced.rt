//! Steps that close a node or make it plainer, without a choice of terms.

use choice_tree::{Choices, Here, Kind};
use clause_core::Step;
use std::alloc::Global;
use term_core::OutOfMemory;
use term_order::TermOrder;

/// A kind of steps that name an equation by its number.
#[derive(Clone, Copy)]
enum Plain {
    Trivial,
    /// By a premise, of this conclusion.
    Match(u16),
    Absurd,
    DecomposePremise,
    Clash,
    Solve,
    DecomposeConclusion,
}

impl Plain {
    fn step(self, number: u16) -> Step {
        match self {
            Plain::Trivial => Step::Trivial(number),
            Plain::Match(conclusion) => Step::Match(conclusion, number),
            Plain::Absurd => Step::Absurd(number),
            Plain::DecomposePremise => Step::Decompose(false, number),
            Plain::Clash => Step::Clash(number),
            Plain::Solve => Step::Solve(number),
            Plain::DecomposeConclusion => Step::Decompose(true, number),
        }
    }

    fn names_conclusions(self) -> bool {
        matches!(
            self,
            Plain::Trivial | Plain::Clash | Plain::DecomposeConclusion
        )
    }
}

/// Offers the first step that closes the node at once or makes it plainer, but for those that
/// come after rules.
pub(crate) fn offer_plain<O: TermOrder>(
    alloc: Global,
    here: &Here<O>,
    choices: &mut Choices,
) -> Result<(), OutOfMemory> {
    offer_numbered(alloc, here, choices, Plain::Trivial)?;
    offer_matches(alloc, here, choices)?;
    offer_numbered(alloc, here, choices, Plain::Absurd)?;
    offer_numbered(alloc, here, choices, Plain::DecomposePremise)?;
    offer_numbered(alloc, here, choices, Plain::Clash)?;
    offer_numbered(alloc, here, choices, Plain::Solve)
}

/// Offers the first decomposition of a conclusion.
pub(crate) fn offer_parts<O: TermOrder>(
    alloc: Global,
    here: &Here<O>,
    choices: &mut Choices,
) -> Result<(), OutOfMemory> {
    offer_numbered(alloc, here, choices, Plain::DecomposeConclusion)
}

/// How many equations there are of which the numbers fit.
fn count<O: TermOrder>(here: &Here<O>, conclusions: bool) -> u16 {
    here.clause.equations(conclusions).len().min(1000) as u16
}

/// Offers the first step of the kind that is defined, if nothing is offered yet.
fn offer_numbered<O: TermOrder>(
    alloc: Global,
    here: &Here<O>,
    choices: &mut Choices,
    kind: Plain,
) -> Result<(), OutOfMemory> {
    if !choices.is_empty() {
        return Ok(());
    }
    for passed in 0..count(here, kind.names_conclusions()) {
        let step = kind.step(passed.saturating_add(1));
        if let Some(made) = here.made(alloc, &step)? {
            return choices.offer(Kind::Forced, step, made);
        }
    }
    Ok(())
}

/// Offers the first match of a conclusion by a premise.
fn offer_matches<O: TermOrder>(
    alloc: Global,
    here: &Here<O>,
    choices: &mut Choices,
) -> Result<(), OutOfMemory> {
    for passed in 0..count(here, true) {
        offer_numbered(alloc, here, choices, Plain::Match(passed.saturating_add(1)))?;
    }
    Ok(())
}
