//! Steps that rewrite by a hypothesis, a lemma or a premise.

use choice_tree::{Choices, Here, Kind, falls, reference, rewriting_lists};
use clause_core::{Children, Clause, Place, Relation, Step, side};
use fitting_lists::{copies, heads_agree};
use std::alloc::Global;
use term_core::{Name, OutOfMemory, Seq, Term};
use term_order::TermOrder;

/// The most uses of hypotheses and of lemmas that are tried at a node.
const MOST_USES: usize = 8;

/// The most uses of hypotheses that are tried beside a step by a rule.
const MOST_EARLY_USES: usize = 3;

/// What is referred to: the node with this number, or the goal of this name.
#[derive(Clone, Copy)]
enum Source<'s> {
    Node(u32),
    Goal(&'s Name),
}

impl<'s> Source<'s> {
    fn step(
        self,
        alloc: Global,
        terms: Seq<Term>,
        place: Place,
        left: bool,
    ) -> Result<Step, OutOfMemory> {
        match self {
            Source::Node(number) => Ok(Step::Hyp(number, terms, place, left)),
            Source::Goal(name) => Ok(Step::Lemma(name.copy(alloc)?, terms, place, left)),
        }
    }

    fn kind(self) -> Kind {
        match self {
            Source::Node(_) => Kind::Hypothesis,
            Source::Goal(_) => Kind::Lemma,
        }
    }
}

/// Offers uses of hypotheses: of node 0, and of nodes above that part into cases.
pub(crate) fn offer_hypotheses<O: TermOrder>(
    alloc: Global,
    here: &Here<O>,
    choices: &mut Choices,
) -> Result<(), OutOfMemory> {
    let most = choices.len().saturating_add(MOST_USES);
    offer_hypotheses_up_to(alloc, here, choices, most)
}

/// Offers a few of them, to be tried after a step by a rule.
pub(crate) fn offer_early_hypotheses<O: TermOrder>(
    alloc: Global,
    here: &Here<O>,
    choices: &mut Choices,
) -> Result<(), OutOfMemory> {
    let most = choices.len().saturating_add(MOST_EARLY_USES);
    offer_hypotheses_up_to(alloc, here, choices, most)
}

fn offer_hypotheses_up_to<O: TermOrder>(
    alloc: Global,
    here: &Here<O>,
    choices: &mut Choices,
    most: usize,
) -> Result<(), OutOfMemory> {
    for number in here.above.as_slice().iter().rev() {
        let Some(branch) = here.branch(*number) else {
            continue;
        };
        if *number != 0 && !branch.is_hypothesis() {
            continue;
        }
        if let Some(clause) = here.tree.clause(*number) {
            offer_uses(alloc, here, choices, Source::Node(*number), clause, most)?;
        }
    }
    Ok(())
}

/// Offers uses of lemmas.
pub(crate) fn offer_lemmas<O: TermOrder>(
    alloc: Global,
    here: &Here<O>,
    choices: &mut Choices,
) -> Result<(), OutOfMemory> {
    let most = choices.len().saturating_add(MOST_USES);
    for lemma in here.setting.lemmas.as_slice() {
        let source = Source::Goal(&lemma.name);
        offer_uses(alloc, here, choices, source, &lemma.clause, most)?;
    }
    Ok(())
}

/// Offers steps by which the only conclusion of the clause rewrites a term here, up to this many
/// choices.
fn offer_uses<O: TermOrder>(
    alloc: Global,
    here: &Here<O>,
    choices: &mut Choices,
    source: Source,
    clause: &Clause,
    most: usize,
) -> Result<(), OutOfMemory> {
    if clause.conclusions.len() != 1 {
        return Ok(());
    }
    for index in 0..here.spots.len() {
        for left in [true, false] {
            if choices.len() >= most {
                return Ok(());
            }
            offer_use(alloc, here, choices, source, clause, (index, left))?;
        }
    }
    Ok(())
}

/// Offers the step that rewrites the term of the spot of this index from the left side if true,
/// from the right one if false.
fn offer_use<O: TermOrder>(
    alloc: Global,
    here: &Here<O>,
    choices: &mut Choices,
    source: Source,
    clause: &Clause,
    at: (usize, bool),
) -> Result<(), OutOfMemory> {
    let (index, left) = at;
    if index >= here.spots.len() {
        return Ok(());
    }
    let Some(equation) = clause.conclusions.as_slice().first() else {
        return Ok(());
    };
    let term = here.spots.term(index);
    let from = side(equation, left);
    if !heads_agree(from, term) {
        return Ok(());
    }
    for terms in rewriting_lists(alloc, clause, from, term, here.clause)? {
        let place = here.spots.place(alloc, index)?;
        let step = source.step(alloc, copies(alloc, terms.as_slice())?, place, left)?;
        offer_falling(alloc, here, choices, source, step)?;
    }
    Ok(())
}

/// Offers the step if what it makes falls and its reference can be allowed.
fn offer_falling<O: TermOrder>(
    alloc: Global,
    here: &Here<O>,
    choices: &mut Choices,
    source: Source,
    step: Step,
) -> Result<(), OutOfMemory> {
    let Some(made) = here.made(alloc, &step)? else {
        return Ok(());
    };
    if !falls(&made) || !may_refer(here, source, reference(&made)) || loses_premise(here, &made) {
        return Ok(());
    }
    choices.offer(source.kind(), step, made)
}

/// Whether what is made has fewer premises: one became an identity, and what it says is lost.
fn loses_premise<O: TermOrder>(here: &Here<O>, made: &Children) -> bool {
    for child in made.clauses.as_slice() {
        if child.clause.premises.len() < here.clause.premises.len() {
            return true;
        }
    }
    false
}

/// Whether the reference can be allowed: to what is less, or to the same where something falls on
/// the way.
fn may_refer<O: TermOrder>(here: &Here<O>, source: Source, found: Option<Relation>) -> bool {
    let Source::Node(number) = source else {
        return true;
    };
    match found {
        Some(Relation::Less) => true,
        Some(Relation::Same) => here.has_moved(number),
        _ => false,
    }
}

/// Offers the first step by which a premise replaces a term by a lesser one.
pub(crate) fn offer_context<O: TermOrder>(
    alloc: Global,
    here: &Here<O>,
    choices: &mut Choices,
) -> Result<(), OutOfMemory> {
    let count = here.clause.premises.len().min(1000) as u16;
    for index in 0..here.spots.len() {
        for passed in 0..count {
            if !choices.is_empty() {
                return Ok(());
            }
            let number = passed.saturating_add(1);
            offer_context_by(alloc, here, choices, index, number, true)?;
            offer_context_by(alloc, here, choices, index, number, false)?;
        }
    }
    Ok(())
}

/// Offers the step by the premise of this number, from its left side if true, if nothing is
/// offered yet. In itself a premise would only be lost.
fn offer_context_by<O: TermOrder>(
    alloc: Global,
    here: &Here<O>,
    choices: &mut Choices,
    index: usize,
    number: u16,
    left: bool,
) -> Result<(), OutOfMemory> {
    if !choices.is_empty() || index >= here.spots.len() {
        return Ok(());
    }
    let Some(equation) = here.clause.equation(false, number) else {
        return Ok(());
    };
    if !side(equation, left).same(here.spots.term(index)) {
        return Ok(());
    }
    let place = here.spots.place(alloc, index)?;
    if !place.conclusion && place.number == number {
        return Ok(());
    }
    let step = Step::Context(place, number, left);
    if let Some(made) = here.made(alloc, &step)? {
        if falls(&made) {
            return choices.offer(Kind::Forced, step, made);
        }
    }
    Ok(())
}
