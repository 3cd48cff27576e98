//! Covers of variables, ranked.

use choice_tree::{Choices, Here, Kind};
use clause_core::Step;
use spec_core::Signature;
use std::alloc::Global;
use term_core::{OutOfMemory, Seq, Term, TermNode, VarId};
use term_order::TermOrder;

/// The most covers inside one another.
const MOST_COVERS: u32 = 4;

/// What a call asks for before a rule fits: the variables where a left side has a constructor, and
/// whether it has a constructor itself at another such place.
#[derive(Drop)]
struct Asked {
    variables: Vec<VarId>,
    partly: bool,
}

/// Offers covers of the variables that calls ask for: first those of calls that have some of their
/// constructors already, and then those in conclusions. At node 0 other variables come after them.
pub(crate) fn offer_covers<O: TermOrder>(
    alloc: Global,
    here: &Here<O>,
    choices: &mut Choices,
) -> Result<(), OutOfMemory> {
    let Some(branch) = here.branch(here.node) else {
        return Ok(());
    };
    if branch.covers >= MOST_COVERS {
        return Ok(());
    }
    let mut variables = Vec::new(alloc);
    for (partly, conclusion) in [(true, true), (true, false), (false, true), (false, false)] {
        add_asked(alloc, here, &mut variables, partly, conclusion)?;
    }
    if here.is_root() {
        add_others(here, &mut variables)?;
    }
    for (place, variable) in variables.as_slice().iter().enumerate() {
        let kind = if place < 2 {
            Kind::Cover
        } else {
            Kind::LaterCover
        };
        offer_cover(alloc, here, choices, kind, *variable)?;
    }
    Ok(())
}

/// Offers the cover of the variable by the test set of its sort.
fn offer_cover<O: TermOrder>(
    alloc: Global,
    here: &Here<O>,
    choices: &mut Choices,
    kind: Kind,
    variable: VarId,
) -> Result<(), OutOfMemory> {
    let Some(sort) = here.clause.ctx.as_slice().get(variable.0 as usize) else {
        return Ok(());
    };
    let patterns = here.tree.patterns(alloc, *sort)?;
    let step = Step::Cover(variable, Seq::from_vec(patterns));
    if let Some(made) = here.made(alloc, &step)? {
        choices.offer(kind, step, made)?;
    }
    Ok(())
}

/// Adds the variables for which calls of a rank ask, in their order.
fn add_asked<O: TermOrder>(
    alloc: Global,
    here: &Here<O>,
    variables: &mut Vec<VarId>,
    partly: bool,
    conclusion: bool,
) -> Result<(), OutOfMemory> {
    for index in 0..here.spots.len() {
        let asked = asked_by(alloc, here, here.spots.term(index))?;
        if asked.variables.is_empty() || asked.partly != partly {
            continue;
        }
        let place = here.spots.place(alloc, index)?;
        if place.conclusion == conclusion {
            add_new(variables, asked.variables.as_slice())?;
        }
    }
    Ok(())
}

/// Adds those that aren't there yet.
fn add_new(variables: &mut Vec<VarId>, more: &[VarId]) -> Result<(), OutOfMemory> {
    for variable in more {
        if !variables.contains(variable) {
            variables.push(*variable)?;
        }
    }
    Ok(())
}

/// Adds all variables of the clause that aren't there yet.
fn add_others<O: TermOrder>(here: &Here<O>, variables: &mut Vec<VarId>) -> Result<(), OutOfMemory> {
    for number in 0..here.clause.ctx.len().min(1000) {
        let variable = VarId(number as u32);
        if !variables.contains(&variable) {
            variables.push(variable)?;
        }
    }
    Ok(())
}

/// What the call asks for.
fn asked_by<O: TermOrder>(
    alloc: Global,
    here: &Here<O>,
    term: &Term,
) -> Result<Asked, OutOfMemory> {
    let mut asked = Asked {
        variables: Vec::new(alloc),
        partly: false,
    };
    let TermNode::App(sym, terms) = &term.node else {
        return Ok(asked);
    };
    let rules = here.setting.spec.rules.as_slice();
    for place in here.setting.rules.rules_of(*sym) {
        let Some(rule) = rules.get(*place) else {
            continue;
        };
        if let TermNode::App(_, patterns) = &rule.left.node {
            let sig = &here.setting.spec.sig;
            ask_all(sig, patterns.as_slice(), terms.as_slice(), &mut asked)?;
        }
    }
    Ok(asked)
}

/// Adds what patterns ask of terms, in their order.
fn ask_all(
    sig: &Signature,
    patterns: &[Term],
    terms: &[Term],
    asked: &mut Asked,
) -> Result<(), OutOfMemory> {
    for (pattern, term) in patterns.iter().zip(terms) {
        match (&pattern.node, &term.node) {
            (TermNode::App(_, _), TermNode::Var(variable)) => asked.variables.push(*variable)?,
            (TermNode::App(_, patterns), TermNode::App(sym, terms)) => {
                if sym.0 < sig.constructors() {
                    asked.partly = true;
                    ask_below(patterns.as_slice(), terms.as_slice(), asked)?;
                }
            }
            _ => {}
        }
    }
    Ok(())
}

/// The same of arguments of a constructor. What is deeper isn't looked at.
fn ask_below(patterns: &[Term], terms: &[Term], asked: &mut Asked) -> Result<(), OutOfMemory> {
    for (pattern, term) in patterns.iter().zip(terms) {
        if let (TermNode::App(_, _), TermNode::Var(variable)) = (&pattern.node, &term.node) {
            asked.variables.push(*variable)?;
        }
    }
    Ok(())
}
