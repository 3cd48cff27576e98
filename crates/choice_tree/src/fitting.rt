//! Instances of a clause by which its equations become those of another one.

use clause_core::Clause;
use matching::{Bindings, bind};
use spec_core::Equation;
use std::alloc::Global;
use term_core::{OutOfMemory, Term, TermNode, VarId, front};

/// The most tries of one equation for a clause. There can be very many where clauses have many
/// equations.
const MOST_TRIES: u32 = 200;

/// The most lists of terms that are found.
const MOST_CLOSING: usize = 4;

const MOST_REWRITING: usize = 2;

/// An equation of a clause that is referred to, of which an instance is wanted.
#[derive(Clone, Copy)]
struct Wanted<'c> {
    conclusion: bool,
    equation: &'c Equation,
}

/// The sides that an equation may become.
#[derive(Clone, Copy)]
struct Sides<'a> {
    left: &'a Term,
    right: &'a Term,
}

/// The sides of the equations here, as they are written and swapped.
#[derive(Drop)]
struct Targets<'a> {
    premises: Vec<Sides<'a>>,
    conclusions: Vec<Sides<'a>>,
}

impl<'a> Targets<'a> {
    fn of(alloc: Global, here: &'a Clause) -> Result<Targets<'a>, OutOfMemory> {
        let premises = both_ways(alloc, here.premises.as_slice())?;
        let conclusions = both_ways(alloc, here.conclusions.as_slice())?;
        Ok(Targets {
            premises,
            conclusions,
        })
    }

    fn of_kind(&self, conclusion: bool) -> &[Sides<'a>] {
        if conclusion {
            self.conclusions.as_slice()
        } else {
            self.premises.as_slice()
        }
    }
}

/// The lists of terms that are found for the variables of a clause.
#[derive(Drop)]
struct Lists<'a> {
    /// How many variables there are, and how many lists are asked for.
    variables: usize,
    most: usize,
    tries: u32,
    found: Vec<Vec<&'a Term>>,
}

impl<'a> Lists<'a> {
    fn new(alloc: Global, clause: &Clause, most: usize) -> Lists<'a> {
        Lists {
            variables: clause.ctx.len(),
            most,
            tries: MOST_TRIES,
            found: Vec::new(alloc),
        }
    }

    /// Whether a further try is wanted, which is counted.
    fn tries_again(&mut self) -> bool {
        if self.tries == 0 || self.found.len() >= self.most {
            return false;
        }
        self.tries = self.tries.saturating_sub(1);
        true
    }

    /// Adds the terms of these bindings, if there is one of each variable.
    fn add(&mut self, alloc: Global, bindings: &Bindings<'a>) -> Result<(), OutOfMemory> {
        let mut terms = Vec::new(alloc);
        bindings.list(&mut terms)?;
        if terms.len() == self.variables {
            self.found.push(terms)?;
        }
        Ok(())
    }
}

/// Lists of terms by which each conclusion of the clause becomes a conclusion here and each
/// premise a premise, or an identity.
pub fn closing_lists<'a>(
    alloc: Global,
    clause: &Clause,
    here: &'a Clause,
) -> Result<Vec<Vec<&'a Term>>, OutOfMemory> {
    let mut wanted = Vec::new(alloc);
    push_wanted(&mut wanted, clause, true)?;
    push_wanted(&mut wanted, clause, false)?;
    let bindings = Bindings::new(alloc);
    let targets = Targets::of(alloc, here)?;
    let mut lists = Lists::new(alloc, clause, MOST_CLOSING);
    add_fitting(alloc, wanted.as_slice(), &targets, &bindings, &mut lists)?;
    Ok(lists.found)
}

/// Lists of terms by which the side becomes this term, and each premise of the clause a premise
/// here, or an identity.
pub fn rewriting_lists<'a>(
    alloc: Global,
    clause: &Clause,
    side: &Term,
    term: &'a Term,
    here: &'a Clause,
) -> Result<Vec<Vec<&'a Term>>, OutOfMemory> {
    let mut lists = Lists::new(alloc, clause, MOST_REWRITING);
    let mut bindings = Bindings::new(alloc);
    if bind(side, term, &mut bindings)? {
        let mut wanted = Vec::new(alloc);
        push_wanted(&mut wanted, clause, false)?;
        let targets = Targets::of(alloc, here)?;
        add_fitting(alloc, wanted.as_slice(), &targets, &bindings, &mut lists)?;
    }
    Ok(lists.found)
}

fn push_wanted<'c>(
    wanted: &mut Vec<Wanted<'c>>,
    clause: &'c Clause,
    conclusion: bool,
) -> Result<(), OutOfMemory> {
    for equation in clause.equations(conclusion) {
        wanted.push(Wanted {
            conclusion,
            equation,
        })?;
    }
    Ok(())
}

/// The equations one after the other, each also with its sides swapped.
fn both_ways<'a>(alloc: Global, equations: &'a [Equation]) -> Result<Vec<Sides<'a>>, OutOfMemory> {
    let mut made = Vec::new(alloc);
    for equation in equations {
        let (left, right) = (&equation.left, &equation.right);
        made.push(Sides { left, right })?;
        made.push(Sides {
            left: right,
            right: left,
        })?;
    }
    Ok(made)
}

/// Adds lists that extend the bindings and by which each of these equations becomes one of the
/// targets.
fn add_fitting<'a>(
    alloc: Global,
    wanted: &[Wanted],
    targets: &Targets<'a>,
    bindings: &Bindings<'a>,
    lists: &mut Lists<'a>,
) -> Result<(), OutOfMemory> {
    let Some((first, rest)) = front(wanted) else {
        return lists.add(alloc, bindings);
    };
    for sides in targets.of_kind(first.conclusion) {
        if !lists.tries_again() {
            return Ok(());
        }
        let mut more = copied(alloc, bindings, lists.variables)?;
        if becomes(first.equation, sides, &mut more)? {
            add_fitting(alloc, rest, targets, &more, lists)?;
        }
    }
    if first.conclusion || !lists.tries_again() {
        return Ok(());
    }
    let mut more = copied(alloc, bindings, lists.variables)?;
    if becomes_identity(first.equation, &mut more)? {
        add_fitting(alloc, rest, targets, &more, lists)?;
    }
    Ok(())
}

/// Whether the equation becomes these sides by the bindings, with more of them.
fn becomes<'a>(
    equation: &Equation,
    sides: &Sides<'a>,
    bindings: &mut Bindings<'a>,
) -> Result<bool, OutOfMemory> {
    Ok(bind(&equation.left, sides.left, bindings)? && bind(&equation.right, sides.right, bindings)?)
}

/// Whether one side of the equation is a variable that has a term, and the other side becomes that
/// term by the bindings, with more of them.
fn becomes_identity<'a>(
    equation: &Equation,
    bindings: &mut Bindings<'a>,
) -> Result<bool, OutOfMemory> {
    if let Some(term) = term_of(&equation.left, bindings) {
        return bind(&equation.right, term, bindings);
    }
    if let Some(term) = term_of(&equation.right, bindings) {
        return bind(&equation.left, term, bindings);
    }
    Ok(false)
}

/// The term that the side has, if it is a variable.
fn term_of<'a>(side: &Term, bindings: &Bindings<'a>) -> Option<&'a Term> {
    match &side.node {
        TermNode::Var(variable) => bindings.get(*variable),
        TermNode::App(_, _) => None,
    }
}

/// A copy of the bindings of the variables with numbers below this one.
fn copied<'a>(
    alloc: Global,
    bindings: &Bindings<'a>,
    count: usize,
) -> Result<Bindings<'a>, OutOfMemory> {
    let mut made = Bindings::new(alloc);
    for number in 0..count.min(u32::MAX as usize) {
        let variable = VarId(number as u32);
        if let Some(term) = bindings.get(variable) {
            made.set(variable, term)?;
        }
    }
    Ok(made)
}
