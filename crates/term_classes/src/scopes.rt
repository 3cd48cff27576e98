//! `scope_of`: the symbols of which lemmas for a clause are made.

ghost use Rattle.std.specs.Prelude.{IfOk};
ghost use Rattle.term_classes.specs.Scopes.{IsScope};

use crate::sorts_in_use::is_in_use;
use clause_core::Clause;
use spec_core::{Equation, Guard, Rule, RuleTable, Signature, Spec};
use std::alloc::Global;
use term_core::{OutOfMemory, SymId, Term, TermNode};

/// The symbols that the clause reaches through the rules of functions, and all constructors of
/// the sorts that these symbols take or give, by number.
pub fn scope_of(alloc: Global, spec: &Spec, clause: &Clause) -> Result<Vec<SymId>, OutOfMemory>
    ensures { IfOk result (λ scope. IsScope spec.now.sig scope.items) }
{
    let mut reached = Vec::new(alloc);
    add_equations(clause.premises.as_slice(), &mut reached)?;
    add_equations(clause.conclusions.as_slice(), &mut reached)?;
    follow(alloc, spec, &mut reached)?;
    let users = Vec::from_slice(alloc, &reached)?;
    add_constructors(&spec.sig, &users, &mut reached)?;
    by_number(alloc, &spec.sig, &reached)
}

/// Adds the symbol if it isn't there.
fn add(sym: SymId, reached: &mut Vec<SymId>) -> Result<(), OutOfMemory> {
    if !reached.contains(&sym) {
        reached.push(sym)?;
    }
    Ok(())
}

#[cycle(reach)]
fn add_term(term: &Term, reached: &mut Vec<SymId>) -> Result<(), OutOfMemory> {
    match &term.node {
        TermNode::Var(_) => Ok(()),
        TermNode::App(sym, args) => {
            add(*sym, reached)?;
            add_terms(args.as_slice(), reached)
        }
    }
}

#[cycle(reach)]
fn add_terms(terms: &[Term], reached: &mut Vec<SymId>) -> Result<(), OutOfMemory> {
    for term in terms {
        add_term(term, reached)?;
    }
    Ok(())
}

fn add_equations(equations: &[Equation], reached: &mut Vec<SymId>) -> Result<(), OutOfMemory> {
    for equation in equations {
        add_term(&equation.left, reached)?;
        add_term(&equation.right, reached)?;
    }
    Ok(())
}

fn add_guards(guards: &[Guard], reached: &mut Vec<SymId>) -> Result<(), OutOfMemory> {
    for guard in guards {
        add_term(&guard.test, reached)?;
    }
    Ok(())
}

fn add_rule(rule: &Rule, reached: &mut Vec<SymId>) -> Result<(), OutOfMemory> {
    add_term(&rule.left, reached)?;
    add_term(&rule.right, reached)?;
    add_guards(rule.guards.as_slice(), reached)
}

/// Adds the symbols of the rules at these places.
fn add_rules(
    rules: &[Rule],
    places: &[usize],
    reached: &mut Vec<SymId>,
) -> Result<(), OutOfMemory> {
    for place in places {
        if let Some(rule) = rules.get(*place) {
            add_rule(rule, reached)?;
        }
    }
    Ok(())
}

/// Adds what the symbols reach. Each symbol that is added comes up later.
fn follow(alloc: Global, spec: &Spec, reached: &mut Vec<SymId>) -> Result<(), OutOfMemory> {
    let table = RuleTable::new(alloc, spec)?;
    for next in 0..spec.sig.symbols() {
        let Some(sym) = reached.get(next as usize).copied() else {
            break;
        };
        add_rules(spec.rules.as_slice(), table.rules_of(sym), reached)?;
    }
    Ok(())
}

/// Adds the constructors of the sorts that the users take or give.
fn add_constructors(
    sig: &Signature,
    users: &[SymId],
    reached: &mut Vec<SymId>,
) -> Result<(), OutOfMemory> {
    for number in 0..sig.constructors() {
        let sort = sig.info(SymId(number)).result;
        if is_in_use(sig, users, sort) {
            add(SymId(number), reached)?;
        }
    }
    Ok(())
}

/// The symbols by number.
fn by_number(alloc: Global, sig: &Signature, reached: &[SymId]) -> Result<Vec<SymId>, OutOfMemory>
    ensures { IfOk result (λ made. IsScope sig.now made.items) }
{
    let mut made = Vec::new(alloc);
    for number in 0..sig.symbols() {
        if reached.contains(&SymId(number)) {
            made.push(SymId(number))?;
        }
    }
    Ok(made)
}
