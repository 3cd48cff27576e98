//! `SeenClauses`: clauses that came up.

use bank_core::Table;
use clause_core::Clause;
use spec_core::Equation;
use std::alloc::Global;
use term_core::{OutOfMemory, Term, TermNode};

/// Clauses, each once. A clause is found by the sorts of its variables and the roots of its terms,
/// from left to right. Symbols count from 0 up and variables from the greatest number down, and a
/// symbol tells how many arguments follow it. So clauses with as many premises differ where these
/// numbers do.
#[derive(Drop)]
pub(crate) struct SeenClauses {
    table: Table<u32, u32>,
}

impl SeenClauses {
    pub(crate) fn new(alloc: Global) -> Result<SeenClauses, OutOfMemory> {
        let table = Table::new(alloc)?;
        Ok(SeenClauses { table })
    }

    /// Adds the clause, and says whether it wasn't there.
    pub(crate) fn add(&mut self, alloc: Global, clause: &Clause) -> Result<bool, OutOfMemory> {
        let mut numbers = Vec::new(alloc);
        for sort in &clause.ctx {
            numbers.push(sort.0)?;
        }
        add_equations(clause.premises.as_slice(), &mut numbers)?;
        add_equations(clause.conclusions.as_slice(), &mut numbers)?;
        let premises = clause.premises.len().min(u32::MAX as usize) as u32;
        let before = self.table.len();
        let _place = self.table.add(premises, &numbers)?;
        Ok(self.table.len() > before)
    }
}

fn add_equations(equations: &[Equation], numbers: &mut Vec<u32>) -> Result<(), OutOfMemory> {
    for equation in equations {
        add_term(&equation.left, numbers)?;
        add_term(&equation.right, numbers)?;
    }
    Ok(())
}

#[cycle(numbers)]
fn add_term(term: &Term, numbers: &mut Vec<u32>) -> Result<(), OutOfMemory> {
    match &term.node {
        TermNode::Var(var) => {
            numbers.push(u32::MAX - var.0)?;
            Ok(())
        }
        TermNode::App(sym, args) => {
            numbers.push(sym.0)?;
            add_terms(args.as_slice(), numbers)
        }
    }
}

#[cycle(numbers)]
fn add_terms(terms: &[Term], numbers: &mut Vec<u32>) -> Result<(), OutOfMemory> {
    for term in terms {
        add_term(term, numbers)?;
    }
    Ok(())
}
