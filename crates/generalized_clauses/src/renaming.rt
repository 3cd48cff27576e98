//! A clause with other variables at its occurrences of variables.

use crate::copies::with_sort;
use clause_core::Clause;
use spec_core::Equation;
use std::alloc::Global;
use term_core::{OutOfMemory, Seq, SortId, Term, TermNode, Terms, VarId};

/// Variables for the occurrences of a clause, from the left, of which the first ones are put.
#[derive(Drop)]
struct Renaming<'a> {
    variables: &'a [VarId],
    put: usize,
}

/// The clause with these variables at its occurrences, from the left, and a further sort.
pub(crate) fn with_variables(
    alloc: Global,
    clause: &Clause,
    variables: &[VarId],
    sort: SortId,
) -> Result<Clause, OutOfMemory> {
    let mut renaming = Renaming { variables, put: 0 };
    let premises = renaming.equations(alloc, clause.premises.as_slice())?;
    let conclusions = renaming.equations(alloc, clause.conclusions.as_slice())?;
    Ok(Clause {
        ctx: with_sort(alloc, clause.ctx.as_slice(), sort)?,
        premises,
        conclusions,
    })
}

impl<'a> Renaming<'a> {
    /// The variable for the next occurrence, which has its own one where none is left.
    fn next(&mut self, own: VarId) -> VarId {
        let variable = match self.variables.get(self.put) {
            Some(variable) => *variable,
            None => own,
        };
        self.put = self.put.saturating_add(1);
        variable
    }

    fn equations(
        &mut self,
        alloc: Global,
        equations: &[Equation],
    ) -> Result<Seq<Equation>, OutOfMemory> {
        let mut made = Vec::with_capacity(alloc, equations.len())?;
        for equation in equations {
            let left = self.term(alloc, &equation.left)?;
            let right = self.term(alloc, &equation.right)?;
            made.push(Equation { left, right })?;
        }
        Ok(Seq::from_vec(made))
    }

    #[cycle(renaming)]
    fn term(&mut self, alloc: Global, term: &Term) -> Result<Term, OutOfMemory> {
        match &term.node {
            TermNode::Var(own) => Ok(Term::var(self.next(*own))),
            TermNode::App(sym, args) => {
                let args = self.terms(alloc, args.as_slice())?;
                Ok(Term::app(*sym, args))
            }
        }
    }

    #[cycle(renaming)]
    fn terms(&mut self, alloc: Global, terms: &[Term]) -> Result<Terms, OutOfMemory> {
        let mut made = Terms::with_capacity(alloc, terms.len())?;
        for term in terms {
            made.push(self.term(alloc, term)?)?;
        }
        Ok(made)
    }
}
