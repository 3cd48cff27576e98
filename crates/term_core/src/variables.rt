//! The variables of a term by first occurrence.

ghost use Rattle.std.specs.Prelude.{◌≡◌, [], IfOk, OnOk};
ghost use Rattle.term_core.specs.Tree.{trees_of};
ghost use Rattle.term_core.specs.Variables.{occurrences, occurrences_all, firsts, numbers_of};
ghost use Rattle.term_core.specs.Gathered.{gathered};

use crate::ids::VarId;
use crate::lists::Seq;
use crate::memory::OutOfMemory;
use crate::tree::{Term, TermNode, Terms};
use std::alloc::Global;

impl Term {
    /// The variables by first occurrence from the left, each once. The time is that of the
    /// occurrences times that of the variables.
    pub fn vars(&self, alloc: Global) -> Result<Seq<VarId>, OutOfMemory>
        ensures { IfOk result (λ vars. numbers_of vars ≡ firsts (occurrences self.now)) }
    {
        let mut found = Seq::new(alloc);
        gather(self, &mut found)?;
        Ok(found)
    }
}

/// Adds the variables that are not yet among those found.
#[cycle(gather)]
fn gather(term: &Term, found: &mut Seq<VarId>) -> Result<(), OutOfMemory>
    ensures { OnOk result
        (numbers_of found.new ≡ gathered (numbers_of found.old) (occurrences term.now)) }
{
    match &term.node {
        TermNode::Var(var) => {
            if !found.as_slice().contains(var) {
                found.push(*var)?;
            }
            Ok(())
        }
        TermNode::App(_, args) => gather_all(args.as_slice(), found),
    }
}

#[cycle(gather)]
fn gather_all(terms: &[Term], found: &mut Seq<VarId>) -> Result<(), OutOfMemory>
    ensures { OnOk result (numbers_of found.new ≡
        gathered (numbers_of found.old) (occurrences_all (trees_of terms.now))) }
{
    for term in terms {
        gather(term, found)?;
    }
    Ok(())
}
