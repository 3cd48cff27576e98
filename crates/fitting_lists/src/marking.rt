//! Marks for the variables that a walk along a term meets.

ghost use Rattle.std.specs.Prelude.{◌≡◌, ℕ, ◌↔◌, false, IsTrue, IfOk, replicate};
ghost use Rattle.term_core.specs.Tree.{trees_of};
ghost use Rattle.term_core.specs.Variables.{Occurs, OccursAny};
ghost use Rattle.fitting_lists.specs.Marks.{IsMarked, MarksMore};

use std::alloc::Global;
use term_core::{OutOfMemory, Term, TermNode};

/// No marks for this many variables.
pub(crate) fn no_marks(alloc: Global, count: usize) -> Result<Vec<bool>, OutOfMemory>
    ensures { IfOk result (λ marks. marks.items ≡ replicate count false) }
{
    Ok(vec![in alloc; false; count]?)
}

/// Marks the variables of the term, those for which there is a place, by their numbers.
#[cycle(mark)]
pub(crate) fn mark(term: &Term, marks: &mut [bool])
    ensures { MarksMore marks.old marks.new (λ n. Occurs n term.now) }
{
    match &term.node {
        TermNode::Var(var) => mark_variable(var.0 as usize, marks),
        TermNode::App(_, arguments) => mark_all(arguments.as_slice(), marks),
    }
}

/// Marks the variables of the terms.
#[cycle(mark)]
fn mark_all(terms: &[Term], marks: &mut [bool])
    ensures { MarksMore marks.old marks.new (λ n. OccursAny n (trees_of terms.now)) }
{
    for term in terms {
        mark(term, marks);
    }
}

fn mark_variable(number: usize, marks: &mut [bool])
    ensures { MarksMore marks.old marks.new (λ n. n ≡ number) }
{
    if number < marks.len() {
        marks[number] = true;
    }
}

/// Whether each variable has its mark.
pub(crate) fn are_marked(marks: &[bool]) -> bool
    ensures { IsTrue result ↔ ((n : ℕ) → IsMarked marks.now n) }
{
    for mark in marks {
        if !*mark {
            return false;
        }
    }
    true
}
