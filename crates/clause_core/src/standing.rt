//! One walk of a clause for its size, its depth and its numbering.

ghost use Rattle.std.specs.Prelude.{◌≡◌, ◌+◌, ◌≤◌, ◌↔◌, IsTrue, MatchOption};
ghost use Rattle.term_core.specs.Tree.{trees_of, tree_size, sizes, tree_depth, depths};
ghost use Rattle.term_core.specs.Variables.{occurrences, occurrences_all};
ghost use Rattle.clause_core.specs.Clauses.{sides_of};
ghost use Rattle.clause_core.specs.Limits.{IsWithin};
ghost use Rattle.clause_core.specs.Tidied.{IsTidied};
ghost use Rattle.clause_core.specs.Taken.{taken_with, taken_after};

use crate::clauses::Clause;
use crate::limits::{MOST_EQUATIONS, MOST_LEVELS, MOST_SYMBOLS};
use spec_core::Equation;
use term_core::Term;

/// What a walk over the terms of a clause keeps: the number of symbols that it may still meet, and
/// how many numbers the variables take, if each was met in its turn.
#[derive(Drop)]
struct Walk {
    room: u32,
    taken: Option<u64>,
}

/// Whether the clause is tidied, or None if it passes the limits of a clause in a proof. Each
/// side is walked once, and not past the limits.
pub(crate) fn is_tidied_within(clause: &Clause) -> Option<bool>
    ensures { MatchOption result (IsWithin clause.now → ⊥)
        (λ is_tidied. IsWithin clause.now × (IsTrue is_tidied ↔ IsTidied clause.now)) }
{
    let premises = clause.premises.as_slice();
    let conclusions = clause.conclusions.as_slice();
    if premises.len() > MOST_EQUATIONS || conclusions.len() > MOST_EQUATIONS - premises.len() {
        return None;
    }
    let mut walk = Walk {
        room: MOST_SYMBOLS,
        taken: Some(0),
    };
    if !walk_sides(premises, &mut walk) || !walk_sides(conclusions, &mut walk) {
        return None;
    }
    Some(walk.taken == Some(clause.ctx.len() as u64))
}

/// Whether the sides are within the limits. If they are, they have been walked.
fn walk_sides(equations: &[Equation], walk: &mut Walk) -> bool
    requires { walk.old.room ≤ 4000 }
    ensures fits { IsTrue result ↔ ((sizes (trees_of (sides_of equations.now)) ≤ walk.old.room)
        × (depths (trees_of (sides_of equations.now)) ≤ 100)) }
    ensures room { IsTrue result →
        walk.new.room + sizes (trees_of (sides_of equations.now)) ≡ walk.old.room }
    ensures taken { IsTrue result → walk.new.taken ≡
        taken_after walk.old.taken (occurrences_all (trees_of (sides_of equations.now))) }
{
    match equations {
        [] => true,
        [first, others @ ..] => {
            walk_term(&first.left, walk)
                && walk_term(&first.right, walk)
                && walk_sides(others, walk)
        }
    }
}

/// Whether the term has no more symbols than may still be met, and is within the limit of depth.
/// If that is so, it is counted.
fn walk_term(term: &Term, walk: &mut Walk) -> bool
    requires { walk.old.room ≤ 4000 }
    ensures fits { IsTrue result ↔
        ((tree_size term.now ≤ walk.old.room) × (tree_depth term.now ≤ 100)) }
    ensures room { IsTrue result → walk.new.room + tree_size term.now ≡ walk.old.room }
    ensures taken { IsTrue result →
        walk.new.taken ≡ taken_after walk.old.taken (occurrences term.now) }
{
    let size = term.size(MOST_SYMBOLS + 1);
    if size > walk.room || term.depth(MOST_LEVELS + 1) > MOST_LEVELS {
        return false;
    }
    walk.room -= size;
    walk.taken = taken_with_term(walk.taken, term);
    true
}

/// How many numbers are taken with the variables of this term and those taken before it.
fn taken_with_term(taken: Option<u64>, term: &Term) -> Option<u64>
    ensures { result ≡ taken_after taken (occurrences term.now) }
{
    term.numbered_after(taken?)
}
